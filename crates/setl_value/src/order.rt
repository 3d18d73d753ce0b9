//! The canonical order: kinds in the order boolean, integer, string, atom, tuple, set; `false` before `true`, integers
//! by size, strings by their bytes, atoms by number, tuples component by component with `om` the least, sets as their
//! rising lists. A proper prefix comes first.

ghost use Rattle.std.specs.Prelude.{◌≡◌, refl, IfSome};
ghost use Rattle.std.specs.Cmp.{partial_equiv_from_equiv, on_equiv, on_total, eq_by_cmp_equiv, partial_order_from_agreeing_total};
ghost use Rattle.std.specs.Cmp.Lexicographic.{slice_cmp};
ghost use Rattle.std.specs.Option.{option_cmp};
ghost use Rattle.std.specs.Ordering.{on, eq_by_cmp, as_partial_cmp, is_lt};
ghost use Rattle.setl_value.specs.code.Body.{Members};
ghost use Rattle.setl_value.specs.Datum.{tuple_of};
ghost use Rattle.setl_value.specs.code.DatumOf.{datum, part};
ghost use Rattle.setl_value.specs.Order.{datum_cmp, kind_of};
ghost use Rattle.setl_value.specs.OrderLaws.{datum_cmp_total};
ghost use Rattle.setl_value.specs.code.Places.{point};

use crate::{SetBody, TupleBody, Value};
use std::cmp::Ordering;

impl Value {
    /// How two values stand in the canonical order. It is `Equal` of equal values alone.
    #[cycle(comparing)]
    #[inline(always)]
    pub fn compare(&self, other: &Value) -> Ordering
        ensures { result ≡ datum_cmp (datum self.now) (datum other.now) }
    {
        match (self, other) {
            (Value::Int(a), Value::Int(b)) => a.cmp(b),
            (Value::Tuple(a), Value::Tuple(b)) => a.compare(b),
            _ => self.compare_any(other),
        }
    }

    // As `compare`, which has integers and tuples inline.
    #[cycle(comparing)]
    #[inline(never)]
    fn compare_any(&self, other: &Value) -> Ordering
        ensures { result ≡ datum_cmp (datum self.now) (datum other.now) }
    {
        match (self, other) {
            (Value::Bool(a), Value::Bool(b)) => a.cmp(b),
            (Value::Int(a), Value::Int(b)) => a.cmp(b),
            (Value::Text(a), Value::Text(b)) => a.bytes().cmp(b.bytes()),
            (Value::Atom(a), Value::Atom(b)) => a.cmp(b),
            (Value::Tuple(a), Value::Tuple(b)) => a.compare(b),
            (Value::Set(a), Value::Set(b)) => a.compare(b),
            _ => self.kind().cmp(&other.kind()),
        }
    }

    // Whether the value is below the tuple of `x` alone, as all pairs are whose first part is below `x`.
    pub(crate) fn is_below_point(&self, x: &Value) -> bool
        ensures { result ≡ is_lt (datum_cmp (datum self.now) (point (datum x.now))) }
    {
        match self {
            Value::Tuple(t) => starts_below(t, x),
            _ => self.kind() < 4,
        }
    }

    fn kind(&self) -> u8
        ensures { result ≡ kind_of (datum self.now) }
    {
        match self {
            Value::Bool(_) => 0,
            Value::Int(_) => 1,
            Value::Text(_) => 2,
            Value::Atom(_) => 3,
            Value::Tuple(_) => 4,
            Value::Set(_) => 5,
        }
    }
}

impl TupleBody {
    /// How two tuples stand in the canonical order.
    #[cycle(comparing)]
    #[inline]
    pub fn compare(&self, other: &TupleBody) -> Ordering
        ensures { result ≡ slice_cmp (option_cmp datum_cmp) self.now other.now }
    {
        match self.compare_leads(other) {
            Some(unequal) => unequal,
            None => self.compare_lists(other),
        }
    }

    // How two tuples stand where they keep unlike first components, and None elsewhere.
    #[inline(always)]
    fn compare_leads(&self, other: &TupleBody) -> Option<Ordering>
        ensures { IfSome result (λ o. o ≡ slice_cmp (option_cmp datum_cmp) self.now other.now) }
    {
        let a = self.lead()?;
        let b = other.lead()?;
        if a == b { None } else { Some(a.cmp(&b)) }
    }

    // As `compare`, which comes here where what the tuples keep beside their lists doesn't decide.
    #[cycle(comparing)]
    #[inline(never)]
    fn compare_lists(&self, other: &TupleBody) -> Ordering
        ensures { result ≡ slice_cmp (option_cmp datum_cmp) self.now other.now }
    {
        let parts = &self.parts[self.start..];
        let others = &other.parts[other.start..];
        let shared = parts.len().min(others.len());
        for i in 0..shared {
            match compare_integers(&parts[i], &others[i]) {
                Some(Ordering::Equal) => {}
                Some(unequal) => return unequal,
                None => return self.compare_any(other),
            }
        }
        parts.len().cmp(&others.len())
    }

    // As `compare_lists`, which comes here at the first components that aren't both integers.
    #[cycle(comparing)]
    #[inline(never)]
    fn compare_any(&self, other: &TupleBody) -> Ordering
        ensures { result ≡ slice_cmp (option_cmp datum_cmp) self.now other.now }
    {
        let parts = &self.parts[self.start..];
        let others = &other.parts[other.start..];
        let shared = parts.len().min(others.len());
        for i in 0..shared {
            match compare_parts(&parts[i], &others[i]) {
                Ordering::Equal => {}
                unequal => return unequal,
            }
        }
        parts.len().cmp(&others.len())
    }
}

// How two integers stand, and None where not both components are integers.
#[inline(always)]
fn compare_integers(a: &Option<Value>, b: &Option<Value>) -> Option<Ordering>
    ensures { IfSome result (λ o. o ≡ option_cmp datum_cmp (part a.now) (part b.now)) }
{
    match (a, b) {
        (Some(Value::Int(x)), Some(Value::Int(y))) => Some(x.cmp(y)),
        _ => None,
    }
}

impl SetBody {
    /// How two sets stand in the canonical order.
    #[cycle(comparing)]
    #[inline(never)]
    pub fn compare(&self, other: &SetBody) -> Ordering
        ensures { result ≡ slice_cmp datum_cmp (Members self.now) (Members other.now) }
    {
        let mut others = other.members();
        for v in self.members() {
            let Some(w) = others.next() else {
                return Ordering::Greater;
            };
            match v.compare(w) {
                Ordering::Equal => {}
                unequal => return unequal,
            }
        }
        match others.next() {
            Some(_) => Ordering::Less,
            None => Ordering::Equal,
        }
    }
}

#[cycle(comparing)]
fn compare_parts(a: &Option<Value>, b: &Option<Value>) -> Ordering
    ensures { result ≡ option_cmp datum_cmp (part a.now) (part b.now) }
{
    match (a, b) {
        (None, None) => Ordering::Equal,
        (None, Some(_)) => Ordering::Less,
        (Some(_), None) => Ordering::Greater,
        (Some(x), Some(y)) => x.compare(y),
    }
}

// Whether a tuple is below that of `x` alone.
fn starts_below(t: &TupleBody, x: &Value) -> bool
    ensures { result ≡ is_lt (datum_cmp (tuple_of t.now) (point (datum x.now))) }
{
    match (t.lead(), x) {
        (Some(n), Value::Int(z)) => i128::from(n) < *z,
        _ => match t.at(0) {
            Some(v) => v.compare(x).is_lt(),
            None => true,
        },
    }
}

impl PartialEq for Value {
    ghost eq = { on datum (eq_by_cmp datum_cmp) };

    ghost laws = { partial_equiv_from_equiv (on_equiv datum (eq_by_cmp_equiv datum_cmp_total)) };

    fn eq(&self, other: &Value) -> bool {
        self.compare(other).is_eq()
    }
}

impl Eq for Value {
    ghost laws = { on_equiv datum (eq_by_cmp_equiv datum_cmp_total) };
}

impl PartialOrd for Value {
    ghost partial_cmp = { as_partial_cmp (on datum datum_cmp) };

    ghost laws = { partial_order_from_agreeing_total (on datum datum_cmp) (on_total datum datum_cmp_total) (λ x y. refl) (λ x y. refl) };

    fn partial_cmp(&self, other: &Value) -> Option<Ordering> {
        Some(self.compare(other))
    }
}

impl Ord for Value {
    ghost cmp = { on datum datum_cmp };

    ghost total = { on_total datum datum_cmp_total };

    ghost matches_partial_cmp = { λ x y. refl };

    ghost matches_eq = { λ x y. refl };

    fn cmp(&self, other: &Value) -> Ordering {
        self.compare(other)
    }
}
