//! A value comes into a set, or goes out of it.

ghost use Rattle.std.specs.Prelude.{◌≡◌, ◌≤◌, ℕ, nat_lt, ◌&&◌, IfOk, OnOk, OnErr, Some, [], ◌∷◌};
ghost use Rattle.setl_value.specs.Datum.{Datum, depth, part_depth};
ghost use Rattle.setl_value.specs.code.DatumOf.{datum};
ghost use Rattle.setl_modes.specs.Fits.{datum_fits};
ghost use Rattle.setl_modes.specs.declared.mode.Form.{Form as Attribute};
ghost use Rattle.setl_modes.specs.Modes.{mode_of, Mode as ModeState, Sets};
ghost use Rattle.setl_operators_table.specs.declared.Operator.TheVariants.{Less, With};
ghost use Rattle.setl_operators_table.specs.Operators.{op_of};
ghost use Rattle.setl_operators_table.specs.Outcome.{Gives};
ghost use Rattle.setl_base.specs.Base.{find};
ghost use Rattle.setl_rep_bases.specs.Bases.{base_at, named};
ghost use Rattle.setl_rep_forms.specs.FormOf.{form};
ghost use Rattle.setl_rep_forms.specs.Stands.{stands, IsOver};
ghost use Rattle.setl_rep_kernels.specs.Kernels.{is_numbered, IsAlike};
ghost use Rattle.setl_rep_building.specs.HasForm.{base_of};
ghost use Rattle.setl_rep_updates.specs.InForm.{IsInForm};
ghost use Rattle.setl_rep_updates.specs.Updates.{includes, includes_one, IsUpdate};
ghost use Rattle.setl_rep_updates.specs.code.Entered.{HasNumbersOf, IsElementOn, IsPutIn};

use setl_base::Elt;
use setl_modes::Mode;
use setl_modes_fit::fits;
use setl_rep_bases::{BaseId, Bases};
use setl_rep_forms::Held;
use setl_rep_kernels::change;
use setl_value::Value;
use std::alloc::AllocError;

/// `s with x`, in place: a set on a base that is held as numbers takes a value in, which is entered into its base first.
///
/// Ok(false) comes where the set isn't held so, the value doesn't fit the mode of its members, or it is 500 deep. After that,
/// and after want of memory, which is the error, the set and the bases are as before. Nothing is charged. Where nobody else
/// holds the set, the cost is near linear in the size of `x` alone.
pub fn include(
    mode: &Mode,
    s: &mut Held,
    x: &Value,
    bases: &mut Bases,
    instance: u64,
) -> Result<bool, AllocError>
    requires { IsInForm bases.old instance (mode_of mode.now) (form s.old) }
    ensures kernel { IfOk result (λ t. t ≡ includes (mode_of mode.now) (form s.old) (datum x.now)) }
    ensures update { IsUpdate (mode_of mode.now) instance (op_of With (stands bases.old (form s.old) ∷ Some (datum x.now) ∷ [])) bases.old bases.new (form s.old) (form s.new) result }
{
    match mode {
        Mode::Set(_, m) => include_in(m.get(), s, x, bases, instance),
        _ => Ok(false),
    }
}

// The same for a set of members of this mode.
fn include_in(
    m: &Mode,
    s: &mut Held,
    x: &Value,
    bases: &mut Bases,
    instance: u64,
) -> Result<bool, AllocError>
    requires { (a : Attribute) × IsInForm bases.old instance (Sets a (mode_of m.now)) (form s.old) }
    ensures kernel { IfOk result (λ t. t ≡ includes_one (mode_of m.now) (form s.old) (datum x.now)) }
    ensures update { (a : Attribute) → IsInForm bases.old instance (Sets a (mode_of m.now)) (form s.old) → IsUpdate (Sets a (mode_of m.now)) instance (op_of With (stands bases.old (form s.old) ∷ Some (datum x.now) ∷ [])) bases.old bases.new (form s.old) (form s.new) result }
{
    setl_set::laws::operations_have_their_members();
    setl_rep_forms::laws::forms_stay();
    setl_rep_entering::laws::places_are_members();
    setl_rep_entering::laws::parts_lengthen_alike();
    crate::laws::forms_of_modes_stay();
    let Some(b) = base_of(m) else {
        return Ok(false);
    };
    if !takes(m, s, x)? {
        return Ok(false);
    }
    x.learn();
    let i = bases.named(instance, b);
    put_in(i, s, x, bases)?;
    Ok(true)
}

// The base on which values of a mode are elements.
fn base_of(mode: &Mode) -> Option<u32>
    ensures { result ≡ base_of (mode_of mode.now) }
{
    match mode {
        Mode::Elmt(b, _) => Some(*b),
        _ => None,
    }
}

// Whether a value is taken into a set of elements of this mode. An error is want of memory.
fn takes(m: &Mode, s: &Held, x: &Value) -> Result<bool, AllocError>
    ensures { IfOk result (λ t. t ≡ (is_numbered (form s.now) && (nat_lt (depth (datum x.now)) 500 && datum_fits (mode_of m.now) (datum x.now)))) }
{
    if is_numbered(s) && x.depth() < 500 {
        return Ok(fits(m, &Some(x.copy()?)));
    }
    Ok(false)
}

// Whether a set is held as numbers.
fn is_numbered(s: &Held) -> bool
    ensures { result ≡ is_numbered (form s.now) }
{
    match s {
        Held::Remote(_, _) | Held::Sparse(_, _) => true,
        _ => false,
    }
}

// Enters a value into a base, where it is no member yet, and puts it into a set of numbers of that base. After an error, which is
// want of memory, the bases and the set are as before.
fn put_in(b: BaseId, s: &mut Held, x: &Value, bases: &mut Bases) -> Result<(), AllocError>
    requires numbers { HasNumbersOf b (form s.old) }
    requires over { IsOver bases.old (form s.old) }
    requires shallow { part_depth (stands bases.old (form s.old)) ≤ 500 }
    ensures put { OnOk result ((m : ModeState) (n : ℕ) → IsElementOn (named bases.old n) b m → IsPutIn m n (datum x.now) bases.old bases.new (form s.old) (form s.new)) }
    ensures refused { OnErr result ((bases.new ≡ bases.old) × (form s.new ≡ form s.old)) }
{
    setl_rep_entering::laws::places_are_members();
    if let Some(e) = bases.at(b).find(x) {
        return put_member(s, b, e, bases);
    }
    enter_and_put(b, s, x, bases)
}

// The same for a value that may be no member yet.
fn enter_and_put(b: BaseId, s: &mut Held, x: &Value, bases: &mut Bases) -> Result<(), AllocError>
    requires numbers { HasNumbersOf b (form s.old) }
    requires over { IsOver bases.old (form s.old) }
    requires shallow { part_depth (stands bases.old (form s.old)) ≤ 500 }
    ensures put { OnOk result ((m : ModeState) (n : ℕ) → IsElementOn (named bases.old n) b m → IsPutIn m n (datum x.now) bases.old bases.new (form s.old) (form s.new)) }
    ensures refused { OnErr result ((bases.new ≡ bases.old) × (form s.new ≡ form s.old)) }
{
    setl_rep_forms::laws::forms_stay();
    setl_rep_entering::laws::elements_are_entered();
    let mark = bases.at(b).mark();
    let e = bases.enter(b, x.copy()?)?;
    match put_member(s, b, e, bases) {
        Ok(()) => Ok(()),
        Err(refused) => {
            bases.undo(b, &mark);
            Err(refused)
        }
    }
}

// Puts a member of its base, which has this handle, into a set of numbers. After an error, which is want of memory or that the
// value is 500 deep, the set is as before.
fn put_member(s: &mut Held, b: BaseId, e: Elt, bases: &Bases) -> Result<(), AllocError>
    requires numbers { HasNumbersOf b (form s.old) }
    requires over { IsOver bases.now (form s.old) }
    requires shallow { part_depth (stands bases.now (form s.old)) ≤ 500 }
    requires found { (d : Datum) × (find (base_at bases.now b) d ≡ Some e) }
    ensures value { OnOk result ((d : Datum) (left : ℕ) → find (base_at bases.now b) d ≡ Some e → op_of With (stands bases.now (form s.old) ∷ Some d ∷ []) left ≡ Gives (stands bases.now (form s.new)) 0) }
    ensures over { IsOver bases.now (form s.new) }
    ensures shallow { part_depth (stands bases.now (form s.new)) ≤ 500 }
    ensures alike { IsAlike (form s.old) (form s.new) }
    ensures refused { OnErr result (form s.new ≡ form s.old) }
{
    let x = Held::Elt(b, e);
    match change(s, &x, true, bases) {
        Ok(_) => Ok(()),
        Err(_) => Err(AllocError),
    }
}

/// `s less x`, in place: a set that is held as numbers loses a value.
///
/// Ok(false) comes where the set isn't held so. After that, and after want of memory, which is the error, the set is as before.
/// Nothing is charged, and no base changes. Where nobody else holds the set, the cost is near linear in the size of `x` alone.
pub fn exclude(s: &mut Held, x: &Value, bases: &Bases) -> Result<bool, AllocError>
    requires over { IsOver bases.now (form s.old) }
    requires shallow { part_depth (stands bases.now (form s.old)) ≤ 500 }
    ensures kernel { IfOk result (λ t. t ≡ is_numbered (form s.old)) }
    ensures update { (m : ModeState) (n : ℕ) → IsInForm bases.now n m (form s.old) → IsUpdate m n (op_of Less (stands bases.now (form s.old) ∷ Some (datum x.now) ∷ [])) bases.now bases.now (form s.old) (form s.new) result }
{
    setl_modes_parts::parts_decide();
    setl_rep_entering::laws::parts_lengthen_alike();
    let own = x.copy()?;
    let e = Held::Plain(own);
    match change(s, &e, false, bases) {
        Ok(done) => Ok(done),
        Err(_) => Err(AllocError),
    }
}
