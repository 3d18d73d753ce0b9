//! Flows by how many constructors can stand inside one another.

ghost use Rattle.std.specs.Prelude.{◌≡◌, ℕ, zero, suc};
ghost use Rattle.setl_advise_flows.specs.Flow.{Flow, Nothing, Scalar, Set, Tuple, Map, is_kind, capped, scalars, joined, joined_by, set_with_map};
ghost use Rattle.setl_advise_lattice.specs.Same.{is_flow};
ghost use Rattle.setl_advise_lattice.specs.code.Levels.{kind_of, flat_flow, level_flow};
ghost use Rattle.setl_advise_lattice.specs.code.Within.{within_flat, within_level};

/// A kind of scalars: integers, strings, booleans or atoms.
#[derive(Clone, Copy, Debug, PartialEq, Eq)]
pub enum Kind {
    Whole,
    Letters,
    Truth,
    Token,
}

impl Kind {
    /// Whether two kinds are one.
    pub fn is(self, other: Kind) -> bool
        ensures { result ≡ is_kind (kind_of self) (kind_of other) }
    {
        match self {
            Kind::Whole => matches!(other, Kind::Whole),
            Kind::Letters => matches!(other, Kind::Letters),
            Kind::Truth => matches!(other, Kind::Truth),
            Kind::Token => matches!(other, Kind::Token),
        }
    }
}

/// A flow without a constructor.
#[derive(Clone, Copy, Debug)]
pub enum Flat {
    /// No value.
    Nothing,
    /// The scalars of a kind.
    Scalar(Kind),
    /// All values.
    Any,
}

/// A flow with one constructor at most, over flows of its parts.
#[derive(Clone, Copy, Debug)]
pub enum Level<P> {
    /// No value.
    Nothing,
    /// The scalars of a kind.
    Scalar(Kind),
    /// Sets by the flow of their members.
    Set(P),
    /// Tuples by the flow of their components.
    Tuple(P),
    /// Maps by the flows of their arguments and of their images.
    Map(P, P),
    /// All values.
    Any,
}

/// Flows of some number of constructors inside one another.
pub trait Part: Copy {
    ghost places: { ℕ };

    ghost flow: { Self → Flow };

    /// The flow that has the values of both, and few others.
    fn join(self, other: Self) -> Self
        ensures { flow result ≡ joined places (flow self) (flow other) };

    /// Whether two flows are one.
    fn is(self, other: Self) -> bool
        ensures { result ≡ is_flow (flow self) (flow other) };

    /// A flow with one constructor more, where the innermost has no place and is all values.
    fn narrow(wide: Level<Self>) -> Self
        ensures { flow result ≡ capped places (level_flow flow wide) };

    /// The same flow.
    fn widen(self) -> Level<Self>
        ensures { level_flow flow result ≡ flow self };

    ghost within: { (f : Self) → capped places (flow f) ≡ flow f };
}

/// Of two kinds of scalars.
fn flat_scalars(k: Kind, l: Kind) -> Flat
    ensures { flat_flow result ≡ scalars (kind_of k) (kind_of l) }
{
    if k.is(l) { Flat::Scalar(k) } else { Flat::Any }
}

impl Part for Flat {
    ghost places = { 0 };

    ghost flow = { flat_flow };

    ghost within = { within_flat };

    fn join(self, other: Flat) -> Flat {
        match self {
            Flat::Nothing => other,
            Flat::Scalar(k) => match other {
                Flat::Nothing => self,
                Flat::Scalar(l) => flat_scalars(k, l),
                Flat::Any => Flat::Any,
            },
            Flat::Any => Flat::Any,
        }
    }

    fn is(self, other: Flat) -> bool {
        match self {
            Flat::Nothing => matches!(other, Flat::Nothing),
            Flat::Scalar(k) => match other {
                Flat::Scalar(l) => k.is(l),
                Flat::Nothing | Flat::Any => false,
            },
            Flat::Any => matches!(other, Flat::Any),
        }
    }

    fn narrow(wide: Level<Flat>) -> Flat
        ensures { flat_flow result ≡ capped 0 (level_flow flat_flow wide) }
    {
        match wide {
            Level::Nothing => Flat::Nothing,
            Level::Scalar(k) => Flat::Scalar(k),
            Level::Set(_) => Flat::Any,
            Level::Tuple(_) => Flat::Any,
            Level::Map(_, _) => Flat::Any,
            Level::Any => Flat::Any,
        }
    }

    fn widen(self) -> Level<Flat> {
        match self {
            Flat::Nothing => Level::Nothing,
            Flat::Scalar(k) => Level::Scalar(k),
            Flat::Any => Level::Any,
        }
    }
}

/// Of two kinds of scalars.
fn level_scalars<P: Part>(k: Kind, l: Kind) -> Level<P>
    ensures { level_flow P.flow result ≡ scalars (kind_of k) (kind_of l) }
{
    if k.is(l) {
        Level::Scalar(k)
    } else {
        Level::Any
    }
}

/// The join of the scalars of a kind with a flow.
fn scalar_with<P: Part>(k: Kind, other: Level<P>) -> Level<P>
    ensures { level_flow P.flow result ≡ joined (suc P.places) (Scalar (kind_of k)) (level_flow P.flow other) }
{
    match other {
        Level::Nothing => Level::Scalar(k),
        Level::Scalar(l) => level_scalars::<P>(k, l),
        Level::Set(_) => Level::Any,
        Level::Tuple(_) => Level::Any,
        Level::Map(_, _) => Level::Any,
        Level::Any => Level::Any,
    }
}

/// Whether a flow has no value.
fn is_nothing<P: Part>(f: P) -> bool
    ensures { result ≡ is_flow (P.flow f) Nothing }
{
    matches!(f.widen(), Level::Nothing)
}

/// The join of a set with a map.
fn set_or_map<P: Part>(f: P, g: P, h: P) -> Level<P>
    ensures { level_flow P.flow result ≡ set_with_map P.places (joined P.places) (P.flow f) (P.flow g) (P.flow h) }
{
    if is_nothing(f) {
        Level::Map(g, h)
    } else {
        let pairs = P::narrow(Level::Tuple(g.join(h)));
        Level::Set(pairs.join(f))
    }
}

/// The join of a set with a flow.
fn set_with<P: Part>(f: P, other: Level<P>) -> Level<P>
    ensures { level_flow P.flow result ≡ joined (suc P.places) (Set (P.flow f)) (level_flow P.flow other) }
{
    match other {
        Level::Nothing => Level::Set(f),
        Level::Scalar(_) => Level::Any,
        Level::Set(g) => Level::Set(f.join(g)),
        Level::Tuple(_) => Level::Any,
        Level::Map(g, h) => set_or_map(f, g, h),
        Level::Any => Level::Any,
    }
}

/// The join of a tuple with a flow.
fn tuple_with<P: Part>(f: P, other: Level<P>) -> Level<P>
    ensures { level_flow P.flow result ≡ joined (suc P.places) (Tuple (P.flow f)) (level_flow P.flow other) }
{
    match other {
        Level::Nothing => Level::Tuple(f),
        Level::Scalar(_) => Level::Any,
        Level::Set(_) => Level::Any,
        Level::Tuple(g) => Level::Tuple(f.join(g)),
        Level::Map(_, _) => Level::Any,
        Level::Any => Level::Any,
    }
}

/// The join of a map with a flow.
fn map_with<P: Part>(f: P, g: P, other: Level<P>) -> Level<P>
    ensures { level_flow P.flow result ≡ joined (suc P.places) (Map (P.flow f) (P.flow g)) (level_flow P.flow other) }
{
    match other {
        Level::Nothing => Level::Map(f, g),
        Level::Scalar(_) => Level::Any,
        Level::Set(h) => set_or_map(h, f, g),
        Level::Tuple(_) => Level::Any,
        Level::Map(h, k) => Level::Map(f.join(h), g.join(k)),
        Level::Any => Level::Any,
    }
}

impl<P: Part> Part for Level<P> {
    ghost places = { suc P.places };

    ghost flow = { level_flow P.flow };

    ghost within = { within_level P.places P.flow P.within };

    fn join(self, other: Level<P>) -> Level<P> {
        match self {
            Level::Nothing => other,
            Level::Scalar(k) => scalar_with(k, other),
            Level::Set(f) => set_with(f, other),
            Level::Tuple(f) => tuple_with(f, other),
            Level::Map(f, g) => map_with(f, g, other),
            Level::Any => Level::Any,
        }
    }

    fn is(self, other: Level<P>) -> bool {
        match self {
            Level::Nothing => matches!(other, Level::Nothing),
            Level::Scalar(k) => match other {
                Level::Scalar(l) => k.is(l),
                _ => false,
            },
            Level::Set(f) => match other {
                Level::Set(g) => f.is(g),
                _ => false,
            },
            Level::Tuple(f) => match other {
                Level::Tuple(g) => f.is(g),
                _ => false,
            },
            Level::Map(f, g) => match other {
                Level::Map(h, k) => f.is(h) && g.is(k),
                _ => false,
            },
            Level::Any => matches!(other, Level::Any),
        }
    }

    fn narrow(wide: Level<Level<P>>) -> Level<P>
        ensures { level_flow P.flow result ≡ capped (suc P.places) (level_flow (level_flow P.flow) wide) }
    {
        match wide {
            Level::Nothing => Level::Nothing,
            Level::Scalar(k) => Level::Scalar(k),
            Level::Set(f) => Level::Set(P::narrow(f)),
            Level::Tuple(f) => Level::Tuple(P::narrow(f)),
            Level::Map(f, g) => Level::Map(P::narrow(f), P::narrow(g)),
            Level::Any => Level::Any,
        }
    }

    fn widen(self) -> Level<Level<P>> {
        match self {
            Level::Nothing => Level::Nothing,
            Level::Scalar(k) => Level::Scalar(k),
            Level::Set(f) => Level::Set(f.widen()),
            Level::Tuple(f) => Level::Tuple(f.widen()),
            Level::Map(f, g) => Level::Map(f.widen(), g.widen()),
            Level::Any => Level::Any,
        }
    }
}
