//! Flows of at most three constructors inside one another, and those of their parts.

ghost use Rattle.std.specs.Prelude.{◌≡◌, true, false};
ghost use Rattle.setl_advise_flows.specs.Flow as plain;
ghost use Rattle.setl_advise_flows.specs.Operators as operators;
ghost use Rattle.setl_advise_flows.specs.Expressions as expressions;
ghost use Rattle.setl_advise_lattice.specs.code.Levels.{flow_of, middle_flow};

use crate::level::{Flat, Kind, Level, Part};

type Low = Level<Flat>;

type Middle = Level<Low>;

/// A flow: what values a variable or an expression can have.
pub type Flow = Level<Middle>;

/// The flow that has the values of both.
pub fn join(f: Flow, g: Flow) -> Flow
    ensures { flow_of result ≡ plain.join (flow_of f) (flow_of g) }
{
    f.join(g)
}

/// Whether two flows are one.
pub fn is(f: Flow, g: Flow) -> bool
    ensures same { result ≡ true → flow_of f ≡ flow_of g }
    ensures other { result ≡ false → flow_of f ≡ flow_of g → ⊥ }
{
    f.is(g)
}

/// The sets of members of a flow.
pub fn set_flow(f: Flow) -> Flow
    ensures { flow_of result ≡ plain.set_flow (flow_of f) }
{
    Level::Set(Middle::narrow(f))
}

/// The tuples of components of a flow.
pub fn tuple_flow(f: Flow) -> Flow
    ensures { flow_of result ≡ plain.tuple_flow (flow_of f) }
{
    Level::Tuple(Middle::narrow(f))
}

/// The maps from one flow to another.
pub fn map_flow(f: Flow, g: Flow) -> Flow
    ensures { flow_of result ≡ plain.map_flow (flow_of f) (flow_of g) }
{
    Level::Map(Middle::narrow(f), Middle::narrow(g))
}

/// The pairs of a map, as tuples.
fn pairs_flow(f: Middle, g: Middle) -> Flow
    ensures { flow_of result ≡ plain.tuple_flow (plain.join (middle_flow f) (middle_flow g)) }
{
    tuple_flow(join(f.widen(), g.widen()))
}

/// The members, or the components.
pub fn el(f: Flow) -> Flow
    ensures { flow_of result ≡ operators.el (flow_of f) }
{
    match f {
        Level::Nothing => Level::Nothing,
        Level::Scalar(Kind::Letters) => Level::Scalar(Kind::Letters),
        Level::Scalar(_) => Level::Any,
        Level::Set(h) => h.widen(),
        Level::Tuple(h) => h.widen(),
        Level::Map(g, h) => pairs_flow(g, h),
        Level::Any => Level::Any,
    }
}

/// The components of a tuple.
pub fn part(f: Flow) -> Flow
    ensures { flow_of result ≡ operators.part (flow_of f) }
{
    match f {
        Level::Nothing => Level::Nothing,
        Level::Scalar(_) => Level::Any,
        Level::Set(_) => Level::Any,
        Level::Tuple(h) => h.widen(),
        Level::Map(_, _) => Level::Any,
        Level::Any => Level::Any,
    }
}

/// The values at an argument, of what sets of members of a flow are.
fn get_from_set(h: Middle) -> Flow
    ensures { flow_of result ≡ operators.get_flow (plain.Set (middle_flow h)) }
{
    match h {
        Level::Nothing => Level::Nothing,
        Level::Scalar(_) => Level::Any,
        Level::Set(_) => Level::Any,
        Level::Tuple(m) => m.widen().widen(),
        Level::Map(_, _) => Level::Any,
        Level::Any => Level::Any,
    }
}

/// The values at an argument.
pub fn get_flow(f: Flow) -> Flow
    ensures { flow_of result ≡ operators.get_flow (flow_of f) }
{
    match f {
        Level::Nothing => Level::Nothing,
        Level::Scalar(Kind::Letters) => Level::Scalar(Kind::Letters),
        Level::Scalar(_) => Level::Any,
        Level::Set(h) => get_from_set(h),
        Level::Tuple(h) => h.widen(),
        Level::Map(_, g) => g.widen(),
        Level::Any => Level::Any,
    }
}

/// The sets of values at an argument, of what sets of members of a flow are.
fn images_from_set(h: Middle) -> Flow
    ensures { flow_of result ≡ operators.images_flow (plain.Set (middle_flow h)) }
{
    match h {
        Level::Nothing => Level::Set(Level::Nothing),
        Level::Scalar(_) => Level::Any,
        Level::Set(_) => Level::Any,
        Level::Tuple(m) => set_flow(m.widen().widen()),
        Level::Map(_, _) => Level::Any,
        Level::Any => Level::Any,
    }
}

/// The sets of values at an argument; also the range.
pub fn images_flow(f: Flow) -> Flow
    ensures { flow_of result ≡ operators.images_flow (flow_of f) }
{
    match f {
        Level::Nothing => Level::Nothing,
        Level::Scalar(_) => Level::Any,
        Level::Set(h) => images_from_set(h),
        Level::Tuple(_) => Level::Any,
        Level::Map(_, g) => set_flow(g.widen()),
        Level::Any => Level::Any,
    }
}

/// The sets of arguments.
pub fn domain_flow(f: Flow) -> Flow
    ensures { flow_of result ≡ operators.domain_flow (flow_of f) }
{
    match f {
        Level::Map(g, _) => set_flow(g.widen()),
        Level::Nothing => images_flow(f),
        Level::Scalar(_) => images_flow(f),
        Level::Set(_) => images_flow(f),
        Level::Tuple(_) => images_flow(f),
        Level::Any => images_flow(f),
    }
}

/// The arguments that an iterator over points binds.
pub fn argument_flow(f: Flow) -> Flow
    ensures { flow_of result ≡ expressions.argument_flow (flow_of f) }
{
    match f {
        Level::Tuple(_) => Level::Scalar(Kind::Whole),
        Level::Scalar(Kind::Letters) => Level::Scalar(Kind::Whole),
        Level::Scalar(_) => el(domain_flow(f)),
        Level::Nothing => el(domain_flow(f)),
        Level::Set(_) => el(domain_flow(f)),
        Level::Map(_, _) => el(domain_flow(f)),
        Level::Any => el(domain_flow(f)),
    }
}

/// The whole after a put into sets of members of a flow.
fn put_into_set(h: Middle, x: Flow, y: Flow) -> Flow
    ensures { flow_of result ≡ operators.put_flow (plain.Set (middle_flow h)) (flow_of x) (flow_of y) }
{
    match h {
        Level::Nothing => map_flow(x, y),
        Level::Scalar(_) => set_flow(join(h.widen(), tuple_flow(join(x, y)))),
        Level::Set(_) => set_flow(join(h.widen(), tuple_flow(join(x, y)))),
        Level::Tuple(_) => set_flow(join(h.widen(), tuple_flow(join(x, y)))),
        Level::Map(_, _) => set_flow(join(h.widen(), tuple_flow(join(x, y)))),
        Level::Any => set_flow(join(h.widen(), tuple_flow(join(x, y)))),
    }
}

/// The whole after a put of `y` at an argument `x`.
pub fn put_flow(f: Flow, x: Flow, y: Flow) -> Flow
    ensures { flow_of result ≡ operators.put_flow (flow_of f) (flow_of x) (flow_of y) }
{
    match f {
        Level::Nothing => Level::Nothing,
        Level::Scalar(_) => Level::Any,
        Level::Set(h) => put_into_set(h, x, y),
        Level::Tuple(h) => tuple_flow(join(h.widen(), y)),
        Level::Map(g, h) => map_flow(join(g.widen(), x), join(h.widen(), y)),
        Level::Any => Level::Any,
    }
}

/// The whole after a put of a set `y` of images at an argument `x`.
pub fn put_images_flow(f: Flow, x: Flow, y: Flow) -> Flow
    ensures { flow_of result ≡ operators.put_images_flow (flow_of f) (flow_of x) (flow_of y) }
{
    match f {
        Level::Tuple(_) => Level::Any,
        Level::Nothing => put_flow(f, x, el(y)),
        Level::Scalar(_) => put_flow(f, x, el(y)),
        Level::Set(_) => put_flow(f, x, el(y)),
        Level::Map(_, _) => put_flow(f, x, el(y)),
        Level::Any => put_flow(f, x, el(y)),
    }
}

/// What a product is: with an integer what the other is.
pub fn times_flow(f: Flow, g: Flow) -> Flow
    ensures { flow_of result ≡ operators.times_flow (flow_of f) (flow_of g) }
{
    match f {
        Level::Scalar(Kind::Whole) => g,
        Level::Scalar(_) => f,
        Level::Nothing => f,
        Level::Set(_) => f,
        Level::Tuple(_) => f,
        Level::Map(_, _) => f,
        Level::Any => f,
    }
}

/// What `with` makes.
pub fn with_flow(f: Flow, g: Flow) -> Flow
    ensures { flow_of result ≡ operators.with_flow (flow_of f) (flow_of g) }
{
    match f {
        Level::Nothing => Level::Nothing,
        Level::Scalar(_) => Level::Any,
        Level::Set(h) => set_flow(join(h.widen(), g)),
        Level::Tuple(h) => tuple_flow(join(h.widen(), g)),
        Level::Map(h, k) => set_flow(join(pairs_flow(h, k), g)),
        Level::Any => Level::Any,
    }
}
