//! The flows of what iterators run over, and of what they collect.

ghost use Rattle.std.specs.Prelude.{◌≡◌};
ghost use Rattle.setl_program.specs.Program.{Members, Points, begin_of};
ghost use Rattle.setl_program.specs.code.Plain.{plain_binding};
ghost use Rattle.setl_advise_flows.specs.Operators.{flows};
ghost use Rattle.setl_advise_flows.specs.Expressions as expressions;
ghost use Rattle.setl_advise_lattice.specs.code.Levels.{flow_of, shape_of, shapes_of};

use setl_advise_lattice::{Flow, Kind, Level, Part, Shape, el, map_flow, set_flow, tuple_flow};
use setl_program::{Binding, Collection, Source};

/// The flow of the one part of a source.
fn whole(ws: &[Shape]) -> Flow
    ensures { flow_of result ≡ expressions.source_flow Points (flows (shapes_of ws.now)) }
{
    match ws {
        [] => Level::Any,
        [w] => w.flow(),
        [_, _, ..] => Level::Any,
    }
}

/// The flow of a source whose members are bound, by the shapes of its parts.
fn members(k: Source, ws: &[Shape]) -> Flow
    ensures { flow_of result ≡ expressions.source_flow (Members k) (flows (shapes_of ws.now)) }
{
    match k {
        Source::Values => whole(ws),
        Source::Between => Level::Set(Level::Scalar(Kind::Whole)),
        Source::SetSteps => Level::Set(Level::Scalar(Kind::Whole)),
        Source::TupleSteps => Level::Tuple(Level::Scalar(Kind::Whole)),
    }
}

/// The flow of what an iterator runs over, by the shapes of the parts of its source.
pub(crate) fn source_flow(b: &Binding, ws: &[Shape]) -> Flow
    ensures { flow_of result ≡ expressions.source_flow (begin_of (plain_binding b.now)) (flows (shapes_of ws.now)) }
{
    match b {
        Binding::Member(k, _) => members(*k, ws),
        Binding::Components(k, _) => members(*k, ws),
        Binding::Point(_, _) => whole(ws),
    }
}

/// The set or tuple of values of a shape.
pub(crate) fn of_members(k: Collection, w: Shape) -> Flow
    ensures { flow_of result ≡ expressions.of_members k (shape_of w) }
{
    match k {
        Collection::OfSet => match w {
            Shape::Plain(f) => set_flow(f),
            Shape::Constant(f) => set_flow(f),
            Shape::Written(f, g) => map_flow(f, g),
        },
        Collection::OfTuple => tuple_flow(w.flow()),
    }
}

/// A member of what an iterator runs over: that of a map is known as a pair.
pub(crate) fn member_shape(f: Flow) -> Shape
    ensures { shape_of result ≡ expressions.member_shape (flow_of f) }
{
    match f {
        Level::Map(g, h) => Shape::Written(g.widen(), h.widen()),
        Level::Nothing => Shape::Plain(el(f)),
        Level::Scalar(_) => Shape::Plain(el(f)),
        Level::Set(_) => Shape::Plain(el(f)),
        Level::Tuple(_) => Shape::Plain(el(f)),
        Level::Any => Shape::Plain(el(f)),
    }
}
