//! What operators make of flows.

ghost use Rattle.std.specs.Prelude.{◌≡◌, [], ◌∷◌, MatchOption};
ghost use Rattle.std.specs.Option.{option_map};
ghost use Rattle.setl_advise_flows.specs.Flow as plain;
ghost use Rattle.setl_advise_flows.specs.Operators.{flows, one_flow, two_flows, three_flows, first_flow, pair_joined};
ghost use Rattle.setl_advise_flows.specs.Operators as operators;
ghost use Rattle.setl_advise_lattice.specs.code.Levels.{flow_of, pair_of, shape_of, shapes_of};

use crate::flow::{
    Flow, domain_flow, el, get_flow, images_flow, join, map_flow, put_flow, put_images_flow,
    set_flow, times_flow, tuple_flow, with_flow,
};
use crate::level::{Kind, Level};
use crate::shape::Shape;
use setl_operators_table::Operator;

/// The flow of the one operand.
fn one(ws: &[Shape]) -> Option<Flow>
    ensures { MatchOption result ((t : _) → one_flow t (flows (shapes_of ws.now)) ≡ plain.Any) (λ a. flows (shapes_of ws.now) ≡ flow_of a ∷ []) }
{
    match ws {
        [] => None,
        [w] => Some(w.flow()),
        [_, _, ..] => None,
    }
}

/// The flows of the two operands.
fn two(ws: &[Shape]) -> Option<(Flow, Flow)>
    ensures { MatchOption result ((t : _) → two_flows t (flows (shapes_of ws.now)) ≡ plain.Any) (λ p. flows (shapes_of ws.now) ≡ flow_of p.0 ∷ flow_of p.1 ∷ []) }
{
    match ws {
        [] => None,
        [_] => None,
        [v, w] => Some((v.flow(), w.flow())),
        [_, _, _, ..] => None,
    }
}

/// The flows of the three operands.
fn three(ws: &[Shape]) -> Option<(Flow, Flow, Flow)>
    ensures { MatchOption result ((t : _) → three_flows t (flows (shapes_of ws.now)) ≡ plain.Any) (λ p. flows (shapes_of ws.now) ≡ flow_of p.0 ∷ flow_of p.1 ∷ flow_of p.2 ∷ []) }
{
    match ws {
        [] => None,
        [_] => None,
        [_, _] => None,
        [u, v, w] => Some((u.flow(), v.flow(), w.flow())),
        [_, _, _, _, ..] => None,
    }
}

/// The flow of the first operand.
fn first(ws: &[Shape]) -> Flow
    ensures { flow_of result ≡ first_flow (flows (shapes_of ws.now)) }
{
    match ws {
        [] => Level::Any,
        [w, ..] => w.flow(),
    }
}

/// The flow that has the values of all operands.
fn all_joined(ws: &[Shape]) -> Flow
    ensures { flow_of result ≡ operators.all_joined (flows (shapes_of ws.now)) }
{
    let mut all = Level::Nothing;
    let mut at = ws.len();
    'operands: while at > 0 {
        at -= 1;
        all = join(ws[at].flow(), all);
    }
    all
}

/// The flows of the parts of a written pair, joined with those of others.
fn with_pair(w: Shape, others: Option<(Flow, Flow)>) -> Option<(Flow, Flow)>
    ensures { option_map pair_of result ≡ pair_joined (shape_of w) (option_map pair_of others) }
{
    match w {
        Shape::Plain(_) => None,
        Shape::Constant(_) => None,
        Shape::Written(f, g) => match others {
            None => None,
            Some((h, k)) => Some((join(f, h), join(g, k))),
        },
    }
}

/// The flows of the parts of the operands, where all are written as pairs.
fn all_pairs(ws: &[Shape]) -> Option<(Flow, Flow)>
    ensures { option_map pair_of result ≡ operators.all_pairs (shapes_of ws.now) }
{
    let mut all = Some((Level::Nothing, Level::Nothing));
    let mut at = ws.len();
    'operands: while at > 0 {
        at -= 1;
        all = with_pair(ws[at], all);
    }
    all
}

/// The flow of a set that is written with these members.
fn enumeration_flow(ws: &[Shape]) -> Flow
    ensures { flow_of result ≡ operators.enumeration_flow (shapes_of ws.now) }
{
    match ws {
        [] => Level::Set(Level::Nothing),
        [_, ..] => match all_pairs(ws) {
            None => set_flow(all_joined(ws)),
            Some((f, g)) => map_flow(f, g),
        },
    }
}

/// The shape of a tuple that is written with two components.
fn pair_shape(v: Shape, w: Shape) -> Shape
    ensures { shape_of result ≡ operators.tuple_shape (shape_of v ∷ shape_of w ∷ []) }
{
    match v {
        Shape::Constant(f) => match w {
            Shape::Constant(g) => Shape::Written(f, g),
            Shape::Plain(_) => Shape::Plain(tuple_flow(all_joined(&[v, w]))),
            Shape::Written(_, _) => Shape::Plain(tuple_flow(all_joined(&[v, w]))),
        },
        Shape::Plain(_) => Shape::Plain(tuple_flow(all_joined(&[v, w]))),
        Shape::Written(_, _) => Shape::Plain(tuple_flow(all_joined(&[v, w]))),
    }
}

/// The shape of a tuple that is written with these components.
fn tuple_shape(ws: &[Shape]) -> Shape
    ensures { shape_of result ≡ operators.tuple_shape (shapes_of ws.now) }
{
    match ws {
        [] => Shape::Plain(tuple_flow(all_joined(ws))),
        [_] => Shape::Plain(tuple_flow(all_joined(ws))),
        [v, w] => pair_shape(*v, *w),
        [_, _, _, ..] => Shape::Plain(tuple_flow(all_joined(ws))),
    }
}

/// The members of the one operand.
fn member(ws: &[Shape]) -> Flow
    ensures { flow_of result ≡ one_flow operators.el (flows (shapes_of ws.now)) }
{
    match one(ws) {
        None => Level::Any,
        Some(f) => el(f),
    }
}

/// What an operator makes of its operands, by their flows alone.
fn op_flow(o: Operator, ws: &[Shape]) -> Flow
    ensures { flow_of result ≡ operators.op_flow o (flows (shapes_of ws.now)) }
{
    match o {
        Operator::Negate | Operator::Abs | Operator::Size | Operator::Power => {
            Level::Scalar(Kind::Whole)
        }
        Operator::Divide | Operator::Max | Operator::Min => Level::Scalar(Kind::Whole),
        Operator::Str => Level::Scalar(Kind::Letters),
        Operator::Add | Operator::Modulo => match two(ws) {
            None => Level::Any,
            Some((f, g)) => join(f, g),
        },
        Operator::Subtract | Operator::Less | Operator::Lessf => first(ws),
        Operator::Slice | Operator::Tail => first(ws),
        Operator::Multiply => match two(ws) {
            None => Level::Any,
            Some((f, g)) => times_flow(f, g),
        },
        Operator::With => match two(ws) {
            None => Level::Any,
            Some((f, g)) => with_flow(f, g),
        },
        Operator::Pow => match one(ws) {
            None => Level::Any,
            Some(f) => set_flow(f),
        },
        Operator::Npow => match two(ws) {
            None => Level::Any,
            Some((_, g)) => set_flow(g),
        },
        Operator::Arb | Operator::FoldAdd | Operator::FoldMultiply => member(ws),
        Operator::FoldMax | Operator::FoldMin => member(ws),
        Operator::FoldAnd | Operator::FoldOr => member(ws),
        Operator::Get => match two(ws) {
            None => Level::Any,
            Some((f, _)) => get_flow(f),
        },
        Operator::Images => match two(ws) {
            None => Level::Any,
            Some((f, _)) => images_flow(f),
        },
        Operator::Range => match one(ws) {
            None => Level::Any,
            Some(f) => images_flow(f),
        },
        Operator::Domain => match one(ws) {
            None => Level::Any,
            Some(f) => domain_flow(f),
        },
        Operator::SetOf => set_flow(all_joined(ws)),
        Operator::TupleOf => tuple_flow(all_joined(ws)),
        Operator::SetRange | Operator::SetStep => Level::Set(Level::Scalar(Kind::Whole)),
        Operator::TupleRange | Operator::TupleStep => Level::Tuple(Level::Scalar(Kind::Whole)),
        Operator::Put => match three(ws) {
            None => Level::Any,
            Some((f, g, h)) => put_flow(f, g, h),
        },
        Operator::PutImages => match three(ws) {
            None => Level::Any,
            Some((f, g, h)) => put_images_flow(f, g, h),
        },
        _ => Level::Scalar(Kind::Truth),
    }
}

/// What an operator makes of operands of these shapes.
pub fn op_shape(o: Operator, ws: &[Shape]) -> Shape
    ensures { shape_of result ≡ operators.op_shape o (shapes_of ws.now) }
{
    match o {
        Operator::SetOf => Shape::Plain(enumeration_flow(ws)),
        Operator::TupleOf => tuple_shape(ws),
        _ => Shape::Plain(op_flow(o, ws)),
    }
}
