//! Words of fixed spelling.

ghost use Rattle.std.specs.Prelude.{◌≡◌};
ghost use Rattle.setl_code.specs.Listing as spec;
ghost use Rattle.setl_code.specs.Plain.{plain_alteration, plain_begin};

use setl_code::{Alteration, Begin};
use setl_operators_table::Operator;
use setl_program::{Connective, Source, Taking};

/// The sign or word of an operator.
pub fn operator_word(o: Operator) -> &'static str
    ensures { result.now ≡ spec.operator_word o }
{
    match o {
        Operator::Negate => "neg",
        Operator::Abs => "abs",
        Operator::Even => "even",
        Operator::Odd => "odd",
        Operator::Size => "#",
        Operator::Not => "not",
        Operator::Pow => "pow",
        Operator::Domain => "domain",
        Operator::Range => "range",
        Operator::Arb => "arb",
        Operator::Str => "str",
        Operator::IsInteger => "is_integer",
        Operator::IsString => "is_string",
        Operator::IsBoolean => "is_boolean",
        Operator::IsAtom => "is_atom",
        Operator::IsTuple => "is_tuple",
        Operator::IsSet => "is_set",
        Operator::IsMap => "is_map",
        Operator::FoldAdd => "fold +",
        Operator::FoldMultiply => "fold *",
        Operator::FoldMax => "fold max",
        Operator::FoldMin => "fold min",
        Operator::FoldAnd => "fold and",
        Operator::FoldOr => "fold or",
        Operator::Add => "+",
        Operator::Subtract => "-",
        Operator::Multiply => "*",
        Operator::Power => "**",
        Operator::Divide => "div",
        Operator::Modulo => "mod",
        Operator::Max => "max",
        Operator::Min => "min",
        Operator::With => "with",
        Operator::Less => "less",
        Operator::Lessf => "lessf",
        Operator::Npow => "npow",
        Operator::Equal => "=",
        Operator::NotEqual => "/=",
        Operator::Below => "<",
        Operator::AtMost => "<=",
        Operator::Above => ">",
        Operator::AtLeast => ">=",
        Operator::In => "in",
        Operator::NotIn => "notin",
        Operator::Subset => "subset",
        Operator::Includes => "incs",
        Operator::Get => "get",
        Operator::Images => "images",
        Operator::Slice => "slice",
        Operator::Tail => "tail",
        Operator::SetOf => "set",
        Operator::TupleOf => "tuple",
        Operator::SetRange => "range set",
        Operator::TupleRange => "range tuple",
        Operator::SetStep => "step set",
        Operator::TupleStep => "step tuple",
        Operator::Put => "put",
        Operator::PutImages => "put",
    }
}

/// The word of an update.
pub fn alteration_word(a: Alteration) -> &'static str
    ensures { result.now ≡ spec.alteration_word (plain_alteration a) }
{
    match a {
        Alteration::Put => "put",
        Alteration::Combine(o) => operator_word(o),
        Alteration::TakeOut(Taking::TakeLeast) => "from",
        Alteration::TakeOut(Taking::TakeFirst) => "fromb",
        Alteration::TakeOut(Taking::TakeLast) => "frome",
    }
}

/// The word of a connective.
pub fn connective_word(k: Connective) -> &'static str
    ensures { result.now ≡ spec.connective_word k }
{
    match k {
        Connective::And => "and",
        Connective::Or => "or",
        Connective::Implies => "impl",
    }
}

/// The words for the begin of an iterator.
pub fn begin_words(k: Begin) -> &'static str
    ensures { result.now ≡ spec.begin_text (plain_begin k) }
{
    match k {
        Begin::Members(Source::Values) => "begin",
        Begin::Members(Source::Between) => "begin range",
        Begin::Members(Source::SetSteps) => "begin set step",
        Begin::Members(Source::TupleSteps) => "begin tuple step",
        Begin::Points => "begin pairs",
    }
}
