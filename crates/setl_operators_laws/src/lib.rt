//! That operators give values of values: what a set operator gives rises strictly, a tuple doesn't end in `om`, and all
//! stays in range and at most 500 deep. No code that runs: laws alone.
#![tactic(auto)]

ghost use Rattle.setl_operators_laws.specs.ValueLaws.{AddedImagesGiveValues, FirstIsValue, LastIsValue, LeastIsValue, OperatorsGiveValues};

/// What an operator gives of operands that are values or `om` is a value or `om`, where `#` counts fewer than 2^127.
pub fn operators_give_values()
    ensures { OperatorsGiveValues }
{
    setl_set::laws::operations_have_their_members();
}

/// What `f{x} with:= y` makes of values is a value.
pub fn added_images_give_values()
    ensures { AddedImagesGiveValues }
{
    setl_set::laws::operations_have_their_members();
}

/// What `from`, `fromb` and `frome` leave of a value is a value, and what they take out is a value or `om`.
pub fn takes_give_values()
    ensures least { LeastIsValue }
    ensures first { FirstIsValue }
    ensures last { LastIsValue }
{}
