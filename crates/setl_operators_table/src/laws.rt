//! Laws of the table. The function has no effect: it hands a proof the laws that it is named for.

ghost use Rattle.setl_operators_table.specs.Laws.{PlusGrows, WithGrows};

/// What `with` and `+` make of a value is at least as deep as it, and no deeper than it and a set of the other operand.
pub fn operands_grow()
    ensures one_more { WithGrows }
    ensures sum { PlusGrows }
{}
