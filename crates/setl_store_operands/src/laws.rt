//! Laws of operands. The function has no effect: it hands a proof the law that it is named for.

ghost use Rattle.setl_store_operands.specs.Laws.{OperandsStay};

/// Operands stand for the same as long as the instances and blocks of their forms are there.
pub fn operands_stay()
    ensures { OperandsStay }
{
    setl_rep_forms::laws::forms_stay();
}
