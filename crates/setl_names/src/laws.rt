//! Worked rows.

ghost use Rattle.setl_names.specs.Samples.{WorkedHeads, WorkedRules, WorkedSlots, WorkedOrder};

/// For each rule what breaks it and a sound neighbour, the slots of a body, and the first of some breaks.
pub fn worked_rows()
    ensures heads { WorkedHeads }
    ensures rules { WorkedRules }
    ensures slots { WorkedSlots }
    ensures order { WorkedOrder }
{}
