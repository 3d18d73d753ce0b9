//! Laws of bases that change. The functions have no effect: each hands a proof the laws that it is named for.

ghost use Rattle.setl_rep_bases.specs.Cutting.{MarksAreRead, CutsAreRead, CountedCutsAreRead, NothingIsCut, GrownBasesAreCutAlike, CountedCutsLeaveTheSame, CutBlocksWereThere};
ghost use Rattle.setl_rep_bases.specs.Keeping.{EnteringKeepsMembers, EnteringKeepsBlocks, CutsKeepBlocks, InstancesKeepBlocks, RemovalsKeepBlocks};
ghost use Rattle.setl_rep_bases.specs.Reading.{InstancesArePut, InstancesAreTaken, GoneAreTaken, MainInstancesAreFresh, NamesAreExact, BasesAgree};

/// Which blocks each change leaves.
pub fn changes_keep_blocks()
    ensures members { EnteringKeepsMembers }
    ensures entered { EnteringKeepsBlocks }
    ensures cut { CutsKeepBlocks }
    ensures instances { InstancesKeepBlocks }
    ensures removed { RemovalsKeepBlocks }
{}

/// What is read of an instance after each change, and that bases which have the same instances are the same.
pub fn instances_are_read()
    ensures put { InstancesArePut }
    ensures taken { InstancesAreTaken }
    ensures gone { GoneAreTaken }
    ensures main { MainInstancesAreFresh }
    ensures names { NamesAreExact }
    ensures agree { BasesAgree }
{}

/// What marks tell, and what is there after a cut to them: of bases as they are nothing is cut, bases that grew are cut to
/// the same blocks, cuts that count leave the same blocks, and what a cut leaves was there before it.
pub fn cuts_are_exact()
    ensures marks { MarksAreRead }
    ensures cuts { CutsAreRead }
    ensures counted { CountedCutsAreRead }
    ensures whole { NothingIsCut }
    ensures grown { GrownBasesAreCutAlike }
    ensures same { CountedCutsLeaveTheSame }
    ensures before { CutBlocksWereThere }
{}
