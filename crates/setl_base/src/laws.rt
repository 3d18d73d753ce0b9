//! Laws of bases over time. The functions have no effect: each hands a proof the law that it is named for.

ghost use Rattle.setl_base.specs.Later.{EnteringKeeps, UndoGivesBack, CutsKeepTheFront, NumbersRise, HandlesEnd};

/// Entering a value leaves every living block, and `undo` takes back what was entered since its mark.
pub fn entering_keeps_the_blocks()
    ensures kept { EnteringKeeps }
    ensures taken_back { UndoGivesBack }
{}

/// A cut leaves the blocks up to its mark's count, and ends the others.
pub fn cuts_keep_the_front()
    ensures { CutsKeepTheFront }
{}

/// A number that `back` frees comes again only with a higher generation, whatever is entered and cut afterwards.
pub fn numbers_rise()
    ensures { NumbersRise }
{}

/// A handle whose block `back` cut never names a living block again.
pub fn handles_end()
    ensures { HandlesEnd }
{}
