//! Laws of what is shown.

ghost use Rattle.setl_debug_screen.specs.Laws.{BodyIsInHand, NothingIsTaken, SlotsShowTheState};

/// Has no effect: it hands a proof the laws of a core of code without takes that is the same as a core of the meaning: no
/// slot of it was taken, its body at work is that of the procedure in hand, and the lines of its slots are those of the
/// state.
pub fn slots_show_the_state()
    ensures there { NothingIsTaken }
    ensures body { BodyIsInHand }
    ensures shown { SlotsShowTheState }
{}
