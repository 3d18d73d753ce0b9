//! What follows from the definitions alone. The functions have no effect: each states a law.

ghost use Rattle.setl_code_events.specs.Told.{EndsTellNothing, EventsAre};

/// The events of a step that goes on.
pub fn events_are()
    ensures { EventsAre }
{}

/// A step that ends a run tells nothing, where the parameters of procedures take every value.
pub fn ends_tell_nothing()
    ensures { EndsTellNothing }
{}
