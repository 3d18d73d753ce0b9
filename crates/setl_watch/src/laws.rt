//! What follows from the definitions alone. The function has no effect: it states a law.

ghost use Rattle.setl_watch.specs.Watches.{ToldInParts};

/// The events of a run that is done in two parts are told as those of the whole run.
pub fn told_in_parts()
    ensures { ToldInParts }
{}
