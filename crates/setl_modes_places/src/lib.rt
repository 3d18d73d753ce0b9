//! Which values stand at the places of a base in a value of a mode, as definitions, and what a base gains by them.
//!
//! A place of base `b` is where the mode has `elmt b`. There is no code here but laws.
#![tactic(auto)]

ghost use Rattle.setl_modes_places.specs.Places.{PlacesAreNamed};

/// Has no effect: it hands a proof the law that a mode which doesn't name a base has no places of it.
pub fn places_are_named()
    ensures { PlacesAreNamed }
{}
