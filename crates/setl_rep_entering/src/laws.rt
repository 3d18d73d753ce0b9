//! Laws of bases that were lengthened by the places of a value. The functions have no effect: each hands a proof the laws
//! that it is named for.

ghost use Rattle.setl_rep_entering.specs.Laws.{MembersAreLengthened, OthersStay, NamesStay, PlacesAreMembers, BlocksAreKept, MembersChangeNothing, MembersLengthenNothing, PartsLengthenAlike, ElementsAreEntered, EnteredIsUndone};

/// Each base that the mode names has the values at its places behind its members, and all others are as before.
pub fn bases_are_lengthened()
    ensures members { MembersAreLengthened }
    ensures others { OthersStay }
    ensures names { NamesStay }
{
    setl_modes_places::places_are_named();
    setl_rep_bases::laws::instances_are_read();
}

/// Each value at a place is a member of its base, all blocks live on, and where all were members nothing changes.
pub fn places_are_members()
    ensures found { PlacesAreMembers }
    ensures kept { BlocksAreKept }
    ensures nothing { MembersChangeNothing }
    ensures already { MembersLengthenNothing }
{
    setl_set::laws::tests_are_exact();
    setl_set::laws::operations_have_their_members();
    setl_modes_places::places_are_named();
    setl_rep_bases::laws::instances_are_read();
}

/// A value lengthens bases as the part of it does that has all of its places but members.
pub fn parts_lengthen_alike()
    ensures { PartsLengthenAlike }
{
    setl_set::laws::rising_lists_agree();
    setl_set::laws::tests_are_exact();
    setl_set::laws::operations_have_their_members();
    setl_rep_bases::laws::instances_are_read();
}

/// A value that is entered into the base of its mode lengthens the bases by itself, and a cut to the members that were there
/// takes it back.
pub fn elements_are_entered()
    ensures entered { ElementsAreEntered }
    ensures undone { EnteredIsUndone }
{
    setl_rep_bases::laws::instances_are_read();
}
