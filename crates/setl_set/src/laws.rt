//! Laws of the definitions that contracts of this crate cite. The functions have no effect: each hands a proof the laws
//! that it is named for.

ghost use Rattle.setl_set.specs.Laws.{RisingListsAgree, TestsMembership, TestsSubset, Inserts, Removes, Gathers, Unites, Subtracts, Intersects, Differs, HasAllSubsets, HasAllSubsetsOfSize};

/// Two strictly rising lists with the same members are equal, so what is rising and has exactly these members is the
/// one list that it can be.
pub fn rising_lists_agree()
    ensures { RisingListsAgree }
{}

/// `has_datum` and `is_subset` test what they say.
pub fn tests_are_exact()
    ensures membership { TestsMembership }
    ensures subset { TestsSubset }
{}

/// Each operation on sets leaves the strictly rising list of exactly the data that pass its test of membership.
pub fn operations_have_their_members()
    ensures insert { Inserts }
    ensures remove { Removes }
    ensures gather { Gathers }
    ensures union { Unites }
    ensures minus { Subtracts }
    ensures meet { Intersects }
    ensures symm { Differs }
{}

/// `pow_of` is the strictly rising list of exactly the sets whose members are all in a set, and `npow_of n` of those
/// with `n` members.
pub fn powers_have_all_subsets()
    ensures pow { HasAllSubsets }
    ensures npow { HasAllSubsetsOfSize }
{}
