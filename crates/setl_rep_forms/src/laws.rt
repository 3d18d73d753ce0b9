//! Laws of forms. The functions have no effect: each hands a proof the laws that it is named for.

ghost use Rattle.setl_rep_forms.specs.Laws.{FormsStay, FormsStayAsBasesGrow, FormsStayInFrontOfCuts, SetsHaveTheirMembers, EqualSetsHaveEqualNumbers, MembersOfLists, MembersAreTestedByNumber, UnionsGoByNumber, MeetsGoByNumber, DifferencesGoByNumber, SymmetricDifferencesGoByNumber, InsertsGoByNumber, RemovesGoByNumber, TestedAtNumber, InsertsAtNumber, RemovesAtNumber, CountsGoByNumber};

/// A form stands for the same as long as its instances are there and the blocks of its handles and numbers live.
pub fn forms_stay()
    ensures kept { FormsStay }
    ensures grown { FormsStayAsBasesGrow }
    ensures cut { FormsStayInFrontOfCuts }
{
    setl_rep_bases::laws::changes_keep_blocks();
}

/// A set of numbers has the members at these numbers, and is the only one that stands for its set.
pub fn sets_have_their_members()
    ensures members { SetsHaveTheirMembers }
    ensures lists { MembersOfLists }
    ensures tested { MembersAreTestedByNumber }
    ensures equal { EqualSetsHaveEqualNumbers }
{
    setl_set::laws::rising_lists_agree();
    setl_set::laws::tests_are_exact();
    setl_set::laws::operations_have_their_members();
}

/// Operations on two sets on one base go by number.
pub fn operations_go_by_number()
    ensures union { UnionsGoByNumber }
    ensures meet { MeetsGoByNumber }
    ensures minus { DifferencesGoByNumber }
    ensures symm { SymmetricDifferencesGoByNumber }
    ensures insert { InsertsGoByNumber }
    ensures remove { RemovesGoByNumber }
{
    setl_set::laws::rising_lists_agree();
    setl_set::laws::tests_are_exact();
    setl_set::laws::operations_have_their_members();
}

/// A member of a base is tested, put into a set and taken out by the number of its block, and a set has as many members
/// as numbers.
pub fn numbers_stand_for_members()
    ensures tested { TestedAtNumber }
    ensures insert { InsertsAtNumber }
    ensures remove { RemovesAtNumber }
    ensures count { CountsGoByNumber }
{
    sets_have_their_members();
    operations_go_by_number();
}
