//! Laws of values in the forms of their modes. The functions have no effect: each hands a proof the laws that it is named
//! for.

ghost use Rattle.setl_rep_updates.specs.InForm.{FormsOfMainStay, FormsOfModesStay};

/// A value is held in the form of its mode as before, once bases were lengthened.
pub fn forms_of_modes_stay()
    ensures { FormsOfModesStay }
{
    setl_rep_forms::laws::forms_stay();
    setl_rep_entering::laws::bases_are_lengthened();
    setl_rep_entering::laws::places_are_members();
}

/// A value of the main program is held in the form of its mode as before, and is the same, over all bases in which the
/// instances and blocks are kept.
pub fn forms_of_main_stay()
    ensures { FormsOfMainStay }
{
    setl_rep_forms::laws::forms_stay();
}
