//! That the dump of the store of a run, at its end, is the dump of the state of code in which the run ended. No code that runs:
//! laws alone.
#![tactic(auto)]

ghost use Rattle.setl_machine_layout.specs.Claims.{BasesAreEntered, BasesStayAsMany, RunsLayOut};

/// Has no effect: it hands a proof that what the events of a run make of bases without members is what the meaning enters into
/// each of them, where the declared variables name no other base; and that they stay as many.
pub fn bases_are_entered()
    ensures entered { BasesAreEntered }
    ensures many { BasesStayAsMany }
{
    setl_modes_places::places_are_named();
}

/// Has no effect: it hands a proof that the dump of a store is that of the state in which the run of its code ended, where the
/// store told bases without members at first: of a run that is done, stopped or spent.
pub fn runs_lay_out()
    ensures { RunsLayOut }
{
    bases_are_entered();
    setl_code_layout::layouts_are_of_variables_alone();
}
