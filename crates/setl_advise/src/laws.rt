//! What advice says. The function has no effect: it states a law.

ghost use Rattle.setl_advise.specs.Claims.{AdviceAlwaysFits};

/// Where the declared variables have the modes of the flows by which a section is advised, no run of the program ends for a
/// value that doesn't fit, whatever its input and its bound on turns.
pub fn advice_always_fits()
    ensures { AdviceAlwaysFits }
{
    setl_program_laws::accepted_is_formed();
    setl_advise_conditions::conditions_are_enough();
    setl_advise_conditions::conditions_are_needed();
    setl_advise_flows::values_stay_in_their_flows();
}
