//! A law of the definition. The function does nothing: what it ensures is the law.
ghost use Rattle.setl_top_explanation.specs.Explanations.{OneExplanation};

/// A source has one explanation of a reason for which it is refused.
pub fn one_explanation()
    ensures { OneExplanation }
{
    setl_token::lexing_is_determined();
    setl_explain_next::next_kinds_are_one_list();
    setl_parse_reading::tree_is_unique();
}
