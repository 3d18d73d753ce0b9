//! A law of scripts.
ghost use Rattle.setl_top_session.specs.Laws.{NotScriptAndRefused, OneRefusal};

/// Has no effect: it hands a proof the law that bytes aren't both a script and refused, and that they are refused by one
/// line.
pub fn script_or_refusal()
    ensures not_both { NotScriptAndRefused }
    ensures one_line { OneRefusal }
{}
