//! The stops of a run.
ghost use Rattle.std.specs.Prelude.{◌≡◌, ◌≢◌, IfSome, IfNone};
ghost use Rattle.setl_explain_words.specs.Stops as spec;

/// Why a run stops at an error of its program.
#[derive(Clone, Copy, Debug, PartialEq, Eq)]
pub enum Stop {
    /// A value is missing.
    Om,
    /// A value has a kind that isn't taken.
    Kind,
    /// A division by 0.
    Zero,
    /// A place or a number is out of range.
    Range,
    /// An integer leaves 128 bits.
    Wide,
    /// A value is nested too deep.
    Deep,
    /// The input holds no value.
    Form,
    /// `fail` has nothing to go back to, or `succeed` nothing to forget.
    Nothing,
    /// A value doesn't fit the mode of a declared variable.
    Value,
}

/// The stop of this name, which is the first word that the line of the stop tells of it. `None` comes exactly where no stop
/// has it.
pub fn stop_named(name: &str) -> Option<Stop>
    ensures named { IfSome result (λ stop. name.now ≡ spec.stop_name stop) }
    ensures none { IfNone result ((stop : spec.Stop) → name.now ≢ spec.stop_name stop) }
{
    match name {
        "om" => Some(Stop::Om),
        "kind" => Some(Stop::Kind),
        "zero" => Some(Stop::Zero),
        "range" => Some(Stop::Range),
        "wide" => Some(Stop::Wide),
        "deep" => Some(Stop::Deep),
        "form" => Some(Stop::Form),
        "nothing" => Some(Stop::Nothing),
        "value" => Some(Stop::Value),
        _ => None,
    }
}
