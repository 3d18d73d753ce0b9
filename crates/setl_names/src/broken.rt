//! Breaks of rules.

ghost use Rattle.std.specs.Prelude.{◌≡◌, fold};
ghost use Rattle.setl_names.specs.Breaks as spec;

use std::alloc::AllocError;

/// A rule that is broken, by its number, and the line of the break.
#[derive(Clone, Copy, Debug, PartialEq, Eq)]
pub struct Break {
    pub line: u32,
    pub rule: u8,
}

/// Why a program is refused.
#[derive(Clone, Copy, Debug, PartialEq, Eq)]
pub enum RuleFault {
    /// The rule of this number, from 1 on, is broken at this line.
    Broken { rule: u8, line: u32 },
    NoMemory,
}

impl From<AllocError> for RuleFault {
    ghost use Rattle.std.specs.Prelude.{◌≡◌};
    ghost use Rattle.setl_names.specs.declared.broken.RuleFault.TheVariants.{NoMemory};

    ghost from_gives = { λ _ e. e ≡ NoMemory };

    fn from(_e: AllocError) -> RuleFault {
        RuleFault::NoMemory
    }
}

/// Whether a break stands on a lower line, or on the same line with a rule of a lower number.
fn precedes(a: Break, b: Break) -> bool
    ensures { result ≡ spec.precedes a b }
{
    a.line < b.line || (a.line == b.line && a.rule < b.rule)
}

/// The first break so far and of this one.
pub fn noted(first: Option<Break>, line: u32, rule: u8) -> Option<Break>
    ensures { result ≡ spec.earlier first (spec.break_at line rule) }
{
    let found = Break { line, rule };
    match first {
        None => Some(found),
        Some(first) => {
            if precedes(found, first) {
                Some(found)
            } else {
                Some(first)
            }
        }
    }
}

/// The first break so far and of this one, if there is one.
pub fn noted_if(first: Option<Break>, line: u32, rule: u8, is_broken: bool) -> Option<Break>
    ensures { result ≡ fold spec.earlier first (spec.broken line rule is_broken) }
{
    if is_broken {
        noted(first, line, rule)
    } else {
        first
    }
}
