//! The families of instructions.

ghost use Rattle.std.specs.Prelude.{◌≡◌};
ghost use Rattle.setl_machine.specs.Families.{family_of};

use setl_code::Instr;

/// A family of instructions. Each has a file with the functions that do its instructions and tell of them.
#[derive(Clone, Copy)]
pub(crate) enum Family {
    /// Constants that are pushed: `values`.
    Values,
    /// Loads, stores and updates of variables: `variables`.
    Variables,
    /// Operators on operands, and those without any: a new atom, and whether a read met the end of the input: `operating`.
    Operators,
    /// Conditions, jumps, what is done to the top operand, and the end of the run: `conditions`.
    Conditions,
    /// Iterators, collections that are being built, tuples that are taken apart, and rounds: `iterating`.
    Iteration,
    /// Calls and returns: `calling`.
    Calls,
    /// `ok`, `fail` and `succeed`: `backtracking`.
    Backtracking,
    /// `print` and `read`: `outside`.
    Outside,
}

/// The family of an instruction. All dispatch goes by it, but that of the common instructions, which `at_once` does first.
#[inline(always)]
pub(crate) fn family_of(what: &Instr) -> Family
    ensures { result ≡ family_of what.now }
{
    match what {
        Instr::Integer(_) | Instr::Text(_) | Instr::Truth(_) | Instr::Undefined => Family::Values,
        Instr::Load(_) | Instr::Take(_) | Instr::Store(_) | Instr::Alter(_, _, _) => {
            Family::Variables
        }
        Instr::Operate(_, _) | Instr::NewAtom | Instr::Eof => Family::Operators,
        Instr::Decide(_, _)
        | Instr::TestTruth
        | Instr::Unless(_)
        | Instr::Jump(_)
        | Instr::Discard
        | Instr::Duplicate
        | Instr::Stop => Family::Conditions,
        Instr::Parts(_)
        | Instr::Begin(_, _)
        | Instr::Next(_)
        | Instr::Collect(_)
        | Instr::Add(_)
        | Instr::Leave(_)
        | Instr::Round => Family::Iteration,
        Instr::Call(_) | Instr::Return => Family::Calls,
        Instr::Keep | Instr::Back | Instr::Forget => Family::Backtracking,
        Instr::Print(_) | Instr::Read => Family::Outside,
    }
}
