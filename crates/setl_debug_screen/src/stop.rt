//! Why a run stops, and the line that tells it.
ghost use Rattle.std.specs.Prelude.{◌≡◌, ◌++◌, [], map, slice_get, Some, None, IfSome, IfNone, IfOk};
ghost use Rattle.setl_model_runs.specs.Events.{Stopped};
ghost use Rattle.setl_top_status.specs.Ends.{stop_text, error_line};
ghost use Rattle.setl_machine_control.specs.Answers.{kind_of};
ghost use Rattle.setl_program.specs.code.Plain.{plain_declared, plain_variable};
ghost use Rattle.setl_model_runs.specs.Variable.{name_of};

use setl_machine_control::StopKind;
use setl_program::{Declared, Variable};
use setl_top_status::at_line;
use std::alloc::{AllocError, Global};

/// The words for a stop, before the name of the variable if one is told.
fn stop_text(kind: StopKind) -> &'static [u8]
    ensures { result.now ≡ stop_text (kind_of [] kind) }
{
    match kind {
        StopKind::Om => b"om",
        StopKind::Kind => b"kind",
        StopKind::Zero => b"zero",
        StopKind::Range => b"range",
        StopKind::Wide => b"wide",
        StopKind::Deep => b"deep",
        StopKind::Form => b"form",
        StopKind::Nothing => b"nothing to go back to",
        StopKind::Unfit(_) => b"value does not fit ",
    }
}

/// The name of a variable.
fn name_of(variable: &Variable) -> &[u8]
    ensures { result.now ≡ name_of (plain_variable variable.now) }
{
    match variable {
        Variable::Global(name) => name.bytes(),
        Variable::Own(_, name) => name.bytes(),
        Variable::Former(_, name) => name.bytes(),
    }
}

/// The declaration at a place, counted from 0, if there is one.
fn declaration(declared: &[Declared], at: u32) -> Option<&Declared>
    ensures some { IfSome result (λ d. slice_get declared.now at ≡ Some d.now) }
    ensures none { IfNone result (slice_get declared.now at ≡ None) }
{
    declared.get(at as usize)
}

/// The name of the declared variable that a stop tells, if it tells one; else no bytes.
fn stop_name(declared: &[Declared], kind: StopKind) -> &[u8]
    ensures { stop_text (kind_of [] kind) ++ result.now ≡ stop_text (kind_of (map plain_declared declared.now) kind) }
{
    match kind {
        StopKind::Unfit(at) => match declaration(declared, at) {
            Some(declared) => name_of(&declared.variable),
            None => &[],
        },
        _ => &[],
    }
}

/// The line that tells why a run stopped at a statement of this line, where these variables are declared.
pub(crate) fn stop_line(
    alloc: Global,
    declared: &[Declared],
    kind: StopKind,
    line: u32,
) -> Result<Vec<u8>, AllocError>
    ensures { IfOk result (λ told. told.items ≡ error_line (Stopped (kind_of (map plain_declared declared.now) kind) line)) }
{
    let mut told = at_line(alloc, line)?;
    told.extend_from_slice(stop_text(kind))?;
    told.extend_from_slice(stop_name(declared, kind))?;
    told.push(b'\n')?;
    Ok(told)
}
