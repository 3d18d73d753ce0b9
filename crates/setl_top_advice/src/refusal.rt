//! The refusal of a source with declarations.
ghost use Rattle.std.specs.Prelude.{◌≡◌, ◌∷◌, ◌++◌, [], IfOk};
ghost use Rattle.setl_top_advice.specs.Advised.{first_line, has_repr_line, line_of};

use setl_top_status::at_line;
use setl_tree::ReprLine;
use std::alloc::{AllocError, Global};

/// The line of the source on which a line of a section begins.
fn line_of(line: &ReprLine) -> u32
    ensures { result ≡ line_of line.now }
{
    match line {
        ReprLine::Base(line, _, _) => *line,
        ReprLine::Variables(line, _, _) => *line,
    }
}

/// The line of the source on which a section's first line begins; `None` where it has none.
pub fn first_line(lines: &[ReprLine]) -> Option<u32>
    ensures { result ≡ first_line lines.now }
{
    match lines.first() {
        None => None,
        Some(line) => Some(line_of(line)),
    }
}

/// The line that tells that a program has declarations, the first of which stands on a line of the source. The error is want
/// of memory.
pub fn has_repr(alloc: Global, line: u32) -> Result<Vec<u8>, AllocError>
    ensures { IfOk result (λ told. told.items ≡ has_repr_line line ++ 10 ∷ []) }
{
    let mut told = at_line(alloc, line)?;
    told.extend_from_slice(b"has repr\n")?;
    Ok(told)
}
