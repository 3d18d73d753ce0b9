//! The lines of bytes, and the parts of a line.

ghost use Rattle.std.specs.Prelude.{◌≡◌, ◌<◌, ◌+◌, ◌∷◌, [], Some, None, IfNone, IfSome, drop, length, take};
ghost use Rattle.std.specs.List.{AllByRecursion};
ghost use Rattle.setl_debug_script.specs.Lines.{lines};
ghost use Rattle.setl_debug_script.specs.code.Parts.{split};
ghost use Rattle.setl_tree.specs.Texts.{IsTextByte};

/// The first line, and what stands behind its end.
pub(crate) fn first_line(bytes: &[u8]) -> (&[u8], &[u8])
    requires { 0 < length bytes.now }
    ensures first { lines bytes.now ≡ result.0.now ∷ lines result.1.now }
    ensures text { AllByRecursion IsTextByte result.0.now }
    ensures shorter { length result.1.now < length bytes.now }
{
    for at in 0..bytes.len() {
        if bytes[at] == b'\n' {
            return (&bytes[..at], &bytes[at + 1..]);
        }
    }
    (bytes, &[])
}

/// Where the first blank of a line stands.
pub(crate) fn blank(line: &[u8]) -> Option<usize>
    ensures within { IfSome result (λ at. at < length line.now) }
    ensures some { IfSome result (λ at. split line.now ≡ (take at line.now, Some (drop (at + 1) line.now))) }
    ensures none { IfNone result (split line.now ≡ (line.now, None)) }
{
    for at in 0..line.len() {
        if line[at] == b' ' {
            return Some(at);
        }
    }
    None
}
