//! The lines of a trace.

ghost use Rattle.std.specs.Prelude.{◌≡◌, ◌++◌, ◌∷◌, codes, decimal, OnOk};
ghost use Rattle.setl_value.specs.code.DatumOf.{part};
ghost use Rattle.setl_watch.specs.code.NoticeOf.{notice_of};
ghost use Rattle.setl_watch.specs.Traces.{event_text, value_text};

use crate::Event;
use setl_text::push_decimal;
use setl_tree::Text;
use setl_value::Value;
use std::alloc::{AllocError, Global};

/// Adds a word as it is.
pub(crate) fn push_word(into: &mut Vec<u8>, word: &str) -> Result<(), AllocError>
    ensures { OnOk result (into.new.items ≡ into.old.items ++ word.now) }
{
    into.extend_from_slice(word.as_bytes())
}

/// Adds the line of an event, without byte 10.
pub(crate) fn push_event(into: &mut Vec<u8>, e: &Event, alloc: Global) -> Result<(), AllocError>
    ensures { OnOk result (into.new.items ≡ into.old.items ++ event_text (notice_of e.now)) }
{
    match e {
        Event::Called { line, name } => push_at_line(into, "call ", *line, name),
        Event::Returned { name } => {
            push_word(into, "return ")?;
            into.extend_from_slice(name.bytes())
        }
        Event::Stored { line, name, value } => {
            push_at_line(into, "store ", *line, name)?;
            into.push(b' ')?;
            push_value(into, value, alloc)
        }
        Event::Printed { bytes } => {
            push_word(into, "print ")?;
            into.extend_from_slice(bytes)
        }
        Event::Kept => push_word(into, "keep"),
        Event::Back => push_word(into, "back"),
        Event::Forgot => push_word(into, "succeed"),
    }
}

/// Adds a word, a line and a name.
fn push_at_line(into: &mut Vec<u8>, word: &str, line: u32, name: &Text) -> Result<(), AllocError>
    ensures { OnOk result (into.new.items ≡ into.old.items ++ (word.now ++ decimal line ++ 32 ∷ name.now)) }
{
    push_word(into, word)?;
    push_decimal(into, u64::from(line))?;
    into.push(b' ')?;
    into.extend_from_slice(name.bytes())
}

/// Adds the text of a value or of `om`.
fn push_value(into: &mut Vec<u8>, value: &Option<Value>, alloc: Global) -> Result<(), AllocError>
    ensures { OnOk result (into.new.items ≡ into.old.items ++ value_text (part value.now)) }
{
    match value {
        None => {
            into.push(b'*')?;
            Ok(())
        }
        Some(value) => {
            let text = setl_text::text(alloc, value)?;
            into.extend_from_slice(&text)
        }
    }
}
