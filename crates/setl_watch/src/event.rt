//! Events.

ghost use Rattle.std.specs.Prelude.{◌≡◌, IfOk};
ghost use Rattle.setl_value.specs.code.DatumOf.{part};
ghost use Rattle.setl_watch.specs.Notices.{Stored};
ghost use Rattle.setl_watch.specs.code.NoticeOf.{notice_of};

use setl_tree::Text;
use setl_value::Value;
use std::alloc::{AllocError, Global};

/// What happened in a run. Lines are those of statements in the source, from 1.
#[derive(Drop)]
pub enum Event {
    /// The statement of a line called a procedure.
    Called {
        line: u32,
        name: Text,
    },
    /// A procedure returned.
    Returned {
        name: Text,
    },
    /// A variable was stored by the statement of a line, where None is `om`.
    Stored {
        line: u32,
        name: Text,
        value: Option<Value>,
    },
    /// A line was printed: its bytes without byte 10 at its end.
    Printed {
        bytes: Vec<u8>,
    },
    /// `ok` kept the state.
    Kept,
    /// `fail` brought a kept state back.
    Back,
    /// `succeed` forgot a kept state.
    Forgot,
}

impl Event {
    /// The same event, which shares its name and its value. The error is want of memory.
    pub fn copy(&self, alloc: Global) -> Result<Event, AllocError>
        ensures { IfOk result (λ e. notice_of e ≡ notice_of self.now) }
    {
        match self {
            Event::Called { line, name } => Ok(Event::Called {
                line: *line,
                name: name.copy()?,
            }),
            Event::Returned { name } => Ok(Event::Returned { name: name.copy()? }),
            Event::Stored { line, name, value } => copy_store(*line, name, value),
            Event::Printed { bytes } => Ok(Event::Printed {
                bytes: bytes.to_vec(alloc)?,
            }),
            Event::Kept => Ok(Event::Kept),
            Event::Back => Ok(Event::Back),
            Event::Forgot => Ok(Event::Forgot),
        }
    }
}

/// A store with the same name and value.
fn copy_store(line: u32, name: &Text, value: &Option<Value>) -> Result<Event, AllocError>
    ensures { IfOk result (λ e. notice_of e ≡ Stored line name.now (part value.now)) }
{
    let name = name.copy()?;
    let value = match value {
        Some(value) => Some(value.copy()?),
        None => None,
    };
    Ok(Event::Stored { line, name, value })
}
