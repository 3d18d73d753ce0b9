//! Real files, by their paths.
ghost use Rattle.std.specs.Prelude.{◌≡◌, None};

use setl_io::{Files, Load};
use std::io::Read;
use std::{fs, io, rt};

/// Real files, by their paths, and how many faults were met, at most 2^64 - 1.
#[derive(Drop)]
pub struct DiskFiles<'a, R: rt::Files> {
    rt: &'a R,
    pub faults: u64,
}

impl<'a, R: rt::Files> DiskFiles<'a, R> {
    /// The files that the host gives; no fault is counted yet.
    pub fn new(rt: &'a R) -> DiskFiles<'a, R>
        ensures { result.faults ≡ 0 }
    {
        DiskFiles { rt, faults: 0 }
    }
}

impl<R: rt::Files> Files for DiskFiles<'_, R> {
    ghost texts = { λ _. None };

    ghost asked = { λ _. None };

    ghost faults = { λ files. files.faults };

    /// Reads up to one byte more than the limit, so that a file that never ends is too long.
    fn load(&mut self, name: &str, limit: u64, into: &mut Vec<u8>) -> Load {
        into.clear();
        let load = match read_front(self.rt, name, limit.saturating_add(1), into) {
            Ok(()) if into.len() as u64 <= limit => return Load::Loaded,
            Ok(()) => Load::TooLong,
            Err(error) if error.kind() == io::ErrorKind::OutOfMemory => Load::NoMemory,
            Err(_) => {
                self.faults = self.faults.saturating_add(1);
                Load::Failed
            }
        };
        into.clear();
        load
    }
}

/// Reads at most `most` bytes of a file. A read that a signal interrupts is tried again.
fn read_front<R: rt::Files>(rt: &R, name: &str, most: u64, into: &mut Vec<u8>) -> io::Result<()> {
    fs::open(rt, name)?.take(most).read_to_end(into)?;
    Ok(())
}
