ghost use Rattle.std.specs.Prelude.{◌≤◌, IfOk};

use crate::{DiskFiles, ReaderSource, WriterSink};
use setl_io::{Files, Load, Put, Sink, Source, Took};
use std::io::{Read, Write};
use std::test::Fail;
use std::{fs, io};

#[test]
fn a_file_is_loaded_up_to_the_limit(rt: HostRuntime) -> Result<(), Fail> {
    fs::write(&rt, "text", "abc")?;
    let mut files = DiskFiles::new(&rt);
    for (name, limit, answer, text) in [
        ("text", 3, Load::Loaded, "abc"),
        ("text", 2, Load::TooLong, ""),
        ("text", 0, Load::TooLong, ""),
        ("missing", 9, Load::Failed, ""),
        (".", 9, Load::Failed, ""),
    ] {
        let mut into = vec![in rt.alloc(); b'?'; 1]?;
        let load = files.load(name, limit, &mut into);
        assert_eq!(rt; load, answer, "at {name}");
        assert_eq!(rt; into.as_slice(), text.as_bytes(), "at {name}");
    }
    Ok(())
}

/// A stream that fails at its first call, moves at most one byte a call up to its fifth, and none from then on.
#[derive(Drop)]
struct Faulty {
    calls: u64,
}

impl Faulty {
    fn move_bytes(&mut self, most: usize) -> io::Result<usize>
        ensures { IfOk result (λ n. n ≤ most) }
    {
        self.calls = self.calls.saturating_add(1);
        match self.calls {
            1 => Err(io::Error::from(io::ErrorKind::Other)),
            2..=4 => Ok(most.min(1)),
            _ => Ok(0),
        }
    }
}

impl Read for Faulty {
    fn read(&mut self, buf: &mut [u8]) -> io::Result<usize> {
        self.move_bytes(buf.len())
    }
}

impl Write for Faulty {
    fn write(&mut self, buf: &[u8]) -> io::Result<usize> {
        self.move_bytes(buf.len())
    }

    fn flush(&mut self) -> io::Result<()> {
        Ok(())
    }
}

#[test]
fn a_stream_is_read_and_written_a_call_at_a_time(rt: HostRuntime) -> Result<(), Fail> {
    let mut input = ReaderSource::new(Faulty { calls: 0 });
    let mut out = WriterSink::new(Faulty { calls: 0 });
    for (len, took, put) in [
        (2, Took::Failed, Put::Failed),
        (2, Took::Bytes(1), Put::Took(1)),
        (0, Took::Bytes(0), Put::Took(0)),
        (1, Took::Bytes(1), Put::Took(1)),
        (2, Took::End, Put::Failed),
    ] {
        let mut room = [0u8; 2];
        let answer = input.read(&mut room[..len]);
        assert_eq!(rt; answer, took);
        let answer = out.write(&room[..len]);
        assert_eq!(rt; answer, put);
    }
    Ok(())
}
