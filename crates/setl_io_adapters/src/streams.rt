//! Streams that are read or written.
ghost use Rattle.std.specs.Prelude.{◌≡◌, None};
ghost use Rattle.setl_io_adapters.specs.Telling.{only_bytes};

use setl_io::{Put, Sink, Source, Took};
use std::io::{Read, Write};

/// A stream that is read, and how many faults were met, at most 2^64 - 1.
#[derive(Drop)]
pub struct ReaderSource<R: Read> {
    pub reader: R,
    pub faults: u64,
}

impl<R: Read> ReaderSource<R> {
    /// No fault is counted yet.
    pub fn new(reader: R) -> ReaderSource<R>
        ensures { result ≡ record { reader = reader; faults = 0 } }
    {
        ReaderSource { reader, faults: 0 }
    }
}

impl<R: Read> Source for ReaderSource<R> {
    ghost left = { λ source. only_bytes (R.remaining source.reader) };

    ghost calls = { λ _. None };

    ghost faults = { λ source. source.faults };

    /// One read of the stream; no byte is kept back.
    #[tactic(auto, using(crate::proofs::Telling::tells_bytes, crate::proofs::Telling::reads))]
    fn read(&mut self, into: &mut [u8]) -> Took {
        match self.reader.read(into) {
            Ok(0) if !into.is_empty() => Took::End,
            Ok(count) => Took::Bytes(count),
            Err(_) => {
                self.faults = self.faults.saturating_add(1);
                Took::Failed
            }
        }
    }
}

/// A stream that is written, and how many faults were met, at most 2^64 - 1.
#[derive(Drop)]
pub struct WriterSink<W: Write> {
    pub writer: W,
    pub faults: u64,
}

impl<W: Write> WriterSink<W> {
    /// No fault is counted yet.
    pub fn new(writer: W) -> WriterSink<W>
        ensures { result ≡ record { writer = writer; faults = 0 } }
    {
        WriterSink { writer, faults: 0 }
    }
}

impl<W: Write> Sink for WriterSink<W> {
    ghost held = { λ sink. W.contents sink.writer };

    ghost pieces = { λ _. None };

    ghost faults = { λ sink. sink.faults };

    /// One write to the stream; no byte is kept back.
    fn write(&mut self, piece: &[u8]) -> Put {
        match self.writer.write(piece) {
            Ok(count) if count > 0 || piece.is_empty() => Put::Took(count),
            _ => {
                self.faults = self.faults.saturating_add(1);
                Put::Failed
            }
        }
    }
}
