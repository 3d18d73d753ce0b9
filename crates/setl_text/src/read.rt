//! The reader of denotations.

ghost use Rattle.std.specs.Prelude.{◌≡◌, ◌≤◌, [], true, false, Err, None, IfOk, MatchOption};
ghost use Rattle.setl_value.specs.code.DatumOf.{part};
ghost use Rattle.setl_text.specs.Denoted.{IsDecided};
ghost use Rattle.setl_text.specs.Reading.{Denotes};
ghost use Rattle.setl_text.specs.code.Scans.{token_of, opens, reading_of, TokenFits, IsShallow, Scans};
ghost use Rattle.setl_text.specs.code.Reads.{ahead, StaysHonest, TakesOff, Answers, AnswersTold, KeepsFault, SourceCounts, ScansKept, Fills};

use crate::place::Collection;
use crate::scan::{Fed, Piece, feed, finish};
use crate::{Got, ReadFault};
use setl_io::{Source, Took, are_bytes};
use setl_value::Value;
use std::alloc::{AllocError, Global};
use std::marker::Model;

/// Reads denotations one after another. It asks an input for at most 4,096 bytes at a time, and only where those that
/// it keeps don't end the denotation, and never again once it told its end. Contracts see the bytes that it keeps, whether
/// the input told its end, and the fault that it answers from now on.
#[derive(Drop)]
pub struct Reader {
    alloc: Global,
    buffer: Vec<u8>,
    at: usize,
    end: usize,
    ended: bool,
    stopped: Option<ReadFault>,
}

impl Model for Reader {
    ghost use Rattle.std.specs.Prelude.{drop, take, ◌≤◌, ◌<◌, vec_len};
    ghost use Rattle.setl_text.specs.code.Reads.{ReaderState};

    ghost Value = { ReaderState };

    ghost view = { λ r. record { kept = drop r.at (take r.end r.buffer.items); ended = r.ended; fault = r.stopped } };

    ghost invariant = { λ r. (r.at ≤ r.end) × (r.end ≤ vec_len r.buffer) × (0 < vec_len r.buffer) };
}

/// What became of some bytes: all were taken and the denotation goes on, or it ends behind the first n of them.
#[derive(Drop)]
pub(crate) enum Scanned {
    Onward(Piece),
    Found(Option<Value>, usize),
}

impl Reader {
    /// A reader that keeps no byte, with room for 4,096. The error is want of memory.
    pub fn new(alloc: Global) -> Result<Reader, AllocError>
        ensures { IfOk result (λ r. r ≡ record { kept = []; ended = false; fault = None }) }
    {
        Ok(Reader {
            alloc,
            buffer: vec![in alloc; 0; 4096]?,
            at: 0,
            end: 0,
            ended: false,
            stopped: None,
        })
    }

    /// Reads the denotation at the front of the bytes that the reader keeps followed by those that the input has left.
    ///
    /// `Value` and `Om` come where a value or `*` is denoted, `End` where only blanks are left. The bytes kept and left
    /// after that are those behind the denotation. `Form` comes where the bytes begin no denotation or end inside one,
    /// `Wide` at an integer outside of 128 bits, `Deep` where the 501st depth is opened, each where it stands first.
    /// `Source` comes where the input failed and counted it, `NoMemory` for want of memory, or where 2^64 - 1 pieces of
    /// the input don't decide, whose bytes no memory holds. After a fault every call
    /// answers the same fault and leaves the input alone. Where the bytes kept decide the answer, whatever follows them,
    /// the input isn't asked.
    pub fn next<I: Source>(&mut self, input: &mut I) -> Result<Got, ReadFault>
        ensures answer { self.old.fault ≡ None → Answers self.old.kept (ahead self.old.ended (I.left input.old)) self.new.kept (ahead self.new.ended (I.left input.new)) result }
        ensures told { self.old.fault ≡ None → AnswersTold self.old.kept (ahead self.old.ended (I.left input.old)) self.new.kept (ahead self.new.ended (I.left input.new)) result }
        ensures fault { MatchOption self.old.fault (KeepsFault result self.new.fault) (λ f. (result ≡ Err f) × (self.new ≡ self.old) × (input.new ≡ input.old)) }
        ensures source { self.old.fault ≡ None → SourceCounts (I.faults input.old) (I.faults input.new) result }
        ensures later { I.faults input.old ≤ I.faults input.new }
        ensures decided { IsDecided self.old.kept → input.new ≡ input.old }
        ensures ended { self.old.ended ≡ true → input.new ≡ input.old }
        ensures honest { StaysHonest self.old.ended (I.left input.old) self.new.ended (I.left input.new) }
        ensures took { TakesOff (I.left input.old) (I.left input.new) }
    {
        if let Some(fault) = self.stopped {
            return Err(fault);
        }
        match self.read(input) {
            Ok(got) => Ok(got),
            Err(fault) => {
                self.stopped = Some(fault);
                Err(fault)
            }
        }
    }

    fn read<I: Source>(&mut self, input: &mut I) -> Result<Got, ReadFault>
        ensures answer { Answers self.old.kept (ahead self.old.ended (I.left input.old)) self.new.kept (ahead self.new.ended (I.left input.new)) result }
        ensures fault { self.new.fault ≡ self.old.fault }
        ensures source { SourceCounts (I.faults input.old) (I.faults input.new) result }
        ensures later { I.faults input.old ≤ I.faults input.new }
        ensures decided { IsDecided self.old.kept → input.new ≡ input.old }
        ensures ended { self.old.ended ≡ true → input.new ≡ input.old }
        ensures honest { StaysHonest self.old.ended (I.left input.old) self.new.ended (I.left input.new) }
        ensures took { TakesOff (I.left input.old) (I.left input.new) }
    {
        let mut piece = Piece::Idle;
        let mut opened = Vec::new(self.alloc);
        'reads: for _ in 0..u64::MAX {
            match self.scan_kept(piece, &mut opened) {
                Ok(Scanned::Found(v, _)) => return Ok(got(v)),
                Ok(Scanned::Onward(onward)) => piece = onward,
                Err(fault) => return Err(fault),
            }
            match self.fill(input) {
                Ok(true) => {}
                Ok(false) => return finish(self.alloc, piece, &mut opened),
                Err(fault) => return Err(fault),
            }
        }
        Err(ReadFault::NoMemory)
    }

    // Takes the bytes kept, up to the end of the denotation.
    fn scan_kept(
        &mut self,
        piece: Piece,
        opened: &mut Vec<Collection>,
    ) -> Result<Scanned, ReadFault>
        requires token { TokenFits (token_of piece) }
        requires shallow { IsShallow (opens opened.old.items) }
        ensures scans { ScansKept self.old.kept self.new.kept (token_of piece) (opens opened.old.items) (opens opened.new.items) result }
        ensures ended { self.new.ended ≡ self.old.ended }
        ensures fault { self.new.fault ≡ self.old.fault }
    {
        match scan(self.alloc, &self.buffer[self.at..self.end], piece, opened) {
            Ok(Scanned::Found(v, n)) => {
                self.at += n;
                Ok(Scanned::Found(v, n))
            }
            Ok(Scanned::Onward(onward)) => {
                self.at = self.end;
                Ok(Scanned::Onward(onward))
            }
            Err(fault) => Err(fault),
        }
    }

    // Asks the input for bytes, unless it told its end, and says whether it gave some.
    fn fill<I: Source>(&mut self, input: &mut I) -> Result<bool, ReadFault>
        ensures bytes { Fills (ahead self.old.ended (I.left input.old)) (ahead self.new.ended (I.left input.new)) self.new.kept result }
        ensures fault { self.new.fault ≡ self.old.fault }
        ensures source { SourceCounts (I.faults input.old) (I.faults input.new) result }
        ensures later { I.faults input.old ≤ I.faults input.new }
        ensures ended { self.old.ended ≡ true → input.new ≡ input.old }
        ensures stays { self.old.ended ≡ true → self.new.ended ≡ true }
        ensures honest { StaysHonest self.old.ended (I.left input.old) self.new.ended (I.left input.new) }
        ensures took { TakesOff (I.left input.old) (I.left input.new) }
    {
        self.at = self.end;
        if self.ended {
            return Ok(false);
        }
        match input.read(self.buffer.as_mut_slice()) {
            Took::Bytes(n) => {
                are_bytes(&self.buffer[..n]);
                self.at = 0;
                self.end = n;
                Ok(true)
            }
            Took::End => {
                self.ended = true;
                Ok(false)
            }
            Took::Failed => Err(ReadFault::Source),
        }
    }
}

// The answer for a value or `om`.
fn got(v: Option<Value>) -> Got
    ensures { (rest : _) → reading_of result rest ≡ Denotes (part v) rest }
{
    match v {
        Some(v) => Got::Value(v),
        None => Got::Om,
    }
}

// Takes these bytes, up to the end of the denotation.
fn scan(
    alloc: Global,
    bytes: &[u8],
    piece: Piece,
    opened: &mut Vec<Collection>,
) -> Result<Scanned, ReadFault>
    requires token { TokenFits (token_of piece) }
    requires shallow { IsShallow (opens opened.old.items) }
    ensures { Scans bytes.now (token_of piece) (opens opened.old.items) (opens opened.new.items) result }
{
    let mut piece = piece;
    let mut taken: usize = 0;
    'bytes: while taken < bytes.len() {
        match feed(alloc, piece, opened, bytes[taken])? {
            Fed::More(onward) => piece = onward,
            Fed::Through(v) => return Ok(Scanned::Found(v, taken + 1)),
            Fed::Before(v) => return Ok(Scanned::Found(v, taken)),
        }
        taken += 1;
    }
    Ok(Scanned::Onward(piece))
}
