//! The outside in memory: what is loaded, read and written, with each call failing in turn.

use crate::written::Work;
use setl_io::{
    Files, Load, MemFiles, MemSink, MemSource, Put, Sink, Source, SureFiles, SureSink, SureSource,
    Took, WriteFault, write_all,
};
use std::alloc::{AllocError, Global};

// Each text behind its name; the second one of `a` comes in place of the first.
const TEXTS: &str = "a other
b d
a abc";

fn add_to_mem(alloc: Global, files: &mut MemFiles) -> Result<(), AllocError> {
    for row in TEXTS.lines() {
        let (name, text) = row.split_once(' ').unwrap_or((row, ""));
        let text = text.as_bytes().to_vec(alloc)?;
        files.add(String::from_str(alloc, name)?, text)?;
    }
    Ok(())
}

fn add_to_sure(alloc: Global, files: &mut SureFiles) -> Result<(), AllocError> {
    for row in TEXTS.lines() {
        let (name, text) = row.split_once(' ').unwrap_or((row, ""));
        let text = text.as_bytes().to_vec(alloc)?;
        files.add(String::from_str(alloc, name)?, text)?;
    }
    Ok(())
}

// A mark for what became of a load.
fn mark_of_load(load: Load) -> &'static str {
    match load {
        Load::Loaded => "=",
        Load::TooLong => "+",
        Load::Failed => "!",
        Load::NoMemory => "0",
    }
}

// Loads a text, which is written with its limit, into a list that isn't empty: what stands there then, and the mark.
fn put_load<F: Files>(w: &mut Work, files: &mut F, text: &str) -> Result<(), AllocError> {
    let (name, limit) = text.split_once(':').unwrap_or((text, ""));
    let mut into = vec![in w.alloc; b'?'; 1]?;
    let load = files.load(name, limit.parse().unwrap_or(0), &mut into);
    w.put_bytes(into.as_slice());
    w.put(mark_of_load(load));
    Ok(())
}

fn put_loads<F: Files>(w: &mut Work, files: &mut F, texts: &str) -> Result<(), AllocError> {
    for text in texts.split(',') {
        put_load(w, files, text)?;
    }
    Ok(())
}

// Loads, of which the one of this number fails.
fn put_mem_loads(w: &mut Work, failing: u64, texts: &str) -> Result<(), AllocError> {
    let mut files = MemFiles::new(w.alloc, vec![in w.alloc; failing; 1]?)?;
    add_to_mem(w.alloc, &mut files)?;
    put_loads(w, &mut files, texts)
}

fn put_sure_loads(w: &mut Work, texts: &str) -> Result<(), AllocError> {
    let mut files = SureFiles::new(w.alloc)?;
    add_to_sure(w.alloc, &mut files)?;
    put_loads(w, &mut files, texts)
}

// Four reads with room for two bytes: the bytes, and a mark for each answer.
fn put_reads<S: Source>(w: &mut Work, source: &mut S) {
    for _ in 0..4 {
        let mut room = [0u8; 2];
        match source.read(&mut room) {
            Took::Bytes(count) => {
                w.put_bytes(&room[..count]);
                w.put("|");
            }
            Took::End => w.put("."),
            Took::Failed => w.put("!"),
        }
    }
}

// Four reads of `abc`, which comes in pieces, and of which the read of this number fails.
fn put_mem_reads(w: &mut Work, piece: usize, failing: u64) -> Result<(), AllocError> {
    if piece == 0 {
        return Ok(());
    }
    let bytes = b"abc".to_vec(w.alloc)?;
    let fails = vec![in w.alloc; failing; 1]?;
    put_reads(w, &mut MemSource::new(bytes, piece, fails));
    Ok(())
}

// Three writes of `ab`: the number of bytes that are taken, or a mark.
fn put_writes<S: Sink>(w: &mut Work, sink: &mut S) {
    for _ in 0..3 {
        match sink.write(b"ab") {
            Put::Took(count) => w.put_debug(count),
            Put::Failed => w.put("!"),
            Put::NoMemory => w.put("N"),
        }
    }
}

fn mark_of_writing(outcome: Result<(), WriteFault>) -> &'static str {
    match outcome {
        Ok(()) => "=",
        Err(WriteFault::Failed) => "!",
        Err(WriteFault::NoMemory) => "0",
    }
}

// Three writes to a sink, or a whole piece written to it, and what the sink holds then. It takes so many bytes a call and
// fails at the call of this number.
fn put_mem_writes(w: &mut Work, most: usize, failing: u64, piece: &str) -> Result<(), AllocError> {
    let mut sink = MemSink::new(w.alloc, most, vec![in w.alloc; failing; 1]?)?;
    if piece == "thrice" {
        put_writes(w, &mut sink);
    } else {
        w.put(mark_of_writing(write_all(&mut sink, piece.as_bytes())));
    }
    w.put_bytes(sink.held());
    Ok(())
}

fn put_sure_reads(w: &mut Work) -> Result<(), AllocError> {
    let mut source = SureSource::new(b"abc".to_vec(w.alloc)?);
    put_reads(w, &mut source);
    Ok(())
}

fn put_sure_writes(w: &mut Work) -> Result<(), AllocError> {
    let mut sink = SureSink::new(w.alloc)?;
    put_writes(w, &mut sink);
    w.put_bytes(sink.held());
    Ok(())
}

/// Rows, a line each: calls of an object, how many bytes it gives or takes a call, the number of the call that fails, and
/// texts. A load tells the text and `=`, `+` where it is too long, or `!` where it failed; a read the bytes and a stroke,
/// a full stop at the end, or `!`; a write how many bytes were taken, or `!`. What a sink holds then is told last.
pub const CALLS: &str = "mem_files 0 0 a:3,a:2,b:9,c:9 | abc=+d=!
sure_files 0 0 a:3,a:2,b:9,c:9 | abc=+d==
mem_files 0 1 a:3,a:3,a:3 | !abc=abc=
mem_files 0 2 a:3,a:3,a:3 | abc=!abc=
mem_files 0 3 a:3,a:3,a:3 | abc=abc=!
mem_source 1 0 | a|b|c|.
mem_source 9 0 | ab|c|..
mem_source 9 1 | !ab|c|.
mem_source 9 2 | ab|!c|.
mem_source 9 3 | ab|c|!.
mem_source 1 4 | a|b|c|!
sure_source 0 0 | ab|c|..
mem_sink 9 0 thrice | 222ababab
mem_sink 1 0 thrice | 111aaa
mem_sink 0 0 thrice | !!!
mem_sink 9 1 thrice | !22abab
mem_sink 9 2 thrice | 2!2abab
mem_sink 1 3 thrice | 11!aa
sure_sink 0 0 | 222ababab
mem_sink 9 0 abc | =abc
mem_sink 1 0 abc | =abc
mem_sink 1 4 abc | =abc
mem_sink 0 1 | =
mem_sink 0 0 abc | !
mem_sink 9 1 abc | !
mem_sink 1 3 abc | !ab";

// The four fields of a row.
fn fields(row: &str) -> [&str; 4] {
    let mut all = row.split(' ');
    [
        all.next().unwrap_or(""),
        all.next().unwrap_or(""),
        all.next().unwrap_or(""),
        all.next().unwrap_or(""),
    ]
}

fn calls(w: &mut Work, row: &str) -> Result<(), AllocError> {
    let [call, bytes, failing, text] = fields(row);
    let bytes = bytes.parse().unwrap_or(0);
    let failing = failing.parse().unwrap_or(0);
    match call {
        "mem_files" => put_mem_loads(w, failing, text),
        "sure_files" => put_sure_loads(w, text),
        "mem_source" => put_mem_reads(w, bytes, failing),
        "sure_source" => put_sure_reads(w),
        "mem_sink" => put_mem_writes(w, bytes, failing, text),
        _ => put_sure_writes(w),
    }
}

/// What the calls of a row tell.
pub fn put_calls(w: &mut Work, row: &str) {
    let outcome = calls(w, row);
    w.note(outcome);
}
