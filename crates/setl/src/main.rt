//! The program `setl`: hands its words, the real files and the three standard streams to the top call.
//!
//! All that matters is proved of that call. What stands here is trusted: it makes the objects that the call is handed
//! and ends with the number of the status that it answers.
#![tactic(auto)]

use setl_io_adapters::{DiskFiles, ReaderSource, WriterSink};
use setl_top::{Status, setl};
use setl_top_status::{Fault, break_off};
use setl_watch::{Cover, Profile, Trace, Watcher};
use std::alloc::{AllocError, Global};
use std::process::ExitCode;
use std::{env, io};

/// The words after the program's own name.
///
/// The error's kind is `OutOfMemory` where memory for them is refused, and another one where a word isn't UTF-8.
fn words(rt: &(impl env::Env + Alloc<A = Global>)) -> io::Result<Vec<String>> {
    Ok(env::args(rt)?.skip(1).collect(rt.alloc())?)
}

/// Does what the words ask for, over the real files and the standard streams, with a trace, a cover and a profile to be
/// asked for. The error is want of memory for these.
fn run(rt: &HostRuntime, words: &[String]) -> Result<Status, AllocError> {
    let alloc = rt.alloc();
    let mut watchers: Vec<Box<dyn Watcher>> = Vec::new(alloc);
    watchers.push(Box::new(alloc, Trace::new(alloc)?)?)?;
    watchers.push(Box::new(alloc, Cover::new(alloc)?)?)?;
    watchers.push(Box::new(alloc, Profile::new(alloc)?)?)?;
    let mut files = DiskFiles::new(rt);
    let mut input = ReaderSource::new(rt.stdin());
    let mut out = WriterSink::new(rt.stdout());
    let mut err = WriterSink::new(rt.stderr());
    Ok(setl(
        alloc, words, watchers, &mut files, &mut input, &mut out, &mut err,
    ))
}

/// Tells that memory was refused before the call.
fn starve(rt: &HostRuntime) -> Status {
    break_off(&mut WriterSink::new(rt.stderr()), Fault::NoMemory)
}

fn main(rt: HostRuntime) -> ExitCode {
    let status = match words(&rt) {
        Ok(words) => run(&rt, &words).unwrap_or_else(|_| starve(&rt)),
        Err(error) if error.kind() == io::ErrorKind::OutOfMemory => starve(&rt),
        Err(_) => Status::Words,
    };
    ExitCode::from(status.number())
}
