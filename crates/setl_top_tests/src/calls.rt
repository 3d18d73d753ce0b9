//! Calls of the program over an outside in memory.

use crate::rows::{BETWEEN, fields, text};
use setl_io::{MemFiles, MemSink, MemSource};
use setl_top::{Status, setl};
use setl_watch::{Cover, Profile, Trace, Watcher};
use std::alloc::{AllocError, Global};
use std::process::Abort;

/// Which calls of the outside fail, 0 for none, and how many bytes the output takes a call.
#[derive(Clone, Copy)]
pub struct Faults {
    pub load: u64,
    pub write: u64,
    pub most: usize,
    pub tell: u64,
}

/// An outside that doesn't fail.
pub const NO_FAULTS: Faults = Faults {
    load: 0,
    write: 0,
    most: 99,
    tell: 0,
};

/// What a call answered, and what its outputs gained.
#[derive(Drop)]
pub struct Left {
    status: Status,
    out: Vec<u8>,
    err: Vec<u8>,
}

impl Left {
    /// What the output gained.
    pub fn out(&self) -> &[u8] {
        self.out.as_slice()
    }

    /// Whether the call answered so, the output gained these bytes, and the error output this text.
    pub fn gave(&self, status: Status, out: &[u8], err: &str) -> bool {
        let told = self.err.as_slice() == err.as_bytes();
        self.status == status && self.out.as_slice() == out && told
    }

    /// The same for an output that gained a text.
    pub fn is(&self, status: Status, out: &str, err: &str) -> bool {
        self.gave(status, out.as_bytes(), err)
    }

    /// Whether the call answered so, the output gained nothing, and the error output gained some other text.
    pub fn is_told_in_other_words(&self, status: Status) -> bool {
        let told = !self.err.is_empty()
            && self.err.as_slice() != b"not of the plain form\n".as_slice();
        self.status == status && self.out.is_empty() && told
    }

    /// The same for a status that is given as its number.
    pub fn ends(&self, status: u64, out: &str, err: &str) -> bool {
        u64::from(self.status.number()) == status && self.is(self.status, out, err)
    }
}

/// The words of a line.
fn words_of(alloc: Global, line: &str) -> Result<Vec<String>, AllocError> {
    let mut words = Vec::new(alloc);
    for word in line.split_whitespace() {
        words.push(String::from_str(alloc, word)?)?;
    }
    Ok(words)
}

/// The outside of a call, beside its input.
#[derive(Drop)]
struct Outside {
    files: MemFiles,
    out: MemSink,
    err: MemSink,
}

/// Files in which this source is `a`.
fn files_of(alloc: Global, source: &[u8], fails: u64) -> Result<MemFiles, AllocError> {
    let text = source.to_vec(alloc)?;
    let mut files = MemFiles::new(alloc, vec![in alloc; fails]?)?;
    files.add(String::from_str(alloc, "a")?, text)?;
    Ok(files)
}

fn sink(alloc: Global, most: usize, fails: u64) -> Result<MemSink, AllocError> {
    MemSink::new(alloc, most, vec![in alloc; fails]?)
}

fn outside_of(alloc: Global, source: &[u8], faults: Faults) -> Result<Outside, AllocError> {
    let files = files_of(alloc, source, faults.load)?;
    let out = sink(alloc, faults.most, faults.write)?;
    let err = sink(alloc, 99, faults.tell)?;
    Ok(Outside { files, out, err })
}

/// An input that is at its end.
fn no_input(alloc: Global) -> MemSource {
    MemSource::new(Vec::new(alloc), 1, Vec::new(alloc))
}

/// A call with the words of this line over this outside, which is handed these watchers.
fn called(
    alloc: Global,
    line: &str,
    watchers: Vec<Box<dyn Watcher>>,
    outside: &mut Outside,
    input: &mut MemSource,
) -> Result<Left, AllocError> {
    let words = words_of(alloc, line)?;
    let status = setl(
        alloc,
        &words,
        watchers,
        &mut outside.files,
        input,
        &mut outside.out,
        &mut outside.err,
    );
    let out = outside.out.held().to_vec(alloc)?;
    let err = outside.err.held().to_vec(alloc)?;
    Ok(Left { status, out, err })
}

/// A run of this source with the words `run --watch trace a`, which is handed these watchers.
pub fn call_watched(
    alloc: Global,
    source: &str,
    watchers: Vec<Box<dyn Watcher>>,
) -> Result<Left, AllocError> {
    let mut outside = outside_of(alloc, source.as_bytes(), NO_FAULTS)?;
    let mut input = no_input(alloc);
    called(
        alloc,
        "run --watch trace a",
        watchers,
        &mut outside,
        &mut input,
    )
}

/// A call with these words, with this source in the file `a` and with this input, which is handed a trace and a cover.
pub fn call_with(
    alloc: Global,
    line: &str,
    source: &[u8],
    input: &mut MemSource,
    faults: Faults,
) -> Result<Left, AllocError> {
    let mut watchers: Vec<Box<dyn Watcher>> = Vec::new(alloc);
    watchers.push(Box::new(alloc, Trace::new(alloc)?)?)?;
    watchers.push(Box::new(alloc, Cover::new(alloc)?)?)?;
    watchers.push(Box::new(alloc, Profile::new(alloc)?)?)?;
    let mut outside = outside_of(alloc, source, faults)?;
    called(alloc, line, watchers, &mut outside, input)
}

/// A call without an input.
pub fn call(alloc: Global, line: &str, source: &[u8], faults: Faults) -> Result<Left, AllocError> {
    let mut input = no_input(alloc);
    call_with(alloc, line, source, &mut input, faults)
}

/// A call without an input, over an outside that doesn't fail. The last line end of the source is left out.
pub fn answer(alloc: Global, line: &str, source: &str) -> Result<Left, AllocError> {
    call(alloc, line, text(source).as_bytes(), NO_FAULTS)
}

/// Compares such calls with what they answer. A row has the words, the source, what is printed and what is told.
pub fn expect_calls(
    rt: &impl Abort,
    alloc: Global,
    status: Status,
    table: &str,
) -> Result<(), AllocError> {
    for row in table.split(BETWEEN) {
        let [line, source, out, err, _] = fields(row);
        let left = answer(alloc, line, source)?;
        assert!(rt; left.is(status, out, err), "at {row}");
    }
    Ok(())
}

/// A call with these words and a program over an outside that doesn't fail. The body has the program's declarations,
/// statements and procedures, which begin on line 1; its last line end is left out. A byte of the input comes a call.
pub fn run_with(alloc: Global, line: &str, body: &str, input: &str) -> Result<Left, AllocError> {
    let body = text(body);
    let source = format!(in alloc; "program p; {body} end program;")?;
    call_on(alloc, line, source.as_bytes(), input, NO_FAULTS)
}

/// A call with these words and this source. A byte of the input comes a call.
pub fn call_on(
    alloc: Global,
    line: &str,
    source: &[u8],
    input: &str,
    faults: Faults,
) -> Result<Left, AllocError> {
    let input = input.as_bytes().to_vec(alloc)?;
    let mut input = MemSource::new(input, 1, Vec::new(alloc));
    call_with(alloc, line, source, &mut input, faults)
}

/// A run of a program with this body.
pub fn run(alloc: Global, body: &str, input: &str) -> Result<Left, AllocError> {
    run_with(alloc, "run a", body, input)
}

/// Compares such runs with what they answer. A row has the body, what is printed, what is told and the input.
pub fn expect(
    rt: &impl Abort,
    alloc: Global,
    status: Status,
    table: &str,
) -> Result<(), AllocError> {
    for row in table.split(BETWEEN) {
        let [body, out, err, input, _] = fields(row);
        let left = run(alloc, body, text(input))?;
        assert!(rt; left.is(status, out, err), "at {row}");
    }
    Ok(())
}
