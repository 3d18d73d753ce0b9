//! Worked texts and denotations, inputs that are cut into pieces of each size, and an input that fails in mid-stream.

ghost use Rattle.std.specs.Prelude.{◌<◌};

use crate::written::Work;
use setl_io::MemSource;
use setl_text::{Got, ReadFault, Reader, line};
use std::alloc::AllocError;
use std::process::Abort;
use std::test::Fail;

// The letter of a fault.
fn letter(fault: ReadFault) -> &'static str {
    match fault {
        ReadFault::Form => "F",
        ReadFault::Wide => "W",
        ReadFault::Deep => "D",
        ReadFault::Source => "S",
        ReadFault::NoMemory => "N",
    }
}

// The text of an answer and a blank, a full stop at the end of the input, or the letter of a fault. It says whether
// another answer may follow.
fn put_answer(w: &mut Work, answer: &Result<Got, ReadFault>) -> bool {
    match answer {
        Ok(Got::Value(v)) => {
            w.put_value(v);
            w.put(" ");
            true
        }
        Ok(Got::Om) => {
            w.put("* ");
            true
        }
        Ok(Got::End) => {
            w.put(".");
            false
        }
        Err(fault) => {
            w.put(letter(*fault));
            false
        }
    }
}

// The answers up to the first that ends the reading, and the one after it.
fn put_answers(w: &mut Work, reader: &mut Reader, input: &mut MemSource) {
    for _ in 0..20 {
        if !put_answer(w, &reader.next(input)) {
            break;
        }
    }
    put_answer(w, &reader.next(input));
}

// The answers of an input that gives so many bytes a call, and whose calls of these numbers fail.
fn put_pieces(w: &mut Work, input: &str, piece: usize, fails: &[u64]) -> Result<(), AllocError>
    requires { 0 < piece }
{
    let bytes = input.as_bytes().to_vec(w.alloc)?;
    let mut source = MemSource::new(bytes, piece, fails.to_vec(w.alloc)?);
    let mut reader = Reader::new(w.alloc)?;
    put_answers(w, &mut reader, &mut source);
    Ok(())
}

// Inputs and their answers, with an empty line between two rows.
const INPUTS: &str = "{1 [2 'a']} 7 => {1 [2 'a']} 7 ..

{3,1,2,1} [1,*,2] 'it''s' => {1 2 3} [1 * 2] 'it''s' ..

\t{,,1,}[* 1 * *]*\r
 => {1} [* 1] * ..

12true-5 007'x''''y' => 12 true -5 7 'x''''y' ..

{'b' {} [] -1 FALSE {[]} 'a'} => {false -1 'a' 'b' [] {} {[]}} ..

 => ..

1 truefalse => 1 FF

{1 [2 => FF

{1 *} => FF

{1] => FF

- => FF

,1 => FF

'a
' => FF

1 $ => 1 FF

170141183460469231731687303715884105727 170141183460469231731687303715884105728 => 170141183460469231731687303715884105727 WW

-170141183460469231731687303715884105728 -170141183460469231731687303715884105729 => -170141183460469231731687303715884105728 WW";

// Reads the input of a row in pieces of this size, writes the row anew, and compares.
fn expect_pieces(rt: &impl Abort, w: &mut Work, row: &str, piece: usize) -> Result<(), AllocError>
    requires { 0 < piece }
{
    let (input, _) = row.split_once(" => ").unwrap_or((row, ""));
    w.clear();
    w.put(input);
    w.put(" => ");
    put_pieces(w, input, piece, &[])?;
    assert_eq!(rt; w.text.as_str(), row);
    Ok(())
}

fn expect_input(rt: &impl Abort, w: &mut Work, row: &str) -> Result<(), AllocError> {
    for piece in 1..30 {
        expect_pieces(rt, w, row, piece)?;
    }
    Ok(())
}

#[test]
fn denotations_are_read_in_pieces_of_each_size(rt: HostRuntime) -> Result<(), Fail> {
    for row in INPUTS.split("\n\n") {
        expect_input(&rt, &mut Work::new(rt.alloc()), row)?;
    }
    Ok(())
}

/// Rows, a line each: what is read. `12 {3}` is read in pieces of 2 bytes, and the read of this number fails; or so many
/// opening brackets and as many closing ones are read whole, with the first sign of what is told.
pub const READS: &str = "failing 1 | SS
failing 2 | SS
failing 3 | 12 SS
failing 4 | 12 {3} SS
failing 5 | 12 {3} ..
deep 500 | [
deep 501 | D";

// What is told of so many opening brackets, and as many closing ones.
fn put_brackets(w: &mut Work, depth: usize) -> Result<(), AllocError> {
    let mut bytes = vec![in w.alloc; b'['; depth]?;
    bytes.extend_from_slice(vec![in w.alloc; b']'; depth]?.as_slice())?;
    let mut reader = Reader::new(w.alloc)?;
    let mut source = MemSource::new(bytes, 4096, Vec::new(w.alloc));
    put_answers(w, &mut reader, &mut source);
    Ok(())
}

// The first sign of it.
fn put_first_sign(w: &mut Work, depth: usize) -> Result<(), AllocError> {
    let mut all = Work::new(w.alloc);
    put_brackets(&mut all, depth)?;
    w.put_bytes(all.text.as_bytes().get(..1).unwrap_or(b"?"));
    Ok(())
}

/// What is told of the input of a row.
pub fn put_read(w: &mut Work, row: &str) {
    let (input, number) = row.split_once(' ').unwrap_or((row, ""));
    let outcome = match input {
        "failing" => put_pieces(w, "12 {3}", 2, &[number.parse().unwrap_or(0)]),
        _ => put_first_sign(w, number.parse().unwrap_or(0)),
    };
    w.note(outcome);
}

/// Rows, a line each: arguments, the line of them, whose end is written as `$`, and their texts.
pub const LINES: &str = "{3 1 2 1} [1 * 2] 'it''s' | {1 2 3} [1 * 2] it's$ {1 2 3} [1 * 2] 'it''s'
* true | * true$ * true
 | $
atom 7 | #7$ #7";

/// The line of the arguments of a row, and their texts.
pub fn put_line_and_texts(w: &mut Work, row: &str) {
    w.read(row);
    let made = line(w.alloc, w.values.as_slice());
    w.put_made(&made);
    for _ in 0..20 {
        w.put_next();
    }
}
