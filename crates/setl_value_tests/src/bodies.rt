//! Bodies that change while a copy is held, and bounds on counts and depths.

use crate::written::Work;
use setl_operators::{Operator, op_two};
use setl_scalar::ScalarFault;
use setl_set::{less, walk};
use setl_text::{line, text};
use setl_tuple::{TupleFault, put, repeat, with};
use setl_value::{SetBody, Text, TupleBody, Value};
use std::alloc::{AllocError, Global};

/// Rows, a line each: what is done with a value, the value, what is told while it is done, and the value after it.
pub const WORKS: &str = "change | {1 2} | {1 2} true {2 3}$
cut | {1 2} | {1 2} 1 {2}$
visit | {3 1 2 1} | 1 2 3 {1 2 3}$
change | [1 *] | [1] true [3]$
cut | [1 * 5] | 1 5 []$
copy | [1 {2}] | true [1 {2}] [1 {2}]$
lend | {} | {1} {}$
make | 0 | {} ab -5 0$";

// 3 is put into a set and 1 is taken out: a copy of the set as it was before, and whether both was done.
fn change_set(w: &mut Work, s: &mut SetBody) -> Result<(), AllocError> {
    w.add(Some(Value::Set(s.copy()?)));
    let is_in = setl_set::with(w.alloc, s, Value::Int(3)).is_ok();
    let is_out = less(s, &Value::Int(1)).is_ok();
    w.add(Some(Value::Bool(is_in && is_out)));
    Ok(())
}

// The first member of a set is taken out: a copy of the set as it was before, and that member.
fn cut_set(w: &mut Work, s: &mut SetBody) -> Result<(), AllocError> {
    w.add(Some(Value::Set(s.copy()?)));
    if s.len() > 0 {
        w.add_made(s.cut_at(0));
    }
    Ok(())
}

// The members as they are visited.
fn visit(w: &mut Work, s: &SetBody) {
    for v in walk(s) {
        w.add_made(v.copy());
    }
}

fn work_on_set(w: &mut Work, call: &str, s: &mut SetBody) -> Result<(), AllocError> {
    match call {
        "change" => change_set(w, s),
        "cut" => cut_set(w, s),
        _ => {
            visit(w, s);
            Ok(())
        }
    }
}

// The first component of a tuple becomes 3: a copy of the tuple as it was before, and whether it was done.
fn change_tuple(w: &mut Work, t: &mut TupleBody) -> Result<(), AllocError> {
    w.add(Some(Value::Tuple(t.copy()?)));
    let is_done = put(w.alloc, t, 1, Some(Value::Int(3))).is_ok();
    w.add(Some(Value::Bool(is_done)));
    Ok(())
}

// The first and the last component of a tuple.
fn cut_tuple(w: &mut Work, t: &mut TupleBody) -> Result<(), AllocError> {
    if t.len() < 2 {
        return Ok(());
    }
    w.add(t.cut_front()?);
    w.add(t.cut_back()?);
    Ok(())
}

fn work_on_tuple(w: &mut Work, call: &str, t: &mut TupleBody) -> Result<(), AllocError> {
    match call {
        "change" => change_tuple(w, t),
        _ => cut_tuple(w, t),
    }
}

// Whether a copy is equal, and the copy.
fn copy(w: &mut Work, v: &Value) -> Result<(), AllocError> {
    let copy = v.copy()?;
    w.add(Some(Value::Bool(copy == *v)));
    w.add(Some(copy));
    Ok(())
}

// What `with` makes of a value that it is lent, and 1.
fn lend(w: &mut Work, v: &Value) {
    match op_two(w.alloc, Operator::With, Some(v), Some(&Value::Int(1)), 0) {
        Ok(answer) => w.add(answer.value),
        Err(_) => w.add(None),
    }
}

// An empty set, a string of these bytes and one of the text of an integer.
fn make(w: &mut Work) -> Result<(), AllocError> {
    w.add(Some(Value::Set(SetBody::new(w.alloc)?)));
    w.add(Some(Value::Text(Text::of(w.alloc, b"ab")?)));
    let five = text(w.alloc, &Value::Int(-5))?;
    w.add(Some(Value::Text(Text::from_bytes(w.alloc, five)?)));
    Ok(())
}

fn work_on_body(w: &mut Work, call: &str, v: &mut Value) -> Result<(), AllocError> {
    match v {
        Value::Set(s) => work_on_set(w, call, s),
        Value::Tuple(t) => work_on_tuple(w, call, t),
        _ => make(w),
    }
}

fn work(w: &mut Work, call: &str, v: &mut Value) -> Result<(), AllocError> {
    match call {
        "copy" => copy(w, v),
        "lend" => {
            lend(w, v);
            Ok(())
        }
        _ => work_on_body(w, call, v),
    }
}

/// What is done with the value of a row, and the value after it.
pub fn put_work(w: &mut Work, row: &str) {
    let (call, written) = row.split_once(" | ").unwrap_or((row, ""));
    w.read(written);
    let mut v = w.next();
    let outcome = work(w, call, &mut v);
    w.note(outcome);
    w.add(Some(v));
    let made = line(w.alloc, w.values.as_slice());
    w.put_made(&made);
}

/// Rows, a line each: `repeat`, as often as a count can say, and `put_far`, at the greatest place, with what is then the
/// length of the tuple or string; and `put` and `with` of a value into a short tuple, with what is then its depth.
pub const BOUNDS: &str = "repeat | [1] | Err(NoMemory)
repeat | [] | Ok(0)
put_far | [1] | Err(NoMemory)
repeat | 'ab' | Err(NoMemory)
repeat | '' | Ok(0)
put | tuple 499 | Ok(500)
put | tuple 500 | Err(Deep)
with | tuple 499 | Ok(500)
with | tuple 500 | Err(Deep)";

fn copies_of(alloc: Global, t: &TupleBody) -> Result<usize, TupleFault> {
    Ok(repeat(alloc, t, i128::MAX)?.len())
}

fn put_far(alloc: Global, t: &mut TupleBody) -> Result<usize, TupleFault> {
    put(alloc, t, i128::MAX, Some(Value::Int(9)))?;
    Ok(t.len())
}

fn copies_of_text(alloc: Global, t: &Text) -> Result<usize, ScalarFault> {
    Ok(setl_scalar::repeat(alloc, t, i128::MAX)?.bytes().len())
}

fn put_length(w: &mut Work, call: &str, mut v: Value) {
    let alloc = w.alloc;
    match &mut v {
        Value::Tuple(t) if call == "repeat" => w.put_debug(copies_of(alloc, t)),
        Value::Tuple(t) => w.put_debug(put_far(alloc, t)),
        Value::Text(t) => w.put_debug(copies_of_text(alloc, t)),
        _ => {}
    }
}

// The depth after a value was put behind 1.
fn with_both(t: &mut TupleBody, v: Value) -> Result<u32, TupleFault> {
    with(t, Value::Int(1))?;
    with(t, v)?;
    Ok(t.depth())
}

fn put_past_the_end(alloc: Global, t: &mut TupleBody, v: Value) -> Result<u32, TupleFault> {
    put(alloc, t, 9, Some(v))?;
    Ok(t.depth())
}

fn depth(alloc: Global, call: &str, v: Value) -> Result<u32, TupleFault> {
    let mut t = TupleBody::of(alloc, Vec::new(alloc))?;
    match call {
        "put" => put_past_the_end(alloc, &mut t, v),
        _ => with_both(&mut t, v),
    }
}

fn put_depth(w: &mut Work, call: &str, v: Value) {
    let depth = depth(w.alloc, call, v);
    w.put_debug(depth);
}

/// The length or the depth of a row.
pub fn put_bound(w: &mut Work, row: &str) {
    let (call, written) = row.split_once(" | ").unwrap_or((row, ""));
    w.read(written);
    let v = w.next();
    match call {
        "put" | "with" => put_depth(w, call, v),
        _ => put_length(w, call, v),
    }
}
