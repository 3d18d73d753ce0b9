//! Changes in place: what stands after each call, on rows of denotations.

use crate::operators::put_charge;
use crate::written::Work;
use setl_operators::OpFault;
use setl_operators_arithmetic::{minus_in_place, plus_in_place};
use setl_operators_collections::{
    add_image_in_place, less_in_place, lessf_in_place, put_images_in_place, put_in_place,
    take_first, take_last, take_least, with_in_place,
};
use setl_operators_table::Taken;
use setl_value::Value;
use std::alloc::Global;

/// Rows, a line each: a call, the value that it changes, its operands, and what the value becomes with what the call
/// charges, or why it is refused.
pub const CHANGES: &str = "with | {2} | 1 | {1 2}
with | [1] | 2 | [1 2]
with | 'a' | 'b' | Kind
less | {1 2} | 2 | {1}
less | [1] | 1 | Kind
lessf | {[1 3] [1 5] [2 7]} | 1 | {[2 7]}
put | [1] | 3 2 | [1 * 2] charges 1
put | [1] | 0 2 | Range
put | {[1 2]} | 1 5 | {[1 5]}
put_images | {[1 2]} | 1 {3 4} | {[1 3] [1 4]}
put_images | {[1 2]} | 1 3 | Kind
add_image | {[1 2] [1 4] [3 5]} | 1 3 | {[1 2] [1 3] [1 4] [3 5]}
add_image | {[1 2] [1 4]} | 1 4 | {[1 2] [1 4]}
add_image | {[1 2] [3 4]} | 2 [] | {[1 2] [2 []] [3 4]}
add_image | {} | 'a' {1} | {['a' {1}]}
add_image | {[1 2] [1 3 4]} | 1 3 | Kind
add_image | [1 2] | 1 3 | Kind
+ | 2 | 3 | 5
+ | 'ab' | 'c' | 'abc'
+ | '' | 'c' | 'c'
+ | [1 * 2] | [* 3] | [1 * 2 * 3]
+ | [] | [3] | [3]
+ | {1 3} | {2} | {1 2 3}
+ | {1 3} | {3} | {1 3}
+ | {1 3} | {2 3} | {1 2 3}
+ | {} | {} | {}
+ | {1} | [1] | Kind
+ | true | true | Kind
- | 2 | 3 | -1
- | {1 2 3} | {2} | {1 3}
- | {1 3} | {2} | {1 3}
- | {1 2 3} | {2 3} | {1}
- | {1} | {1} | {}
- | {1} | 1 | Kind
- | [1] | [1] | Kind";

// What a call makes of a value and the operands that were read, and its charge.
fn change(w: &mut Work, call: &str, whole: &mut Value) -> Result<u64, OpFault> {
    let alloc = w.alloc;
    match call {
        "with" => with_in_place(alloc, whole, w.next()),
        "less" => less_in_place(whole, &w.next()),
        "lessf" => lessf_in_place(alloc, whole, &w.next()),
        "+" => plus_in_place(alloc, whole, &w.next()),
        "-" => minus_in_place(alloc, whole, &w.next()),
        _ => change_part(alloc, call, whole, w.next(), w.next()),
    }
}

// What a call with two operands makes of a value, and its charge.
fn change_part(
    alloc: Global,
    call: &str,
    whole: &mut Value,
    x: Value,
    y: Value,
) -> Result<u64, OpFault> {
    match call {
        "put" => put_in_place(alloc, whole, x, Some(y), 9),
        "put_images" => put_images_in_place(alloc, whole, x, &y),
        _ => add_image_in_place(alloc, whole, x, y),
    }
}

// What a value became and the charge, or the fault.
fn put_changed(w: &mut Work, whole: &Value, charge: Result<u64, OpFault>) {
    match charge {
        Ok(n) => {
            w.put_value(whole);
            put_charge(w, n);
        }
        Err(e) => w.put_debug(e),
    }
}

// Changes a value by the operands that were read: a value that has to be as that one was before, and what it became.
fn put_both(w: &mut Work, call: &str, operands: &str, copy: &Value, whole: &mut Value) {
    let charge = change(w, call, whole);
    w.put_value(copy);
    w.put(" | ");
    w.put(operands);
    w.put(" | ");
    put_changed(w, whole, charge);
}

// Changes the first value. The last one is the same, and shares nothing with it.
fn put_alone(w: &mut Work, call: &str, operands: &str) {
    let copy = w.values.pop().flatten().unwrap_or(Value::Bool(false));
    let mut whole = w.next();
    put_both(w, call, operands, &copy, &mut whole);
}

// Changes the first value while there is a copy of it.
fn put_shared(w: &mut Work, call: &str, operands: &str) {
    let mut whole = w.next();
    match &whole.copy() {
        Ok(copy) => put_both(w, call, operands, copy, &mut whole),
        Err(_) => w.is_refused = true,
    }
}

/// Writes anew the row of a change, of a value that nobody else holds or of one with a copy, which stays.
pub fn put_change(w: &mut Work, is_shared: bool, row: &str) {
    let (call, rest) = row.split_once(" | ").unwrap_or((row, ""));
    let (whole, operands) = rest.split_once(" | ").unwrap_or((rest, ""));
    w.read(whole);
    w.read(operands);
    w.read(whole);
    w.put(call);
    w.put(" | ");
    if is_shared {
        put_shared(w, call, operands);
    } else {
        put_alone(w, call, operands);
    }
}

/// Rows, a line each: which part is taken, of which value, that part, and what is left.
pub const TAKES: &str = "least | {2 1} | 1 and {2}
least | {} | none and {}
least | 1 | Kind and 1
first | [1 * 2] | 1 and [* 2]
first | [* 2] | om and [2]
last | [* 2] | 2 and []
last | [] | none and []";

fn take(call: &str, whole: &mut Value) -> Result<Taken, OpFault> {
    match call {
        "least" => take_least(whole),
        "first" => take_first(whole),
        _ => take_last(whole),
    }
}

// What was taken, or the fault.
fn put_taken(w: &mut Work, part: &Result<Taken, OpFault>) {
    match part {
        Ok(
            Taken {
                value: Some(v),
                stored: true,
            },
        ) => w.put_value(v),
        Ok(Taken { stored: true, .. }) => w.put("om"),
        Ok(_) => w.put("none"),
        Err(e) => w.put_debug(*e),
    }
}

/// What is taken of the value of a row, and what is left.
pub fn put_take(w: &mut Work, row: &str) {
    let (call, whole) = row.split_once(" | ").unwrap_or((row, ""));
    w.read(whole);
    let mut whole = w.next();
    put_taken(w, &take(call, &mut whole));
    w.put(" and ");
    w.put_value(&whole);
}
