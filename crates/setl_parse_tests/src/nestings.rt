//! The limit of nestings.

use crate::rows::{Table, expect};
use std::alloc::{AllocError, Global};
use std::fmt::Write;
use std::process::Abort;
use std::test::Fail;

/// Programs with nestings inside one another, a line each: the head, what opens a nesting, the middle, what closes a
/// nesting, and the tail; the outcome where no more than 200 nestings are open, and where 201 are.
const NESTINGS: &str = "program p; x := ~(~1~)~; end;~0 0 1 0~Nesting { at: 216 }
program p; x := ~{~1~}~; end;~0 0 1 0~Nesting { at: 216 }
program p; x := ~[~1~]~; end;~0 0 1 0~Nesting { at: 216 }
program p; x := ~f(~1~)~; end;~0 0 1 0~Nesting { at: 417 }
program p; x := ~f{~1~}~; end;~0 0 1 0~Nesting { at: 417 }
program p; x := ~if a then ~1~ else 1 end~; end;~0 0 1 0~Nesting { at: 2016 }
program p; x := ~exists y in s | ~1~~; end;~0 0 1 0~Nesting { at: 3216 }
program p; ~(while a) ~pass; ~end; ~end;~0 0 1 0~Nesting { at: 2011 }
program p; ~(for x in s) ~~end; ~end;~0 0 1 0~Nesting { at: 2611 }
program p; ~if a then ~~end; ~end;~0 0 1 0~Nesting { at: 2011 }
program p; repr x : ~set(~int~)~; end; end;~0 1 0 0~Nesting { at: 823 }
program p; repr x : ~tuple(~int~)~; end; end;~0 1 0 0~Nesting { at: 1225 }
program p; repr x : ~smap(int) ~int~~; end; end;~0 1 0 0~Nesting { at: 2024 }
program p; repr x : ~mmap{~int~} int~; end; end;~0 1 0 0~Nesting { at: 1024 }";

/// The seven fields of a row.
fn fields(row: &str) -> [&str; 7] {
    let mut all = row.split('~');
    [
        all.next().unwrap_or(""),
        all.next().unwrap_or(""),
        all.next().unwrap_or(""),
        all.next().unwrap_or(""),
        all.next().unwrap_or(""),
        all.next().unwrap_or(""),
        all.next().unwrap_or(""),
    ]
}

fn put_many(text: &str, count: usize, source: &mut String) -> Result<(), AllocError> {
    for _ in 0..count {
        source.push_str(text)?;
    }
    Ok(())
}

/// Writes the program of a row with so many nestings.
fn put_source(row: &str, count: usize, source: &mut String) -> Result<(), AllocError> {
    let [head, open, middle, close, tail, ..] = fields(row);
    source.clear();
    source.push_str(head)?;
    put_many(open, count, source)?;
    source.push_str(middle)?;
    put_many(close, count, source)?;
    source.push_str(tail)
}

/// The outcome that is wanted of it.
fn wanted(row: &str, count: usize) -> &str {
    let [.., parsed, refused] = fields(row);
    if count > 200 { refused } else { parsed }
}

fn expect_nestings(
    rt: &impl Abort,
    alloc: Global,
    row: &str,
    source: &mut String,
    shown: &mut String,
) -> Result<(), AllocError> {
    for count in 199..202 {
        put_source(row, count, source)?;
        expect(
            rt,
            alloc,
            Table::Outcomes,
            source.as_str(),
            wanted(row, count),
            shown,
        )?;
    }
    Ok(())
}

fn expect_all(
    rt: &impl Abort,
    alloc: Global,
    source: &mut String,
    shown: &mut String,
) -> Result<(), AllocError> {
    for row in NESTINGS.lines() {
        expect_nestings(rt, alloc, row, source, shown)?;
    }
    Ok(())
}

#[test]
fn opens_two_hundred_nestings(rt: HostRuntime) -> Result<(), Fail> {
    let alloc = rt.alloc();
    expect_all(&rt, alloc, &mut String::new(alloc), &mut String::new(alloc))?;
    Ok(())
}
