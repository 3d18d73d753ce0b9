//! Tables of rows, a line each: a call with what it is given, and behind the last bar what it answers. Each row is
//! written anew and compared.

use crate::bodies::{BOUNDS, WORKS};
use crate::in_place::{CHANGES, TAKES};
use crate::operators::{FOLDS, NUMBERS, TRUTHS, WHOLES};
use crate::outside::CALLS;
use crate::reading::{LINES, READS};
use crate::written::Work;
use crate::{bodies, in_place, operators, outside, reading};
use std::process::Abort;

/// What the rows of a table call.
#[derive(Clone, Copy)]
enum Table {
    /// Operators that are handed their operands.
    Operators,
    /// Operators that are lent their operands, if they have one or two.
    LentOperators,
    /// Changes in place of a value that nobody else holds.
    Changes,
    /// Changes in place of a value with a copy.
    SharedChanges,
    Takes,
    Bodies,
    Bounds,
    Reads,
    Lines,
    Outside,
}

/// Writes the rows anew, and compares.
fn expect_rows(rt: &impl Abort, w: &mut Work, table: Table, rows: &str) {
    for row in rows.lines() {
        expect_row(rt, w, table, row);
    }
}

fn expect_row(rt: &impl Abort, w: &mut Work, table: Table, row: &str) {
    let (start, _) = row.rsplit_once(" | ").unwrap_or((row, ""));
    w.clear();
    put_row(w, table, start);
    assert!(rt; !w.is_refused);
    assert_eq!(rt; w.text.as_str(), row);
}

fn put_row(w: &mut Work, table: Table, start: &str) {
    match table {
        Table::Changes => in_place::put_change(w, false, start),
        Table::SharedChanges => in_place::put_change(w, true, start),
        _ => {
            w.put(start);
            w.put(" | ");
            put_answer(w, table, start);
        }
    }
}

fn put_answer(w: &mut Work, table: Table, start: &str) {
    match table {
        Table::Operators => operators::put_row(w, false, start),
        Table::LentOperators => operators::put_row(w, true, start),
        Table::Takes => in_place::put_take(w, start),
        Table::Bodies => bodies::put_work(w, start),
        Table::Bounds => bodies::put_bound(w, start),
        Table::Reads => reading::put_read(w, start),
        Table::Lines => reading::put_line_and_texts(w, start),
        _ => outside::put_calls(w, start),
    }
}

#[test]
fn operators_answer_as_the_tables_say(rt: HostRuntime) {
    for table in [Table::Operators, Table::LentOperators] {
        for rows in [NUMBERS, TRUTHS, WHOLES, FOLDS] {
            expect_rows(&rt, &mut Work::new(rt.alloc()), table, rows);
        }
    }
}

#[test]
fn calls_answer_as_the_tables_say_and_copies_stay(rt: HostRuntime) {
    for (table, rows) in [
        (Table::Changes, CHANGES),
        (Table::SharedChanges, CHANGES),
        (Table::Takes, TAKES),
        (Table::Bodies, WORKS),
        (Table::Bounds, BOUNDS),
        (Table::Reads, READS),
        (Table::Lines, LINES),
        (Table::Outside, CALLS),
    ] {
        expect_rows(&rt, &mut Work::new(rt.alloc()), table, rows);
    }
}
