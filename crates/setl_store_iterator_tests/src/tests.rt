use setl_code::Begin;
use setl_io::SureSource;
use setl_program::Source;
use setl_store_environment::Copied;
use setl_store_iterator::{Item, Iterator, begin};
use setl_text::{Got, Reader, text};
use setl_value::Value;
use std::alloc::{AllocError, Global};
use std::fmt::Write;
use std::process::Abort;
use std::test::Fail;

// Rows, a line each: how an iterator begins, its sources, its items, which are members or arguments each with its image,
// and behind a stroke what a copy gives that is made behind the first item.
const ITEMS: &str = "values | {3 1 2} | members 1 2 3 / 2 3
values | [5 * 7] | members 5 * 7 / * 7
values | 'ab' | members 'a' 'b' / 'b'
values | {} | members /
between | 2 4 | members 2 3 4 / 3 4
between | 4 4 | members 4 /
between | 4 3 | members /
between | 170141183460469231731687303715884105726 170141183460469231731687303715884105727 | members 170141183460469231731687303715884105726 170141183460469231731687303715884105727 / 170141183460469231731687303715884105727
set_steps | 1 3 6 | members 1 3 5 / 3 5
set_steps | 5 3 0 | members 1 3 5 / 3 5
set_steps | 5 3 5 | members 5 /
set_steps | 5 3 6 | members /
set_steps | 5 7 4 | members /
set_steps | 170141183460469231731687303715884105727 -170141183460469231731687303715884105728 -170141183460469231731687303715884105728 | members -170141183460469231731687303715884105728 170141183460469231731687303715884105727 / 170141183460469231731687303715884105727
tuple_steps | 1 3 6 | members 1 3 5 / 3 5
tuple_steps | 5 3 0 | members 5 3 1 / 3 1
tuple_steps | 5 7 4 | members /
tuple_steps | 170141183460469231731687303715884105727 -170141183460469231731687303715884105728 -170141183460469231731687303715884105728 | members 170141183460469231731687303715884105727 -170141183460469231731687303715884105728 / -170141183460469231731687303715884105728
tuple_steps | -170141183460469231731687303715884105728 170141183460469231731687303715884105727 170141183460469231731687303715884105726 | members -170141183460469231731687303715884105728 /
points | {[1 2] [1 3] [2 5]} | pairs 1->* 2->5 / 2->5
points | {[1 2] [2 5] [3 6] [3 7]} | pairs 1->2 2->5 3->* / 2->5 3->*
points | {[1 2] [2 5] [3 6]} | pairs 1->2 2->5 3->6 / 2->5 3->6
points | {} | pairs /
points | [7 * 9] | pairs 1->7 2->* 3->9 / 2->* 3->9
points | 'ab' | pairs 1->'a' 2->'b' / 2->'b'
points | '' | pairs /";

// Rows, a line each: how an iterator would begin, its sources, and why it doesn't.
const FAULTS: &str = "values | 5 | Kind
values | * | Om
between | 1 'a' | Kind
between | 'a' * | Om
between | 1 | Kind
set_steps | 5 5 9 | Zero
set_steps | 5 5 'a' | Kind
set_steps | 5 'a' * | Om
tuple_steps | 5 5 9 | Zero
points | {1} | Kind
points | {[1 2] [* 3]} | Kind
points | * | Om";

#[test]
fn each_source_gives_its_items_and_so_does_a_copy(rt: HostRuntime) -> Result<(), Fail> {
    expect_rows(&rt, rt.alloc(), ITEMS, &mut String::new(rt.alloc()))
}

#[test]
fn each_fault_is_told(rt: HostRuntime) -> Result<(), Fail> {
    expect_rows(&rt, rt.alloc(), FAULTS, &mut String::new(rt.alloc()))
}

fn expect_rows(rt: &impl Abort, alloc: Global, rows: &str, shown: &mut String) -> Result<(), Fail> {
    for row in rows.lines() {
        expect_row(rt, alloc, row, shown)?;
    }
    Ok(())
}

// Writes a row anew, and compares.
fn expect_row(rt: &impl Abort, alloc: Global, row: &str, shown: &mut String) -> Result<(), Fail> {
    let (start, _) = row.rsplit_once(" | ").unwrap_or((row, ""));
    shown.clear();
    show_row(alloc, start, shown)?;
    assert_eq!(rt; shown.as_str(), row);
    Ok(())
}

// The row of an iterator that begins as the first word says over the sources behind it.
fn show_row(alloc: Global, start: &str, shown: &mut String) -> Result<(), AllocError> {
    write!(shown, "{start} | ")?;
    let (how, sources) = start.split_once(" | ").unwrap_or((start, ""));
    let sources = values(alloc, sources)?;
    show_outcome(alloc, begin_of_word(how), sources.as_slice(), shown)
}

// The items of an iterator, or why it doesn't begin.
fn show_outcome(
    alloc: Global,
    how: Begin,
    sources: &[Option<Value>],
    shown: &mut String,
) -> Result<(), AllocError> {
    match begin(alloc, how, sources) {
        Ok(mut iterator) => show_items(alloc, &mut iterator, shown),
        Err(e) => write!(shown, "{e:?}"),
    }
}

fn begin_of_word(how: &str) -> Begin {
    match how {
        "values" => Begin::Members(Source::Values),
        "between" => Begin::Members(Source::Between),
        "set_steps" => Begin::Members(Source::SetSteps),
        "tuple_steps" => Begin::Members(Source::TupleSteps),
        _ => Begin::Points,
    }
}

// The values and `om` that these bytes denote, up to 20 of them.
fn values(alloc: Global, denotations: &str) -> Result<Vec<Option<Value>>, AllocError> {
    let mut source = SureSource::new(denotations.as_bytes().to_vec(alloc)?);
    let mut reader = Reader::new(alloc)?;
    let mut all = Vec::new(alloc);
    read_values(&mut reader, &mut source, &mut all)?;
    Ok(all)
}

fn read_values(
    reader: &mut Reader,
    source: &mut SureSource,
    all: &mut Vec<Option<Value>>,
) -> Result<(), AllocError> {
    for _ in 0..20 {
        match reader.next(source) {
            Ok(Got::Value(v)) => all.push(Some(v))?,
            Ok(Got::Om) => all.push(None)?,
            _ => break,
        }
    }
    Ok(())
}

// What the items are, the items, and those that a copy gives which is made behind the first one.
fn show_items(
    alloc: Global,
    iterator: &mut Iterator,
    shown: &mut String,
) -> Result<(), AllocError> {
    shown.push_str(kind_of(iterator))?;
    show_next(alloc, iterator, shown)?;
    let mut copy = iterator.copied()?;
    show_rest(alloc, iterator, shown)?;
    shown.push_str(" /")?;
    show_rest(alloc, &mut copy, shown)
}

fn kind_of(iterator: &Iterator) -> &'static str {
    if iterator.is_of_pairs() {
        "pairs"
    } else {
        "members"
    }
}

// The items that are left, up to 20.
fn show_rest(alloc: Global, iterator: &mut Iterator, shown: &mut String) -> Result<(), AllocError> {
    for _ in 0..20 {
        show_next(alloc, iterator, shown)?;
    }
    Ok(())
}

// The next item, if one is left.
fn show_next(alloc: Global, iterator: &mut Iterator, shown: &mut String) -> Result<(), AllocError> {
    if iterator.is_at_end() {
        return Ok(());
    }
    let item = iterator.advance(alloc)?;
    show_item(alloc, &item, shown)
}

fn show_item(alloc: Global, item: &Item, shown: &mut String) -> Result<(), AllocError> {
    match item {
        Item::One(v) => show(alloc, " ", v, shown),
        Item::Two { argument, image } => {
            show(alloc, " ", argument, shown)?;
            show(alloc, "->", image, shown)
        }
    }
}

// A value or `om`, behind what stands before it.
fn show(
    alloc: Global,
    before: &str,
    v: &Option<Value>,
    shown: &mut String,
) -> Result<(), AllocError> {
    shown.push_str(before)?;
    match v {
        Some(v) => show_bytes(text(alloc, v)?.as_slice(), shown),
        None => shown.push_str("*"),
    }
}

fn show_bytes(bytes: &[u8], shown: &mut String) -> Result<(), AllocError> {
    for byte in bytes {
        shown.push(char::from(*byte))?;
    }
    Ok(())
}
