//! Bases of element blocks.

ghost use Rattle.std.specs.Prelude.{◌≡◌, ◌+◌, ◌≤◌, ◌<◌, ◌^◌, length};

use setl_base::{Base, BaseMark, Elt};
use setl_value::Value;
use std::process::Abort;
use std::test::Fail;

// A call and what it answers; a handle is its block's number and generation, and that of `rank_next` its number alone.
#[derive(Clone, Copy)]
enum Row {
    Enter(i128, (u64, u64)),
    Find(i128, Option<(u64, u64)>),
    Elt(u64, Option<(u64, u64)>),
    Value((u64, u64), Option<i128>),
    Next(Option<u64>, Option<u64>),
    Mark(u64),
    Back(u64),
    Undo(u64),
}

// A number that `back` frees comes again with a higher generation, one that `undo` frees with the same.
const ROWS: [Row; 16] = [
    Row::Enter(10, (1, 0)),
    Row::Mark(1),
    Row::Enter(30, (2, 0)),
    Row::Enter(10, (1, 0)),
    Row::Find(30, Some((2, 0))),
    Row::Back(1),
    Row::Enter(40, (2, 1)),
    Row::Elt(2, Some((2, 1))),
    Row::Value((2, 0), None),
    Row::Undo(1),
    Row::Enter(50, (2, 1)),
    Row::Enter(5, (3, 1)),
    Row::Next(None, Some(3)),
    Row::Next(Some(3), Some(1)),
    Row::Next(Some(1), Some(2)),
    Row::Next(Some(2), None),
];

fn pair(e: Elt) -> (u64, u64) {
    (e.block, e.generation)
}

fn enter(b: &mut Base, item: i128) -> Result<(u64, u64), Fail>
    ensures { b.new.cuts ≡ b.old.cuts }
{
    Ok(pair(b.enter(Value::Int(item))?))
}

fn find(b: &Base, item: i128) -> Option<(u64, u64)> {
    b.find(&Value::Int(item)).map(pair)
}

fn value(b: &Base, (block, generation): (u64, u64)) -> Option<i128> {
    match b.value(Elt { block, generation }) {
        Some(Value::Int(item)) => Some(*item),
        _ => None,
    }
}

fn next(b: &Base, after: Option<u64>) -> Option<u64> {
    let after = match after {
        Some(block) => b.elt(block),
        None => None,
    };
    Some(b.rank_next(after)?.block)
}

// The mark of so many members.
fn mark(rt: &impl Abort, b: &Base, count: u64) -> BaseMark
    ensures { result.count ≤ length b.now.members }
{
    assert!(rt; count <= b.mark().count);
    BaseMark { count }
}

fn check(rt: &impl Abort, b: &mut Base, row: Row) -> Result<(), Fail>
    requires { b.old.cuts < 2 ^ 63 }
    ensures { b.new.cuts ≤ b.old.cuts + 1 }
{
    match row {
        Row::Enter(item, want) => assert_eq!(rt; enter(b, item)?, want),
        Row::Find(item, want) => assert_eq!(rt; find(b, item), want),
        Row::Elt(block, want) => assert_eq!(rt; b.elt(block).map(pair), want),
        Row::Value(e, want) => assert_eq!(rt; value(b, e), want),
        Row::Next(after, want) => assert_eq!(rt; next(b, after), want),
        Row::Mark(want) => assert_eq!(rt; b.mark().count, want),
        Row::Back(count) => b.back(&mark(rt, b, count)),
        Row::Undo(count) => b.undo(&mark(rt, b, count)),
    }
    Ok(())
}

#[test]
fn each_call_answers_its_row(rt: HostRuntime) -> Result<(), Fail> {
    let mut b = Base::new(rt.alloc())?;
    for row in ROWS {
        check(&rt, &mut b, row)?;
    }
    Ok(())
}
