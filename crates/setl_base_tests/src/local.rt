//! Fields by object and block.

use setl_local::Fields;
use std::alloc::AllocError;
use std::process::Abort;
use std::test::Fail;

// A call at a place, and what it answers; a place is given room before it is set or put into.
#[derive(Clone, Copy)]
enum Row {
    Set,
    Put(u64, Option<u64>),
    Clear(Option<u64>),
    Test(bool),
    Get(Option<u64>),
}

const FAR: (u32, u64) = (u32::MAX, u64::MAX);

const ROWS: [((u32, u64), Row); 12] = [
    ((0, 1), Row::Set),
    ((1, 1), Row::Set),
    ((0, 1), Row::Clear(None)),
    ((0, 1), Row::Test(false)),
    ((1, 1), Row::Test(true)),
    ((0, 2), Row::Put(5, None)),
    ((0, 2), Row::Put(6, Some(5))),
    (FAR, Row::Put(7, None)),
    ((0, 2), Row::Get(Some(6))),
    (FAR, Row::Clear(Some(7))),
    (FAR, Row::Get(None)),
    ((9, 9), Row::Clear(None)),
];

fn set(fields: &mut Fields<u64>, (obj, block): (u32, u64)) -> Result<(), AllocError> {
    fields.room(obj, block)?;
    fields.set(obj, block);
    Ok(())
}

fn put(
    fields: &mut Fields<u64>,
    (obj, block): (u32, u64),
    content: u64,
) -> Result<Option<u64>, AllocError> {
    fields.room(obj, block)?;
    Ok(fields.put(obj, block, content))
}

fn check(
    rt: &impl Abort,
    fields: &mut Fields<u64>,
    (place, row): ((u32, u64), Row),
) -> Result<(), AllocError> {
    let (obj, block) = place;
    match row {
        Row::Set => set(fields, place)?,
        Row::Put(content, want) => assert_eq!(rt; put(fields, place, content)?, want),
        Row::Clear(want) => assert_eq!(rt; fields.clear(obj, block), want),
        Row::Test(want) => assert_eq!(rt; fields.test(obj, block), want),
        Row::Get(want) => assert_eq!(rt; fields.get(obj, block).copied(), want),
    }
    Ok(())
}

#[test]
fn each_call_answers_its_row(rt: HostRuntime) -> Result<(), Fail> {
    let mut fields = Fields::new(rt.alloc())?;
    for row in ROWS {
        check(&rt, &mut fields, row)?;
    }
    Ok(())
}
