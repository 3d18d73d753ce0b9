//! Instances of bases.

use crate::holding::{bases, main_base};
use setl_rep_bases::{BaseId, Bases};
use setl_value::Value;
use std::alloc::{AllocError, Global};
use std::process::Abort;
use std::test::Fail;

const LOCAL: BaseId = BaseId {
    base: 2,
    instance: 5,
};

#[test]
fn an_activation_has_instances_of_its_own(rt: HostRuntime) -> Result<(), Fail> {
    let alloc = rt.alloc();
    let mut bases = bases(&rt, alloc, "[7]")?;
    let one = Bases::new(alloc, 1)?;
    assert_eq!(rt; one.len(), 1);
    assert_eq!(rt; bases.len(), 2);
    expect_names(&rt, &bases);
    add_and_leave(&rt, alloc, &mut bases, false)?;
    assert!(rt; !bases.has(LOCAL));
    add_and_leave(&rt, alloc, &mut bases, true)?;
    assert!(rt; bases.has(LOCAL));
    bases.drop_gone();
    assert!(rt; !bases.has(LOCAL) && bases.has(main_base(1)));
    Ok(())
}

// The first two bases are the main program's, and the third one is the activation's.
fn expect_names(rt: &impl Abort, bases: &Bases) {
    assert_eq!(rt; bases.named(5, 1), main_base(1));
    assert_eq!(rt; bases.named(5, 2), LOCAL);
}

fn add_and_leave(
    rt: &impl Abort,
    alloc: Global,
    bases: &mut Bases,
    kept: bool,
) -> Result<(), AllocError> {
    assert!(rt; !bases.has(LOCAL));
    bases.add(alloc, LOCAL)?;
    enter_and_undo(rt, bases)?;
    assert!(rt; bases.has(LOCAL));
    bases.leave(LOCAL, kept);
    Ok(())
}

fn enter_and_undo(rt: &impl Abort, bases: &mut Bases) -> Result<(), AllocError> {
    assert!(rt; bases.has(LOCAL));
    let mark = bases.at(LOCAL).mark();
    let e = bases.enter(LOCAL, Value::Int(3))?;
    assert_eq!(rt; (e.block, e.generation), (1, 0));
    assert!(rt; bases.has(LOCAL));
    assert!(rt; mark.count <= bases.at(LOCAL).mark().count);
    bases.undo(LOCAL, &mark);
    assert!(rt; bases.has(LOCAL));
    assert_eq!(rt; bases.at(LOCAL).mark().count, 0);
    Ok(())
}
