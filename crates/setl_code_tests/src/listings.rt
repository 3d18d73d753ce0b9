//! Codes made by hand, and their listings.

use setl_code::{Alteration, Begin, Body, Bracket, Code, Instr, Literal, OwnName, Slot, Step};
use setl_code_listing::listing;
use setl_operators_table::Operator;
use setl_program::{Collection, Connective, Source, Taking};
use setl_tree::{Boxed, Items, Param, Passing, Text};
use std::alloc::{AllocError, Global};
use std::test::Fail;

/// Adds steps of line 1.
fn push(steps: &mut Items<Step>, instrs: Vec<Instr>) -> Result<(), AllocError> {
    for what in instrs {
        steps.push(Step { line: 1, what })?;
    }
    Ok(())
}

/// A main program that calls a procedure.
fn main_body(alloc: Global) -> Result<Body, AllocError> {
    let mut steps = Items::new(alloc);
    push(
        &mut steps,
        vec![in alloc; Instr::Call(1), Instr::Discard, Instr::Stop]?,
    )?;
    Ok(Body {
        name: Text::of(alloc, b"q")?,
        parameters: Items::new(alloc),
        names: Items::new(alloc),
        steps,
    })
}

/// The parameter and the names of a procedure: one of its own, and one of a former.
fn names(alloc: Global) -> Result<(Items<Param>, Items<OwnName>), AllocError> {
    let parameter = Param {
        passing: Passing::Rd,
        name: Text::of(alloc, b"f")?,
        line: 1,
    };
    let own = OwnName::Body(Text::of(alloc, b"x")?);
    let former = OwnName::Former(2, Text::of(alloc, b"y")?);
    Ok((
        Items::from_vec(vec![in alloc; parameter]?),
        Items::from_vec(vec![in alloc; own, former]?),
    ))
}

/// A string, and updates.
fn values(alloc: Global) -> Result<Vec<Instr>, AllocError> {
    let string = Text::of(alloc, b"it's")?;
    let brackets = vec![in alloc; Bracket::Brace, Bracket::Round]?;
    let first = Alteration::TakeOut(Taking::TakeFirst);
    let with = Alteration::Combine(Operator::With);
    Ok(vec![in alloc;
        Instr::Text(string),
        Instr::Alter(
            first,
            Slot::Own(0),
            Boxed::new(alloc, Items::from_vec(brackets))?
        ),
        Instr::Alter(with, Slot::Own(0), Boxed::new(alloc, Items::new(alloc))?),
    ]?)
}

/// Variables, the last of which has no name.
fn variables(alloc: Global) -> Result<Vec<Instr>, AllocError> {
    Ok(vec![in alloc;
        Instr::Load(Slot::Own(0)),
        Instr::Take(Slot::Own(1)),
        Instr::Store(Slot::Own(2)),
        Instr::Load(Slot::Global(0)),
        Instr::Load(Slot::Own(3)),
    ]?)
}

/// Other steps.
fn others(alloc: Global) -> Result<Vec<Instr>, AllocError> {
    Ok(vec![in alloc;
        Instr::Integer(Literal::new(-7)),
        Instr::Operate(Operator::FoldAdd, 1),
        Instr::Operate(Operator::SetOf, 0),
        Instr::Decide(Connective::Implies, 12),
        Instr::Begin(Begin::Members(Source::SetSteps), 3),
        Instr::Next(16),
        Instr::Collect(Collection::OfTuple),
        Instr::Truth(false),
        Instr::Return,
    ]?)
}

/// The steps of the procedure, which no run would get through.
fn procedure_steps(alloc: Global) -> Result<Items<Step>, AllocError> {
    let mut steps = Items::new(alloc);
    push(&mut steps, values(alloc)?)?;
    push(&mut steps, variables(alloc)?)?;
    push(&mut steps, others(alloc)?)?;
    Ok(steps)
}

/// Two bodies.
fn two_bodies(alloc: Global) -> Result<Code, AllocError> {
    let (parameters, names) = names(alloc)?;
    let procedure = Body {
        name: Text::of(alloc, b"p")?,
        parameters,
        names,
        steps: procedure_steps(alloc)?,
    };
    Ok(Code {
        vars: Items::from_vec(vec![in alloc; Text::of(alloc, b"g")?]?),
        bodies: Items::from_vec(vec![in alloc; main_body(alloc)?, procedure]?),
    })
}

#[test]
fn lists_two_bodies(rt: HostRuntime) -> Result<(), Fail> {
    let code = two_bodies(rt.alloc())?;
    let text = listing(rt.alloc(), &code)?;
    let want =
        "main:\n0 call p\n1 drop\n2 stop\nproc p:\n0 str 'it''s'\n1 fromb f {} ()\n2 with f\n3 load f\n4 take x\n5 store y.2\n6 load g\n7 load .0\n8 int -7\n9 fold +\n10 set 0\n11 impl 12\n12 begin set step\n13 next 16\n14 newtuple\n15 false\n16 return\n";
    assert_eq!(rt; text.as_slice(), want.as_bytes());
    Ok(())
}
