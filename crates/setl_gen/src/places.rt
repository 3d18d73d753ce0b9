//! Places that statements change.

ghost use Rattle.std.specs.Prelude.{◌≡◌, OnOk, IfOk, map};
ghost use Rattle.setl_program.specs.code.Plain.{plain_variable, selectors_of};
ghost use Rattle.setl_code.specs.Code.{ReadOne, StoreIn};
ghost use Rattle.setl_code.specs.Piece.{◌⨾◌, one};
ghost use Rattle.setl_code.specs.Generated as code;
ghost use Rattle.setl_code.specs.Plain.{plain_alteration, plain_bracket};
ghost use Rattle.setl_gen_emitter.specs.Emitted.{held, after};
ghost use Rattle.setl_gen.specs.StmtKinds.{selector_code, bracket_of};

use crate::exprs::expr;
use setl_code::{Alteration, Bracket, Instr};
use setl_gen_emitter::Emitter;
use setl_program::{Place, Selector, Variable};
use setl_tree::{Boxed, Items};
use std::alloc::{AllocError, Global};

/// A selector.
fn selector<'p>(emitter: &mut Emitter<'p>, line: u32, s: &'p Selector) -> Result<(), AllocError>
    ensures { OnOk result (held emitter.new ≡ after (selector_code line s.now) (held emitter.old)) }
{
    match s {
        Selector::Round(e) => expr(emitter, line, e),
        Selector::Brace(e) => expr(emitter, line, e),
    }
}

/// The selectors of a place.
fn selectors<'p>(
    emitter: &mut Emitter<'p>,
    line: u32,
    selectors: &'p [Selector],
) -> Result<(), AllocError>
    ensures { OnOk result (held emitter.new ≡ after (code.selectors line (selectors_of selectors.now)) (held emitter.old)) }
{
    for s in selectors {
        selector(emitter, line, s)?;
    }
    Ok(())
}

/// How a selector is written.
fn bracket(s: &Selector) -> Bracket
    ensures { plain_bracket result ≡ bracket_of s.now }
{
    match s {
        Selector::Round(_) => Bracket::Round,
        Selector::Brace(_) => Bracket::Brace,
    }
}

/// How selectors are written.
fn brackets(alloc: Global, selectors: &[Selector]) -> Result<Items<Bracket>, AllocError>
    ensures { IfOk result (λ written. map plain_bracket written ≡ code.brackets (selectors_of selectors.now)) }
{
    let mut written = Items::new(alloc);
    for s in selectors {
        written.push(bracket(s))?;
    }
    Ok(written)
}

/// The part at a place is changed.
pub fn alter<'p>(
    emitter: &mut Emitter<'p>,
    line: u32,
    a: Alteration,
    p: &'p Place,
) -> Result<(), AllocError>
    ensures { OnOk result (held emitter.new ≡ after (code.alter line (plain_alteration a) (plain_variable p.now.variable) (selectors_of p.now.selectors)) (held emitter.old)) }
{
    selectors(emitter, line, p.selectors.as_slice())?;
    let written = brackets(emitter.alloc, p.selectors.as_slice())?;
    let slot = emitter.names.slot(&p.variable)?;
    emitter.put(
        line,
        Instr::Alter(a, slot, Boxed::new(emitter.alloc, written)?),
    )?;
    Ok(())
}

/// A right side is put into a place.
pub fn put<'p>(emitter: &mut Emitter<'p>, line: u32, p: &'p Place) -> Result<(), AllocError>
    ensures { OnOk result (held emitter.new ≡ after (code.put line (plain_variable p.now.variable) (selectors_of p.now.selectors)) (held emitter.old)) }
{
    if p.selectors.is_empty() {
        emitter.store(line, &p.variable)?;
    } else {
        alter(emitter, line, Alteration::Put, p)?;
    }
    Ok(())
}

/// A variable is read.
fn read_one<'p>(emitter: &mut Emitter<'p>, line: u32, x: &'p Variable) -> Result<(), AllocError>
    ensures { OnOk result (held emitter.new ≡ after (one line ReadOne ⨾ one line (StoreIn (plain_variable x.now))) (held emitter.old)) }
{
    emitter.put(line, Instr::Read)?;
    emitter.store(line, x)?;
    Ok(())
}

/// Variables are read.
pub fn read_all<'p>(
    emitter: &mut Emitter<'p>,
    line: u32,
    xs: &'p [Variable],
) -> Result<(), AllocError>
    ensures { OnOk result (held emitter.new ≡ after (code.read_all line (map plain_variable xs.now)) (held emitter.old)) }
{
    for x in xs {
        read_one(emitter, line, x)?;
    }
    Ok(())
}
