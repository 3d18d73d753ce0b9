//! Bases of two sorts of integers, and values held in the forms of modes over them.

ghost use Rattle.std.specs.Prelude.{◌≡◌, IfOk};
ghost use Rattle.setl_modes.specs.Modes.{mode_of};
ghost use Rattle.setl_rep_bases.specs.BaseId.{main};
ghost use Rattle.setl_rep_entering.specs.Entering.{BasesAreThere};
ghost use Rattle.setl_rep_forms.specs.FormOf.{form};
ghost use Rattle.setl_rep_plain.specs.Standing.{held_value, IsHeldOver};
ghost use Rattle.setl_rep_updates.specs.InForm.{IsInForm, IsValueOrOm};

use crate::values::{denoted, plain_form, put_form, put_text, put_value};
use setl_base::Base;
use setl_modes::Mode;
use setl_rep::{ConvertFault, convert};
use setl_rep_based::member;
use setl_rep_bases::{BaseId, Bases};
use setl_rep_entering::bases_are_there;
use setl_rep_forms::Held;
use setl_rep_plain::plain;
use setl_value::Value;
use std::alloc::{AllocError, Global};
use std::process::Abort;

/// The main program's instance of a base.
pub fn main_base(base: u32) -> BaseId
    ensures { result ≡ main base }
{
    BaseId { base, instance: 0 }
}

/// Two bases of the main program, of which the first has the components of this tuple as members, in their order.
pub fn bases(rt: &impl Abort, alloc: Global, members: &str) -> Result<Bases, AllocError> {
    let mut bases = Bases::new(alloc, 2)?;
    if let Some(Value::Tuple(t)) = denoted(alloc, members)? {
        for i in 0..t.len() {
            if let Some(v) = t.at(i) {
                enter(rt, &mut bases, v)?;
            }
        }
    }
    Ok(bases)
}

fn enter(rt: &impl Abort, bases: &mut Bases, v: &Value) -> Result<(), AllocError> {
    assert!(rt; bases.has(main_base(0)));
    bases.enter(main_base(0), v.copy()?)?;
    Ok(())
}

/// A value, or `om`, in the form of a mode.
pub fn held(
    rt: &impl Abort,
    alloc: Global,
    mode: &Mode,
    value: Option<Value>,
    bases: &mut Bases,
) -> Result<Held, ConvertFault>
    ensures held { IfOk result (λ h. IsInForm bases.new 0 (mode_of mode.now) (form h)) }
    ensures over { IfOk result (λ h. IsHeldOver bases.new h) }
    ensures value { IfOk result (λ h. IsValueOrOm (held_value bases.new h)) }
    ensures stays { (h : Held) → IsHeldOver bases.old h → IsHeldOver bases.new h }
{
    held_again(rt, alloc, mode, &plain_form(value), bases)
}

/// The same of what is held in any form.
pub fn held_again(
    rt: &impl Abort,
    alloc: Global,
    mode: &Mode,
    h: &Held,
    bases: &mut Bases,
) -> Result<Held, ConvertFault>
    requires held { IsHeldOver bases.old h.now }
    requires value { IsValueOrOm (held_value bases.old h.now) }
    ensures held { IfOk result (λ g. IsInForm bases.new 0 (mode_of mode.now) (form g)) }
    ensures over { IfOk result (λ g. IsHeldOver bases.new g) }
    ensures value { IfOk result (λ g. IsValueOrOm (held_value bases.new g)) }
    ensures stays { (g : Held) → IsHeldOver bases.old g → IsHeldOver bases.new g }
{
    assert!(rt; bases_are_there(mode, 0, bases));
    let before = counts(rt, bases);
    let result = converted(alloc, mode, h, bases);
    if result.is_err() {
        assert_eq!(rt; counts(rt, bases), before);
    }
    result
}

// The same over bases that are there.
fn converted(alloc: Global, mode: &Mode, h: &Held, bases: &mut Bases) -> Result<Held, ConvertFault>
    requires held { IsHeldOver bases.old h.now }
    requires value { IsValueOrOm (held_value bases.old h.now) }
    requires there { BasesAreThere bases.old 0 (mode_of mode.now) }
    ensures held { IfOk result (λ g. IsInForm bases.new 0 (mode_of mode.now) (form g)) }
    ensures over { IfOk result (λ g. IsHeldOver bases.new g) }
    ensures value { IfOk result (λ g. IsValueOrOm (held_value bases.new g)) }
    ensures stays { (g : Held) → IsHeldOver bases.old g → IsHeldOver bases.new g }
{
    setl_rep_entering::laws::places_are_members();
    setl_rep_entering::laws::bases_are_lengthened();
    setl_rep_forms::laws::forms_stay();
    convert(alloc, h, mode, bases, 0)
}

/// The same of a value that fits.
pub fn fitting(
    rt: &impl Abort,
    alloc: Global,
    mode: &Mode,
    value: Option<Value>,
    bases: &mut Bases,
) -> Result<Held, AllocError>
    ensures held { IfOk result (λ h. IsInForm bases.new 0 (mode_of mode.now) (form h)) }
    ensures over { IfOk result (λ h. IsHeldOver bases.new h) }
    ensures value { IfOk result (λ h. IsValueOrOm (held_value bases.new h)) }
    ensures stays { (h : Held) → IsHeldOver bases.old h → IsHeldOver bases.new h }
{
    match held(rt, alloc, mode, value, bases) {
        Ok(h) => Ok(h),
        Err(_) => Err(AllocError),
    }
}

// How many members each base has.
fn counts(rt: &impl Abort, bases: &Bases) -> [u64; 2] {
    [count(rt, bases, 0), count(rt, bases, 1)]
}

/// How many members a base has.
pub fn count(rt: &impl Abort, bases: &Bases, base: u32) -> u64 {
    assert!(rt; bases.has(main_base(base)));
    bases.at(main_base(base)).mark().count
}

/// Adds the value that is held, and its form.
pub fn put_held(
    alloc: Global,
    mode: &Mode,
    h: &Held,
    bases: &Bases,
    into: &mut Vec<u8>,
) -> Result<(), AllocError>
    requires { IsInForm bases.now 0 (mode_of mode.now) (form h.now) }
{
    let value = plain(alloc, h, bases)?;
    put_value(alloc, &value, into)?;
    put_form(alloc, h, into)?;
    into.push(b'\n')?;
    Ok(())
}

/// Adds the members of both bases, a line for each.
pub fn put_bases(
    rt: &impl Abort,
    alloc: Global,
    bases: &Bases,
    into: &mut Vec<u8>,
) -> Result<(), AllocError> {
    put_base(rt, alloc, bases, 0, into)?;
    put_base(rt, alloc, bases, 1, into)
}

fn put_base(
    rt: &impl Abort,
    alloc: Global,
    bases: &Bases,
    base: u32,
    into: &mut Vec<u8>,
) -> Result<(), AllocError> {
    assert!(rt; bases.has(main_base(base)));
    into.extend_from_slice(if base == 0 { b"b:" } else { b"c:" })?;
    put_members(alloc, bases.at(main_base(base)), into)?;
    into.push(b'\n')?;
    Ok(())
}

// Adds the members by the numbers of their blocks, each behind a blank.
fn put_members(alloc: Global, base: &Base, into: &mut Vec<u8>) -> Result<(), AllocError> {
    for n in 0..base.mark().count {
        if let Some(v) = member(base, n + 1) {
            into.push(b' ')?;
            put_text(alloc, v, into)?;
        }
    }
    Ok(())
}
