//! The lines of the dump.

ghost use Rattle.std.specs.Prelude.{◌≡◌, ◌++◌, OnOk};
ghost use Rattle.setl_modes_dump.specs.Dump.{base_line, variable_line};
ghost use Rattle.setl_modes.specs.Modes.{mode_of};
ghost use Rattle.setl_rep_bases.specs.BaseId.{main};
ghost use Rattle.setl_rep_building.specs.HasForm.{HasFormOrOm};
ghost use Rattle.setl_rep_forms.specs.FormOf.{form};
ghost use Rattle.setl_rep_forms.specs.Stands.{stands, IsOver};
ghost use Rattle.setl_rep_layout.specs.Laid.{IsAttributed};
ghost use Rattle.setl_rep_layout.specs.Members.{member_list, members_by, values_of};
ghost use Rattle.setl_rep_layout.specs.Texts.{after_blanks, inner_texts};
ghost use Rattle.setl_value.specs.code.DatumOf.{lent};

use crate::parts::push_part;
use crate::values::push_by_mode;
use setl_base::Base;
use setl_modes::Mode;
use setl_rep_based::member;
use setl_rep_bases::Bases;
use setl_rep_forms::Held;
use setl_text::{push_decimal, text};
use setl_value::Value;
use std::alloc::{AllocError, Global};

/// Adds the line of a base: its name, how many members it has, and these by their block numbers.
///
/// The error is want of memory.
pub fn push_base(
    alloc: Global,
    name: &[u8],
    base: &Base,
    into: &mut Vec<u8>,
) -> Result<(), AllocError>
    ensures { OnOk result (into.new.items ≡ into.old.items ++ base_line name.now (values_of base.now)) }
{
    into.extend_from_slice(b"base ")?;
    into.extend_from_slice(name)?;
    into.push(b' ')?;
    push_decimal(into, base.mark().count)?;
    into.push(b':')?;
    push_members(alloc, base, into)?;
    into.push(b'\n')?;
    Ok(())
}

// Adds the texts of the members, each behind a blank.
fn push_members(alloc: Global, base: &Base, into: &mut Vec<u8>) -> Result<(), AllocError>
    ensures { OnOk result (into.new.items ≡ into.old.items ++ after_blanks (inner_texts (values_of base.now))) }
{
    let count = base.mark().count;
    for n in 0..count {
        push_member(alloc, base, n + 1, into)?;
    }
    Ok(())
}

// Adds the text of the member with a block number behind a blank.
fn push_member(alloc: Global, base: &Base, n: u64, into: &mut Vec<u8>) -> Result<(), AllocError>
    ensures { OnOk result (into.new.items ≡ into.old.items ++ after_blanks (inner_texts (member_list base.now n))) }
{
    if let Some(v) = member(base, n) {
        let inner = text(alloc, v)?;
        into.push(b' ')?;
        into.extend_from_slice(inner.as_slice())?;
    }
    Ok(())
}

/// Adds the line of a declared variable of the main program: its name, and what it holds, by its mode.
///
/// The value is held in the form of the mode. The error is want of memory. Its cost is near linear in the size of the text
/// and of the form.
pub fn push_variable(
    alloc: Global,
    name: &[u8],
    mode: &Mode,
    h: &Held,
    bases: &Bases,
    into: &mut Vec<u8>,
) -> Result<(), AllocError>
    requires over { IsOver bases.now (form h.now) }
    requires form { HasFormOrOm main (mode_of mode.now) (form h.now) }
    requires attributed { IsAttributed (mode_of mode.now) }
    ensures { OnOk result (into.new.items ≡ into.old.items ++ variable_line (members_by bases.now) name.now (mode_of mode.now) (stands bases.now (form h.now))) }
{
    into.extend_from_slice(name)?;
    into.push(b' ')?;
    match h {
        Held::Om => into.extend_from_slice(b"om")?,
        _ => push_part(alloc, mode, h, bases, into)?,
    }
    into.push(b'\n')?;
    Ok(())
}

/// Adds the line of a declared variable of the main program by its value as it is: its name, and the text that its mode
/// gives the value, or `om` where there is none.
///
/// Nothing is asked of the value or of the bases: what is no member of its base gets the number 0, or isn't listed. The
/// error is want of memory. Its cost is near linear in the size of the value and of the text.
pub fn push_value(
    alloc: Global,
    name: &[u8],
    mode: &Mode,
    value: Option<&Value>,
    bases: &Bases,
    into: &mut Vec<u8>,
) -> Result<(), AllocError>
    ensures { OnOk result (into.new.items ≡ into.old.items ++ variable_line (members_by bases.now) name.now (mode_of mode.now) (lent value.entry)) }
{
    into.extend_from_slice(name)?;
    into.push(b' ')?;
    match value {
        None => into.extend_from_slice(b"om")?,
        Some(v) => push_by_mode(alloc, mode, v, bases, into)?,
    }
    into.push(b'\n')?;
    Ok(())
}
