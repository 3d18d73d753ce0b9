//! Variables that hold their values in the forms of their declarations.
//!
//! A set on a base that is `remote` or `local` goes into its form where the empty set is stored, and stays in it until something
//! is done to it that has no kernel for forms: then the variable goes on with the plain value. So what is converted costs no more
//! than what was put in before.

ghost use Rattle.std.specs.Prelude.{◌≡◌, ◌∷◌, ℕ, true, false, [], length, map, Option, Some, IfOk, IfSome};
ghost use Rattle.setl_code.specs.Code.{Load, Alter, Combining};
ghost use Rattle.setl_model.specs.Step.{declared_mode};
ghost use Rattle.setl_operators_table.specs.Operators.{op_of};
ghost use Rattle.setl_rep_updates.specs.Changed.{given_by};
ghost use Rattle.setl_code.specs.CodeCore.{There, held, write};
ghost use Rattle.setl_code.specs.MayRun.{HasSlot};
ghost use Rattle.setl_code.specs.Plain.{plain_slot, plain_bracket, plain_alteration};
ghost use Rattle.setl_machine_control.specs.Declaring.{mode_by, modes_of, Serves};
ghost use Rattle.setl_machine_control.specs.Gaining.{gained_by};
ghost use Rattle.setl_machine_control.specs.Working.{Works};
ghost use Rattle.setl_machine_control.specs.declared.end.End.{End};
ghost use Rattle.setl_machine_variables.specs.Gaining.{stores_at, GainsIf};
ghost use Rattle.setl_machine_variables.specs.Freely.{WorksOrLeaves};
ghost use Rattle.setl_modes.specs.Fits.{is_taken};
ghost use Rattle.setl_modes.specs.Modes.{mode_of};
ghost use Rattle.setl_store.specs.Operands.{IsThere};
ghost use Rattle.setl_store.specs.Standing.{variables, Becomes, CanGoOn};
ghost use Rattle.setl_value.specs.Datum.{Datum};
ghost use Rattle.setl_value.specs.code.DatumOf.{datum, part};

use crate::declarations::Declarations;
use setl_code::{Alteration, Bracket, Instr, Slot};
use setl_code_declared::declared_variables_fit;
use setl_machine_control::{Declaration, End, go_on};
use setl_modes::{Form, Mode};
use setl_modes_parts::{combines, parts_decide};
use setl_operators::Operator;
use setl_rep_forms::Held;
use setl_rep_updates::Change;
use setl_store::{Content, Store};
use setl_value::Value;
use std::alloc::AllocError;

/// Stores a value, or `om`, that its declaration takes in a variable's slot: in its form, where the store tells its bases, and else
/// the empty set alone where it is declared so. The error is want of memory, and then all is as before.
pub(crate) fn put(
    slot: Slot,
    declared: Option<Declaration<'_>>,
    value: Option<Value>,
    store: &mut Store<'_>,
) -> Result<(), AllocError>
    requires there { HasSlot (length store.old.core.globals) (length store.old.core.now.own) slot }
    requires fits { is_taken (mode_by declared) (part value) ≡ true }
    ensures { Becomes result store.old store.new (record store.old { core = write (plain_slot (variables store.old.core) slot) (There (part value)) store.old.core; bases = gained_by (mode_by declared.entry) (part value) store.old.bases }) }
{
    let Some(declaration) = declared else {
        return store.set_slot(slot, value);
    };
    let Some(value) = value else {
        return store.set_slot(slot, None);
    };
    if store.tells() || begins_so(declaration.mode, &value) {
        return store.assign(slot, declaration.mode, value);
    }
    store.set_slot(slot, Some(value))
}

/// Whether a store into a variable enters values into bases that the store tells. It takes no memory.
#[inline(always)]
pub(crate) fn enters(declared: Option<Declaration<'_>>, store: &Store<'_>) -> bool
    ensures { result ≡ false → (v : Option Datum) → gained_by (mode_by declared.entry) v store.now.bases ≡ store.now.bases }
{
    match declared {
        None => false,
        Some(_) => store.tells(),
    }
}

// Whether a value is held in the form of a mode from the first on.
fn begins_so(mode: &Mode, value: &Value) -> bool {
    is_held_so(mode) && is_empty(value)
}

// Whether a value is the empty set.
fn is_empty(value: &Value) -> bool {
    match value {
        Value::Set(set) => set.len() == 0,
        _ => false,
    }
}

// Whether values of a mode are held in its form.
fn is_held_so(mode: &Mode) -> bool {
    match mode {
        Mode::Set(Form::Remote, members) | Mode::Set(Form::Local, members) => {
            matches!(members.get(), Mode::Elmt(_, _))
        }
        _ => false,
    }
}

/// Pushes what a variable holds in a form: in that form where it goes into an operator with a kernel for it, and else the plain
/// value, which the variable then holds too. The error is want of memory.
#[inline(never)]
pub(crate) fn load_form(slot: Slot, store: &mut Store<'_>) -> Result<End, AllocError>
    requires few { CanGoOn store.old }
    requires slot { HasSlot (length store.old.core.globals) (length store.old.core.now.own) slot }
    requires there { IsThere (held (plain_slot (variables store.old.core) slot) store.old.core) }
    ensures { (line : ℕ) → IfOk result (λ end. Works store.old line (Load (plain_slot (variables store.old.core) slot)) store.new end) }
{
    if is_taken_in_form(slot, store) {
        load_in_form(slot, store)
    } else {
        load_plain(slot, store)
    }
}

// Pushes what a variable holds in its form.
fn load_in_form(slot: Slot, store: &mut Store<'_>) -> Result<End, AllocError>
    requires few { CanGoOn store.old }
    requires slot { HasSlot (length store.old.core.globals) (length store.old.core.now.own) slot }
    requires there { IsThere (held (plain_slot (variables store.old.core) slot) store.old.core) }
    ensures { (line : ℕ) → IfOk result (λ end. Works store.old line (Load (plain_slot (variables store.old.core) slot)) store.new end) }
{
    store.push_slot(slot)?;
    go_on(store);
    Ok(End::Paused)
}

// Pushes what a variable holds as a plain value, which the variable then holds too.
fn load_plain(slot: Slot, store: &mut Store<'_>) -> Result<End, AllocError>
    requires few { CanGoOn store.old }
    requires slot { HasSlot (length store.old.core.globals) (length store.old.core.now.own) slot }
    requires there { IsThere (held (plain_slot (variables store.old.core) slot) store.old.core) }
    ensures { (line : ℕ) → IfOk result (λ end. Works store.old line (Load (plain_slot (variables store.old.core) slot)) store.new end) }
{
    store.make_plain(slot)?;
    let value = store.value(slot)?;
    store.push(value)?;
    go_on(store);
    Ok(End::Paused)
}

// Whether what the instruction in hand pushes of a variable's form goes into an operator that takes such a form as it is, before
// anything else is done but to push and to operate on what stands above it.
fn is_taken_in_form(slot: Slot, store: &Store<'_>) -> bool
    requires few { CanGoOn store.now }
    requires slot { HasSlot (length store.now.core.globals) (length store.now.core.now.own) slot }
{
    let Some(form) = store.form(slot) else {
        return false;
    };
    let Some(body) = store.code().bodies.as_slice().get(store.body() as usize) else {
        return false;
    };
    let first = store.at() + 1;
    let mut above: u32 = 0;
    for at in 0..SEEN {
        let Some(step) = body.steps.as_slice().get(first.saturating_add(at)) else {
            return false;
        };
        match &step.what {
            Instr::Integer(_) | Instr::Text(_) | Instr::Truth(_) => above = above.saturating_add(1),
            Instr::Load(_) | Instr::Take(_) => above = above.saturating_add(1),
            Instr::Operate(what, count) => {
                if *count > above {
                    return takes_form(*what, above, form, store);
                }
                above = (above - *count).saturating_add(1);
            }
            _ => return false,
        }
    }
    false
}

// How many instructions are looked at.
const SEEN: usize = 12;

// Whether an operator takes a form as it is, above which so many of its operands stand.
fn takes_form(what: Operator, above: u32, form: &Held, store: &Store<'_>) -> bool {
    match what {
        Operator::In | Operator::NotIn => above == 0 && is_numbered(form) && store.one().is_some(),
        Operator::Size => above == 0 && matches!(form, Held::Remote(_, _)),
        Operator::Get | Operator::Images => above == 1 && is_table(form),
        _ => false,
    }
}

// Whether a form is that of a set as the numbers of its members.
fn is_numbered(form: &Held) -> bool {
    matches!(form, Held::Remote(_, _) | Held::Sparse(_, _))
}

// Whether a form is that of a map as a table.
fn is_table(form: &Held) -> bool {
    matches!(form, Held::RemoteMap(_, _, _) | Held::SparseMap(_, _, _))
}

/// `s with:= x` and `s less:= x`, where the variable holds a form in which that is done where it stands. Its answer is whether this
/// was so, and else all is as before. The error is want of memory.
#[inline(always)]
pub(crate) fn update_in_form(
    what: Alteration,
    slot: Slot,
    brackets: &[Bracket],
    declarations: &Declarations<'_>,
    store: &mut Store<'_>,
) -> Result<bool, AllocError>
    requires few { CanGoOn store.old }
    requires there { HasSlot (length store.old.core.globals) (length store.old.core.now.own) slot }
    requires serves { Serves declarations.now store.old }
    ensures did { (line : ℕ) → IfOk result (λ done. WorksOrLeaves (modes_of declarations.now) store.old line (Alter (plain_alteration what) (plain_slot (variables store.old.core) slot) (map plain_bracket brackets.now)) store.new done) }
    ensures gained { (turns : ℕ) → IfOk result (λ done. done ≡ true → GainsIf (stores_at (plain_alteration what) (plain_slot (variables store.old.core) slot) (map plain_bracket brackets.now) store.old.core turns) (modes_of declarations.now) (plain_slot (variables store.old.core) slot) store.old store.new End.Paused) }
{
    match store.slot(slot) {
        Content::Based => update_form(what, slot, brackets, declarations, store),
        Content::Om | Content::Taken | Content::Value(_) => Ok(false),
    }
}

// The same of a variable that holds a form.
#[inline(never)]
fn update_form(
    what: Alteration,
    slot: Slot,
    brackets: &[Bracket],
    declarations: &Declarations<'_>,
    store: &mut Store<'_>,
) -> Result<bool, AllocError>
    requires few { CanGoOn store.old }
    requires there { HasSlot (length store.old.core.globals) (length store.old.core.now.own) slot }
    requires serves { Serves declarations.now store.old }
    ensures did { (line : ℕ) → IfOk result (λ done. WorksOrLeaves (modes_of declarations.now) store.old line (Alter (plain_alteration what) (plain_slot (variables store.old.core) slot) (map plain_bracket brackets.now)) store.new done) }
    ensures gained { (turns : ℕ) → IfOk result (λ done. done ≡ true → GainsIf (stores_at (plain_alteration what) (plain_slot (variables store.old.core) slot) (map plain_bracket brackets.now) store.old.core turns) (modes_of declarations.now) (plain_slot (variables store.old.core) slot) store.old store.new End.Paused) }
{
    parts_decide();
    declared_variables_fit();
    let Some((by, mode)) = combined_form(what, slot, brackets, declarations, store) else {
        return Ok(false);
    };
    let Some(top) = store.one() else {
        return Ok(false);
    };
    let value = top.copy()?;
    if !combines(by, mode, &Some(value.copy()?)) {
        return Ok(false);
    }
    let Some(change) = change_of(by, value) else {
        return Ok(false);
    };
    if !store.update(slot, mode, &change)? {
        return Ok(false);
    }
    store.drop_top()?;
    go_on(store);
    Ok(true)
}

// What an operator makes of a whole and a value, as a change of the whole; None where it is no such change.
fn change_of(by: Operator, x: Value) -> Option<Change>
    ensures { IfSome result (λ change. (whole : Option Datum) → given_by change whole ≡ op_of by (whole ∷ Some (datum x) ∷ [])) }
{
    match by {
        Operator::With => Some(Change::With(x)),
        Operator::Less => Some(Change::Less(x)),
        _ => None,
    }
}

// The operator of an update without selectors, and the mode of the variable, where it is declared.
fn combined_form<'p>(
    what: Alteration,
    slot: Slot,
    brackets: &[Bracket],
    declarations: &Declarations<'p>,
    store: &Store<'_>,
) -> Option<(Operator, &'p Mode)>
    requires serves { Serves declarations.now store.now }
    ensures { IfSome result (λ c. (plain_alteration what ≡ Combining c.0) × (map plain_bracket brackets.now ≡ []) × (declared_mode (modes_of declarations.now) (plain_slot (variables store.now.core) slot) ≡ Some (mode_of c.1.now))) }
{
    let Alteration::Combine(by) = what else {
        return None;
    };
    let count = brackets.len();
    if count > 0 {
        return None;
    }
    let Some(declaration) = declarations.of_slot(slot, store) else {
        return None;
    };
    Some((by, declaration.mode))
}
