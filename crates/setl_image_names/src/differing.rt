//! Names that differ.

ghost use Rattle.std.specs.Prelude.{◌≡◌, ◌↔◌, ◌++◌, ◌∷◌, [], ℕ, map, not, true, IsTrue, IfOk, MatchOption};
ghost use Rattle.setl_names.specs.Names.{has_repeat};
ghost use Rattle.setl_model_runs.specs.Variable.{Global, Own};
ghost use Rattle.setl_code.specs.MayRun.{Differ};
ghost use Rattle.setl_code.specs.Names.{is_among};
ghost use Rattle.setl_code.specs.Plain.{own_variables, plain_name};
ghost use Rattle.setl_image_names.specs.Once.{declared_names, own_variable, variables_seen, are_new};

use indexmap::IndexSet;
use setl_code::OwnName;
use setl_modes::NamedMode;
use setl_names::Names;
use setl_tree::{Param, Text};
use std::alloc::{AllocError, Global as Allocator};

/// The names, or `None` where one stands twice. The error is want of memory.
pub fn different_names(alloc: Allocator, names: &[Text]) -> Result<Option<Names>, AllocError>
    ensures { IfOk result (λ found. MatchOption found (Differ (map Global names.now) → ⊥) (λ all. (all ≡ names.now) × Differ (map Global names.now))) }
{
    let mut all = Names::new(alloc);
    for name in names {
        if !all.put(name.bytes())? {
            return Ok(None);
        }
    }
    Ok(Some(all))
}

/// Whether the names that have these modes differ. The error is want of memory.
pub fn different_modes(alloc: Allocator, declared: &[NamedMode]) -> Result<bool, AllocError>
    ensures { IfOk result (λ so. so ≡ not (has_repeat (declared_names declared.now))) }
{
    let mut all = Names::new(alloc);
    for it in declared {
        if !all.put(it.name.bytes())? {
            return Ok(false);
        }
    }
    Ok(true)
}

/// Whether the variables of a body differ: its parameters and its own names. The error is want of memory.
pub fn own_names_differ(
    alloc: Allocator,
    params: &[Param],
    names: &[OwnName],
) -> Result<bool, AllocError>
    ensures { (n : ℕ) → IfOk result (λ so. IsTrue so ↔ Differ (own_variables n params.now names.now)) }
{
    let mut seen = IndexSet::new(alloc);
    if !put_parameters(&mut seen, params)? {
        return Ok(false);
    }
    put_names(&mut seen, names)
}

// Puts parameters to what was seen, up to one that was. It gives whether all of them are new.
fn put_parameters<'p>(
    seen: &mut IndexSet<(u64, &'p [u8])>,
    params: &'p [Param],
) -> Result<bool, AllocError>
    ensures new { (n : ℕ) → IfOk result (λ so. so ≡ are_new (variables_seen n seen.old.keys) (map (λ p. Own n p.name) params.now)) }
    ensures seen { (n : ℕ) → IfOk result (λ so. so ≡ true → variables_seen n seen.new.keys ≡ variables_seen n seen.old.keys ++ map (λ p. Own n p.name) params.now) }
{
    for param in params {
        if !put(seen, 0, param.name.bytes())? {
            return Ok(false);
        }
    }
    Ok(true)
}

// The same of own names.
fn put_names<'p>(
    seen: &mut IndexSet<(u64, &'p [u8])>,
    names: &'p [OwnName],
) -> Result<bool, AllocError>
    ensures { (n : ℕ) → IfOk result (λ so. so ≡ are_new (variables_seen n seen.old.keys) (map (plain_name n) names.now)) }
{
    for name in names {
        if !put_name(seen, name)? {
            return Ok(false);
        }
    }
    Ok(true)
}

// Puts an own name to what was seen, unless it was. It gives whether it is new.
fn put_name<'p>(seen: &mut IndexSet<(u64, &'p [u8])>, name: &'p OwnName) -> Result<bool, AllocError>
    ensures new { (n : ℕ) → IfOk result (λ new. new ≡ not (is_among (variables_seen n seen.old.keys) (plain_name n name.now))) }
    ensures seen { (n : ℕ) → IfOk result (λ new. new ≡ true → variables_seen n seen.new.keys ≡ variables_seen n seen.old.keys ++ plain_name n name.now ∷ []) }
{
    match name {
        OwnName::Body(text) => put(seen, 0, text.bytes()),
        OwnName::Former(former, text) => put(seen, u64::from(*former) + 1, text.bytes()),
    }
}

// The same of a name of a former, by one more than the former's number, or of none by 0.
fn put<'p>(
    seen: &mut IndexSet<(u64, &'p [u8])>,
    former: u64,
    name: &'p [u8],
) -> Result<bool, AllocError>
    ensures new { (n : ℕ) → IfOk result (λ new. new ≡ not (is_among (variables_seen n seen.old.keys) (own_variable n former name.now))) }
    ensures seen { (n : ℕ) → IfOk result (λ new. new ≡ true → variables_seen n seen.new.keys ≡ variables_seen n seen.old.keys ++ own_variable n former name.now ∷ []) }
{
    Ok(seen.insert((former, name))?)
}
