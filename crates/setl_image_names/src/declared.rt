//! Names that are declared.

ghost use Rattle.std.specs.Prelude.{◌≡◌, ◌↔◌, ◌∷◌, [], IsTrue, IfOk, OnOk};
ghost use Rattle.std.specs.List.{AllByRecursion};
ghost use Rattle.setl_names.specs.Names.{in_order, with_names};
ghost use Rattle.setl_image_names.specs.Once.{StandsOnce, all_once, declared_names, is_once, names_in, own_after};

use setl_code::OwnName;
use setl_modes::NamedMode;
use setl_names::Names;
use std::alloc::{AllocError, Global};

/// Whether each declared name stands among the names in `var` or among the own names of the main body, and not among both.
/// The error is want of memory.
pub fn stand_once(
    alloc: Global,
    vars: &Names,
    main: &[OwnName],
    declared: &[NamedMode],
) -> Result<bool, AllocError>
    ensures { IfOk result (λ so. IsTrue so ↔ AllByRecursion (StandsOnce vars.now main.now) (declared_names declared.now)) }
{
    let mine = own_names(alloc, main)?;
    Ok(all_once(vars, &mine, declared))
}

// The own names of a body that aren't those of formers.
fn own_names(alloc: Global, main: &[OwnName]) -> Result<Names, AllocError>
    ensures { IfOk result (λ names. names ≡ in_order (names_in main.now)) }
{
    let mut names = Names::new(alloc);
    for name in main {
        put_body(&mut names, name)?;
    }
    Ok(names)
}

// Puts an own name to some names, unless it is that of a former.
fn put_body(names: &mut Names, name: &OwnName) -> Result<(), AllocError>
    ensures { OnOk result (names.new ≡ with_names names.old (names_in (name.now ∷ []))) }
{
    if let OwnName::Body(text) = name {
        names.put(text.bytes())?;
    }
    Ok(())
}

// Whether each name is in `var` or among these, and not in both.
fn all_once(vars: &Names, mine: &Names, declared: &[NamedMode]) -> bool
    ensures { result ≡ all_once vars.now mine.now (declared_names declared.now) }
{
    for it in declared {
        if !is_once(vars.has(it.name.bytes()), mine.has(it.name.bytes())) {
            return false;
        }
    }
    true
}

// Whether a name is in one of two lists alone.
fn is_once(in_vars: bool, in_mine: bool) -> bool
    ensures { result ≡ is_once in_vars in_mine }
{
    if in_vars { !in_mine } else { in_mine }
}

/// The declared names that aren't in `var`, so that they are the main program's own. The error is want of memory.
pub fn own_declared(
    alloc: Global,
    vars: &Names,
    declared: &[NamedMode],
) -> Result<Names, AllocError>
    ensures { IfOk result (λ names. names ≡ own_after vars.now [] (declared_names declared.now)) }
{
    let mut names = Names::new(alloc);
    for it in declared {
        if !vars.has(it.name.bytes()) {
            names.put(it.name.bytes())?;
        }
    }
    Ok(names)
}
