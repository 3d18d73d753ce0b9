//! Which own slots of the main program are declared.

ghost use Rattle.std.specs.Prelude.{◌≡◌, ◌++◌, List, [], map, slice_get, Some, IfOk, OnOk};
ghost use Rattle.setl_model_runs.specs.Variable as run;
ghost use Rattle.setl_code_marked.specs.Marked.{declared_in};
ghost use Rattle.setl_names.specs.Names.{has};
ghost use Rattle.setl_program.specs.code.Plain.{plain_declared, plain_variable};
ghost use Rattle.setl_live.specs.Slots.{OnlyMain, TellsDeclared, with_main, with_all_main, is_named, table_by};

use setl_code::{Body, Code, OwnName};
use setl_names::Names;
use setl_program::{Declared, Variable};
use setl_tree::Param;
use std::alloc::{AllocError, Global};

/// Puts the name of a variable of the main program's own to some names.
fn put_main(names: &mut Names, variable: &Variable) -> Result<(), AllocError>
    ensures { OnOk result (names.new ≡ with_main names.old (plain_variable variable.now)) }
{
    let Variable::Own(0, name) = variable else {
        return Ok(());
    };
    names.put(name.bytes())?;
    Ok(())
}

/// The names of the declared variables that are the main program's own.
fn main_names(alloc: Global, declared: &[Declared]) -> Result<Names, AllocError>
    ensures { IfOk result (λ names. names ≡ with_all_main [] (declared_in (map plain_declared declared.now))) }
{
    let mut names = Names::new(alloc);
    for it in declared {
        put_main(&mut names, &it.variable)?;
    }
    Ok(names)
}

/// Whether a name of the main program's own is among some names; a former's isn't.
fn is_named(names: &Names, name: &OwnName) -> bool
    ensures { result ≡ is_named names.now name.now }
{
    match name {
        OwnName::Body(name) => names.has(name.bytes()),
        OwnName::Former(_, _) => false,
    }
}

/// Puts to a table, for each parameter, whether its name is among some names.
fn put_parameters(table: &mut Vec<bool>, names: &Names, params: &[Param]) -> Result<(), AllocError>
    ensures { OnOk result (table.new.items ≡ table.old.items ++ map (λ p. has names.now p.name) params.now) }
{
    for param in params {
        table.push(names.has(param.name.bytes()))?;
    }
    Ok(())
}

/// Puts to a table, for each own name, whether it is among some names.
fn put_names(table: &mut Vec<bool>, names: &Names, own: &[OwnName]) -> Result<(), AllocError>
    ensures { OnOk result (table.new.items ≡ table.old.items ++ map (is_named names.now) own.now) }
{
    for name in own {
        table.push(is_named(names, name))?;
    }
    Ok(())
}

/// For each own slot of the main program's body, whether its name is among some names.
fn table_by(alloc: Global, names: &Names, body: &Body) -> Result<Vec<bool>, AllocError>
    ensures { IfOk result (λ table. table.items ≡ table_by names.now body.now.parameters body.now.names) }
{
    let mut table = Vec::new(alloc);
    put_parameters(&mut table, names, body.parameters.as_slice())?;
    put_names(&mut table, names, body.names.as_slice())?;
    Ok(table)
}

/// For each own slot of a code's main program, whether its variable is declared.
///
/// The error is want of memory.
pub(crate) fn declared_slots(
    alloc: Global,
    code: &Code,
    declared: &[Declared],
) -> Result<Vec<bool>, AllocError>
    requires { OnlyMain (declared_in (map plain_declared declared.now)) }
    ensures { IfOk result (λ table. TellsDeclared (declared_in (map plain_declared declared.now)) (slice_get code.now.bodies 0) table.items) }
{
    let names = main_names(alloc, declared)?;
    match code.bodies.as_slice().get(0) {
        None => Ok(Vec::new(alloc)),
        Some(body) => table_by(alloc, &names, body),
    }
}

/// For each own slot of the main program's body, whether its variable is declared. `names` are the names of the declared
/// variables that are the main program's own.
///
/// The error is want of memory.
pub fn declared_among(alloc: Global, names: &Names, body: &Body) -> Result<Vec<bool>, AllocError>
    ensures { (declared : List run.Variable) → OnlyMain declared → names.now ≡ with_all_main [] declared → IfOk result (λ table. TellsDeclared declared (Some body.now) table.items) }
{
    table_by(alloc, names, body)
}
