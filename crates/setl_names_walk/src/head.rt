//! Rules 1 to 8: what stands outside statements.

ghost use Rattle.std.specs.Prelude.{◌≡◌, map, fold, IfOk};
ghost use Rattle.setl_names.specs.Breaks as spec;
ghost use Rattle.setl_names.specs.Breaks.{earlier, tagged};
ghost use Rattle.setl_names.specs.Heads as heads;

use setl_names::{Break, Declares, Procs, noted, noted_again, noted_if};
use setl_tree::{Declared, Param, Proc, Text, Tree};
use std::alloc::{AllocError, Global};

/// The first break so far and of a rule that what declares a procedure's name breaks.
fn of_procedures<T: Declares>(
    first: Option<Break>,
    rule: u8,
    procs: &Procs<'_>,
    items: &[T],
) -> Option<Break>
    ensures { result ≡ fold earlier first (tagged rule (heads.lines_of_procedures procs.now (map T.entry_of items.now))) }
{
    let mut first = first;
    for item in items {
        let entry = item.entry();
        if procs.has(entry.name.text().bytes()) {
            first = noted(first, entry.line, rule);
        }
    }
    first
}

/// Whether a name behind an `end` is another one.
pub fn is_other(end_name: &Option<Text>, name: &Text) -> bool
    ensures { result ≡ heads.is_other end_name.now name.now }
{
    match end_name {
        None => false,
        Some(end_name) => end_name.bytes() != name.bytes(),
    }
}

/// The first break so far and of the rule that the name after `end proc` is the procedure's.
fn ends(first: Option<Break>, procs: &[Proc]) -> Option<Break>
    ensures { result ≡ fold earlier first (tagged 2 (heads.rule_2 procs.now)) }
{
    let mut first = first;
    for proc in procs {
        if is_other(&proc.end_name, &proc.name) {
            first = noted(first, proc.end_line, 2);
        }
    }
    first
}

/// The first break so far and of the rule that no procedure has the program's name.
fn program_names(first: Option<Break>, name: &Text, procs: &[Proc]) -> Option<Break>
    ensures { result ≡ fold earlier first (tagged 4 (heads.rule_4 name.now procs.now)) }
{
    let mut first = first;
    for proc in procs {
        if proc.name.bytes() == name.bytes() {
            first = noted(first, proc.line, 4);
        }
    }
    first
}

/// The first break so far and of the rules on one parameter list.
fn param_break(
    alloc: Global,
    first: Option<Break>,
    procs: &Procs<'_>,
    params: &[Param],
) -> Result<Option<Break>, AllocError>
    ensures { IfOk result (λ f. f ≡ fold earlier first (spec.list_breaks procs.now params.now)) }
{
    let first = noted_again(alloc, first, 7, params)?;
    Ok(of_procedures(first, 8, procs, params))
}

/// The first break so far and of the rules on parameter lists.
fn param_breaks(
    alloc: Global,
    first: Option<Break>,
    table: &Procs<'_>,
    procs: &[Proc],
) -> Result<Option<Break>, AllocError>
    ensures { IfOk result (λ f. f ≡ fold earlier first (spec.param_breaks table.now procs.now)) }
{
    let mut first = first;
    for proc in procs {
        first = param_break(alloc, first, table, proc.params.as_slice())?;
    }
    Ok(first)
}

/// The first break so far and of the rules on procedures' names.
fn proc_breaks(
    alloc: Global,
    first: Option<Break>,
    name: &Text,
    procs: &[Proc],
) -> Result<Option<Break>, AllocError>
    ensures { IfOk result (λ f. f ≡ fold earlier first (spec.proc_breaks name.now procs.now)) }
{
    let first = ends(first, procs);
    let first = noted_again(alloc, first, 3, procs)?;
    Ok(program_names(first, name, procs))
}

/// The first break so far and of the rules on the names in `var`.
fn var_breaks(
    alloc: Global,
    first: Option<Break>,
    table: &Procs<'_>,
    names: &[Declared],
) -> Result<Option<Break>, AllocError>
    ensures { IfOk result (λ f. f ≡ fold earlier first (spec.var_breaks table.now names.now)) }
{
    let first = noted_again(alloc, first, 5, names)?;
    Ok(of_procedures(first, 6, table, names))
}

/// The first break of the rules 1 to 8.
pub fn head_break(
    alloc: Global,
    tree: &Tree,
    table: &Procs<'_>,
) -> Result<Option<Break>, AllocError>
    requires { table.now ≡ tree.now.procs }
    ensures { IfOk result (λ f. f ≡ spec.first_break (spec.head_breaks tree.now)) }
{
    let is_broken = is_other(&tree.end_name, &tree.name);
    let first = noted_if(None, tree.end_line, 1, is_broken);
    let first = proc_breaks(alloc, first, &tree.name, tree.procs.as_slice())?;
    let first = var_breaks(alloc, first, table, tree.vars.as_slice())?;
    param_breaks(alloc, first, table, tree.procs.as_slice())
}
