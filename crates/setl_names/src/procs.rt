//! The procedures of a program, found by their names.

ghost use Rattle.std.specs.Prelude.{◌≡◌, suc, List, ◌∷◌, IfOk, OnOk, OnErr, option_map};
ghost use Rattle.setl_tree.specs.declared.tree.Proc.{Proc as TreeProc};
ghost use Rattle.setl_names.specs.code.Tables.{Finds};
ghost use Rattle.setl_names.specs.Procedures as spec;

use indexmap::IndexMap;
use setl_tree::{Items, Param, Proc, Text};
use std::alloc::{AllocError, Global};
use std::marker::Model;

/// The procedures of a program with a table from their names. Contracts see the list of them.
#[derive(Drop)]
pub struct Procs<'t> {
    procs: &'t [Proc],
    table: IndexMap<Vec<u8>, (usize, &'t Items<Param>)>,
}

impl<'t> Model for Procs<'t> {
    ghost use Rattle.std.specs.Prelude.{List};
    ghost use Rattle.std.specs.Coded.{codes};
    ghost use Rattle.setl_tree.specs.contracts.stmt.Stmt as stmt;
    ghost use Rattle.setl_tree.specs.declared.tree.Proc.{Proc as TreeProc};
    ghost use Rattle.setl_names.specs.code.Tables.{Finds};

    ghost Value = { List TreeProc };

    ghost coded = { Prim.hlevel (codes, stmt.the_row.coded) };

    ghost view = { λ p. p.procs.now };

    ghost invariant = { λ p. Finds p.table (λ r. (r.0, r.1.now)) 0 p.procs.now };
}

/// Puts the place of a procedure and its parameters into a table, at its name, instead of what is there. An error is want
/// of memory, and the table is then as before.
fn put_proc<'t>(
    alloc: Global,
    table: &mut IndexMap<Vec<u8>, (usize, &'t Items<Param>)>,
    at: usize,
    proc: &'t Proc,
) -> Result<(), AllocError>
    ensures ok { OnOk result ((procs : List TreeProc) → Finds table.old (λ r. (r.0, r.1.now)) (suc at) procs → Finds table.new (λ r. (r.0, r.1.now)) at (proc.now ∷ procs)) }
    ensures err { OnErr result (table.new.entries ≡ table.old.entries) }
{
    let name = Vec::from_slice(alloc, proc.name.bytes())?;
    table.insert(name, (at, &proc.params))?;
    Ok(())
}

impl<'t> Procs<'t> {
    /// The table of some procedures. Of two of one name the first counts.
    #[tactic(auto, using(crate::proofs::Tables::finds_none))]
    pub fn new(alloc: Global, procs: &'t [Proc]) -> Result<Procs<'t>, AllocError>
        ensures { IfOk result (λ p. p ≡ procs.now) }
    {
        let mut table = IndexMap::new(alloc);
        let mut at = procs.len();
        while at > 0 {
            at -= 1;
            put_proc(alloc, &mut table, at, &procs[at])?;
        }
        Ok(Procs { procs, table })
    }

    /// The place and the parameters of the procedure whose name has these bytes.
    fn found(&self, name: &[u8]) -> Option<(usize, &'t [Param])>
        ensures { option_map (λ found. (found.0, found.1.now)) result ≡ spec.found_procedure self.now name.now }
    {
        match self.table.get(name) {
            None => None,
            Some(found) => Some((found.0, found.1.as_slice())),
        }
    }

    /// The place of the procedure of this name among the procedures, counted from 0, and its parameters; `None` where
    /// there is none.
    pub fn find(&self, name: &Text) -> Option<(usize, &'t [Param])>
        ensures { option_map (λ found. (found.0, found.1.now)) result ≡ spec.found_procedure self.now name.now }
    {
        self.found(name.bytes())
    }

    /// The parameters of the procedure of this name; `None` where there is none.
    pub fn params_of(&self, name: &[u8]) -> Option<&'t [Param]>
        ensures { option_map (λ params. params.now) result ≡ spec.params_of self.now name.now }
    {
        match self.found(name) {
            None => None,
            Some(found) => Some(found.1),
        }
    }

    /// Whether a procedure has this name.
    pub fn has(&self, name: &[u8]) -> bool
        ensures { result ≡ spec.is_procedure self.now name.now }
    {
        self.params_of(name).is_some()
    }
}
