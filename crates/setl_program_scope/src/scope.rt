//! Which variable a name stands for where it stands.

ghost use Rattle.std.specs.Prelude.{◌≡◌, ℕ, List, suc, None, map, option_map, IfOk, OnOk};
ghost use Rattle.setl_names.specs.Names.{Name};
ghost use Rattle.setl_program.specs.code.Plain.{plain_variable, plain_slots, plain_binding};
ghost use Rattle.setl_program.specs.ProgramOf.{main_scope, in_body};
ghost use Rattle.setl_program.specs.Scope as spec;
ghost use Rattle.setl_program.specs.Program.{Point};
ghost use Rattle.setl_program_scope.specs.Places.{variable_in};

use crate::held::beside;
use setl_names::{Names, Procs};
use setl_program::{Binding, Source, Variable};
use setl_tree::{Bound, Items, Param, Slot, Text, Tree};
use std::alloc::{AllocError, Global};
use std::marker::Model;

/// A former around a place: its number in its body, and the names that it binds there.
#[derive(Drop)]
pub struct Former {
    number: u32,
    names: Names,
}

impl Model for Former {
    ghost use Rattle.setl_program.specs.Scope as spec;

    ghost Value = { spec.Former };

    ghost view = { λ f. record { number = f.number; names = f.names } };
}

/// Where an expression stands: the number of its body, its parameters and the names in `var`, the formers around it, the
/// innermost last, and the procedures.
#[derive(Drop)]
pub struct Scope<'t> {
    body: u32,
    parameters: Names,
    vars: Names,
    formers: Items<Former>,
    procedures: Procs<'t>,
}

impl<'t> Model for Scope<'t> {
    ghost use Rattle.std.specs.Coded.{codes};
    ghost use Rattle.setl_tree.specs.contracts.stmt.Stmt as stmt;
    ghost use Rattle.setl_program.specs.Scope as spec;

    ghost Value = { spec.Scope };

    ghost coded = { Prim.hlevel (codes, stmt.the_row.coded) };

    ghost view = { λ s. record { body = s.body; parameters = s.parameters; vars = s.vars; formers = s.formers; procedures = s.procedures } };
}

impl<'t> Scope<'t> {
    /// The scope of the main body of a program. An error is want of memory.
    pub fn main(alloc: Global, tree: &'t Tree) -> Result<Scope<'t>, AllocError>
        ensures { IfOk result (λ s. s ≡ main_scope tree.now) }
    {
        let vars = Names::declared(alloc, tree.vars.as_slice())?;
        let (vars, procedures) = beside(vars, Procs::new(alloc, tree.procs.as_slice()))?;
        Ok(Scope {
            body: 0,
            parameters: Names::new(alloc),
            vars,
            formers: Items::new(alloc),
            procedures,
        })
    }

    /// Goes over to the next body, which has these parameters. The error is want of memory, or that there are 2^32 - 1
    /// procedures already. Each takes some bytes of a source, which has at most 2^24.
    pub fn next_body(&mut self, alloc: Global, parameters: &[Param]) -> Result<(), AllocError>
        ensures { OnOk result (self.new ≡ in_body (suc self.old.body) parameters.now self.old) }
    {
        let number = self.body.checked_add(1).ok_or(AllocError)?;
        self.parameters = Names::declared(alloc, parameters)?;
        self.body = number;
        Ok(())
    }

    /// Enters a former with this number, which binds these names. An error is want of memory.
    pub fn enter(&mut self, number: u32, names: Names) -> Result<(), AllocError>
        ensures { OnOk result (self.new ≡ spec.in_former number names self.old) }
    {
        self.formers.push(Former { number, names })
    }

    /// Leaves the innermost former, and gives the names that it bound: all is as before it was entered.
    pub fn leave(&mut self, alloc: Global) -> Names
        ensures { (m : ℕ) (names : List Name) (s : spec.Scope) → self.old ≡ spec.in_former m names s → (result ≡ names) × (self.new ≡ s) }
    {
        match self.formers.pop() {
            None => Names::new(alloc),
            Some(former) => former.names,
        }
    }

    /// The place of the procedure of this name, from 0, and its parameters; `None` where there is none.
    pub fn procedure(&self, name: &Text) -> Option<(usize, &'t [Param])>
        ensures { option_map (λ found. (found.0, found.1.now)) result ≡ spec.procedure_of self.now name.now }
    {
        self.procedures.find(name)
    }

    /// The number of the innermost former that binds a name; `None` where none does.
    fn former_of(&self, name: &Text) -> Option<u32>
        ensures { result ≡ spec.former_of self.now name.now }
    {
        let mut found = None;
        for former in self.formers.as_slice() {
            if former.names.has(name.bytes()) {
                found = Some(former.number);
            }
        }
        found
    }

    /// The variable of a name that no former binds.
    fn outer_variable(&self, name: Text) -> Variable
        ensures { plain_variable result ≡ variable_in self.now name None }
    {
        if self.parameters.has(name.bytes()) {
            Variable::Own(self.body, name)
        } else if self.vars.has(name.bytes()) {
            Variable::Global(name)
        } else {
            Variable::Own(self.body, name)
        }
    }

    /// The variable that a name stands for. An error is want of memory.
    #[tactic(auto, using(crate::proofs::Scopes::variable_found))]
    pub fn variable(&self, name: &Text) -> Result<Variable, AllocError>
        ensures { IfOk result (λ x. plain_variable x ≡ spec.variable_of self.now name.now) }
    {
        let copy = name.copy()?;
        match self.former_of(name) {
            None => Ok(self.outer_variable(copy)),
            Some(former) => Ok(Variable::Former(former, copy)),
        }
    }

    /// The variable of a name that a former binds, or else that the name stands for. An error is want of memory.
    pub fn bound_variable(&self, former: Option<u32>, name: &Text) -> Result<Variable, AllocError>
        ensures { IfOk result (λ x. plain_variable x ≡ spec.bound_by former self.now name.now) }
    {
        match former {
            None => self.variable(name),
            Some(former) => Ok(Variable::Former(former, name.copy()?)),
        }
    }

    /// The variable of a component of a pattern; `None` where it is skipped. An error is want of memory.
    fn slot(&self, former: Option<u32>, slot: &Slot) -> Result<Option<Variable>, AllocError>
        ensures { IfOk result (λ x. option_map plain_variable x ≡ spec.slot_variable (spec.bound_by former self.now) slot.now) }
    {
        match slot {
            Slot::Name(name) => Ok(Some(self.bound_variable(former, name)?)),
            Slot::Skip => Ok(None),
        }
    }

    /// The variables of the components of a pattern. An error is want of memory.
    pub fn slots(
        &self,
        alloc: Global,
        former: Option<u32>,
        slots: &[Slot],
    ) -> Result<Items<Option<Variable>>, AllocError>
        ensures { IfOk result (λ xs. plain_slots xs ≡ map (spec.slot_variable (spec.bound_by former self.now)) slots.now) }
    {
        let mut all = Items::new(alloc);
        for slot in slots {
            all.push(self.slot(former, slot)?)?;
        }
        Ok(all)
    }

    /// What an iterator binds, where its members come so from its source. An error is want of memory.
    pub fn binding(
        &self,
        alloc: Global,
        former: Option<u32>,
        bound: &Bound,
        source: Source,
    ) -> Result<Binding, AllocError>
        ensures { IfOk result (λ b. plain_binding b ≡ spec.binding_of bound.now source (spec.bound_by former self.now)) }
    {
        match bound {
            Bound::Name(name) => Ok(Binding::Member(source, self.bound_variable(former, name)?)),
            Bound::Pattern(slots) => {
                Ok(Binding::Components(source, self.slots(alloc, former, slots.as_slice())?))
            }
        }
    }

    /// What an iterator over the images of a map binds: the variables of an image and of its argument. An error is want of
    /// memory.
    fn point(
        &self,
        former: Option<u32>,
        value: &Text,
        argument: &Text,
    ) -> Result<Binding, AllocError>
        ensures { IfOk result (λ b. plain_binding b ≡ Point (spec.bound_by former self.now value.now) (spec.bound_by former self.now argument.now)) }
    {
        let image = self.bound_variable(former, value)?;
        let (image, argument) = beside(image, self.bound_variable(former, argument))?;
        Ok(Binding::Point(image, argument))
    }

    /// The variable of the map of an iterator over its images, and what the iterator binds: the map's name stands for what
    /// it stands for outside of the iterator. An error is want of memory.
    pub fn image(
        &self,
        former: Option<u32>,
        value: &Text,
        map: &Text,
        argument: &Text,
    ) -> Result<(Variable, Binding), AllocError>
        ensures map { IfOk result (λ r. plain_variable r.0 ≡ spec.variable_of self.now map.now) }
        ensures binding { IfOk result (λ r. plain_binding r.1 ≡ Point (spec.bound_by former self.now value.now) (spec.bound_by former self.now argument.now)) }
    {
        let map = self.variable(map)?;
        beside(map, self.point(former, value, argument))
    }

    /// The variables that names stand for. An error is want of memory.
    pub fn variables(&self, alloc: Global, names: &[Text]) -> Result<Items<Variable>, AllocError>
        ensures { IfOk result (λ xs. map plain_variable xs ≡ map (spec.variable_of self.now) names.now) }
    {
        let mut all = Items::new(alloc);
        for name in names {
            all.push(self.variable(name)?)?;
        }
        Ok(all)
    }
}
