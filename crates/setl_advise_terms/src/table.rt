//! Tables of flows.

ghost use Rattle.std.specs.Prelude.{◌≡◌, ◌<◌, [], true, false, IfOk, OnErr};
ghost use Rattle.setl_advise_flows.specs.Flow as plain;
ghost use Rattle.setl_advise_lattice.specs.code.Levels.{flow_of};
ghost use Rattle.setl_advise_conditions.specs.Grown as grown;
ghost use Rattle.setl_advise_conditions.specs.Rank.{rank};
ghost use Rattle.setl_advise_gathering.specs.code.Plain.{plain_target};
ghost use Rattle.setl_advise_terms.specs.Table.{flow_in};
ghost use Rattle.setl_advise_terms.specs.code.Plain.{flows_of, plain_table};

use indexmap::IndexMap;
use setl_advise_gathering::Target;
use setl_advise_lattice::{Flow, Level, is, join};
use std::alloc::{AllocError, Global};
use std::marker::Model;

/// Flows of targets. One that isn't there has no values. Contracts see the list of targets with their flows.
#[derive(Drop)]
pub struct Table<'p> {
    flows: IndexMap<Target<'p>, Flow>,
}

impl<'p> Model for Table<'p> {
    ghost use Rattle.std.specs.Prelude.{List};
    ghost use Rattle.setl_advise_lattice.specs.declared.level.Flat.{Flat};
    ghost use Rattle.setl_advise_lattice.specs.declared.level.Level.{Level};
    ghost use Rattle.setl_advise_gathering.specs.declared.condition.Target.{Target};

    ghost Value = { List (Target × Level (Level (Level Flat))) };

    ghost view = { λ t. t.flows.entries };
}

impl<'p> Table<'p> {
    /// No flows.
    pub fn new(alloc: Global) -> Table<'p>
        ensures { result ≡ [] }
    {
        Table {
            flows: IndexMap::new(alloc),
        }
    }

    /// The flow of a target.
    pub fn get(&self, target: Target<'p>) -> Flow
        ensures { flow_of result ≡ flow_in (plain_table self.now) (plain_target target.entry) }
    {
        match self.flows.get(&target) {
            None => Level::Nothing,
            Some(f) => *f,
        }
    }

    /// Lets the flow of a target have the values of another one too, and tells whether it had not. An error is want of
    /// memory, and all is as before.
    pub fn raise(&mut self, target: Target<'p>, f: Flow) -> Result<bool, AllocError>
        ensures stays { IfOk result (λ rose. rose ≡ false → self.new ≡ self.old) }
        ensures below { IfOk result (λ rose. rose ≡ false → plain.Below (flow_of f) (flow_in (plain_table self.old) (plain_target target.entry))) }
        ensures raised { IfOk result (λ rose. rose ≡ true → flows_of self.new ≡ grown.raised (flows_of self.old) (plain_target target.entry) (flow_of f)) }
        ensures rises { IfOk result (λ rose. rose ≡ true → rank 3 (flow_in (plain_table self.old) (plain_target target.entry)) < rank 3 (plain.join (flow_of f) (flow_in (plain_table self.old) (plain_target target.entry)))) }
        ensures err { OnErr result (self.new ≡ self.old) }
    {
        let old = self.get(target);
        let new = join(f, old);
        if is(new, old) {
            return Ok(false);
        }
        self.flows.insert(target, new)?;
        Ok(true)
    }
}
