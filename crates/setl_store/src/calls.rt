//! The start of a code, its steps, and calls and returns of its bodies.

ghost use Rattle.std.specs.Prelude.{◌≡◌, ◌<◌, ◌^◌, ◌+◌, [], Some, None, cond, map, length, slice_get, IfSome, IfNone, IfOk, OnErr};
ghost use Rattle.setl_code.specs.Machine.{fetch};
ghost use Rattle.setl_code.specs.MayRun.{MayRun, InstrFits};
ghost use Rattle.setl_code.specs.Plain.{plain_code, plain_step};
ghost use Rattle.setl_value.specs.code.DatumOf.{part};
ghost use Rattle.setl_store.specs.Bodies.{entered, left, Leaves};
ghost use Rattle.setl_store.specs.Flat.{bases_of, step_of, AreUncut};
ghost use Rattle.setl_store.specs.Gained.{no_members};
ghost use Rattle.setl_store.specs.Returning.{name_count_of, parameter_count_of};
ghost use Rattle.setl_store.specs.Standing.{started, variables, variables_in, Becomes, CanGoOn};

use crate::activations::{
    add_activation, add_cleared, end_activation, innermost, members_of_lower,
};
use crate::cells::{Contents, Frame};
use crate::returning::handed_back;
use crate::store::Store;
use setl_code::{Code, Step};
use setl_rep_bases::{BaseId, Bases};
use setl_store_environment::Environment;
use setl_value::Value;
use std::alloc::{AllocError, Global};

impl<'c> Store<'c> {
    /// At the first step of the main program of a code, with every variable `om`, and so many bases of the main program
    /// without members, which the store tells or not.
    ///
    /// The error is want of memory.
    pub fn start(
        alloc: Global,
        code: &'c Code,
        bases: u32,
        told: bool,
    ) -> Result<Store<'c>, AllocError>
        requires { MayRun code.now }
        ensures { IfOk result (λ store. store ≡ started (cond told bases 0) code.now) }
    {
        let instances = empty_bases(alloc, bases, told)?;
        let mut environment: Contents = Environment::new(alloc)?;
        let slots = code.vars.len();
        add_cleared(&mut environment, slots)?;
        add_cleared(&mut environment, parameter_count(code, 0))?;
        let frame = Frame {
            body: 0,
            from: 0,
            slots,
            operands: 0,
        };
        add_activation(
            &mut environment,
            frame,
            Vec::new(alloc),
            name_count(code, 0),
        )?;
        Ok(Store {
            alloc,
            code,
            at: 0,
            environment,
            bases: instances,
            keeps: 0,
        })
    }

    /// The code.
    pub fn code(&self) -> &'c Code
        ensures { result.now ≡ self.now.code }
    {
        self.code
    }

    /// The number of the body at work. It takes no memory.
    pub fn body(&self) -> u32
        ensures number { result ≡ self.now.core.now.body }
        ensures variables { variables self.now.core ≡ variables_in (plain_code self.now.code) result }
    {
        innermost(&self.environment).body
    }

    /// The step in hand, if there is one. It takes no memory.
    pub fn step(&self) -> Option<&'c Step>
        ensures some { IfSome result (λ step. fetch (plain_code self.now.code) self.now.core.now.body self.now.core.now.at ≡ Some (plain_step (variables self.now.core) step.now)) }
        ensures none { IfNone result (fetch (plain_code self.now.code) self.now.core.now.body self.now.core.now.at ≡ None) }
        ensures fits { IfSome result (λ step. InstrFits (length self.now.core.globals) (length self.now.core.now.own) step.now.what) }
        ensures few { IfSome result (λ step. CanGoOn self.now) }
    {
        step_at(self.code, innermost(&self.environment).body, self.at)
    }

    /// Has the body of this number at work, with these values in its parameters. The body that calls it goes on behind
    /// the step in hand.
    ///
    /// The error is want of memory, and then all is as before.
    pub fn enter(&mut self, body: u32, values: Vec<Option<Value>>) -> Result<(), AllocError>
        requires there { body < length self.old.code.bodies }
        requires each { IfSome (slice_get self.old.code.bodies body) (λ b. length values.items ≡ length b.parameters) }
        requires few { CanGoOn self.old }
        ensures { Becomes result self.old self.new (record self.old { core = entered body (slice_get (plain_code self.old.code).bodies body) (map part values.items) self.old.core }) }
    {
        let names = name_count(self.code, body);
        let frame = Frame {
            body,
            from: self.at + 1,
            slots: self.environment.slots(),
            operands: self.environment.operands(),
        };
        add_activation(&mut self.environment, frame, values, names)?;
        self.at = 0;
        Ok(())
    }

    /// Has the body at work again that called this one, with this result pushed, and on it what the `wr` and `rw`
    /// parameters hold, the first on top. Its answer is false where there is no such body or one of the parameters was
    /// taken, and then all is as before.
    ///
    /// The error is want of memory, and then all is as before.
    pub fn leave(&mut self, value: Option<Value>) -> Result<bool, AllocError>
        ensures code { self.new.code ≡ self.old.code }
        ensures bases { self.new.bases ≡ self.old.bases }
        ensures left { IfOk result (λ done. Leaves (left (slice_get (plain_code self.old.code).bodies self.old.core.now.body) (part value) self.old.core) done self.old.core self.new.core) }
        ensures refused { OnErr result (self.new ≡ self.old) }
    {
        let Some(values) = handed_back(
            self.alloc,
            self.code,
            &self.environment,
            &self.bases,
            value,
        )?
        else {
            return Ok(false);
        };
        let frame = innermost(&self.environment);
        let members = members_of_lower(&self.environment, frame.operands);
        end_activation(&mut self.environment, frame, members, values)?;
        self.at = frame.from;
        Ok(true)
    }
}

/// So many bases of the main program, without members, which are told or not.
fn empty_bases(alloc: Global, count: u32, told: bool) -> Result<Bases, AllocError>
    ensures { IfOk result (λ bases. AreUncut bases × (bases_of bases [] ≡ no_members (cond told count 0))) }
{
    setl_rep_bases::laws::instances_are_read();
    if told {
        return Bases::new(alloc, count);
    }
    let mut bases = Bases::new(alloc, 0)?;
    for base in 0..count {
        let name = BaseId { base, instance: 0 };
        if !bases.has(name) {
            bases.add(alloc, name)?;
        }
    }
    Ok(bases)
}

/// A step of the body of this number, if there is one.
fn step_at<'c>(code: &'c Code, body: u32, at: usize) -> Option<&'c Step>
    ensures some { IfSome result (λ step. step_of (slice_get code.now.bodies body) at ≡ Some step.now) }
    ensures none { IfNone result (step_of (slice_get code.now.bodies body) at ≡ None) }
    ensures few { IfSome result (λ step. at + 1 < 2 ^ 64) }
{
    let body = code.bodies.as_slice().get(body as usize)?;
    let steps = body.steps.as_slice();
    let _count = steps.len();
    steps.get(at)
}

/// How many parameters the body of this number has.
fn parameter_count(code: &Code, body: u32) -> usize
    ensures { result ≡ parameter_count_of (slice_get code.now.bodies body) }
{
    let body = code.bodies.as_slice().get(body as usize);
    body.map_or(0, |b| b.parameters.len())
}

/// How many names it has.
fn name_count(code: &Code, body: u32) -> usize
    ensures { result ≡ name_count_of (slice_get code.now.bodies body) }
{
    let body = code.bodies.as_slice().get(body as usize);
    body.map_or(0, |b| b.names.len())
}
