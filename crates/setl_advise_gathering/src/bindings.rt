//! The conditions of what is bound and passed.

ghost use Rattle.std.specs.Prelude.{◌≡◌, ◌++◌, ◌∷◌, [], ◌+◌, OnOk, IfSome, IfNone, map, slice_get};
ghost use Rattle.std.specs.Option.{option_map};
ghost use Rattle.setl_program.specs.Program.{no_argument};
ghost use Rattle.setl_program.specs.ProgramOf.{parameter_of};
ghost use Rattle.setl_program.specs.code.Plain.{plain_variable, plain_slot, plain_slots, plain_binding, plain_exprs, plain_argument, plain_arguments, plain_procedure};
ghost use Rattle.setl_model.specs.Calls.{parameter};
ghost use Rattle.setl_advise_conditions.specs.Conditions.{Held};
ghost use Rattle.setl_advise_conditions.specs.Parts as parts;
ghost use Rattle.setl_advise_gathering.specs.code.Plain.{listed, plain_term};

use crate::condition::{Condition, Term, name_of, parameter};
use crate::list::store;
use setl_program::{Argument, Binding, Expr, Procedure, Variable};
use setl_tree::Param;
use std::alloc::AllocError;

/// That of a part of a pattern, if it has a name.
fn slot<'p>(
    term: Term<'p>,
    x: &'p Option<Variable>,
    all: &mut Vec<Condition<'p>>,
) -> Result<(), AllocError>
    ensures { OnOk result (listed all.new.items ≡ listed all.old.items ++ parts.slot_conditions (plain_term term.entry) (plain_slot x.now ∷ [])) }
{
    match x {
        None => Ok(()),
        Some(x) => store(all, name_of(x), term),
    }
}

/// Those of the parts of a pattern.
pub fn slots<'p>(
    term: Term<'p>,
    xs: &'p [Option<Variable>],
    all: &mut Vec<Condition<'p>>,
) -> Result<(), AllocError>
    ensures { OnOk result (listed all.new.items ≡ listed all.old.items ++ parts.slot_conditions (plain_term term.entry) (plain_slots xs.now)) }
{
    for x in xs {
        slot(term, x, all)?;
    }
    Ok(())
}

/// Those of a binding, by the parts of its source.
pub fn binding<'p>(
    b: &'p Binding,
    es: &'p [Expr],
    all: &mut Vec<Condition<'p>>,
) -> Result<(), AllocError>
    ensures { OnOk result (listed all.new.items ≡ listed all.old.items ++ parts.binding_conditions (plain_binding b.now) (plain_exprs es.now)) }
{
    match b {
        Binding::Member(_, x) => store(all, name_of(x), Term::Member(b, es)),
        Binding::Components(_, xs) => slots(Term::MemberComponent(b, es), xs.as_slice(), all),
        Binding::Point(y, x) => {
            store(all, name_of(x), Term::Argument(b, es))?;
            store(all, name_of(y), Term::Image(b, es))
        }
    }
}

/// That of a variable to which a parameter of a body is handed back.
fn hand_back<'p>(
    body: u64,
    p: &'p Param,
    y: &'p Variable,
    all: &mut Vec<Condition<'p>>,
) -> Result<(), AllocError>
    ensures { OnOk result (listed all.new.items ≡ listed all.old.items ++ parts.stored (plain_variable y.now) (Held (parameter body (parameter_of p.now))) ∷ []) }
{
    store(all, name_of(y), Term::Held(parameter(body, p)))
}

/// Those of an argument and the parameter of a body for it.
fn pass<'p>(
    body: u64,
    p: &'p Param,
    x: &'p Argument,
    all: &mut Vec<Condition<'p>>,
) -> Result<(), AllocError>
    ensures { OnOk result (listed all.new.items ≡ listed all.old.items ++ parts.passed_conditions body (parameter_of p.now ∷ []) (plain_argument x.now no_argument)) }
{
    match x {
        Argument::Rd(e) => store(all, parameter(body, p), Term::Value(e)),
        Argument::Wr(y) => {
            store(all, parameter(body, p), Term::Unset)?;
            hand_back(body, p, y, all)
        }
        Argument::Rw(y) => {
            store(all, parameter(body, p), Term::Held(name_of(y)))?;
            hand_back(body, p, y, all)
        }
    }
}

/// Those of the arguments of a call, by the parameters of the body that is called.
fn passed<'p>(
    body: u64,
    ps: &'p [Param],
    xs: &'p [Argument],
    all: &mut Vec<Condition<'p>>,
) -> Result<(), AllocError>
    ensures { OnOk result (listed all.new.items ≡ listed all.old.items ++ parts.passed_conditions body (map parameter_of ps.now) (plain_arguments xs.now)) }
{
    let mut k = 0;
    'pairs: while k < ps.len() && k < xs.len() {
        pass(body, &ps[k], &xs[k], all)?;
        k += 1;
    }
    Ok(())
}

/// The procedure at a place, if there is one.
fn procedure(procedures: &[Procedure], f: u32) -> Option<&Procedure>
    ensures some { IfSome result (λ q. slice_get procedures.now f ≡ Some q.now) }
    ensures none { IfNone result (slice_get procedures.now f ≡ None) }
{
    procedures.get(f as usize)
}

/// Those of the arguments of a call, where the procedure is there.
pub fn call<'p>(
    procedures: &'p [Procedure],
    f: u32,
    xs: &'p [Argument],
    all: &mut Vec<Condition<'p>>,
) -> Result<(), AllocError>
    ensures { OnOk result (listed all.new.items ≡ listed all.old.items ++ parts.call_conditions (1 + f) (slice_get (map plain_procedure procedures.now) f) (plain_arguments xs.now)) }
{
    match procedure(procedures, f) {
        None => Ok(()),
        Some(q) => passed(f as u64 + 1, q.parameters.as_slice(), xs, all),
    }
}
