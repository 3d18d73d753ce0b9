use setl_store_environment::{Copied, Environment, Field};
use std::alloc::{AllocError, Global};
use std::process::Abort;
use std::test::Fail;

// A value that isn't copied by itself.
#[derive(Drop)]
struct Held(u64);

impl Copied for Held {
    fn copied(&self) -> Result<Held, AllocError> {
        Ok(Held(self.0))
    }
}

type Env = Environment<Held, Held, Held, Held, Held, u64>;

// Steps, a line each: a call with its number, if it has one, then what it gives, and behind a bar each the slots, the
// operands, the activations and how many members there are after it.
const FILLED: &str = "add 1: | 1 | 1 | 1 | 1
add 2: | 1 2 | 1 2 | 1 2 | 2
push_slots 3: | 1 2 3 | 1 2 | 1 2 | 2";

const UNKEPT: &str = "is_kept: false | 1 2 3 | 1 2 | 1 2 | 2";

const KEPT: &str = "keep 21: | 1 2 3 | 1 2 | 1 2 | 2
is_kept: true | 1 2 3 | 1 2 | 1 2 | 2";

const NESTED: &str = "set: | 11 2 3 | 12 2 | 1 2 | 2
drop_last: | 11 2 3 | 12 | 1 | 2
keep 22: | 11 2 3 | 12 | 1 | 2
cut: | | | 1 | 0
add 13: | 13 | 13 | 1 13 | 1
back: 22 | 11 2 3 | 12 | 1 | 2
back: 21 | 1 2 3 | 1 2 | 1 2 | 2
back: | 1 2 3 | 1 2 | 1 2 | 2";

const TAKEN: &str = "replace: 1 1 | 11 2 3 | 12 2 | 1 2 | 2
pop_operand: 2 | 11 2 3 | 12 | 1 2 | 2
pop_operands: 12 | 11 2 3 | | 1 2 | 2
copied_members: 2 | 11 2 3 | | 1 2 | 2";

// Changes that aren't noted: where nothing is kept, and where that place was noted since.
const UNNOTED: &str = "replace_unnoted: 1 1 | 13 2 3 | 14 2 | 1 2 | 2
pop_unnoted: 2 | 13 2 3 | 14 | 1 2 | 2
keep 21: | 13 2 3 | 14 | 1 2 | 2
replace_unnoted: back 13 back 14 | 13 2 3 | 14 | 1 2 | 2
pop_unnoted: none | 13 2 3 | 14 | 1 2 | 2
set: | 11 2 3 | 12 | 1 2 | 2
replace_unnoted: 11 12 | 13 2 3 | 14 | 1 2 | 2
back: 21 | 13 2 3 | 14 | 1 2 | 2";

const CHANGED: &str = "field: false | 1 2 3 | 1 2 | 1 2 | 2
set_field 7: | 1 2 3 | 1 2 | 1 2 | 2
keep 21: | 1 2 3 | 1 2 | 1 2 | 2
set_field 8: | 1 2 3 | 1 2 | 1 2 | 2
field: true 8 | 1 2 3 | 1 2 | 1 2 | 2";

const BACK: &str = "back: 21 | 1 2 3 | 1 2 | 1 2 | 2
field: true 7 | 1 2 3 | 1 2 | 1 2 | 2";

const FORGOTTEN: &str = "forget: false | 1 2 3 | 1 2 | 1 2 | 2
keep 21: | 1 2 3 | 1 2 | 1 2 | 2
drop_last: | 1 2 3 | 1 | 1 | 2
add 4: | 1 2 3 4 | 1 4 | 1 4 | 3
keep 22: | 1 2 3 4 | 1 4 | 1 4 | 3
set: | 11 2 3 4 | 12 4 | 1 4 | 3
set_field 8: | 11 2 3 4 | 12 4 | 1 4 | 3
cut: | | | 1 4 | 0
add 5: | 5 | 5 | 1 4 5 | 1
forget: true | 5 | 5 | 1 4 5 | 1
field: true 8 | 5 | 5 | 1 4 5 | 1
back: 21 | 1 2 3 | 1 2 | 1 2 | 2
field: false | 1 2 3 | 1 2 | 1 2 | 2
forget: false | 1 2 3 | 1 2 | 1 2 | 2";

// Two turns of keep, set and forget under an older copy; then one that takes off what was set.
const TURNS: &str = "keep 21: | 1 2 3 | 1 2 | 1 2 | 2
set: | 11 2 3 | 12 2 | 1 2 | 2
keep 22: | 11 2 3 | 12 2 | 1 2 | 2
set: | 11 2 3 | 12 2 | 1 2 | 2
forget: true | 11 2 3 | 12 2 | 1 2 | 2
keep 22: | 11 2 3 | 12 2 | 1 2 | 2
set: | 11 2 3 | 12 2 | 1 2 | 2
forget: true | 11 2 3 | 12 2 | 1 2 | 2
keep 22: | 11 2 3 | 12 2 | 1 2 | 2
cut: | | | 1 2 | 0
add 6: | 6 | 6 | 1 2 6 | 1
keep 23: | 6 | 6 | 1 2 6 | 1
set: | 11 | 12 | 1 2 6 | 1
back: 23 | 6 | 6 | 1 2 6 | 1
forget: true | 6 | 6 | 1 2 6 | 1
back: 21 | 1 2 3 | 1 2 | 1 2 | 2";

// A slot, an operand, an activation and a member more, with this number.
fn add(env: &mut Env, n: u64) -> Result<(), AllocError> {
    env.reserve(4)?;
    env.reserve_slots(1)?;
    env.reserve_operands(1)?;
    env.reserve_activations(1)?;
    env.reserve_members(1)?;
    env.push_slot(Held(n));
    env.push_operand(Held(n));
    env.push_activation(Held(n));
    env.push_member(Held(n));
    Ok(())
}

// A slot more, with this number.
fn push_slots(alloc: Global, env: &mut Env, n: u64) -> Result<(), AllocError> {
    env.reserve(1)?;
    env.reserve_slots(1)?;
    let mut more = Vec::with_capacity(alloc, 1)?;
    more.push_reserved(Held(n));
    env.push_slots(more);
    Ok(())
}

fn set(env: &mut Env) -> Result<(), AllocError> {
    env.reserve(2)?;
    if env.slots() > 0 && env.operands() > 0 {
        env.set_slot(0, Held(11));
        env.set_operand(0, Held(12));
    }
    Ok(())
}

fn drop_last(env: &mut Env) -> Result<(), AllocError> {
    env.reserve(2)?;
    if env.operands() > 0 && env.activations() > 0 {
        env.drop_operand();
        env.drop_activation();
    }
    Ok(())
}

fn cut(env: &mut Env) -> Result<(), AllocError> {
    env.reserve(env.slots())?;
    env.cut_slots(0);
    env.reserve(env.operands())?;
    env.cut_operands(0);
    env.reserve(env.members())?;
    env.cut_members(0);
    Ok(())
}

fn back(env: &mut Env, told: &mut String) -> Result<(), AllocError> {
    match env.back() {
        Some(beside) => write!(told, " {beside}"),
        None => Ok(()),
    }
}

fn replace(env: &mut Env, told: &mut String) -> Result<(), AllocError> {
    env.reserve(2)?;
    if env.slots() > 0 && env.operands() > 0 {
        let slot = env.replace_slot(0, Held(11))?.0;
        let operand = env.replace_operand(0, Held(12))?.0;
        write!(told, " {slot} {operand}")?;
    }
    Ok(())
}

fn replace_unnoted(env: &mut Env, told: &mut String) -> Result<(), AllocError> {
    if env.slots() > 0 && env.operands() > 0 {
        tell_replaced(env.replace_unnoted_slot(0, Held(13)), told)?;
        tell_replaced(env.replace_unnoted_operand(0, Held(14)), told)?;
    }
    Ok(())
}

fn tell_replaced(replaced: Result<Held, Held>, told: &mut String) -> Result<(), AllocError> {
    match replaced {
        Ok(before) => write!(told, " {}", before.0),
        Err(value) => write!(told, " back {}", value.0),
    }
}

fn pop_unnoted(env: &mut Env, told: &mut String) -> Result<(), AllocError> {
    if env.operands() == 0 {
        return Ok(());
    }
    match env.pop_unnoted_operand() {
        Some(operand) => write!(told, " {}", operand.0),
        None => write!(told, " none"),
    }
}

fn pop_operand(env: &mut Env, told: &mut String) -> Result<(), AllocError> {
    env.reserve(1)?;
    if env.operands() > 0 {
        let operand = env.pop_operand()?.0;
        write!(told, " {operand}")?;
    }
    Ok(())
}

fn pop_operands(env: &mut Env, told: &mut String) -> Result<(), AllocError> {
    env.reserve(env.operands())?;
    tell(&env.pop_operands(0)?, told)
}

// The member at place 1.
fn copied_members(env: &Env, told: &mut String) -> Result<(), AllocError> {
    if env.members() > 1 {
        tell(&env.copied_members(1, 1)?, told)?;
    }
    Ok(())
}

// The bit of object 3 in block 5 on, with this number as its content.
fn set_field(env: &mut Env, n: u64) -> Result<(), AllocError> {
    env.reserve_field(3, 5)?;
    env.reserve(1)?;
    env.set_field(Field {
        object: 3,
        block: 5,
        bit: true,
        content: Some(Held(n)),
    });
    Ok(())
}

// The bit and the content there.
fn field(env: &Env, told: &mut String) -> Result<(), AllocError> {
    write!(told, " {}", env.bit(3, 5))?;
    match env.content(3, 5) {
        Some(content) => write!(told, " {}", content.0),
        None => Ok(()),
    }
}

// Adds all numbers of these, in their order.
fn tell(values: &[Held], told: &mut String) -> Result<(), AllocError> {
    for value in values {
        write!(told, " {}", value.0)?;
    }
    Ok(())
}

// Makes a call, and adds what it gives.
fn call(
    alloc: Global,
    env: &mut Env,
    name: &str,
    n: u64,
    told: &mut String,
) -> Result<(), AllocError> {
    match name {
        "add" => add(env, n),
        "push_slots" => push_slots(alloc, env, n),
        "keep" => env.keep(n, 0),
        "is_kept" => write!(told, " {}", env.is_kept()),
        "set" => set(env),
        "drop_last" => drop_last(env),
        "cut" => cut(env),
        "replace" => replace(env, told),
        "pop_operand" => pop_operand(env, told),
        "replace_unnoted" => replace_unnoted(env, told),
        "pop_unnoted" => pop_unnoted(env, told),
        "pop_operands" => pop_operands(env, told),
        "copied_members" => copied_members(env, told),
        "set_field" => set_field(env, n),
        "field" => field(env, told),
        "forget" => write!(told, " {}", env.forget()),
        _ => back(env, told),
    }
}

#[derive(Clone, Copy)]
enum List {
    Slots,
    Operands,
    Activations,
}

// The number at a place of a list, if there is one.
fn number(env: &Env, list: List, at: usize) -> Option<u64> {
    match list {
        List::Slots if at < env.slots() => Some(env.slot(at).0),
        List::Operands if at < env.operands() => Some(env.operand(at).0),
        List::Activations if at < env.activations() => Some(env.activation(at).0),
        _ => None,
    }
}

// Adds a list, up to 9 numbers of it.
fn show_list(env: &Env, list: List, told: &mut String) -> Result<(), AllocError> {
    told.push_str(" |")?;
    for at in 0..9 {
        let Some(n) = number(env, list, at) else {
            break;
        };
        write!(told, " {n}")?;
    }
    Ok(())
}

// Adds what is there.
fn show(env: &Env, told: &mut String) -> Result<(), AllocError> {
    show_list(env, List::Slots, told)?;
    show_list(env, List::Operands, told)?;
    show_list(env, List::Activations, told)?;
    write!(told, " | {}", env.members())
}

// Makes the call of a step, and adds the step, what it gives and what is there after it.
fn take_step(
    alloc: Global,
    env: &mut Env,
    step: &str,
    told: &mut String,
) -> Result<(), AllocError> {
    write!(told, "{step}:")?;
    let (name, n) = step.split_once(' ').unwrap_or((step, "0"));
    call(alloc, env, name, n.parse().unwrap_or(0), told)?;
    show(env, told)
}

// Writes a line anew, and compares.
fn expect_step(
    rt: &impl Abort,
    alloc: Global,
    env: &mut Env,
    line: &str,
    told: &mut String,
) -> Result<(), Fail> {
    let (step, _) = line.split_once(':').unwrap_or((line, ""));
    told.clear();
    take_step(alloc, env, step, told)?;
    assert_eq!(rt; told.as_str(), line);
    Ok(())
}

fn expect_steps(
    rt: &impl Abort,
    alloc: Global,
    env: &mut Env,
    steps: &str,
    told: &mut String,
) -> Result<(), Fail> {
    for line in steps.lines() {
        expect_step(rt, alloc, env, line, told)?;
    }
    Ok(())
}

// Takes the steps of three parts.
fn expect_all(
    rt: &impl Abort,
    alloc: Global,
    env: &mut Env,
    parts: [&str; 3],
    told: &mut String,
) -> Result<(), Fail> {
    for steps in parts {
        expect_steps(rt, alloc, env, steps, told)?;
    }
    Ok(())
}

// The same, on an environment that is empty at first.
fn run(rt: &impl Abort, alloc: Global, parts: [&str; 3]) -> Result<(), Fail> {
    let mut env = Environment::new(alloc)?;
    expect_all(rt, alloc, &mut env, parts, &mut String::new(alloc))
}

#[test]
fn nested_marks_bring_back_all_four_lists(rt: HostRuntime) -> Result<(), Fail> {
    run(&rt, rt.alloc(), [FILLED, KEPT, NESTED])
}

#[test]
fn what_is_taken_off_is_the_same_under_a_mark(rt: HostRuntime) -> Result<(), Fail> {
    for start in [UNKEPT, KEPT] {
        run(&rt, rt.alloc(), [FILLED, start, TAKEN])?;
    }
    Ok(())
}

#[test]
fn what_is_not_noted_is_moved_out(rt: HostRuntime) -> Result<(), Fail> {
    run(&rt, rt.alloc(), [FILLED, UNKEPT, UNNOTED])
}

#[test]
fn back_puts_a_field_back(rt: HostRuntime) -> Result<(), Fail> {
    run(&rt, rt.alloc(), [FILLED, CHANGED, BACK])
}

#[test]
fn back_goes_past_what_was_forgotten(rt: HostRuntime) -> Result<(), Fail> {
    run(&rt, rt.alloc(), [FILLED, FORGOTTEN, UNKEPT])
}

#[test]
fn back_goes_past_many_turns(rt: HostRuntime) -> Result<(), Fail> {
    run(&rt, rt.alloc(), [FILLED, TURNS, UNKEPT])
}
