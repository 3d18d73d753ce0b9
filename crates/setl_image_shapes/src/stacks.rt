//! Stacks of kinds.

ghost use Rattle.std.specs.Prelude.{◌≡◌, ◌<◌, [], ◌∷◌, Option, None, if◌then◌else◌, get_or, length, option_map, IfOk};
ghost use Rattle.setl_code.specs.Shapes.{Shape, all_serve, if_collection, serves};
ghost use Rattle.setl_image_shapes.specs.Joins.{joined, joined_kind};
ghost use Rattle.setl_image_shapes.specs.Runs.{Finds, Grown, IsAt, IsTop, is_level, laid, on, plain_kind, without};

use std::alloc::{AllocError, Global};
use std::marker::Model;

/// What stands on a stack.
#[derive(Clone, Copy)]
pub enum Kind {
    /// A result.
    Value,
    /// A collection that was begun.
    Collection,
    Iterator,
    /// An iterator of pairs.
    PairIterator,
}

/// So many of a kind, on the stack with this number.
#[derive(Clone, Copy)]
pub struct Run {
    pub kind: Kind,
    pub count: u32,
    pub below: usize,
}

/// So many of a kind.
#[derive(Clone, Copy)]
pub struct Part {
    pub kind: Kind,
    pub count: u32,
}

/// Stacks by their numbers. Number 0 is the empty stack; each other one is a run on a stack with a lower number.
#[derive(Drop)]
pub struct Stacks {
    runs: Vec<Run>,
}

impl Model for Stacks {
    ghost use Rattle.std.specs.Prelude.{List, [], ◌∷◌};
    ghost use Rattle.std.specs.Coded.{coded_list};
    ghost use Rattle.setl_code.specs.Shapes.{Shape};
    ghost use Rattle.setl_image_shapes.specs.Runs.{AreMade, kind_code, made};

    ghost Value = { List Shape };

    ghost coded = { coded_list (coded_list kind_code) };

    ghost view = { λ s. made ([] ∷ []) s.runs.items };

    ghost invariant = { λ s. AreMade 1 s.runs.items };
}

impl Stacks {
    /// The empty stack alone.
    pub fn new(alloc: Global) -> Stacks
        ensures { result ≡ [] ∷ [] }
    {
        Stacks {
            runs: Vec::new(alloc),
        }
    }

    /// The number of so many of a kind on a stack. The error is want of memory.
    pub fn push(&mut self, kind: Kind, count: u32, below: usize) -> Result<usize, AllocError>
        requires { below < length self.old }
        ensures grown { Grown self.old self.new }
        ensures pushed { IfOk result (λ k. IsAt self.new k (on (plain_kind kind) count (get_or self.old below []))) }
    {
        if count == 0 {
            return Ok(below);
        }
        self.runs.push(Run { kind, count, below })?;
        Ok(self.runs.len())
    }

    /// A stack as a run on another one, if it isn't empty.
    pub fn top(&self, number: usize) -> Option<Run>
        requires { number < length self.now }
        ensures { IsTop self.now number result }
    {
        let runs = &self.runs;
        if number == 0 {
            return None;
        }
        Some(runs[number - 1])
    }

    /// A stack without so many on top: results and collections, or iterators of either kind. `None` where there are fewer. The
    /// error is want of memory.
    pub fn without(
        &mut self,
        level: bool,
        count: u32,
        number: usize,
    ) -> Result<Option<usize>, AllocError>
        requires { number < length self.old }
        ensures grown { Grown self.old self.new }
        ensures found { IfOk result (λ found. Finds self.new found (without level count (get_or self.old number []))) }
    {
        let mut left = count;
        let mut at = number;
        'runs: while left > 0 {
            let Some(run) = self.top(at) else {
                return Ok(None);
            };
            if is_level(run.kind) != level {
                return Ok(None);
            }
            if left < run.count {
                let rest = self.push(run.kind, run.count - left, run.below)?;
                return Ok(Some(rest));
            }
            left -= run.count;
            at = run.below;
        }
        Ok(Some(at))
    }

    /// Whether a collection is on top.
    pub fn is_collection(&self, number: usize) -> bool
        requires { number < length self.now }
        ensures { (whole : Option Shape) → if_collection (get_or self.now number []) whole ≡ if result then whole else None }
    {
        match self.top(number) {
            Some(
                Run {
                    kind: Kind::Collection,
                    ..
                },
            ) => true,
            _ => false,
        }
    }

    /// Whether the kinds of a stack serve where those of another one are said. The error is want of memory.
    pub fn serves(&mut self, number: usize, other: usize) -> Result<bool, AllocError>
        requires number { number < length self.old }
        requires other { other < length self.old }
        ensures grown { Grown self.old self.new }
        ensures serves { IfOk result (λ so. all_serve (get_or self.old number []) (get_or self.old other []) ≡ so) }
    {
        let mut a = number;
        let mut b = other;
        'runs: while a != b {
            let first = self.top(a);
            let second = self.top(b);
            let Some(x) = first else {
                return Ok(false);
            };
            let Some(y) = second else {
                return Ok(false);
            };
            if !kind_serves(x.kind, y.kind) {
                return Ok(false);
            }
            let common = x.count.min(y.count);
            a = self.push(x.kind, x.count - common, x.below)?;
            b = self.push(y.kind, y.count - common, y.below)?;
        }
        Ok(true)
    }

    /// The strongest stack that two stacks serve, if there is one. The error is want of memory.
    pub fn join(
        &mut self,
        alloc: Global,
        number: usize,
        other: usize,
    ) -> Result<Option<usize>, AllocError>
        requires number { number < length self.old }
        requires other { other < length self.old }
        ensures grown { Grown self.old self.new }
        ensures found { IfOk result (λ found. Finds self.new found (joined (get_or self.old number []) (get_or self.old other []))) }
    {
        let mut upper = Vec::new(alloc);
        let mut a = number;
        let mut b = other;
        'runs: while a != b {
            let first = self.top(a);
            let second = self.top(b);
            let Some(x) = first else {
                return Ok(None);
            };
            let Some(y) = second else {
                return Ok(None);
            };
            let Some(kind) = joined_kind(x.kind, y.kind) else {
                return Ok(None);
            };
            let count = x.count.min(y.count);
            upper.push(Part { kind, count })?;
            a = self.push(x.kind, x.count - count, x.below)?;
            b = self.push(y.kind, y.count - count, y.below)?;
        }
        let whole = self.lay(upper, a)?;
        Ok(Some(whole))
    }

    // Parts on a stack, the first one on top.
    fn lay(&mut self, mut parts: Vec<Part>, number: usize) -> Result<usize, AllocError>
        requires { number < length self.old }
        ensures grown { Grown self.old self.new }
        ensures laid { IfOk result (λ k. IsAt self.new k (laid parts.items (get_or self.old number []))) }
    {
        let mut at = number;
        'parts: while let Some(part) = parts.pop() {
            at = self.push(part.kind, part.count, at)?;
        }
        Ok(at)
    }
}

// Whether it is an iterator of either kind.
fn is_level(kind: Kind) -> bool
    ensures { result ≡ is_level (plain_kind kind) }
{
    match kind {
        Kind::Value | Kind::Collection => false,
        Kind::Iterator | Kind::PairIterator => true,
    }
}

// Whether the first kind may stand where the second one is said.
fn kind_serves(kind: Kind, other: Kind) -> bool
    ensures { result ≡ serves (plain_kind kind) (plain_kind other) }
{
    match (kind, other) {
        (Kind::Value | Kind::Collection, Kind::Value) => true,
        (Kind::Collection, Kind::Collection) => true,
        (Kind::Iterator, Kind::Iterator) => true,
        (Kind::PairIterator, Kind::PairIterator) => true,
        _ => false,
    }
}

// The strongest kind that both serve, if there is one.
fn joined_kind(kind: Kind, other: Kind) -> Option<Kind>
    ensures { option_map (λ k. plain_kind k) result ≡ joined_kind (plain_kind kind) (plain_kind other) }
{
    match (kind, other) {
        (Kind::Value, Kind::Value) => Some(Kind::Value),
        (Kind::Value, Kind::Collection) => Some(Kind::Value),
        (Kind::Collection, Kind::Value) => Some(Kind::Value),
        (Kind::Collection, Kind::Collection) => Some(Kind::Collection),
        (Kind::Iterator, Kind::Iterator) => Some(Kind::Iterator),
        (Kind::PairIterator, Kind::PairIterator) => Some(Kind::PairIterator),
        _ => None,
    }
}
