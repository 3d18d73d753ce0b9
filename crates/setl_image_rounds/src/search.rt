//! The search.

ghost use Rattle.std.specs.Prelude.{◌≡◌, ◌<◌, ◌-◌, ◌^◌, ℕ, List, false, true, length, get_or, MatchOption, IfOk, OnOk};
ghost use Rattle.setl_image_rounds.specs.Falling.{Done, Entered, Fall, IsOpenWay, IsTop, Left, Searching, Stepped};

use setl_live_reads::Way;
use std::alloc::{AllocError, Global};

/// A depth-first search: the heights of the steps that are done, how many these are, which steps were entered, and the
/// path that leads to the step in hand.
#[derive(Drop)]
pub struct Search {
    pub heights: Vec<u32>,
    pub done: u32,
    pub entered: Vec<bool>,
    pub path: Vec<u32>,
}

/// Heights that fall along each way, or `None` where there are none, since a way comes back to the step where it began.
/// The error is want of memory.
#[tactic(auto, using(crate::proofs::Steps::done_more, crate::proofs::Steps::all_fall))]
pub fn heights(alloc: Global, all: &[Way]) -> Result<Option<Vec<u32>>, AllocError>
    requires few { length all.now < 2 ^ 32 }
    ensures { IfOk result (λ found. MatchOption found ((hs : List ℕ) → Fall all.now hs → ⊥) (λ hs. Fall all.now hs.items)) }
{
    let mut search = Search {
        heights: vec![in alloc; 0u32; all.len()]?,
        done: 0,
        entered: vec![in alloc; false; all.len()]?,
        path: Vec::new(alloc),
    };
    for at in 0..all.len() {
        if !climb(&mut search, all, at)? {
            return Ok(None);
        }
    }
    let Search { heights, .. } = search;
    Ok(Some(heights))
}

// Does a step and all that its ways reach. False where a way comes back to the step where it began.
fn climb(search: &mut Search, all: &[Way], from: usize) -> Result<bool, AllocError>
    requires few { length all.now < 2 ^ 32 }
    requires within { from < length all.now }
    requires search { Searching all.now search.old }
    requires empty { length search.old.path.items ≡ 0 }
    ensures searching { IfOk result (λ so. so ≡ true → Searching all.now search.new) }
    ensures empty { IfOk result (λ so. so ≡ true → length search.new.path.items ≡ 0) }
    ensures done { IfOk result (λ so. so ≡ true → 0 < get_or search.new.heights.items from 0) }
    ensures stay { IfOk result (λ so. so ≡ true → (at : ℕ) → 0 < get_or search.old.heights.items at 0 → 0 < get_or search.new.heights.items at 0) }
    ensures round { IfOk result (λ so. so ≡ false → (hs : List ℕ) → Fall all.now hs → ⊥) }
{
    if search.heights[from] > 0 {
        return Ok(true);
    }
    enter(search, from)?;
    'steps: while let Some(top) = search.path.last().copied() {
        if !step(search, all, top as usize)? {
            return Ok(false);
        }
    }
    Ok(true)
}

// One step of the search, at the last step of the path. False where a way comes back to the step where it began.
fn step(search: &mut Search, all: &[Way], at: usize) -> Result<bool, AllocError>
    requires few { length all.now < 2 ^ 32 }
    requires search { Searching all.now search.old }
    requires top { IsTop search.old at }
    ensures goes { IfOk result (λ so. so ≡ true → Stepped all.now search.old search.new) }
    ensures round { IfOk result (λ so. so ≡ false → (hs : List ℕ) → Fall all.now hs → ⊥) }
{
    if search.heights[at] > 0 {
        leave(search);
        return Ok(true);
    }
    let Some(to) = open_way(&search.heights, all, at) else {
        finish(search, at);
        return Ok(true);
    };
    if search.entered[to] {
        return Ok(false);
    }
    enter(search, to)?;
    Ok(true)
}

// Takes the last step off the path.
fn leave(search: &mut Search)
    ensures { (at : ℕ) → IsTop search.old at → Left search.old at search.new }
{
    search.path.pop();
}

// Gives a step the next height.
fn finish(search: &mut Search, at: usize)
    requires within { at < length search.old.heights.items }
    requires room { search.old.done < 2 ^ 32 - 1 }
    ensures { Done search.old at search.new }
{
    search.done += 1;
    search.heights[at] = search.done;
}

// Enters a step.
fn enter(search: &mut Search, to: usize) -> Result<(), AllocError>
    requires within { to < length search.old.entered.items }
    requires few { to < 2 ^ 32 }
    ensures { OnOk result (Entered search.old to search.new) }
{
    search.path.push(to as u32)?;
    search.entered[to] = true;
    Ok(())
}

// A step where this one leads that isn't done.
fn open_way(heights: &[u32], all: &[Way], at: usize) -> Option<usize>
    requires within { at < length all.now }
    requires sizes { length heights.now ≡ length all.now }
    requires few { length all.now < 2 ^ 32 }
    ensures { IsOpenWay all.now heights.now at result }
{
    match all[at] {
        Way::On => if_open(heights, at + 1),
        Way::To(to) => if_open(heights, to as usize),
        Way::Either(to) => match if_open(heights, at + 1) {
            Some(next) => Some(next),
            None => if_open(heights, to as usize),
        },
        Way::Nowhere => None,
    }
}

// The step, if it is there and isn't done.
fn if_open(heights: &[u32], to: usize) -> Option<usize>
    ensures { MatchOption result (to < length heights.now → 0 < get_or heights.now to 0) (λ it. (it ≡ to) × (to < length heights.now) × (get_or heights.now to 0 ≡ 0)) }
{
    if to < heights.len() && heights[to] == 0 {
        Some(to)
    } else {
        None
    }
}
