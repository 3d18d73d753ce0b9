//! A body cut into basic blocks: straight steps, entered at the first one alone.

ghost use Rattle.std.specs.Prelude.{◌≡◌, ◌+◌, ◌-◌, ◌<◌, ◌≤◌, ◌^◌, ◌++◌, ◌∷◌, [], ℕ, Bool, true, false, List, Some, get_or, length, slice_get, IfOk, OnOk};
ghost use Rattle.setl_live_reads.specs.Paths.{target};
ghost use Rattle.setl_live_reads.specs.Blocks.{IsPlain, IsCut, Jumped, Entered, block_at, in_blocks, IsLast, AreBlocks};

use crate::node::{Access, Node, Way};
use crate::ranges::target_of;
use std::alloc::{AllocError, Global};

/// The blocks of a body.
#[derive(Drop)]
pub(crate) struct Blocks {
    /// The first step of each block.
    pub(crate) firsts: Vec<u32>,
    /// The block of each step.
    pub(crate) blocks: Vec<u32>,
    /// The last step of each block, which leads to blocks in place of steps.
    pub(crate) lasts: Vec<Node>,
}

/// The first step of a block, and behind the last block this number.
#[inline(always)]
pub(crate) fn first_of(firsts: &[u32], block: usize, count: usize) -> usize
    ensures { result ≡ get_or firsts.now block count }
{
    match firsts.get(block) {
        Some(first) => *first as usize,
        None => count,
    }
}

/// Whether a step leads to the next one alone and hands nothing back.
fn is_plain(node: Node) -> bool
    ensures { result ≡ true → IsPlain node }
{
    match node.access {
        Access::HandBack => false,
        Access::Nothing | Access::Read(_) | Access::Write(_) => match node.way {
            Way::On => true,
            Way::To(_) | Way::Either(_) | Way::Nowhere => false,
        },
    }
}

/// Notes where a step jumps to.
fn note_jump(jumped: &mut Vec<bool>, way: Way)
    ensures sizes { length jumped.new.items ≡ length jumped.old.items }
    ensures there { (to : ℕ) → target way ≡ Some to → to < length jumped.old.items → get_or jumped.new.items to false ≡ true }
    ensures kept { (to : ℕ) → get_or jumped.old.items to false ≡ true → get_or jumped.new.items to false ≡ true }
{
    let Some(to) = target_of(way) else {
        return;
    };
    let place = to as usize;
    if place >= jumped.len() {
        return;
    }
    jumped[place] = true;
}

/// Which steps are jumped to.
fn jumped_steps(alloc: Global, nodes: &[Node]) -> Result<Vec<bool>, AllocError>
    ensures sizes { IfOk result (λ jumped. length jumped.items ≡ length nodes.now) }
    ensures jumped { IfOk result (λ jumped. Jumped nodes.now jumped.items (length nodes.now)) }
{
    let mut jumped = vec![in alloc; false; nodes.len()]?;
    'steps: for at in 0..nodes.len() {
        note_jump(&mut jumped, nodes[at].way);
    }
    Ok(jumped)
}

/// Whether a block begins at a step.
fn begins(nodes: &[Node], jumped: &[bool], at: usize) -> bool
    requires step { at < length nodes.now }
    requires sizes { length jumped.now ≡ length nodes.now }
    ensures first { result ≡ false → 0 < at }
    ensures entered { result ≡ false → get_or jumped.now at false ≡ false }
    ensures plain { result ≡ false → (node : _) → slice_get nodes.now (at - 1) ≡ Some node → IsPlain node }
{
    if at == 0 || jumped[at] {
        return true;
    }
    !is_plain(nodes[at - 1])
}

/// Puts the next step into a block, which it begins or not.
fn place(
    firsts: &mut Vec<u32>,
    blocks: &mut Vec<u32>,
    at: u32,
    is_first: bool,
) -> Result<(), AllocError>
    requires few { length firsts.old.items ≤ at }
    requires some { is_first ≡ false → 0 < length firsts.old.items }
    ensures begun { OnOk result (is_first ≡ true → firsts.new.items ≡ firsts.old.items ++ at ∷ []) }
    ensures same { OnOk result (is_first ≡ false → firsts.new.items ≡ firsts.old.items) }
    ensures blocks { OnOk result (blocks.new.items ≡ blocks.old.items ++ (length firsts.new.items - 1) ∷ []) }
{
    if is_first {
        firsts.push(at)?;
    }
    blocks.push((firsts.len() - 1) as u32)?;
    Ok(())
}

/// The blocks of the steps, by those that are jumped to: the first step of each block, and the block of each step.
fn cut(alloc: Global, nodes: &[Node], jumped: &[bool]) -> Result<(Vec<u32>, Vec<u32>), AllocError>
    requires few { length nodes.now < 2 ^ 32 }
    requires sizes { length jumped.now ≡ length nodes.now }
    ensures cut { IfOk result (λ r. IsCut nodes.now r.0.items r.1.items (length nodes.now)) }
    ensures entered { IfOk result (λ r. Entered jumped.now r.0.items r.1.items (length nodes.now)) }
{
    let mut firsts = Vec::new(alloc);
    let mut blocks = Vec::with_capacity(alloc, nodes.len())?;
    'steps: for at in 0..nodes.len() {
        let is_first = begins(nodes, jumped, at);
        place(&mut firsts, &mut blocks, at as u32, is_first)?;
    }
    Ok((firsts, blocks))
}

/// The block of a step, or a number that no block has.
fn block_of(blocks: &[u32], to: u32) -> u32
    ensures { result ≡ block_at blocks.now to }
{
    match blocks.get(to as usize) {
        Some(block) => *block,
        None => u32::MAX,
    }
}

/// Where a step leads, with blocks in place of steps.
fn way_in_blocks(way: Way, blocks: &[u32]) -> Way
    ensures { result ≡ in_blocks blocks.now way }
{
    match way {
        Way::On => Way::On,
        Way::To(to) => Way::To(block_of(blocks, to)),
        Way::Either(to) => Way::Either(block_of(blocks, to)),
        Way::Nowhere => Way::Nowhere,
    }
}

/// The last step of a block, with blocks in place of steps.
fn last_of(nodes: &[Node], firsts: &[u32], blocks: &[u32], block: usize) -> Node
    requires few { length nodes.now < 2 ^ 32 }
    requires block { block < length firsts.now }
    requires cut { IsCut nodes.now firsts.now blocks.now (length nodes.now) }
    ensures { IsLast nodes.now firsts.now blocks.now block result }
{
    let end = first_of(firsts, block + 1, nodes.len());
    let last = nodes[end - 1];
    Node {
        access: last.access,
        way: way_in_blocks(last.way, blocks),
    }
}

/// The last step of each block.
fn last_steps(
    alloc: Global,
    nodes: &[Node],
    firsts: &[u32],
    blocks: &[u32],
) -> Result<Vec<Node>, AllocError>
    requires few { length nodes.now < 2 ^ 32 }
    requires cut { IsCut nodes.now firsts.now blocks.now (length nodes.now) }
    ensures sizes { IfOk result (λ lasts. length lasts.items ≡ length firsts.now) }
    ensures lasts { IfOk result (λ lasts. (b : ℕ) (last : _) → slice_get lasts.items b ≡ Some last → IsLast nodes.now firsts.now blocks.now b last) }
{
    let mut lasts = Vec::with_capacity(alloc, firsts.len())?;
    'places: for block in 0..firsts.len() {
        lasts.push(last_of(nodes, firsts, blocks, block))?;
    }
    Ok(lasts)
}

/// Cuts a body into blocks.
pub(crate) fn into_blocks(alloc: Global, nodes: &[Node]) -> Result<Blocks, AllocError>
    requires few { length nodes.now < 2 ^ 32 }
    ensures { IfOk result (λ b. AreBlocks nodes.now b.firsts.items b.blocks.items b.lasts.items) }
{
    let jumped = jumped_steps(alloc, nodes)?;
    let (firsts, blocks) = cut(alloc, nodes, &jumped)?;
    let lasts = last_steps(alloc, nodes, &firsts, &blocks)?;
    Ok(Blocks {
        firsts,
        blocks,
        lasts,
    })
}
