//! The steps of a body as far as they matter to what is read later.

ghost use Rattle.std.specs.Prelude.{◌≡◌, map, IfOk};
ghost use Rattle.setl_live.specs.Nodes.{reads_at, writes_at, access, way, node, handed};
ghost use Rattle.setl_code.specs.Sound.{is_back};

use setl_code::{Instr, Slot, Step};
use setl_live_reads::{Access, Node, Way};
use setl_tree::{Param, Passing};
use std::alloc::{AllocError, Global};

fn read_of(slot: Slot) -> Access
    ensures { result ≡ reads_at slot }
{
    match slot {
        Slot::Global(_) => Access::Nothing,
        Slot::Own(k) => Access::Read(k),
    }
}

fn write_of(slot: Slot) -> Access
    ensures { result ≡ writes_at slot }
{
    match slot {
        Slot::Global(_) => Access::Nothing,
        Slot::Own(k) => Access::Write(k),
    }
}

/// What an instruction does with an own slot.
fn access_of(what: &Instr) -> Access
    ensures { result ≡ access what.now }
{
    match what {
        Instr::Load(slot) | Instr::Take(slot) | Instr::Alter(_, slot, _) => read_of(*slot),
        Instr::Store(slot) => write_of(*slot),
        Instr::Return => Access::HandBack,
        _ => Access::Nothing,
    }
}

/// Where an instruction leads.
fn way_of(what: &Instr) -> Way
    ensures { result ≡ way what.now }
{
    match what {
        Instr::Decide(_, to) | Instr::Unless(to) | Instr::Next(to) => Way::Either(*to),
        Instr::Jump(to) => Way::To(*to),
        Instr::Return | Instr::Back | Instr::Stop => Way::Nowhere,
        _ => Way::On,
    }
}

/// The steps of a body.
pub(crate) fn nodes_of(alloc: Global, steps: &[Step]) -> Result<Vec<Node>, AllocError>
    ensures { IfOk result (λ nodes. nodes.items ≡ map node steps.now) }
{
    let mut nodes = Vec::with_capacity(alloc, steps.len())?;
    for step in steps {
        nodes.push(Node {
            access: access_of(&step.what),
            way: way_of(&step.what),
        })?;
    }
    Ok(nodes)
}

/// Whether a parameter is handed back.
fn is_handed_back(passing: Passing) -> bool
    ensures { result ≡ is_back passing }
{
    match passing {
        Passing::Rd => false,
        Passing::Wr | Passing::Rw => true,
    }
}

/// Which parameters are handed back.
pub(crate) fn handed_back(alloc: Global, params: &[Param]) -> Result<Vec<bool>, AllocError>
    ensures { IfOk result (λ back. back.items ≡ handed params.now) }
{
    let mut back = Vec::with_capacity(alloc, params.len())?;
    for param in params {
        back.push(is_handed_back(param.passing))?;
    }
    Ok(back)
}
