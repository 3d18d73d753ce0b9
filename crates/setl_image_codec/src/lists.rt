//! Lists.

ghost use Rattle.std.specs.Prelude.{◌≡◌, ◌++◌, ℕ, List, map, OnOk};
ghost use Rattle.setl_image_codec.specs.Codec.{repeated, write_all};
ghost use Rattle.std.specs.List.{AllByRecursion};
ghost use Rattle.setl_image_codec.specs.Given.{Gives};
ghost use Rattle.setl_image_codec.specs.Numbers.{listed};

use crate::fault::ImageFault;
use crate::numbers::{push_number, read_number};
use setl_tree::Items;
use std::alloc::{AllocError, Global};

/// How values are written and read.
pub trait Coder {
    /// A value.
    type Out: Drop;

    ghost use Rattle.std.specs.Prelude.{◌≡◌, ◌++◌, OnOk};
    ghost use Rattle.setl_image_codec.specs.Codec.{Codec};
    ghost use Rattle.setl_image_codec.specs.Given.{Gives};

    /// What a value stands for.
    ghost Plain: { Type 0 };

    ghost view: { Self.Out → Plain };

    ghost codec: { Self → Codec Plain };

    /// The value at the front, and what stands behind it.
    fn read<'a>(&self, alloc: Global, bytes: &'a [u8]) -> Result<(Self::Out, &'a [u8]), ImageFault>
        ensures { Gives (λ x. (view x.0, x.1.now)) result ((codec self.now).read bytes.now) };

    /// Adds the value.
    fn push(&self, into: &mut Vec<u8>, x: &Self::Out) -> Result<(), AllocError>
        requires { (codec self.now).Fits (view x.now) }
        ensures { OnOk result (into.new.items ≡ into.old.items ++ (codec self.now).write (view x.now)) };
}

/// The list at the front, and what stands behind it.
pub fn read_list<'a, C: Coder>(
    alloc: Global,
    coder: &C,
    bytes: &'a [u8],
) -> Result<(Items<C::Out>, &'a [u8]), ImageFault>
    ensures { Gives (λ x. (map C.view x.0, x.1.now)) result ((listed (C.codec coder.now)).read bytes.now) }
{
    let (count, rest) = read_number(bytes)?;
    read_items(alloc, coder, count, rest)
}

// So many values.
#[tactic(auto, using(crate::proofs::Turns::onto_nothing, crate::proofs::Turns::turn, crate::proofs::Turns::no_turn, crate::proofs::Turns::no_more))]
fn read_items<'a, C: Coder>(
    alloc: Global,
    coder: &C,
    count: u32,
    bytes: &'a [u8],
) -> Result<(Items<C::Out>, &'a [u8]), ImageFault>
    ensures { Gives (λ x. (map C.view x.0, x.1.now)) result ((repeated (C.codec coder.now) count).read bytes.now) }
{
    let mut items = Items::new(alloc);
    let mut rest = bytes;
    for _turn in 0..count {
        let (item, behind) = coder.read(alloc, rest)?;
        items.push(item)?;
        rest = behind;
    }
    Ok((items, rest))
}

/// Adds the list.
pub fn push_list<C: Coder>(
    coder: &C,
    into: &mut Vec<u8>,
    items: &[C::Out],
) -> Result<(), AllocError>
    requires { (listed (C.codec coder.now)).Fits (map C.view items.now) }
    ensures { OnOk result (into.new.items ≡ into.old.items ++ (listed (C.codec coder.now)).write (map C.view items.now)) }
{
    push_number(into, items.len() as u32)?;
    push_items(coder, into, items)
}

// Adds the values.
fn push_items<C: Coder>(coder: &C, into: &mut Vec<u8>, items: &[C::Out]) -> Result<(), AllocError>
    requires { AllByRecursion (C.codec coder.now).Fits (map C.view items.now) }
    ensures { OnOk result (into.new.items ≡ into.old.items ++ write_all (C.codec coder.now) (map C.view items.now)) }
{
    for item in items {
        coder.push(into, item)?;
    }
    Ok(())
}
