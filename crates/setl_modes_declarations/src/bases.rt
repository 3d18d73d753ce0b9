//! Bases with their modes.

ghost use Rattle.std.specs.Prelude.{◌≡◌, ◌∷◌, ◌++◌, [], length, OnOk, IfOk};
ghost use Rattle.setl_modes.specs.Modes.{Mode as PlainMode, General, Elements, mode_of};
ghost use Rattle.setl_modes.specs.Declarations as modes;
ghost use Rattle.setl_modes.specs.Declarations.{Bases as PlainBases};
ghost use Rattle.setl_modes_declarations.specs.Declares.{named_modes};
ghost use Rattle.setl_modes_declarations.specs.code.Elements.{Finds, number_from};

use crate::copies::put_mode;
use indexmap::IndexMap;
use setl_modes::{Mode, NamedMode, copied_box};
use setl_tree::{Boxed, Declared, Items, Text};
use std::alloc::{AllocError, Global};

/// The bases so far, and the number of each by its name. Of two of one name the first counts.
#[derive(Drop)]
pub struct Bases {
    pub modes: Items<NamedMode>,
    pub numbers: IndexMap<Vec<u8>, u32>,
}

/// Puts the number of one more base into a table, unless its name is there. An error is want of memory.
fn put_number(
    alloc: Global,
    numbers: &mut IndexMap<Vec<u8>, u32>,
    number: u32,
    name: &Text,
) -> Result<(), AllocError>
    ensures { OnOk result ((bases : PlainBases) (m : PlainMode) → length bases ≡ number → Finds numbers.old bases → Finds numbers.new (bases ++ (name.now, m) ∷ [])) }
{
    if numbers.contains_key(name.bytes()) {
        return Ok(());
    }
    let key = Vec::from_slice(alloc, name.bytes())?;
    numbers.insert(key, number)?;
    Ok(())
}

/// The mode of every value.
fn general() -> Mode
    ensures { mode_of result ≡ General }
{
    Mode::General
}

/// The mode of the members of a base with this number and this mode. An error is want of memory.
fn element(alloc: Global, number: u32, mode: &Mode) -> Result<Mode, AllocError>
    ensures { IfOk result (λ m. mode_of m ≡ Elements number (mode_of mode.now)) }
{
    let members = copied_box(alloc, mode)?;
    Ok(Mode::Elmt(number, members))
}

impl Bases {
    /// No bases.
    pub fn new(alloc: Global) -> Bases
        ensures modes { result.modes ≡ [] }
        ensures finds { Finds result.numbers [] }
    {
        Bases {
            modes: Items::new(alloc),
            numbers: IndexMap::new(alloc),
        }
    }

    /// Puts one more base with this mode at the end. The error is want of memory, or that there are 2^32 bases, which no
    /// source has: it has at most 2^24 bytes.
    fn put(&mut self, alloc: Global, name: &Text, mode: &Mode) -> Result<(), AllocError>
        requires { Finds self.old.numbers (named_modes self.old.modes) }
        ensures modes { OnOk result (named_modes self.new.modes ≡ named_modes self.old.modes ++ (name.now, mode_of mode.now) ∷ []) }
        ensures finds { OnOk result (Finds self.new.numbers (named_modes self.new.modes)) }
    {
        match u32::try_from(self.modes.len()) {
            Err(_) => Err(AllocError),
            Ok(number) => {
                put_number(alloc, &mut self.numbers, number, name)?;
                put_mode(alloc, &mut self.modes, name, mode)
            }
        }
    }

    /// Puts bases with one mode at the end. The error is want of memory, or that there are 2^32 bases.
    pub fn put_all(
        &mut self,
        alloc: Global,
        names: &[Declared],
        mode: &Mode,
    ) -> Result<(), AllocError>
        requires { Finds self.old.numbers (named_modes self.old.modes) }
        ensures modes { OnOk result (named_modes self.new.modes ≡ named_modes self.old.modes ++ modes.all_with (mode_of mode.now) names.now) }
        ensures finds { OnOk result (Finds self.new.numbers (named_modes self.new.modes)) }
    {
        for name in names {
            self.put(alloc, &name.name, mode)?;
        }
        Ok(())
    }

    /// The number of the base of a name; `None` where there is none.
    fn number(&self, name: &Text) -> Option<u32>
        requires { Finds self.now.numbers (named_modes self.now.modes) }
        ensures { result ≡ number_from 0 (named_modes self.now.modes) name.now }
    {
        self.numbers.get(name.bytes()).copied()
    }

    /// What `elmt` of this name means, which is `general` where no base has it. An error is want of memory.
    #[tactic(auto, using(crate::proofs::Elements::unknown_means, crate::proofs::Elements::number_below, crate::proofs::Elements::known_means))]
    pub fn element(&self, alloc: Global, name: &Text) -> Result<Mode, AllocError>
        requires { Finds self.now.numbers (named_modes self.now.modes) }
        ensures { IfOk result (λ m. mode_of m ≡ modes.element_of 0 (named_modes self.now.modes) name.now) }
    {
        match self.number(name) {
            None => Ok(general()),
            Some(number) => {
                let base = &self.modes.as_slice()[number as usize];
                element(alloc, number, &base.mode)
            }
        }
    }
}
