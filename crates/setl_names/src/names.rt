//! Lists of names in which a name is found without a walk.

ghost use Rattle.std.specs.Prelude.{◌≡◌, [], not, map, take, length, OnOk, OnErr, IfOk};
ghost use Rattle.setl_names.specs.Names.{BeginsWith, has, with_name, with_names, in_order, repeats_after, has_repeat};

use crate::head::Declares;
use crate::name::Name;
use indexmap::IndexSet;
use std::alloc::{AllocError, Global};
use std::marker::Model;

/// Names that are all different, in the order in which they were put. Contracts see the list of them.
#[derive(Drop)]
pub struct Names {
    alloc: Global,
    names: IndexSet<Vec<u8>>,
}

impl Model for Names {
    ghost use Rattle.std.specs.Prelude.{List, ℕ, map};
    ghost use Rattle.std.specs.Global.{Vec};

    ghost Value = { List (List ℕ) };

    ghost view = { λ n. map (λ (v : Vec ℕ). v.items) n.names.keys };
}

impl Names {
    /// No names.
    pub fn new(alloc: Global) -> Names
        ensures { result ≡ [] }
    {
        Names {
            alloc,
            names: IndexSet::new(alloc),
        }
    }

    /// The declared names, each once.
    pub fn declared<T: Declares>(alloc: Global, items: &[T]) -> Result<Names, AllocError>
        ensures { IfOk result (λ names. names ≡ in_order (map (λ item. (T.entry_of item).name) items.now)) }
    {
        let mut names = Names::new(alloc);
        names.put_declared(items)?;
        Ok(names)
    }

    /// How many names there are.
    pub fn len(&self) -> usize
        ensures { result ≡ length self.now }
    {
        self.names.len()
    }

    /// Whether a name is among them.
    #[tactic(auto, using(crate::proofs::NameLists::has_key))]
    pub fn has(&self, name: &[u8]) -> bool
        ensures { result ≡ has self.now name.now }
    {
        self.names.contains(name)
    }

    /// Puts a name at the end, unless it is there. It gives whether it is new. An error is want of memory, and the names
    /// are then as before.
    #[tactic(auto, using(crate::proofs::NameLists::has_key, crate::proofs::NameLists::with_key))]
    pub fn put(&mut self, name: &[u8]) -> Result<bool, AllocError>
        ensures new { IfOk result (λ new. new ≡ not (has self.old name.now)) }
        ensures names { OnOk result (self.new ≡ with_name self.old name.now) }
        ensures err { OnErr result (self.new ≡ self.old) }
    {
        let key = Vec::from_slice(self.alloc, name)?;
        Ok(self.names.insert(key)?)
    }

    /// Puts names at the end in their order, but for those that are there. An error is want of memory, and the names are
    /// then as before.
    pub fn put_all(&mut self, names: &[Name<'_>]) -> Result<(), AllocError>
        ensures ok { OnOk result (self.new ≡ with_names self.old names.now) }
        ensures err { OnErr result (self.new ≡ self.old) }
    {
        let len = self.len();
        let done = self.put_some(names);
        if done.is_err() {
            self.truncate(len);
        }
        done
    }

    /// Puts names at the end in their order, but for those that are there. After an error some of them are put.
    fn put_some(&mut self, names: &[Name<'_>]) -> Result<(), AllocError>
        ensures ok { OnOk result (self.new ≡ with_names self.old names.now) }
        ensures err { OnErr result (BeginsWith self.new self.old) }
    {
        for name in names {
            self.put(name.text().bytes())?;
        }
        Ok(())
    }

    /// Puts the declared names at the end in their order, but for those that are there. An error is want of memory, and some
    /// of them are put then.
    pub fn put_declared<T: Declares>(&mut self, items: &[T]) -> Result<(), AllocError>
        ensures ok { OnOk result (self.new ≡ with_names self.old (map (λ item. (T.entry_of item).name) items.now)) }
        ensures err { OnErr result (BeginsWith self.new self.old) }
    {
        for item in items {
            self.put(item.entry().name.text().bytes())?;
        }
        Ok(())
    }

    /// Takes all names off behind the first `len`.
    #[tactic(auto, using(crate::proofs::NameLists::taken))]
    pub fn truncate(&mut self, len: usize)
        ensures { self.new ≡ take len self.old }
    {
        self.names.truncate(len);
    }
}

/// Whether a name stands twice in a list.
pub fn has_repeat(alloc: Global, names: &[Name<'_>]) -> Result<bool, AllocError>
    ensures { IfOk result (λ found. found ≡ has_repeat names.now) }
{
    let mut seen = Names::new(alloc);
    repeats_after(&mut seen, names)
}

/// Whether a name of a list is among those that were seen or stands earlier in the list.
fn repeats_after(seen: &mut Names, names: &[Name<'_>]) -> Result<bool, AllocError>
    ensures { IfOk result (λ found. found ≡ repeats_after seen.old names.now) }
{
    for name in names {
        if !seen.put(name.text().bytes())? {
            return Ok(true);
        }
    }
    Ok(false)
}
