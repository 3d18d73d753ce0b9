//! Where elaboration stands.

ghost use Rattle.std.specs.Prelude.{◌≡◌, ℕ, List, suc, map, IfOk, OnOk};
ghost use Rattle.setl_names.specs.Names.{Name, with_names, in_order};
ghost use Rattle.setl_program.specs.Expressions.{turn_of, names_of_turns};
ghost use Rattle.setl_program.specs.ProgramOf.{main_scope};
ghost use Rattle.setl_program_elaborate.specs.declared.elaborator.Elaborator.{Elaborator as Walk};
ghost use Rattle.setl_program_elaborate.specs.Elaborators.{inside};

use setl_names::Names;
use setl_program_scope::{Opened, Scope, put_turn};
use setl_tree::{Boxed, Iter, Tree};
use std::alloc::{AllocError, Global};

/// The place where elaboration stands, and how many formers of its body are opened before it.
#[derive(Drop)]
pub struct Elaborator<'t> {
    pub alloc: Global,
    pub scope: Scope<'t>,
    pub opened: Opened,
}

impl<'t> Elaborator<'t> {
    /// Where the main body of a program begins. An error is want of memory.
    pub fn main(alloc: Global, tree: &'t Tree) -> Result<Elaborator<'t>, AllocError>
        ensures { IfOk result (λ w. w.scope ≡ main_scope tree.now) }
    {
        let scope = Scope::main(alloc, tree)?;
        Ok(Elaborator {
            alloc,
            scope,
            opened: Opened::none(),
        })
    }

    /// Enters a former that binds these names. An error is want of memory.
    #[inline(never)]
    pub fn enter(&mut self, number: u32, names: Boxed<Names>) -> Result<(), AllocError>
        ensures { OnOk result (self.new ≡ inside number names self.old) }
    {
        self.scope.enter(number, names.into_inner())
    }

    /// Leaves the innermost former, and gives the names that it bound.
    #[tactic(auto, using(crate::proofs::Walks::left_again))]
    fn left(&mut self) -> Names
        ensures { (m : ℕ) (names : List Name) (w : Walk) → self.old ≡ inside m names w → (result ≡ names) × (self.new ≡ w) }
    {
        self.scope.leave(self.alloc)
    }

    /// Leaves the innermost former.
    #[inline(never)]
    pub fn leave(&mut self)
        ensures { (m : ℕ) (names : List Name) (w : Walk) → self.old ≡ inside m names w → self.new ≡ w }
    {
        self.left();
    }

    /// Leaves the innermost former, and gives the names that it bound with those of an iterator. An error is want of memory.
    #[inline(never)]
    pub fn leave_with(&mut self, turn: &Iter) -> Result<Boxed<Names>, AllocError>
        ensures state { (m : ℕ) (names : List Name) (w : Walk) → self.old ≡ inside m names w → self.new ≡ w }
        ensures names { IfOk result (λ all. (m : ℕ) (names : List Name) (w : Walk) → self.old ≡ inside m names w → all ≡ with_names names (turn_of turn.now).names) }
    {
        let mut names = self.left();
        put_turn(turn, &mut names)?;
        Boxed::new(self.alloc, names)
    }

    /// The number of the former with these iterators, which is opened before what stands in them, and the names that they
    /// bind. The error is want of memory, or that there are 2^32 - 1 formers already.
    #[inline(never)]
    pub fn open_over(&mut self, turns: &[Iter]) -> Result<(u32, Boxed<Names>), AllocError>
        ensures number { IfOk result (λ r. r.0 ≡ suc self.old.opened) }
        ensures names { IfOk result (λ r. r.1 ≡ in_order (names_of_turns (map turn_of turns.now))) }
        ensures counted { OnOk result (self.new ≡ record self.old { opened = suc self.old.opened }) }
    {
        let (number, names) = self.opened.open_over(self.alloc, turns)?;
        let names = Boxed::new(self.alloc, names)?;
        Ok((number, names))
    }
}
