//! `ok`, `fail` and `succeed`.

ghost use Rattle.std.specs.Prelude.{◌≡◌, ◌∷◌, cond, length, nat_lt, true, false, OnOk, OnErr};
ghost use Rattle.setl_value.specs.declared.Value.TheVariants as value;
ghost use Rattle.setl_store_operands.specs.declared.cells.Operand.TheVariants as operand;
ghost use Rattle.setl_store.specs.Flat.{answering};
ghost use Rattle.setl_store.specs.Gained.{with_kept, cut_to_kept, without_kept};
ghost use Rattle.setl_store.specs.Standing.{kept, Restored, Forgotten, Becomes, CanGoOn};

use crate::cells::{Contents, Kept};
use crate::store::Store;
use setl_store_operands::Operand;
use setl_value::Value;
use std::alloc::AllocError;

// How often something is kept at most, so that no base is cut more often than its generations go.
const MOST_KEEPS: u64 = (1 << 63) - 1;

impl<'c> Store<'c> {
    /// Keeps all that there is, as `ok` does, and goes on behind the step in hand with `true` pushed.
    ///
    /// The error is want of memory, or that something was kept 2^63 - 1 times, which no run does, and then all is as before.
    pub fn keep(&mut self) -> Result<(), AllocError>
        requires { CanGoOn self.old }
        ensures { Becomes result self.old self.new (record self.old { core = kept self.old.core; bases = with_kept self.old.bases }) }
    {
        setl_rep_bases::laws::cuts_are_exact();
        if self.keeps == MOST_KEEPS {
            return Err(AllocError);
        }
        let at = self.at + 1;
        let marks = self.bases.marks(self.alloc)?;
        keep_answering(&mut self.environment, Kept { at, marks })?;
        self.at = at;
        self.keeps += 1;
        Ok(())
    }

    /// Brings back what was kept last, as `fail` does, and forgets it. Its answer is whether anything was kept, and else
    /// all is as before. It takes no memory.
    pub fn back(&mut self) -> bool
        ensures code { self.new.code ≡ self.old.code }
        ensures back { Restored result self.old.core self.new.core }
        ensures bases { self.new.bases ≡ cond result (cut_to_kept self.old.bases) self.old.bases }
    {
        setl_rep_bases::laws::cuts_are_exact();
        setl_rep_updates::laws::forms_of_main_stay();
        setl_store_operands::laws::operands_stay();
        let Some(kept) = self.environment.back() else {
            return false;
        };
        self.bases.back_to(&kept.marks);
        self.at = kept.at;
        true
    }

    /// Forgets what was kept last, as `succeed` does, and goes on behind the step in hand; all changes stay. Its answer is
    /// whether anything was kept, and else all is as before. It takes no memory.
    pub fn forget(&mut self) -> bool
        requires { CanGoOn self.old }
        ensures code { self.new.code ≡ self.old.code }
        ensures forgotten { Forgotten result self.old.core self.new.core }
        ensures bases { self.new.bases ≡ cond result (without_kept self.old.bases) self.old.bases }
    {
        setl_rep_bases::laws::cuts_are_exact();
        setl_rep_updates::laws::forms_of_main_stay();
        setl_store_operands::laws::operands_stay();
        if !self.environment.forget() {
            return false;
        }
        self.at += 1;
        true
    }

    /// Whether anything is kept. It takes no memory.
    pub fn is_kept(&self) -> bool
        ensures { result ≡ nat_lt 0 (length self.now.core.kept) }
    {
        self.environment.is_kept()
    }
}

// Keeps what is there and on it `false`, which `fail` then brings back too, and goes on with `true` in its place.
fn keep_answering(environment: &mut Contents, beside: Kept) -> Result<(), AllocError>
    ensures now { OnOk result (environment.new.now ≡ answering environment.old.now true) }
    ensures kept { OnOk result (environment.new.kept ≡ (answering environment.old.now false, beside) ∷ environment.old.kept) }
    ensures refused { OnErr result (environment.new.now ≡ environment.old.now) }
    ensures rest { OnErr result (environment.new.kept ≡ environment.old.kept) }
{
    let top = environment.operands();
    environment.reserve(2)?;
    environment.reserve_operands(1)?;
    environment.push_operand(truth(false));
    if let Err(refused) = environment.keep(beside, 1) {
        environment.drop_operand();
        return Err(refused);
    }
    environment.set_operand(top, truth(true));
    Ok(())
}

fn truth(b: bool) -> Operand
    ensures { result ≡ operand.Value (value.Bool b) }
{
    Operand::Value(Value::Bool(b))
}
