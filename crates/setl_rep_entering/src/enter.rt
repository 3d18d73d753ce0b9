//! Values at places are entered into their bases.

ghost use Rattle.std.specs.Prelude.{◌≡◌, ◌||◌, ◌&&◌, ℕ, true, OnOk, OnErr, IfOk};
ghost use Rattle.setl_rep_bases.specs.declared.BaseId.{BaseId};
ghost use Rattle.setl_value.specs.Datum.{Datum};
ghost use Rattle.setl_value.specs.code.DatumOf.{datum};
ghost use Rattle.setl_modes.specs.Fits.{datum_fits};
ghost use Rattle.setl_modes.specs.Modes.{Mode as ModeState, Elements, mode_of};
ghost use Rattle.setl_modes_places.specs.Places.{names};
ghost use Rattle.setl_rep_bases.specs.Bases.{named, BasesState, IsThere};
ghost use Rattle.setl_rep_entering.specs.Entering.{is_named, AreLengthened, BasesAreThere};
ghost use Rattle.setl_rep_entering.specs.code.Growing.{all_placed, all_undone, is_marked, AreGrown, AreMarked, AreMarks, AreMarksOf, ArePlacesThere, ChangeWithin};

use crate::places::{Activation, Place, new_places};
use setl_base::BaseMark;
use setl_modes::Mode;
use setl_rep_bases::{BaseId, Bases};
use setl_value::Value;
use std::alloc::{AllocError, Global};

/// How many members an instance had.
#[derive(Clone, Copy)]
pub struct Mark {
    pub base: BaseId,
    pub mark: BaseMark,
}

/// Lengthens each base that a mode names by the values at its places in a value: they are put behind the members of the
/// instance that the base has in an activation, in canonical order and without those that are members.
///
/// The error is want of memory, and then the bases are as before. Its time is near linear in the size of the value.
pub fn enter_places(
    alloc: Global,
    mode: &Mode,
    v: &Value,
    instance: u64,
    bases: &mut Bases,
) -> Result<(), AllocError>
    requires fits { datum_fits (mode_of mode.now) (datum v.now) ≡ true }
    requires there { BasesAreThere bases.old instance (mode_of mode.now) }
    ensures lengthened { OnOk result (AreLengthened (mode_of mode.now) (datum v.now) instance bases.old bases.new) }
    ensures refused { OnErr result (bases.new ≡ bases.old) }
{
    match mode {
        Mode::Elmt(b, _) => enter_element(*b, v, instance, bases),
        _ => enter_all(alloc, mode, v, instance, bases),
    }
}

// The same for an element of the base `b`, whose one place is itself.
fn enter_element(b: u32, v: &Value, instance: u64, bases: &mut Bases) -> Result<(), AllocError>
    requires there { IsThere bases.old (named bases.old instance b) }
    ensures lengthened { (m : ModeState) → OnOk result (AreLengthened (Elements b m) (datum v.now) instance bases.old bases.new) }
    ensures refused { OnErr result (bases.new ≡ bases.old) }
{
    crate::laws::elements_are_entered();
    let base = bases.named(instance, b);
    bases.enter(base, v.copy()?)?;
    Ok(())
}

// The same for a value of any mode.
fn enter_all(
    alloc: Global,
    mode: &Mode,
    v: &Value,
    instance: u64,
    bases: &mut Bases,
) -> Result<(), AllocError>
    requires there { BasesAreThere bases.old instance (mode_of mode.now) }
    ensures lengthened { OnOk result (AreLengthened (mode_of mode.now) (datum v.now) instance bases.old bases.new) }
    ensures refused { OnErr result (bases.new ≡ bases.old) }
{
    setl_set::laws::rising_lists_agree();
    setl_set::laws::tests_are_exact();
    setl_set::laws::operations_have_their_members();
    setl_modes_places::places_are_named();
    setl_rep_bases::laws::instances_are_read();
    let a = Activation {
        alloc,
        bases,
        instance,
    };
    let places = new_places(&a, mode, v)?;
    if places.is_empty() {
        return Ok(());
    }
    let marks = base_marks(alloc, mode, instance, bases)?;
    enter_or_undo(places, marks, bases)
}

/// How many members each base that a mode names has in an activation: with these `take_back` undoes what `enter_places`
/// does next.
///
/// The error is want of memory.
pub fn base_marks(
    alloc: Global,
    mode: &Mode,
    instance: u64,
    bases: &Bases,
) -> Result<Vec<Mark>, AllocError>
    requires { BasesAreThere bases.now instance (mode_of mode.now) }
    ensures { IfOk result (λ ms. AreMarksOf bases.now instance (mode_of mode.now) ms.items) }
{
    let a = Activation {
        alloc,
        bases,
        instance,
    };
    let mut marks = Vec::new(alloc);
    mark_bases(&a, mode, &mut marks)?;
    Ok(marks)
}

/// Takes back what was entered since these marks were made: the bases are as they were then. It takes no memory.
pub fn take_back(marks: Vec<Mark>, bases: &mut Bases)
    requires { (m : ModeState) × (d : Datum) × (n : ℕ) × (bs : BasesState) × AreMarksOf bs n m marks.items × AreLengthened m d n bs bases.old }
    ensures { (m : ModeState) (d : Datum) (n : ℕ) (bs : BasesState) → AreMarksOf bs n m marks.items → AreLengthened m d n bs bases.old → bases.new ≡ bs }
{
    setl_modes_places::places_are_named();
    setl_rep_bases::laws::instances_are_read();
    undo_all(marks, bases);
}

// Puts the mark of each base that a mode names at the end.
#[tactic(auto, using(crate::proofs::Naming::marked_both))]
fn mark_bases(a: &Activation<'_>, mode: &Mode, marks: &mut Vec<Mark>) -> Result<(), AllocError>
    requires there { BasesAreThere a.now.bases.now a.now.instance (mode_of mode.now) }
    requires marks { AreMarks a.now.bases.now marks.old.items }
    ensures marks { OnOk result (AreMarks a.now.bases.now marks.new.items) }
    ensures all { OnOk result ((i : BaseId) → is_marked i marks.new.items ≡ (is_marked i marks.old.items || (is_named a.now.bases.now a.now.instance i && names i.base (mode_of mode.now)))) }
{
    match mode {
        Mode::Elmt(b, _) => {
            let base = a.bases.named(a.instance, *b);
            let mark = a.bases.at(base).mark();
            marks.push(Mark { base, mark })?;
            Ok(())
        }
        Mode::Set(_, m) | Mode::Tuple(m) => mark_bases(a, m.get(), marks),
        Mode::Smap(_, d, r) => {
            mark_bases(a, d.get(), marks)?;
            mark_bases(a, r.get(), marks)?;
            Ok(())
        }
        Mode::Mmap(_, d, s) => {
            mark_bases(a, d.get(), marks)?;
            mark_bases(a, s.get(), marks)?;
            Ok(())
        }
        _ => Ok(()),
    }
}

// Enters values into their bases. Where memory is refused, each base is cut to its mark.
fn enter_or_undo(places: Vec<Place>, marks: Vec<Mark>, bases: &mut Bases) -> Result<(), AllocError>
    requires there { ArePlacesThere bases.old places.items }
    requires marks { AreMarks bases.old marks.items }
    requires marked { AreMarked marks.items places.items }
    ensures entered { OnOk result (bases.new ≡ all_placed bases.old places.items) }
    ensures refused { OnErr result (bases.new ≡ bases.old) }
{
    setl_rep_bases::laws::instances_are_read();
    match enter_each(places, bases) {
        Ok(()) => Ok(()),
        Err(e) => {
            undo_all(marks, bases);
            Err(e)
        }
    }
}

// Enters values into their bases, one after the other. Where memory is refused, some may have been entered.
fn enter_each(places: Vec<Place>, bases: &mut Bases) -> Result<(), AllocError>
    requires { ArePlacesThere bases.old places.items }
    ensures entered { OnOk result (bases.new ≡ all_placed bases.old places.items) }
    ensures grown { AreGrown bases.old bases.new }
    ensures within { ChangeWithin places.items bases.old bases.new }
{
    setl_base::laws::entering_keeps_the_blocks();
    setl_rep_bases::laws::instances_are_read();
    for p in places {
        bases.enter(p.base, p.value)?;
    }
    Ok(())
}

// Cuts each base to its mark.
fn undo_all(marks: Vec<Mark>, bases: &mut Bases)
    requires { (bs : BasesState) × AreMarks bs marks.items × AreGrown bs bases.old }
    ensures { bases.new ≡ all_undone bases.old marks.items }
{
    setl_rep_bases::laws::instances_are_read();
    for m in marks {
        bases.undo(m.base, &m.mark);
    }
}
