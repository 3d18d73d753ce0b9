//! The fields, in one table by place.
ghost use Rattle.std.specs.Prelude.{◌≡◌, IsTrue, IfOk, OnOk, OnErr, option_copied};
ghost use Rattle.std.specs.FinSet as set;
ghost use Rattle.std.specs.FinMap as map;
ghost use Rattle.setl_local.specs.FieldState.{no_fields};
ghost use Rattle.setl_local.specs.Entries.{content_of, field_at, GainsRoom, Alters, turned_on, emptied, filled};

use indexmap::IndexMap;
use std::alloc::{AllocError, Global};
use std::marker::Model;

/// What a place with room has.
#[derive(Drop)]
struct Field<T> {
    bit: bool,
    content: Option<T>,
}

type Table<T> = IndexMap<(u32, u64), Field<T>>;

/// For each object number and block number a bit and a content that may be there.
///
/// A change of one place leaves all others as they were. No call takes room away.
#[derive(Drop)]
pub struct Fields<T> {
    by_place: Table<T>,
}

/// Puts in an empty field, unless the table has one at the place.
fn make_room<T: Drop>(table: &mut Table<T>, place: (u32, u64)) -> Result<(), AllocError>
    ensures ok { OnOk result (GainsRoom place table.old.entries table.new.entries) }
    ensures err { OnErr result (table.new.entries ≡ table.old.entries) }
{
    if table.contains_key(&place) {
        return Ok(());
    }
    let empty = Field {
        bit: false,
        content: None,
    };
    table.insert(place, empty)?;
    Ok(())
}

/// Turns on the bit that the table has at the place.
fn turn_on<T>(table: &mut Table<T>, place: (u32, u64))
    ensures { Alters turned_on place table.old.entries table.new.entries }
{
    if let Some(field) = table.get_mut(&place) {
        field.bit = true;
    }
}

/// Empties the field that the table has at the place, and gives back its content.
fn empty<T>(table: &mut Table<T>, place: (u32, u64)) -> Option<T>
    ensures old { result ≡ content_of (field_at table.old.entries place) }
    ensures altered { Alters emptied place table.old.entries table.new.entries }
{
    let field = table.get_mut(&place)?;
    field.bit = false;
    field.content.take()
}

/// Puts the content into the field that the table has at the place, and gives back the old one.
fn fill<T: Drop>(table: &mut Table<T>, place: (u32, u64), content: T) -> Option<T>
    ensures old { result ≡ content_of (field_at table.old.entries place) }
    ensures altered { Alters (filled content) place table.old.entries table.new.entries }
{
    let field = table.get_mut(&place)?;
    field.content.replace(content)
}

impl<T> Model for Fields<T> {
    ghost use Rattle.setl_local.specs.FieldState.{FieldState, state_code};

    ghost Value = { FieldState T };

    ghost coded = { state_code T.code };

    ghost use Rattle.setl_local.specs.Entries.{state_of};

    ghost view = { λ fields. state_of fields.by_place.entries };
}

impl<T> Fields<T> {
    /// No place has room, a bit that is on or a content. An error is want of memory.
    pub fn new(alloc: Global) -> Result<Fields<T>, AllocError>
        ensures { IfOk result (λ fields. fields ≡ no_fields) }
    {
        Ok(Fields {
            by_place: IndexMap::with_capacity(alloc, 1)?,
        })
    }

    /// Whether the bit is on. Takes no memory.
    pub fn test(&self, obj: u32, block: u64) -> bool
        ensures { result ≡ set.contains self.now.bits (obj, block) }
    {
        match self.by_place.get(&(obj, block)) {
            Some(field) => field.bit,
            None => false,
        }
    }

    /// The content; `None` where there is none. Takes no memory.
    pub fn get(&self, obj: u32, block: u64) -> Option<&T>
        ensures { option_copied result ≡ map.get self.now.contents (obj, block) }
    {
        self.by_place.get(&(obj, block))?.content.as_ref()
    }

    /// Turns the bit on. Takes no memory.
    pub fn set(&mut self, obj: u32, block: u64)
        requires { IsTrue (set.contains self.old.room (obj, block)) }
        ensures bit { self.new.bits ≡ set.insert self.old.bits (obj, block) }
        ensures contents { self.new.contents ≡ self.old.contents }
        ensures room { self.new.room ≡ self.old.room }
    {
        turn_on(&mut self.by_place, (obj, block));
    }
}

impl<T: Drop> Fields<T> {
    /// Gives the place room. An error is want of memory, and no place has then gained any.
    pub fn room(&mut self, obj: u32, block: u64) -> Result<(), AllocError>
        ensures ok { OnOk result (self.new.room ≡ set.insert self.old.room (obj, block)) }
        ensures there { OnOk result (IsTrue (set.contains self.new.room (obj, block))) }
        ensures err { OnErr result (self.new.room ≡ self.old.room) }
        ensures bits { self.new.bits ≡ self.old.bits }
        ensures contents { self.new.contents ≡ self.old.contents }
    {
        make_room(&mut self.by_place, (obj, block))
    }

    /// Puts the content `c` in, and gives back the one that was there; `None` where there was none. Takes no memory.
    pub fn put(&mut self, obj: u32, block: u64, c: T) -> Option<T>
        requires { IsTrue (set.contains self.old.room (obj, block)) }
        ensures old { result ≡ map.get self.old.contents (obj, block) }
        ensures content { self.new.contents ≡ map.insert self.old.contents (obj, block) c }
        ensures bits { self.new.bits ≡ self.old.bits }
        ensures room { self.new.room ≡ self.old.room }
    {
        fill(&mut self.by_place, (obj, block), c)
    }

    /// Turns the bit off and takes the content out, which it gives back; `None` where there was none. Takes no memory.
    pub fn clear(&mut self, obj: u32, block: u64) -> Option<T>
        ensures old { result ≡ map.get self.old.contents (obj, block) }
        ensures bit { self.new.bits ≡ set.remove self.old.bits (obj, block) }
        ensures content { self.new.contents ≡ map.remove self.old.contents (obj, block) }
        ensures room { self.new.room ≡ self.old.room }
    {
        empty(&mut self.by_place, (obj, block))
    }
}
