//! The fields of element blocks, of which one at a time is changed so that the change can be led back without memory.

ghost use Rattle.std.specs.Prelude.{◌≡◌, IsTrue, cond};
ghost use Rattle.std.specs.Option.{option_map_or};
ghost use Rattle.std.specs.FinSet as set;
ghost use Rattle.std.specs.FinMap as map;
ghost use Rattle.setl_store_environment.specs.Places.{fields_now, with, HasRoom, LeadsFieldsBack};

use setl_local::Fields;

/// What a place has: the number of an object and that of a block, with the bit and the content there.
#[derive(Drop)]
pub struct Field<F> {
    pub object: u32,
    pub block: u64,
    pub bit: bool,
    pub content: Option<F>,
}

/// Puts a field at its place. Its answer leads back. It takes no memory.
pub(crate) fn put_field<F: Drop>(fields: &mut Fields<F>, field: Field<F>) -> Field<F>
    requires { HasRoom fields.old.room field }
    ensures put { fields_now fields.new ≡ with (fields_now fields.old) field }
    ensures back { LeadsFieldsBack fields.old fields.new result }
{
    let Field {
        object,
        block,
        bit,
        content,
    } = field;
    let old_bit = fields.test(object, block);
    let old_content = fields.clear(object, block);
    set_bit(fields, object, block, bit);
    set_content(fields, object, block, content);
    Field {
        object,
        block,
        bit: old_bit,
        content: old_content,
    }
}

// Puts a bit where none is on.
fn set_bit<F>(fields: &mut Fields<F>, object: u32, block: u64, bit: bool)
    requires { IsTrue (set.contains fields.old.room (object, block)) }
    ensures bits { fields.new.bits ≡ cond bit (set.insert fields.old.bits (object, block)) fields.old.bits }
    ensures contents { fields.new.contents ≡ fields.old.contents }
    ensures room { fields.new.room ≡ fields.old.room }
{
    if bit {
        fields.set(object, block);
    }
}

// Puts a content, or none, where none is.
fn set_content<F: Drop>(fields: &mut Fields<F>, object: u32, block: u64, content: Option<F>)
    requires { IsTrue (set.contains fields.old.room (object, block)) }
    ensures bits { fields.new.bits ≡ fields.old.bits }
    ensures contents { fields.new.contents ≡ option_map_or (map.insert fields.old.contents (object, block)) content fields.old.contents }
    ensures room { fields.new.room ≡ fields.old.room }
{
    if let Some(content) = content {
        fields.put(object, block, content);
    }
}
