//! The contents of a map by number.

ghost use Rattle.std.specs.Prelude.{◌≡◌, IfSome, IfNone, Some, None};
ghost use Rattle.setl_value.specs.code.DatumOf.{datum};
ghost use Rattle.setl_value.specs.Pairs.{images};
ghost use Rattle.setl_base.specs.Base.{find};
ghost use Rattle.setl_rep_forms.specs.FormOf.{form};
ghost use Rattle.setl_rep_forms.specs.Stands.{value_at, IsOver};
ghost use Rattle.setl_rep_maps.specs.Contents.{content_of, images_from, map_pairs, table_of, IsKeyedForm, IsTable};
ghost use Rattle.setl_rep_maps.specs.code.Lent.{lent_form};

use setl_base::Base;
use setl_rep_bases::{BaseId, Bases};
use setl_rep_forms::Held;
use setl_value::Value;

/// The base of a map in table form, and whether it keeps its images as sets. None for other forms. It takes no memory.
pub fn table_of(map: &Held) -> Option<(BaseId, bool)>
    ensures { result ≡ table_of (form map.now) }
{
    match map {
        Held::RemoteMap(base, many, _) => Some((*base, *many)),
        Held::SparseMap(base, many, _) => Some((*base, *many)),
        _ => None,
    }
}

/// The content that a map has at the number of a block, and None where it has none. It takes no memory.
pub fn content(map: &Held, block: u64) -> Option<&Held>
    ensures { lent_form result ≡ content_of (form map.now) block }
{
    setl_rep_tables::laws::slots_are_keyed();
    match map {
        Held::RemoteMap(_, _, slots) => slots.get(block),
        Held::SparseMap(_, _, table) => table.get(block),
        _ => None,
    }
}

/// Has no effect: it hands a proof that each number has one entry in a map.
pub fn learn(map: &Held)
    ensures { IsKeyedForm (form map.now) }
{
    setl_rep_tables::laws::slots_are_keyed();
    if let Held::SparseMap(_, _, table) = map {
        table.learn();
    }
}

/// The content that stands for the image of `x`, or for the set of its images, and None where it has none. It takes no
/// memory.
pub fn image<'a>(map: &'a Held, x: &Value, bases: &Bases) -> Option<&'a Held>
    requires over { IsOver bases.now (form map.now) }
    requires table { IsTable (form map.now) }
    ensures { images (datum x.now) (map_pairs bases.now (form map.now)) ≡ images_from bases.now (form map.now) (lent_form result) }
{
    match table_of(map) {
        None => None,
        Some((base, many)) => image_on(map, base, many, x, bases),
    }
}

// The same, for a map on this base.
fn image_on<'a>(
    map: &'a Held,
    base: BaseId,
    many: bool,
    x: &Value,
    bases: &Bases,
) -> Option<&'a Held>
    requires over { IsOver bases.now (form map.now) }
    requires table { table_of (form map.now) ≡ Some (base, many) }
    ensures { images (datum x.now) (map_pairs bases.now (form map.now)) ≡ images_from bases.now (form map.now) (lent_form result) }
{
    crate::laws::contents_stand_for_images();
    learn(map);
    match number(bases.at(base), x) {
        None => None,
        Some(n) => content(map, n),
    }
}

// The number of the block of a member.
fn number(base: &Base, x: &Value) -> Option<u64>
    ensures known { IfSome result (λ n. value_at base.now n ≡ Some (datum x.now)) }
    ensures none { IfNone result (find base.now (datum x.now) ≡ None) }
{
    match base.find(x) {
        None => None,
        Some(e) => Some(e.block),
    }
}
