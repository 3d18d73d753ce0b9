//! The content of a point.

ghost use Rattle.std.specs.Prelude.{◌≡◌, ◌≤◌, IfSome, IfNone, Some, None, option_and_then};
ghost use Rattle.std.specs.Option.{option_map};
ghost use Rattle.setl_value.specs.Datum.{depth, set_of};
ghost use Rattle.setl_value.specs.code.DatumOf.{datum};
ghost use Rattle.setl_value.specs.Pairs.{images};
ghost use Rattle.setl_base.specs.Base.{find};
ghost use Rattle.setl_rep_forms.specs.FormOf.{form};
ghost use Rattle.setl_rep_forms.specs.Stands.{stands, value_at, IsContent};
ghost use Rattle.setl_rep_images.specs.Kinds.{point_content};
ghost use Rattle.setl_rep_maps.specs.Contents.{map_pairs, table_of};
ghost use Rattle.setl_rep_maps.specs.code.Lent.{lent_form};
ghost use Rattle.setl_rep_plain.specs.Standing.{held_value, IsHeldOver};
ghost use Rattle.setl_rep_tables.specs.Tables.{images_of};

use setl_base::Base;
use setl_rep_bases::{BaseId, Bases};
use setl_rep_forms::Held;
use setl_rep_maps::{content, learn};
use setl_value::Value;

/// The content of a point, which stands for its image or for the set of its images; None where it has none. The
/// set of these images is at most 500 deep. It takes no memory.
pub(crate) fn point_content<'a>(
    f: &'a Held,
    b: BaseId,
    many: bool,
    x: &Value,
    bases: &Bases,
) -> Option<&'a Held>
    requires held { IsHeldOver bases.now f.now }
    requires table { table_of (form f.now) ≡ Some (b, many) }
    ensures images { images (datum x.now) (map_pairs bases.now (form f.now)) ≡ images_of many (option_and_then (stands bases.now) (lent_form result)) }
    ensures form { lent_form result ≡ point_content bases.now (form f.now) (datum x.now) }
    ensures over { IfSome result (λ c. IsHeldOver bases.now c.now) }
    ensures content { IfSome result (λ c. IsContent many (held_value bases.now c.now)) }
    ensures shallow { IfSome result (λ c. depth (set_of (images_of many (held_value bases.now c.now))) ≤ 500) }
{
    setl_rep_maps::laws::contents_stand_for_images();
    learn(f);
    match number(bases.at(b), x) {
        None => None,
        Some(n) => content(f, n),
    }
}

// The number of the block of a member.
fn number(base: &Base, x: &Value) -> Option<u64>
    ensures known { IfSome result (λ n. value_at base.now n ≡ Some (datum x.now)) }
    ensures none { IfNone result (find base.now (datum x.now) ≡ None) }
    ensures found { result ≡ option_map (λ e. e.block) (find base.now (datum x.now)) }
{
    match base.find(x) {
        None => None,
        Some(e) => Some(e.block),
    }
}
