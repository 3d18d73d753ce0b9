//! Laws of the order of values. The functions have no effect: each hands a proof the law that it is named for.

ghost use Rattle.std.specs.Prelude.{◌≡◌, ◌↔◌, IsTrue};
ghost use Rattle.std.specs.Cmp.{IsTotalOrder};
ghost use Rattle.std.specs.declared.cmp.Ordering.TheVariants.{Equal};
ghost use Rattle.std.specs.Ordering.{on, eq_by_cmp};
ghost use Rattle.setl_value.specs.Datum.{Datum};
ghost use Rattle.setl_value.specs.code.DatumOf.{datum};
ghost use Rattle.setl_value.specs.code.HashInput.{writes};
ghost use Rattle.setl_value.specs.Order.{datum_cmp};
ghost use Rattle.setl_value.specs.declared.Value.{Value};

/// The canonical order is a total order.
pub fn order_is_total()
    ensures { IsTotalOrder datum_cmp }
{}

/// The canonical order answers `Equal` of equal data alone.
pub fn equal_is_the_same()
    ensures { (a b : Datum) → (datum_cmp a b ≡ Equal) ↔ (a ≡ b) }
{}

/// Values are `==` exactly where they stand for the same datum.
pub fn eq_is_the_same()
    ensures { (v w : Value) → IsTrue (on datum (eq_by_cmp datum_cmp) v w) ↔ (datum v ≡ datum w) }
{}

/// Values that are `==` feed a hasher the same, as the law of `Hash` for `Value` says.
pub fn hash_agrees()
    ensures { (v w : Value) → IsTrue (on datum (eq_by_cmp datum_cmp) v w) → writes (datum v) ≡ writes (datum w) }
{}
