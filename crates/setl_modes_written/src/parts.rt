//! Modes and what stands inside them.

ghost use Rattle.std.specs.Prelude.{◌≡◌, Option};
ghost use Rattle.std.specs.List.{list_any};
ghost use Rattle.setl_tree.specs.declared.mode.Attribute.{Attribute as TreeAttribute};
ghost use Rattle.setl_modes_written.specs.Written as spec;
ghost use Rattle.setl_modes_written.specs.Written.{written, parts, inside};
ghost use Rattle.setl_modes_written.specs.Tested as tested;
ghost use Rattle.setl_modes_written.specs.code.Tests.{core_written, passes};

use setl_tree::{Attribute, Boxed, Core, WrittenMode};

/// What the parts of a mode are tested for.
#[derive(Clone, Copy, Debug, PartialEq, Eq)]
pub enum Test {
    /// An `elmt` or an attribute.
    ForVariables,
    /// The word `local`.
    Local,
    /// An attribute before something else than a set or map whose first mode is an `elmt`.
    StrayAttribute,
    /// An `elmt` inside a mode whose first mode isn't an `elmt`.
    StrayElement,
    /// An `mmap` whose second mode is no set.
    OtherImages,
}

/// Whether a mode is an `elmt`.
fn is_element(m: &WrittenMode) -> bool
    ensures { result ≡ spec.is_element (written m.now) }
{
    match &m.core {
        Core::Elmt(_, _) => true,
        _ => false,
    }
}

/// Whether a mode is a set.
fn is_set(m: &WrittenMode) -> bool
    ensures { result ≡ spec.is_set (written m.now) }
{
    match &m.core {
        Core::Set(_) => true,
        _ => false,
    }
}

/// Whether `local` stands before a mode.
fn is_local(m: &WrittenMode) -> bool
    ensures { result ≡ spec.is_local (written m.now) }
{
    match m.attribute {
        Some(Attribute::Local) => true,
        _ => false,
    }
}

/// Whether an attribute stands before a mode.
fn has_attribute(m: &WrittenMode) -> bool
    ensures { result ≡ spec.has_attribute (written m.now) }
{
    m.attribute.is_some()
}

/// Whether a mode is a set or a map whose first mode is an `elmt`.
fn is_based(m: &WrittenMode) -> bool
    ensures { result ≡ spec.is_based (written m.now) }
{
    match &m.core {
        Core::Set(first) => is_element(first.get()),
        Core::Smap(first, _) => is_element(first.get()),
        Core::Mmap(first, _) => is_element(first.get()),
        _ => false,
    }
}

/// Whether a mode is a tuple of an `elmt`.
fn is_element_tuple(m: &WrittenMode) -> bool
    ensures { result ≡ spec.is_element_tuple (written m.now) }
{
    match &m.core {
        Core::Tuple(first) => is_element(first.get()),
        _ => false,
    }
}

/// Whether the second mode of an `mmap` is no set.
fn has_other_images(m: &WrittenMode) -> bool
    ensures { result ≡ spec.has_other_images (written m.now) }
{
    match &m.core {
        Core::Mmap(_, images) => !is_set(images.get()),
        _ => false,
    }
}

/// Whether an `elmt` stands in a mode.
#[cycle(elements)]
fn has_element(m: &WrittenMode) -> bool
    ensures { result ≡ list_any spec.is_element (parts (written m.now)) }
{
    is_element(m) || has_element_inside(&m.core)
}

/// Whether an `elmt` stands inside a mode. Its attribute changes nothing.
#[cycle(elements)]
fn has_element_inside(x: &Core) -> bool
    ensures { (a : Option TreeAttribute) → result ≡ list_any spec.is_element (inside (core_written x.now a)) }
{
    match x {
        Core::Set(m) => has_element(m.get()),
        Core::Tuple(m) => has_element(m.get()),
        Core::Smap(domain, range) => has_element(domain.get()) || has_element(range.get()),
        Core::Mmap(domain, images) => has_element(domain.get()) || has_element(images.get()),
        _ => false,
    }
}

/// Whether an `elmt` stands inside a mode whose first mode isn't an `elmt`.
fn has_stray_element(m: &WrittenMode) -> bool
    ensures { result ≡ tested.has_stray_element (written m.now) }
{
    has_element_inside(&m.core) && !(is_based(m) || is_element_tuple(m))
}

/// Whether a mode passes a test.
fn passes(m: &WrittenMode, test: Test) -> bool
    ensures { result ≡ passes test (written m.now) }
{
    match test {
        Test::ForVariables => is_element(m) || has_attribute(m),
        Test::Local => is_local(m),
        Test::StrayAttribute => has_attribute(m) && !is_based(m),
        Test::StrayElement => has_stray_element(m),
        Test::OtherImages => has_other_images(m),
    }
}

/// Whether a part of a mode passes a test.
#[cycle(parts)]
pub fn any_part(m: &WrittenMode, test: Test) -> bool
    ensures { result ≡ list_any (passes test) (parts (written m.now)) }
{
    passes(m, test) || any_inside_core(&m.core, test)
}

/// Whether a mode inside a mode passes a test. Its attribute changes nothing.
#[cycle(parts)]
fn any_inside_core(x: &Core, test: Test) -> bool
    ensures { (a : Option TreeAttribute) → result ≡ list_any (passes test) (inside (core_written x.now a)) }
{
    match x {
        Core::Set(m) => any_part(m.get(), test),
        Core::Tuple(m) => any_part(m.get(), test),
        Core::Smap(domain, range) => any_part(domain.get(), test) || any_part(range.get(), test),
        Core::Mmap(domain, images) => any_part(domain.get(), test) || any_part(images.get(), test),
        _ => false,
    }
}

/// Whether a mode inside a mode passes a test.
pub fn any_inside(m: &WrittenMode, test: Test) -> bool
    ensures { result ≡ list_any (passes test) (inside (written m.now)) }
{
    any_inside_core(&m.core, test)
}
