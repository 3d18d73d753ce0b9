//! Names, parameters and own names.

ghost use Rattle.std.specs.Prelude.{◌≡◌};
ghost use Rattle.std.specs.List.{list_all};
ghost use Rattle.setl_code.specs.declared.code.OwnName.TheVariants.{Former};
ghost use Rattle.setl_image_spelled.specs.Spelled.{name_fits, own_name_fits, param_fits};

use crate::numbers::{is_length, is_number};
use itoa::Buffer;
use setl_code::OwnName;
use setl_image_codec::is_name;
use setl_tree::{Param, Text};

/// Whether a name has a spelling.
pub(crate) fn name_fits(name: &Text) -> bool
    ensures { result ≡ name_fits name.now }
{
    let bytes = name.bytes();
    is_name(bytes) && is_length(bytes.len())
}

/// Whether each of these names has a spelling.
pub(crate) fn names_fit(names: &[Text]) -> bool
    ensures { result ≡ list_all name_fits names.now }
{
    for name in names {
        if !name_fits(name) {
            return false;
        }
    }
    true
}

// Whether a parameter has a spelling.
fn param_fits(param: &Param) -> bool
    ensures { result ≡ param_fits param.now }
{
    name_fits(&param.name) && is_number(param.line)
}

/// Whether each of these parameters has a spelling.
pub(crate) fn params_fit(params: &[Param]) -> bool
    ensures { result ≡ list_all param_fits params.now }
{
    for param in params {
        if !param_fits(param) {
            return false;
        }
    }
    true
}

/// Whether each of these own names has a spelling.
pub(crate) fn own_names_fit(names: &[OwnName]) -> bool
    ensures { result ≡ list_all own_name_fits names.now }
{
    for name in names {
        if !own_name_fits(name) {
            return false;
        }
    }
    true
}

// Whether an own name has a spelling.
fn own_name_fits(name: &OwnName) -> bool
    ensures { result ≡ own_name_fits name.now }
{
    match name {
        OwnName::Body(x) => name_fits(x),
        OwnName::Former(k, x) => former_fits(*k, x),
    }
}

// Whether a name of the former of this number has a spelling.
fn former_fits(k: u32, name: &Text) -> bool
    ensures { result ≡ own_name_fits (Former k name.now) }
{
    let mut buffer = Buffer::new();
    let digits = buffer.format(k).as_bytes();
    let bytes = name.bytes();
    is_name(bytes) && 0 < k && is_length(bytes.len() + 1 + digits.len())
}
