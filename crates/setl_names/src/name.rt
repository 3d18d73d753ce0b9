//! Names as they stand in a tree.

ghost use Rattle.std.specs.Prelude.{◌≡◌};

use setl_tree::Text;
use std::marker::Model;

/// A name that stands in a tree. Contracts see the list of its bytes.
#[derive(Drop)]
pub struct Name<'t> {
    text: &'t Text,
}

impl<'t> Model for Name<'t> {
    ghost use Rattle.std.specs.Prelude.{List, ℕ};

    ghost Value = { List ℕ };

    ghost view = { λ n. n.text.now };
}

impl<'t> Name<'t> {
    /// The name that is this text.
    pub fn new(text: &'t Text) -> Name<'t>
        ensures { result ≡ text.now }
    {
        Name { text }
    }

    /// The text of the name.
    pub fn text(&self) -> &'t Text
        ensures { result.now ≡ self.now }
    {
        self.text
    }
}
