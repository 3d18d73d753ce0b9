//! Texts by name.
ghost use Rattle.std.specs.Prelude.{◌≡◌, IfOk, OnOk, OnErr, string_bytes};
ghost use Rattle.std.specs.Option.{option_map};
ghost use Rattle.std.specs.FinMap as map;
ghost use Rattle.setl_io.specs.code.TextMap.{TextMap, text_map_code, text_map};

use indexmap::IndexMap;
use std::alloc::{AllocError, Global};
use std::marker::Model;

/// Texts by name, in the order in which their names came.
#[derive(Drop)]
pub struct NamedTexts {
    by_name: IndexMap<String, Vec<u8>>,
}

impl Model for NamedTexts {
    ghost Value = { TextMap };

    ghost coded = { text_map_code };

    ghost view = { λ texts. text_map texts.by_name.entries };
}

impl NamedTexts {
    /// Has no text, and room for one.
    pub fn new(alloc: Global) -> Result<NamedTexts, AllocError>
        ensures { IfOk result (λ texts. texts ≡ map.empty) }
    {
        Ok(NamedTexts {
            by_name: IndexMap::with_capacity(alloc, 1)?,
        })
    }

    /// Puts in a text, in place of the one that has the name.
    pub fn insert(&mut self, name: String, text: Vec<u8>) -> Result<(), AllocError>
        ensures ok { OnOk result (self.new ≡ map.insert self.old (string_bytes name) text.items) }
        ensures err { OnErr result (self.new ≡ self.old) }
    {
        self.by_name.insert(name, text)?;
        Ok(())
    }

    /// The text that has the name.
    pub fn get(&self, name: &str) -> Option<&Vec<u8>>
        ensures { option_map (λ text. text.now.items) result ≡ map.get self.now name.now }
    {
        self.by_name.get(name)
    }
}
