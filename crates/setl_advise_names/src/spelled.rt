//! The names that a source spells.

ghost use Rattle.std.specs.Prelude.{◌≡◌, IfOk, OnOk};
ghost use Rattle.setl_token.specs.Bytes.{lower};
ghost use Rattle.setl_names.specs.Names.{in_order, with_names};
ghost use Rattle.setl_advise_names.specs.Free.{if_name, spelled_names};

use setl_names::Names;
use setl_token::{TokenKind, TokenList};
use std::alloc::{AllocError, Global};

/// Puts the name that a token of a kind spells by its text, if it spells one. The error is want of memory.
fn note(alloc: Global, kind: TokenKind, text: &[u8], names: &mut Names) -> Result<(), AllocError>
    ensures { OnOk result (names.new ≡ with_names names.old (if_name kind (lower text.now))) }
{
    match kind {
        TokenKind::Name => {
            let name = text.to_ascii_lowercase(alloc)?;
            names.put(&name)?;
            Ok(())
        }
        TokenKind::Word => Ok(()),
        TokenKind::Number(_) => Ok(()),
        TokenKind::Str => Ok(()),
        TokenKind::Sign => Ok(()),
    }
}

/// The names that the tokens of a source spell, in lower case and each once. The error is want of memory.
pub fn spelled_names(alloc: Global, list: &TokenList) -> Result<Names, AllocError>
    ensures { IfOk result (λ names. names ≡ in_order (spelled_names list.now.source list.now.tokens)) }
{
    let mut names = Names::new(alloc);
    for i in 0..list.len() {
        note(alloc, list.at(i).kind, list.text(i), &mut names)?;
    }
    Ok(names)
}
