//! Why a source is no program.

ghost use Rattle.std.specs.Prelude.{◌≡◌};
ghost use Rattle.setl_parse.specs.Places.{place_of, fault_of};

use setl_parse_reading::Fault;
use setl_token::TokenList;
use thiserror::Error;

/// Why a source is no program. A place is the first byte of a token, or the length of the source.
#[derive(Clone, Copy, Debug, PartialEq, Eq, Error)]
pub enum ParseFault {
    /// The tokens before this place begin a program, and with the one here they begin none.
    #[error("the token at byte {at} does not go on here")]
    Syntax { at: u32 },
    /// The token at this place opens a nesting inside 200 others.
    #[error("too many nestings at byte {at}")]
    Nesting { at: u32 },
    /// Memory ran out.
    #[error("out of memory")]
    NoMemory,
}

/// The place at which so many tokens are left.
fn place(list: &TokenList, left: usize) -> u32
    ensures { result ≡ place_of list.now left }
{
    let index = list.len().saturating_sub(left);
    if index < list.len() {
        list.at(index).from
    } else {
        list.source().len() as u32
    }
}

/// The fault with its place.
pub fn fault_at(list: &TokenList, fault: Fault) -> ParseFault
    ensures { result ≡ fault_of list.now fault }
{
    match fault {
        Fault::Memory => ParseFault::NoMemory,
        Fault::Syntax(left) => ParseFault::Syntax {
            at: place(list, left),
        },
        Fault::Nesting(left) => ParseFault::Nesting {
            at: place(list, left),
        },
    }
}
