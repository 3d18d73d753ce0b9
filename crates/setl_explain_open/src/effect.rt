//! What a token does to the constructs that are open.
ghost use Rattle.std.specs.Prelude.{◌≡◌};
ghost use Rattle.setl_explain_open.specs.Effects as spec;

use setl_tree::Kind;

/// What a token does to the constructs that are open.
#[derive(Clone, Copy)]
pub enum Effect {
    /// It opens one, inside the others.
    Opens,
    /// It opens one around the bracket before it, as `for` does behind `(`.
    OpensAround,
    /// It closes the innermost, as a bracket does.
    Closes,
    /// Neither.
    None,
}

/// What a token of a kind does that doesn't stand behind `end`.
fn effect_of(kind: Kind) -> Effect
    ensures { result ≡ spec.effect_of kind }
{
    match kind {
        Kind::LeftParen | Kind::LeftBrace | Kind::LeftBracket => Effect::Opens,
        Kind::Program | Kind::Proc | Kind::Procedure | Kind::Repr | Kind::If => Effect::Opens,
        Kind::For | Kind::While => Effect::OpensAround,
        Kind::RightParen | Kind::RightBrace | Kind::RightBracket => Effect::Closes,
        _ => Effect::None,
    }
}

/// Whether a kind is a word that may stand behind `end`.
fn names_end(kind: Kind) -> bool
    ensures { result ≡ spec.names_end kind }
{
    matches!(
        kind,
        Kind::Program
            | Kind::Proc
            | Kind::Procedure
            | Kind::Repr
            | Kind::If
            | Kind::For
            | Kind::While
    )
}

/// What a token of a kind does, behind `end` or not.
pub fn effect_behind(ended: bool, kind: Kind) -> Effect
    ensures { result ≡ spec.effect_behind ended kind }
{
    if ended && names_end(kind) {
        Effect::None
    } else {
        effect_of(kind)
    }
}
