//! Laws of the definitions, for those who build on them. The functions do nothing: what they ensure is the law.

ghost use Rattle.std.specs.Prelude.{◌≡◌, ◌<◌, ◌↔◌, ◌⊎◌, ℕ, IsTrue, List, ◌∷◌, ◌++◌, length, Ok, Err};
ghost use Rattle.setl_token.specs.declared.Token.{Token};
ghost use Rattle.setl_token.specs.declared.TokenKind.{TokenKind};
ghost use Rattle.setl_token.specs.declared.Cause.{Cause};
ghost use Rattle.setl_token.specs.declared.pieces.Piece.{Piece};
ghost use Rattle.setl_token.specs.declared.pieces.PieceKind.TheVariants as is;
ghost use Rattle.setl_token.specs.Bytes.{is_blank};
ghost use Rattle.setl_token.specs.Form.{IsForm, IsLongest, IsCause};
ghost use Rattle.setl_token.specs.Lex.{Spelled, LexFails};
ghost use Rattle.setl_token.specs.code.Pieces.{piece_at, piece};

/// A source is spelled of one list of tokens, or it has one first fault, and not both.
pub fn lexing_is_determined()
    ensures one_spelling { (source : List ℕ) (ts us : List Token)
        → Spelled source ts → Spelled source us → ts ≡ us }
    ensures either { (source : List ℕ)
        → ((ts : List Token) × Spelled source ts)
        ⊎ ((cause : Cause) × (place : ℕ) × LexFails source cause place) }
    ensures not_both { (source : List ℕ) (ts : List Token) (cause : Cause) (place : ℕ)
        → Spelled source ts → LexFails source cause place → ⊥ }
    ensures one_fault { (source : List ℕ) (c d : Cause) (i j : ℕ)
        → LexFails source c i → LexFails source d j → (c ≡ d) × (i ≡ j) }
{}

/// `piece_at` computes the longest piece that begins at the front of bytes, or the cause that stands there.
pub fn piece_at_is_longest()
    ensures longest { (z : List ℕ) (p : Piece) → 0 < length z → (piece_at z ≡ Ok p) ↔ IsLongest z p }
    ensures stands { (z : List ℕ) (c : Cause) → 0 < length z → (piece_at z ≡ Err c) ↔ IsCause c z }
{}

/// A text of a token's form is the longest piece at its place where a blank follows it.
pub fn blank_ends_token()
    ensures { (k : TokenKind) (text : List ℕ) (blank : ℕ) (rest : List ℕ)
        → IsForm (is.Token k) text (blank ∷ rest) → IsTrue (is_blank blank)
        → IsLongest (text ++ blank ∷ rest) (piece (is.Token k) (length text)) }
{}
