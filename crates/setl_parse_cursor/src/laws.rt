//! A law of the definitions, for those who build on them. The function does nothing: what it ensures is the law.

ghost use Rattle.std.specs.Prelude.{◌≡◌, ℕ, List};
ghost use Rattle.setl_token.specs.declared.TokenKind.TheVariants as kind;
ghost use Rattle.setl_token.specs.Form.{IsStringText};
ghost use Rattle.setl_parse_cursor.specs.Plain.{content_of};

/// A string token holds the bytes that it spells, each apostrophe once.
pub fn string_holds_its_body()
    ensures { (text behind : List ℕ) (s : IsStringText text behind) → content_of kind.Str text ≡ s.body }
{}
