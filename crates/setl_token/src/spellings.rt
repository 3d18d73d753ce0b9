//! Reserved words and signs: the table of how each is spelled.

ghost use Rattle.std.specs.Prelude.{◌≡◌, ◌==◌, ◌&&◌, map, filter, length};
ghost use Rattle.std.specs.Str.{bytes_eq};
ghost use Rattle.setl_token.specs.Bytes.{lower};
ghost use Rattle.setl_token.specs.Spellings as spec;
ghost use Rattle.setl_token.specs.Spellings.{is_reserved, spellings, kind_in};

use setl_tree::Kind;

/// The reserved words and the signs, the shortest first.
const SPELLINGS: [(&str, Kind); 106] = [
    (";", Kind::Semicolon),
    (":", Kind::Colon),
    (",", Kind::Comma),
    ("(", Kind::LeftParen),
    (")", Kind::RightParen),
    ("{", Kind::LeftBrace),
    ("}", Kind::RightBrace),
    ("[", Kind::LeftBracket),
    ("]", Kind::RightBracket),
    ("|", Kind::Bar),
    ("=", Kind::Equal),
    ("<", Kind::LessThan),
    (">", Kind::GreaterThan),
    ("+", Kind::Plus),
    ("-", Kind::Minus),
    ("*", Kind::Star),
    ("/", Kind::Slash),
    ("#", Kind::Hash),
    ("if", Kind::If),
    ("in", Kind::In),
    ("ok", Kind::Ok),
    ("om", Kind::Om),
    ("or", Kind::Or),
    ("rd", Kind::Rd),
    ("rw", Kind::Rw),
    ("wr", Kind::Wr),
    (":=", Kind::Assign),
    ("..", Kind::Dots),
    ("/=", Kind::NotEqual),
    ("<=", Kind::AtMost),
    (">=", Kind::AtLeast),
    ("**", Kind::Power),
    ("abs", Kind::Abs),
    ("and", Kind::And),
    ("arb", Kind::Arb),
    ("div", Kind::Div),
    ("end", Kind::End),
    ("eof", Kind::Eof),
    ("for", Kind::For),
    ("int", Kind::Int),
    ("max", Kind::Max),
    ("min", Kind::Min),
    ("mod", Kind::Mod),
    ("not", Kind::Not),
    ("odd", Kind::Odd),
    ("pow", Kind::Pow),
    ("set", Kind::Set),
    ("str", Kind::Str),
    ("var", Kind::Var),
    ("atom", Kind::Atom),
    ("base", Kind::Base),
    ("elmt", Kind::Elmt),
    ("else", Kind::Else),
    ("even", Kind::Even),
    ("fail", Kind::Fail),
    ("from", Kind::From),
    ("impl", Kind::Impl),
    ("incs", Kind::Incs),
    ("less", Kind::Less),
    ("mmap", Kind::Mmap),
    ("npow", Kind::Npow),
    ("pass", Kind::Pass),
    ("proc", Kind::Proc),
    ("quit", Kind::Quit),
    ("read", Kind::Read),
    ("repr", Kind::Repr),
    ("smap", Kind::Smap),
    ("stop", Kind::Stop),
    ("then", Kind::Then),
    ("true", Kind::True),
    ("with", Kind::With),
    ("false", Kind::False),
    ("fromb", Kind::Fromb),
    ("frome", Kind::Frome),
    ("lessf", Kind::Lessf),
    ("local", Kind::Local),
    ("newat", Kind::Newat),
    ("notin", Kind::Notin),
    ("print", Kind::Print),
    ("range", Kind::Range),
    ("tuple", Kind::Tuple),
    ("while", Kind::While),
    ("domain", Kind::Domain),
    ("elseif", Kind::Elseif),
    ("exists", Kind::Exists),
    ("forall", Kind::Forall),
    ("is_map", Kind::IsMap),
    ("is_set", Kind::IsSet),
    ("remote", Kind::Remote),
    ("return", Kind::Return),
    ("sparse", Kind::Sparse),
    ("string", Kind::String),
    ("subset", Kind::Subset),
    ("boolean", Kind::Boolean),
    ("general", Kind::General),
    ("integer", Kind::Integer),
    ("is_atom", Kind::IsAtom),
    ("program", Kind::Program),
    ("succeed", Kind::Succeed),
    ("continue", Kind::Continue),
    ("is_tuple", Kind::IsTuple),
    ("is_string", Kind::IsString),
    ("notexists", Kind::Notexists),
    ("procedure", Kind::Procedure),
    ("is_boolean", Kind::IsBoolean),
    ("is_integer", Kind::IsInteger),
];

/// The reserved words and signs of so many bytes.
fn spellings_of_len(len: usize) -> &'static [(&'static str, Kind)]
    ensures { map (λ s. (s.0.now, s.1)) result.now ≡ filter (λ s. length s.0 == len) spellings }
{
    // Taken once: each mention of the constant is a table of its own to the prover.
    let all: &'static [(&'static str, Kind)] = &SPELLINGS;
    match len {
        1 => &all[0..18],
        2 => &all[18..32],
        3 => &all[32..49],
        4 => &all[49..71],
        5 => &all[71..82],
        6 => &all[82..93],
        7 => &all[93..99],
        8 => &all[99..101],
        9 => &all[101..104],
        10 => &all[104..106],
        _ => &[],
    }
}

/// Whether a text, with its upper case letters read as lower case, is this text.
pub(crate) fn reads_as(text: &[u8], word: &[u8]) -> bool
    ensures { result ≡ bytes_eq (lower text.now) word.now }
{
    if text.len() != word.len() {
        return false;
    }
    for i in 0..text.len() {
        if text[i].to_ascii_lowercase() != word[i] {
            return false;
        }
    }
    true
}

/// The kind of the reserved word or sign that a text is, whatever the case of its letters; `SourceEnd` if it is none.
pub fn spelled_kind(text: &[u8]) -> Kind
    ensures { result ≡ kind_in spellings (lower text.now) }
{
    for (word, kind) in spellings_of_len(text.len()) {
        if reads_as(text, word.as_bytes()) {
            return *kind;
        }
    }
    Kind::SourceEnd
}

/// The text that a kind is listed with, or nothing.
fn text_in(all: &[(&'static str, Kind)], kind: Kind) -> &'static str
    ensures { result.now ≡ spec.text_in (map (λ s. (s.0.now, s.1)) all.now) kind }
{
    for (text, listed) in all {
        if *listed == kind {
            return text;
        }
    }
    ""
}

/// How a kind is spelled: a reserved word in lower case, or a sign; nothing for the kinds that have no one spelling.
#[tactic(auto, unfolding(crate::specs::Spellings::spelling, crate::specs::Spellings::spellings))]
pub fn spelling(kind: Kind) -> &'static str
    ensures { result.now ≡ spec.spelling kind }
{
    text_in(&SPELLINGS, kind)
}
