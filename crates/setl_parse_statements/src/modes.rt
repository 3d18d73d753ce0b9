//! `repr` sections.

ghost use Rattle.std.specs.Prelude.{◌≡◌};
ghost use Rattle.setl_tree.specs.declared.kind.Kind.TheVariants as k;
ghost use Rattle.setl_tree.specs.Modes as grammar;
ghost use Rattle.setl_parse_reading.specs.code.Reading.{Reads};
ghost use Rattle.setl_parse_reading.specs.code.ReadModes as spec;
ghost use Rattle.setl_parse_reading.specs.code.ReadModes.{nested_mode};
ghost use Rattle.setl_parse_statements.specs.code.Nests.{NestsModes};

use crate::statements::ended;
use setl_parse_cursor::{
    Cursor, Repeated, Rule, beside, enclosed, followed, many, optional, same_kind, separated,
    with_optional,
};
use setl_parse_reading::Fault;
use setl_tree::{Attribute, Boxed, Core, Declared, Items, Kind, ReprLine, WrittenMode};

/// The word before a `set`, `smap` or `mmap`.
#[tactic(auto, unfolding(setl_tree::specs::Modes::attribute))]
fn attribute(kind: Kind) -> Option<Attribute>
    ensures { result ≡ grammar.attribute kind }
{
    match kind {
        Kind::Local => Some(Attribute::Local),
        Kind::Remote => Some(Attribute::Remote),
        Kind::Sparse => Some(Attribute::Sparse),
        _ => None,
    }
}

/// A mode of one word.
#[tactic(auto, unfolding(setl_tree::specs::Modes::simple_core))]
fn simple_core(kind: Kind) -> Option<Core>
    ensures { result ≡ grammar.simple_core kind }
{
    match kind {
        Kind::General => Some(Core::General),
        Kind::Int => Some(Core::Int),
        Kind::Integer => Some(Core::Int),
        Kind::String => Some(Core::Str),
        Kind::Boolean => Some(Core::Boolean),
        Kind::Atom => Some(Core::Atom),
        _ => None,
    }
}

/// The tokens that begin a line.
#[tactic(auto, unfolding(setl_parse_reading::specs::code::ReadModes::begins_line))]
fn begins_line(kind: Kind) -> bool
    ensures { result ≡ spec.begins_line kind }
{
    match kind {
        Kind::Base => true,
        Kind::Name => true,
        _ => false,
    }
}

/// A name in a declaration.
pub struct DeclaredRule;

impl Rule for DeclaredRule {
    type Out = Declared;

    ghost use Rattle.setl_parse_reading.specs.code.ReadModes.{declared};

    ghost can_read = { λ s. Unit {0} };

    ghost reader = { λ s. declared };

    #[tactic(auto, unfolding(setl_parse_reading::specs::code::ReadModes::declared))]
    fn read(&self, tokens: &mut Cursor<'_>) -> Result<Declared, Fault> {
        let line = tokens.line();
        let name = tokens.text()?;
        tokens.expect(Kind::Name)?;
        Ok(Declared { line, name })
    }
}

/// The word before a mode.
struct AttributeRule;

impl Rule for AttributeRule {
    type Out = Attribute;

    ghost use Rattle.setl_tree.specs.Modes.{attribute};
    ghost use Rattle.setl_parse_reading.specs.code.Reading.{one_of};

    ghost can_read = { λ s. Unit {0} };

    ghost reader = { λ s. one_of attribute };

    #[tactic(auto, unfolding(setl_parse_reading::specs::code::Reading::one_of))]
    fn read(&self, tokens: &mut Cursor<'_>) -> Result<Attribute, Fault> {
        let Some(word) = attribute(tokens.kind()) else {
            return Err(tokens.refuse());
        };
        tokens.pass();
        Ok(word)
    }
}

impl Repeated for AttributeRule {
    ghost use Rattle.setl_tree.specs.Modes.{attribute};
    ghost use Rattle.setl_parse_reading.specs.code.Reading.{begins_as};

    ghost begins_with = { λ s. begins_as attribute };

    fn begins(&self, kind: Kind) -> bool {
        attribute(kind).is_some()
    }
}

/// `elmt base`
#[tactic(auto, unfolding(setl_parse_reading::specs::code::ReadModes::element, setl_parse_reading::specs::code::Reading::name))]
fn element(tokens: &mut Cursor<'_>) -> Result<Core, Fault>
    ensures { Reads (spec.element tokens.old) result tokens.new }
{
    let line = tokens.line();
    tokens.expect(Kind::Elmt)?;
    let base = tokens.name()?;
    Ok(Core::Elmt(line, base))
}

/// The rules of modes where so many nestings may still open. Each takes the modes that stand one nesting deeper from
/// `deep`, and is so proved by itself.
#[derive(Drop)]
struct Modes<H> {
    room: usize,
    deep: H,
}

/// A mode one nesting deeper, in a box.
#[derive(Drop)]
struct DeepMode<'m, H> {
    modes: &'m Modes<H>,
}

impl<'m, H: Fn(&mut Cursor<'_>, usize) -> Result<WrittenMode, Fault>> Rule for DeepMode<'m, H> {
    type Out = Boxed<WrittenMode>;

    ghost use Rattle.setl_parse_reading.specs.code.ReadModes.{nested_mode};
    ghost use Rattle.setl_parse_statements.specs.code.Nests.{NestsModes};

    ghost can_read = { λ s. NestsModes s.modes.now.room (H.pre s.modes.now.deep) (H.post s.modes.now.deep) };

    ghost reader = { λ s. nested_mode s.modes.now.room };

    fn read(&self, tokens: &mut Cursor<'_>) -> Result<Boxed<WrittenMode>, Fault> {
        let mode = (self.modes.deep)(tokens, self.modes.room)?;
        Ok(Boxed::new(tokens.alloc(), mode)?)
    }
}

impl<H: Fn(&mut Cursor<'_>, usize) -> Result<WrittenMode, Fault>> Modes<H> {
    /// A mode in brackets.
    #[tactic(auto, unfolding(setl_parse_reading::specs::code::ReadModes::round_mode))]
    fn round_mode(&self, tokens: &mut Cursor<'_>) -> Result<Boxed<WrittenMode>, Fault>
        requires { NestsModes self.now.room (H.pre self.now.deep) (H.post self.now.deep) }
        ensures { Reads (spec.round_mode self.now.room (nested_mode self.now.room) tokens.old) result tokens.new }
    {
        let mode = DeepMode { modes: self };
        enclosed(self.room, Kind::LeftParen, &mode, Kind::RightParen, tokens)
    }

    /// A mode in brackets.
    #[tactic(auto, unfolding(setl_parse_reading::specs::code::ReadModes::braced_mode))]
    fn braced_mode(&self, tokens: &mut Cursor<'_>) -> Result<Boxed<WrittenMode>, Fault>
        requires { NestsModes self.now.room (H.pre self.now.deep) (H.post self.now.deep) }
        ensures { Reads (spec.braced_mode self.now.room (nested_mode self.now.room) tokens.old) result tokens.new }
    {
        let mode = DeepMode { modes: self };
        enclosed(self.room, Kind::LeftBrace, &mode, Kind::RightBrace, tokens)
    }

    /// A single-valued map.
    fn smap(&self, tokens: &mut Cursor<'_>) -> Result<Core, Fault>
        requires { NestsModes self.now.room (H.pre self.now.deep) (H.post self.now.deep) }
        ensures { Reads (spec.core_by self.now.room (nested_mode self.now.room) k.Smap tokens.old) result tokens.new }
    {
        tokens.expect(Kind::Smap)?;
        let domain = self.round_mode(tokens)?;
        let (domain, range) = beside(domain, &DeepMode { modes: self }, tokens)?;
        Ok(Core::Smap(domain, range))
    }

    /// A multi-valued map.
    fn mmap(&self, tokens: &mut Cursor<'_>) -> Result<Core, Fault>
        requires { NestsModes self.now.room (H.pre self.now.deep) (H.post self.now.deep) }
        ensures { Reads (spec.core_by self.now.room (nested_mode self.now.room) k.Mmap tokens.old) result tokens.new }
    {
        tokens.expect(Kind::Mmap)?;
        let domain = self.braced_mode(tokens)?;
        let (domain, range) = beside(domain, &DeepMode { modes: self }, tokens)?;
        Ok(Core::Mmap(domain, range))
    }

    /// A set.
    fn set(&self, tokens: &mut Cursor<'_>) -> Result<Core, Fault>
        requires { NestsModes self.now.room (H.pre self.now.deep) (H.post self.now.deep) }
        ensures { Reads (spec.core_by self.now.room (nested_mode self.now.room) k.Set tokens.old) result tokens.new }
    {
        tokens.expect(Kind::Set)?;
        Ok(Core::Set(self.round_mode(tokens)?))
    }

    /// A tuple.
    fn tuple(&self, tokens: &mut Cursor<'_>) -> Result<Core, Fault>
        requires { NestsModes self.now.room (H.pre self.now.deep) (H.post self.now.deep) }
        ensures { Reads (spec.core_by self.now.room (nested_mode self.now.room) k.Tuple tokens.old) result tokens.new }
    {
        tokens.expect(Kind::Tuple)?;
        Ok(Core::Tuple(self.round_mode(tokens)?))
    }

    /// A mode without its attribute.
    #[tactic(auto, unfolding(setl_parse_reading::specs::code::ReadModes::core, setl_parse_reading::specs::code::Reading::one_of))]
    fn core(&self, tokens: &mut Cursor<'_>) -> Result<Core, Fault>
        requires { NestsModes self.now.room (H.pre self.now.deep) (H.post self.now.deep) }
        ensures { Reads (spec.core self.now.room (nested_mode self.now.room) tokens.old) result tokens.new }
    {
        match tokens.kind() {
            Kind::Elmt => element(tokens),
            Kind::Set => self.set(tokens),
            Kind::Tuple => self.tuple(tokens),
            Kind::Smap => self.smap(tokens),
            Kind::Mmap => self.mmap(tokens),
            kind => {
                let Some(word) = simple_core(kind) else {
                    return Err(tokens.refuse());
                };
                tokens.pass();
                Ok(word)
            }
        }
    }

    /// A mode.
    #[tactic(auto, unfolding(setl_parse_reading::specs::code::ReadModes::mode_in, setl_parse_reading::specs::code::ReadModes::with_attribute))]
    fn mode(&self, tokens: &mut Cursor<'_>) -> Result<WrittenMode, Fault>
        requires { NestsModes self.now.room (H.pre self.now.deep) (H.post self.now.deep) }
        ensures { Reads (spec.mode_in self.now.room (nested_mode self.now.room) tokens.old) result tokens.new }
    {
        let line = tokens.line();
        let attribute = optional(&AttributeRule, tokens)?;
        let core = self.core(tokens)?;
        Ok(WrittenMode {
            line,
            attribute,
            core,
        })
    }
}

/// A mode where so many nestings may still open around it.
fn nested(tokens: &mut Cursor<'_>, room: usize) -> Result<WrittenMode, Fault>
    ensures { Reads (nested_mode room tokens.old) result tokens.new }
{
    if room == 0 {
        return Err(tokens.refuse());
    }
    Modes {
        room: room - 1,
        deep: nested,
    }
    .mode(tokens)
}

/// A mode with at most so many nestings inside one another.
#[tactic(auto, unfolding(setl_parse_reading::specs::code::ReadModes::mode))]
fn mode(room: usize, tokens: &mut Cursor<'_>) -> Result<WrittenMode, Fault>
    ensures { Reads (spec.mode room tokens.old) result tokens.new }
{
    Modes { room, deep: nested }.mode(tokens)
}

/// A colon and a mode.
#[derive(Drop)]
struct ColonMode {
    room: usize,
}

impl Rule for ColonMode {
    type Out = WrittenMode;

    ghost use Rattle.setl_parse_reading.specs.code.ReadModes.{colon_mode};

    ghost can_read = { λ s. Unit {0} };

    ghost reader = { λ s. colon_mode s.room };

    #[tactic(auto, unfolding(setl_parse_reading::specs::code::ReadModes::colon_mode))]
    fn read(&self, tokens: &mut Cursor<'_>) -> Result<WrittenMode, Fault> {
        tokens.expect(Kind::Colon)?;
        mode(self.room, tokens)
    }
}

impl Repeated for ColonMode {
    ghost use Rattle.setl_tree.specs.declared.kind.Kind.TheVariants as k;
    ghost use Rattle.setl_parse_reading.specs.code.Reading.{is};

    ghost begins_with = { λ s. is k.Colon };

    fn begins(&self, kind: Kind) -> bool {
        same_kind(kind, Kind::Colon)
    }
}

/// `base name, .. : mode;`
#[tactic(auto, unfolding(setl_parse_reading::specs::code::ReadModes::base_line))]
fn base_line(room: usize, tokens: &mut Cursor<'_>) -> Result<ReprLine, Fault>
    ensures { Reads (spec.base_line room tokens.old) result tokens.new }
{
    let line = tokens.line();
    tokens.expect(Kind::Base)?;
    let names = separated(&DeclaredRule, tokens)?;
    let both = with_optional(names, &ColonMode { room }, tokens)?;
    let (names, mode) = followed(both, Kind::Semicolon, tokens)?;
    Ok(ReprLine::Base(line, names, mode))
}

/// `name, .. : mode;`
#[tactic(auto, unfolding(setl_parse_reading::specs::code::ReadModes::variables_line))]
fn variables_line(room: usize, tokens: &mut Cursor<'_>) -> Result<ReprLine, Fault>
    ensures { Reads (spec.variables_line room tokens.old) result tokens.new }
{
    let line = tokens.line();
    let names = separated(&DeclaredRule, tokens)?;
    let both = beside(names, &ColonMode { room }, tokens)?;
    let (names, mode) = followed(both, Kind::Semicolon, tokens)?;
    Ok(ReprLine::Variables(line, names, mode))
}

/// A line of a `repr` section.
#[derive(Drop)]
struct LineRule {
    room: usize,
}

impl Rule for LineRule {
    type Out = ReprLine;

    ghost use Rattle.setl_parse_reading.specs.code.ReadModes.{repr_line};

    ghost can_read = { λ s. Unit {0} };

    ghost reader = { λ s. repr_line s.room };

    #[tactic(auto, unfolding(setl_parse_reading::specs::code::ReadModes::repr_line))]
    fn read(&self, tokens: &mut Cursor<'_>) -> Result<ReprLine, Fault> {
        if same_kind(tokens.kind(), Kind::Base) {
            return base_line(self.room, tokens);
        }
        variables_line(self.room, tokens)
    }
}

impl Repeated for LineRule {
    ghost use Rattle.setl_parse_reading.specs.code.ReadModes.{begins_line};

    ghost begins_with = { λ s. begins_line };

    fn begins(&self, kind: Kind) -> bool {
        begins_line(kind)
    }
}

/// A `repr` section.
#[derive(Drop)]
pub struct ReprRule {
    pub room: usize,
}

impl Rule for ReprRule {
    type Out = Items<ReprLine>;

    ghost use Rattle.setl_parse_reading.specs.code.ReadModes.{repr};

    ghost can_read = { λ s. Unit {0} };

    ghost reader = { λ s. repr s.room };

    #[tactic(auto, unfolding(setl_parse_reading::specs::code::ReadModes::repr))]
    fn read(&self, tokens: &mut Cursor<'_>) -> Result<Items<ReprLine>, Fault> {
        tokens.expect(Kind::Repr)?;
        let lines = many(&LineRule { room: self.room }, tokens)?;
        ended(lines, Kind::Repr, tokens)
    }
}

impl Repeated for ReprRule {
    ghost use Rattle.setl_tree.specs.declared.kind.Kind.TheVariants as k;
    ghost use Rattle.setl_parse_reading.specs.code.Reading.{is};

    ghost begins_with = { λ s. is k.Repr };

    fn begins(&self, kind: Kind) -> bool {
        same_kind(kind, Kind::Repr)
    }
}
