//! Statements that hold statements.

ghost use Rattle.std.specs.Prelude.{◌≡◌};
ghost use Rattle.setl_parse_reading.specs.code.Reading.{Reads};
ghost use Rattle.setl_parse_reading.specs.code.ReadStatements as spec;
ghost use Rattle.setl_parse_reading.specs.code.ReadStatements.{nested_stmts};
ghost use Rattle.setl_parse_statements.specs.code.Nests.{NestsStmts};
ghost use Rattle.setl_parse_statements.specs.code.Parts as parts;

use crate::made::{branch, conditional, for_loop, stmt, while_loop};
use crate::statements::{
    behind_name, ended, print_stmt, read_stmt, return_stmt, simple_stmt, tuple_assign,
};
use setl_parse_cursor::{
    Cursor, Repeated, Rule, followed, held, many_boxed, same_kind, with_many_boxed, with_optional,
};
use setl_parse_expressions::{Condition, iters, nested_expr};
use setl_parse_reading::Fault;
use setl_tree::{Boxed, Branch, Expr, Items, Iter, Kind, Stmt, StmtKind};

/// The rules of statements where so many nestings may still open. Each takes the statements that stand one nesting
/// deeper from `deep`, and is so proved by itself.
#[derive(Drop)]
pub struct Statements<G> {
    pub room: usize,
    pub deep: G,
}

#[tactic(auto, unfolding(setl_parse_reading::specs::code::ReadStatements::begins_stmt))]
fn begins_stmt(kind: Kind) -> bool
    ensures { result ≡ spec.begins_stmt kind }
{
    matches!(
        kind,
        Kind::Name
            | Kind::LeftBracket
            | Kind::If
            | Kind::LeftParen
            | Kind::Quit
            | Kind::Continue
            | Kind::Fail
            | Kind::Succeed
            | Kind::Stop
            | Kind::Pass
            | Kind::Return
            | Kind::Print
            | Kind::Read
    )
}

/// An `elseif` branch.
#[derive(Drop)]
struct ElseifRule<'s, G> {
    statements: &'s Statements<G>,
}

impl<'s, G: Fn(&mut Cursor<'_>, usize) -> Result<Items<Stmt>, Fault>> Rule for ElseifRule<'s, G> {
    type Out = Boxed<Branch>;

    ghost use Rattle.setl_tree.specs.declared.kind.Kind.TheVariants as k;
    ghost use Rattle.setl_parse_reading.specs.code.Reading.{expect, ◌>>◌};
    ghost use Rattle.setl_parse_reading.specs.code.ReadStatements.{nested_stmts, branch};
    ghost use Rattle.setl_parse_statements.specs.code.Nests.{NestsStmts};

    ghost can_read = { λ s. NestsStmts s.statements.now.room (G.pre s.statements.now.deep) (G.post s.statements.now.deep) };

    ghost reader = { λ s. expect k.Elseif >> branch s.statements.now.room (nested_stmts s.statements.now.room) };

    fn read(&self, tokens: &mut Cursor<'_>) -> Result<Boxed<Branch>, Fault> {
        tokens.expect(Kind::Elseif)?;
        self.statements.branch(tokens)
    }
}

impl<'s, G: Fn(&mut Cursor<'_>, usize) -> Result<Items<Stmt>, Fault>> Repeated
    for ElseifRule<'s, G> {
    ghost use Rattle.setl_tree.specs.declared.kind.Kind.TheVariants as k;
    ghost use Rattle.setl_parse_reading.specs.code.Reading.{is};

    ghost begins_with = { λ s. is k.Elseif };

    fn begins(&self, kind: Kind) -> bool {
        same_kind(kind, Kind::Elseif)
    }
}

/// The statements behind `else`.
#[derive(Drop)]
struct ElseRule<'s, G> {
    statements: &'s Statements<G>,
}

impl<'s, G: Fn(&mut Cursor<'_>, usize) -> Result<Items<Stmt>, Fault>> Rule for ElseRule<'s, G> {
    type Out = Items<Stmt>;

    ghost use Rattle.setl_tree.specs.declared.kind.Kind.TheVariants as k;
    ghost use Rattle.setl_parse_reading.specs.code.Reading.{expect, ◌>>◌};
    ghost use Rattle.setl_parse_reading.specs.code.ReadStatements.{nested_stmts};
    ghost use Rattle.setl_parse_statements.specs.code.Nests.{NestsStmts};

    ghost can_read = { λ s. NestsStmts s.statements.now.room (G.pre s.statements.now.deep) (G.post s.statements.now.deep) };

    ghost reader = { λ s. expect k.Else >> nested_stmts s.statements.now.room };

    fn read(&self, tokens: &mut Cursor<'_>) -> Result<Items<Stmt>, Fault> {
        tokens.expect(Kind::Else)?;
        self.statements.deeper(tokens)
    }
}

impl<'s, G: Fn(&mut Cursor<'_>, usize) -> Result<Items<Stmt>, Fault>> Repeated for ElseRule<'s, G> {
    ghost use Rattle.setl_tree.specs.declared.kind.Kind.TheVariants as k;
    ghost use Rattle.setl_parse_reading.specs.code.Reading.{is};

    ghost begins_with = { λ s. is k.Else };

    fn begins(&self, kind: Kind) -> bool {
        same_kind(kind, Kind::Else)
    }
}

/// A statement.
#[derive(Drop)]
struct StmtRule<'s, G> {
    statements: &'s Statements<G>,
}

impl<'s, G: Fn(&mut Cursor<'_>, usize) -> Result<Items<Stmt>, Fault>> Rule for StmtRule<'s, G> {
    type Out = Boxed<Stmt>;

    ghost use Rattle.setl_tree.specs.declared.kind.Kind.TheVariants as k;
    ghost use Rattle.setl_parse_reading.specs.code.Reading.{is};
    ghost use Rattle.setl_parse_reading.specs.code.ReadStatements.{nested_stmts, stmt};
    ghost use Rattle.setl_parse_statements.specs.code.Nests.{NestsStmts};

    ghost can_read = { λ s. NestsStmts s.statements.now.room (G.pre s.statements.now.deep) (G.post s.statements.now.deep) };

    ghost reader = { λ s. stmt s.statements.now.room (nested_stmts s.statements.now.room) };

    #[tactic(auto, unfolding(setl_parse_reading::specs::code::ReadStatements::stmt))]
    fn read(&self, tokens: &mut Cursor<'_>) -> Result<Boxed<Stmt>, Fault> {
        let line = tokens.line();
        let kind = self.statements.stmt_kind(tokens)?;
        stmt(tokens.alloc(), line, kind)
    }
}

impl<'s, G: Fn(&mut Cursor<'_>, usize) -> Result<Items<Stmt>, Fault>> Repeated for StmtRule<'s, G> {
    ghost use Rattle.setl_parse_reading.specs.code.ReadStatements.{begins_stmt};

    ghost begins_with = { λ s. begins_stmt };

    fn begins(&self, kind: Kind) -> bool {
        begins_stmt(kind)
    }
}

/// The iterators of a loop, and its condition, behind `(`.
#[inline(never)]
fn for_head(
    room: usize,
    tokens: &mut Cursor<'_>,
) -> Result<(Items<Iter>, Option<Boxed<Expr>>), Fault>
    ensures { Reads (parts.for_head room tokens.old) result tokens.new }
{
    tokens.expect(Kind::For)?;
    let over = iters(room, tokens)?;
    let head = with_optional(over, &Condition { room }, tokens)?;
    followed(head, Kind::RightParen, tokens)
}

impl<G: Fn(&mut Cursor<'_>, usize) -> Result<Items<Stmt>, Fault>> Statements<G> {
    /// Statements one nesting deeper.
    fn deeper(&self, tokens: &mut Cursor<'_>) -> Result<Items<Stmt>, Fault>
        requires { NestsStmts self.now.room (G.pre self.now.deep) (G.post self.now.deep) }
        ensures { Reads (nested_stmts self.now.room tokens.old) result tokens.new }
    {
        (self.deep)(tokens, self.room)
    }

    /// What was read, and the statements that it guards.
    fn guarding<T: Drop>(&self, head: T, tokens: &mut Cursor<'_>) -> Result<(T, Items<Stmt>), Fault>
        requires { NestsStmts self.now.room (G.pre self.now.deep) (G.post self.now.deep) }
        ensures { Reads (parts.guarding head (nested_stmts self.now.room) tokens.old) result tokens.new }
    {
        Ok(held(head, self.deeper(tokens))?)
    }

    /// The head of a loop, and its statements up to its end.
    fn looping<T: Drop>(
        &self,
        head: T,
        word: Kind,
        tokens: &mut Cursor<'_>,
    ) -> Result<(T, Items<Stmt>), Fault>
        requires { NestsStmts self.now.room (G.pre self.now.deep) (G.post self.now.deep) }
        ensures { Reads (parts.looping head word (nested_stmts self.now.room) tokens.old) result tokens.new }
    {
        let both = self.guarding(head, tokens)?;
        ended(both, word, tokens)
    }

    /// A condition with the statements that it guards.
    #[tactic(auto, unfolding(setl_parse_reading::specs::code::ReadStatements::branch))]
    fn branch(&self, tokens: &mut Cursor<'_>) -> Result<Boxed<Branch>, Fault>
        requires { NestsStmts self.now.room (G.pre self.now.deep) (G.post self.now.deep) }
        ensures { Reads (spec.branch self.now.room (nested_stmts self.now.room) tokens.old) result tokens.new }
    {
        let condition = followed(nested_expr(self.room, tokens)?, Kind::Then, tokens)?;
        let (condition, body) = self.guarding(condition, tokens)?;
        branch(tokens.alloc(), condition, body)
    }

    /// The first branch of a conditional statement, and what stands behind it.
    #[tactic(auto, unfolding(setl_parse_reading::specs::code::ReadStatements::elseifs, setl_parse_reading::specs::code::ReadStatements::else_part))]
    fn branching<T: Drop>(
        &self,
        first: T,
        tokens: &mut Cursor<'_>,
    ) -> Result<(T, Items<Branch>, Option<Items<Stmt>>), Fault>
        requires { NestsStmts self.now.room (G.pre self.now.deep) (G.post self.now.deep) }
        ensures { Reads (parts.branching first self.now.room (nested_stmts self.now.room) tokens.old) result tokens.new }
    {
        let front = with_many_boxed(first, &ElseifRule { statements: self }, tokens)?;
        let all = with_optional(front, &ElseRule { statements: self }, tokens)?;
        let ((first, others), last) = ended(all, Kind::If, tokens)?;
        Ok((first, others, last))
    }

    /// A conditional statement.
    #[tactic(auto, unfolding(setl_parse_reading::specs::code::ReadStatements::if_stmt))]
    fn if_stmt(&self, tokens: &mut Cursor<'_>) -> Result<Boxed<StmtKind>, Fault>
        requires { NestsStmts self.now.room (G.pre self.now.deep) (G.post self.now.deep) }
        ensures { Reads (spec.if_stmt self.now.room (nested_stmts self.now.room) tokens.old) result tokens.new }
    {
        tokens.open(self.room, Kind::If)?;
        let first = self.branch(tokens)?;
        let (first, others, last) = self.branching(first, tokens)?;
        conditional(tokens.alloc(), first, others, last)
    }

    /// A loop over iterators behind `(`.
    #[tactic(auto, unfolding(setl_parse_reading::specs::code::ReadStatements::for_loop))]
    fn for_loop(&self, tokens: &mut Cursor<'_>) -> Result<Boxed<StmtKind>, Fault>
        requires { NestsStmts self.now.room (G.pre self.now.deep) (G.post self.now.deep) }
        ensures { Reads (spec.for_loop self.now.room (nested_stmts self.now.room) tokens.old) result tokens.new }
    {
        let head = for_head(self.room, tokens)?;
        let (head, body) = self.looping(head, Kind::For, tokens)?;
        for_loop(tokens.alloc(), head.0, head.1, body)
    }

    /// A loop under a condition behind `(`.
    #[tactic(auto, unfolding(setl_parse_reading::specs::code::ReadStatements::while_loop))]
    fn while_loop(&self, tokens: &mut Cursor<'_>) -> Result<Boxed<StmtKind>, Fault>
        requires { NestsStmts self.now.room (G.pre self.now.deep) (G.post self.now.deep) }
        ensures { Reads (spec.while_loop self.now.room (nested_stmts self.now.room) tokens.old) result tokens.new }
    {
        tokens.expect(Kind::While)?;
        let condition = followed(nested_expr(self.room, tokens)?, Kind::RightParen, tokens)?;
        let (condition, body) = self.looping(condition, Kind::While, tokens)?;
        while_loop(tokens.alloc(), condition, body)
    }

    /// A loop.
    #[tactic(auto, unfolding(setl_parse_reading::specs::code::ReadStatements::for_or_while))]
    fn loop_stmt(&self, tokens: &mut Cursor<'_>) -> Result<Boxed<StmtKind>, Fault>
        requires { NestsStmts self.now.room (G.pre self.now.deep) (G.post self.now.deep) }
        ensures { Reads (spec.loop self.now.room (nested_stmts self.now.room) tokens.old) result tokens.new }
    {
        tokens.open(self.room, Kind::LeftParen)?;
        if same_kind(tokens.kind(), Kind::For) {
            return self.for_loop(tokens);
        }
        self.while_loop(tokens)
    }

    /// A statement without its line.
    #[tactic(auto, unfolding(setl_parse_reading::specs::code::ReadStatements::stmt_kind))]
    fn stmt_kind(&self, tokens: &mut Cursor<'_>) -> Result<Boxed<StmtKind>, Fault>
        requires { NestsStmts self.now.room (G.pre self.now.deep) (G.post self.now.deep) }
        ensures { Reads (spec.stmt_kind self.now.room (nested_stmts self.now.room) tokens.old) result tokens.new }
    {
        match tokens.kind() {
            Kind::Name => {
                let name = tokens.name()?;
                behind_name(self.room, name, tokens)
            }
            Kind::LeftBracket => tuple_assign(self.room, tokens),
            Kind::If => self.if_stmt(tokens),
            Kind::LeftParen => self.loop_stmt(tokens),
            Kind::Return => return_stmt(self.room, tokens),
            Kind::Print => print_stmt(self.room, tokens),
            Kind::Read => read_stmt(self.room, tokens),
            _ => simple_stmt(self.room, tokens),
        }
    }

    /// Statements.
    #[tactic(auto, unfolding(setl_parse_reading::specs::code::ReadStatements::stmts))]
    pub fn all(&self, tokens: &mut Cursor<'_>) -> Result<Items<Stmt>, Fault>
        requires { NestsStmts self.now.room (G.pre self.now.deep) (G.post self.now.deep) }
        ensures { Reads (spec.stmts self.now.room tokens.old) result tokens.new }
    {
        many_boxed(&StmtRule { statements: self }, tokens)
    }
}

/// Statements where so many nestings may still open around them.
fn nested(tokens: &mut Cursor<'_>, room: usize) -> Result<Items<Stmt>, Fault>
    ensures { Reads (nested_stmts room tokens.old) result tokens.new }
{
    if room == 0 {
        return Err(tokens.refuse());
    }
    Statements {
        room: room - 1,
        deep: nested,
    }
    .all(tokens)
}

/// Statements with at most so many nestings inside one another.
pub fn stmts(room: usize, tokens: &mut Cursor<'_>) -> Result<Items<Stmt>, Fault>
    ensures { Reads (spec.stmts room tokens.old) result tokens.new }
{
    Statements { room, deep: nested }.all(tokens)
}
