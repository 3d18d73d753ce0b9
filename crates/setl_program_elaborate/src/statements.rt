//! What statements become.

ghost use Rattle.std.specs.Prelude.{◌≡◌, map, option_map, IfOk};
ghost use Rattle.setl_program.specs.Expressions as terms;
ghost use Rattle.setl_program.specs.Expressions.{part_of, turn_of, behind_of};
ghost use Rattle.setl_program.specs.code.Plain.{plain_expr, plain_selector, plain_place, plain_kind, plain_stmt, plain_branch};
ghost use Rattle.setl_program.specs.Statements as spec;
ghost use Rattle.setl_program.specs.Statements.{kind_of, branch_of, lined};
ghost use Rattle.setl_program_elaborate.specs.Elaborators.{does, assigned};

use crate::elaborator::Elaborator;
use crate::makers::put;
use crate::{makers, operators};
use setl_program::{Branch, Expr, Place, Selector, Stmt, StmtKind};
use setl_program_scope::beside;
use setl_tree::{
    BinaryOp, Boxed, Branch as TreeBranch, Expr as TreeExpr, FromEnd, Items, Iter,
    Place as TreePlace, Selector as TreeSelector, Slot, Stmt as TreeStmt, StmtKind as TreeKind,
    Text,
};
use std::alloc::AllocError;

impl Elaborator<'_> {
    /// What a selector of a place becomes. An error is want of memory.
    fn selector(&mut self, selector: &TreeSelector) -> Result<Selector, AllocError>
        ensures { IfOk result (λ x. (plain_selector x, self.new) ≡ does (behind_of selector.now).selector self.old) }
    {
        match selector {
            TreeSelector::Round(xs) => {
                let list = self.listed(xs.as_slice())?;
                Ok(Selector::Round(list.into_inner()))
            }
            TreeSelector::Slice(a, _) => {
                let first = self.expr(a.get())?;
                Ok(Selector::Round(first.into_inner()))
            }
            TreeSelector::Braces(xs) => {
                let list = self.listed(xs.as_slice())?;
                Ok(Selector::Brace(list.into_inner()))
            }
        }
    }

    /// What the selectors of a place become. An error is want of memory.
    fn selectors(&mut self, selectors: &[TreeSelector]) -> Result<Items<Selector>, AllocError>
        ensures { IfOk result (λ all. (map plain_selector all, self.new) ≡ does (spec.selectors (map behind_of selectors.now)) self.old) }
    {
        let mut all = Items::new(self.alloc);
        for selector in selectors {
            put(&mut all, self.selector(selector))?;
        }
        Ok(all)
    }

    /// What a place becomes. An error is want of memory.
    #[inline(never)]
    fn place(&mut self, place: &TreePlace) -> Result<Place, AllocError>
        ensures { IfOk result (λ p. (plain_place p, self.new) ≡ does (spec.place place.now) self.old) }
    {
        let selectors = self.selectors(place.selectors.as_slice())?;
        let (selectors, variable) = beside(selectors, self.scope.variable(&place.name))?;
        Ok(Place {
            variable,
            selectors,
        })
    }

    /// What an assignment becomes, or an update by an operator. An error is want of memory.
    #[inline(never)]
    fn assignment(
        &mut self,
        place: &TreePlace,
        op: Option<BinaryOp>,
        value: &TreeExpr,
    ) -> Result<Boxed<StmtKind>, AllocError>
        ensures { IfOk result (λ x. (plain_kind x, self.new) ≡ does (assigned op place.now (part_of value.now)) self.old) }
    {
        let place = self.place(place)?;
        let (place, value) = beside(place, self.expr(value))?;
        let value = value.into_inner();
        match op {
            None => Boxed::new(self.alloc, StmtKind::Assign(place, value)),
            Some(op) => {
                let operator = operators::updating(op);
                Boxed::new(self.alloc, StmtKind::Update(operator, place, value))
            }
        }
    }

    /// What an assignment to a tuple of names becomes. An error is want of memory.
    #[inline(never)]
    fn parts_assignment(
        &mut self,
        slots: &[Slot],
        value: &TreeExpr,
    ) -> Result<Boxed<StmtKind>, AllocError>
        ensures { IfOk result (λ x. (plain_kind x, self.new) ≡ does (spec.parts_assignment slots.now (part_of value.now)) self.old) }
    {
        let value = self.expr(value)?;
        let slots = self.scope.slots(self.alloc, None, slots);
        let (value, slots) = beside(value, slots)?;
        let made = makers::parts_assignment(self.alloc, slots, value)?;
        Ok(made)
    }

    /// What `from` and the like become. An error is want of memory.
    #[inline(never)]
    fn taking_from(
        &mut self,
        name: &Text,
        end: FromEnd,
        place: &TreePlace,
    ) -> Result<Boxed<StmtKind>, AllocError>
        ensures { IfOk result (λ x. (plain_kind x, self.new) ≡ does (spec.taking_from name.now end place.now) self.old) }
    {
        let taking = operators::taking(end);
        let place = self.place(place)?;
        let (place, variable) = beside(place, self.scope.variable(name))?;
        Boxed::new(self.alloc, StmtKind::TakeFrom(taking, variable, place))
    }

    /// What a call statement becomes. An error is want of memory.
    #[inline(never)]
    fn performance(&mut self, name: &Text, xs: &[TreeExpr]) -> Result<Boxed<StmtKind>, AllocError>
        ensures { IfOk result (λ x. (plain_kind x, self.new) ≡ does (spec.performance name.now (map part_of xs.now)) self.old) }
    {
        match self.scope.procedure(name) {
            None => Boxed::new(self.alloc, StmtKind::Perform(Expr::Undefined)),
            Some((place, parameters)) => {
                let call = self.call(xs, place, parameters)?;
                Boxed::new(self.alloc, StmtKind::Perform(call.into_inner()))
            }
        }
    }

    /// What an expression becomes, if there is one. An error is want of memory.
    #[inline(never)]
    fn optional_expr(&mut self, x: &Option<TreeExpr>) -> Result<Option<Boxed<Expr>>, AllocError>
        ensures { IfOk result (λ e. (option_map plain_expr e, self.new) ≡ does (terms.optional (option_map part_of x.now)) self.old) }
    {
        match x {
            None => Ok(None),
            Some(x) => Ok(Some(self.expr(x)?)),
        }
    }

    /// What `return` becomes. An error is want of memory.
    #[inline(never)]
    fn return_of(&mut self, x: &Option<TreeExpr>) -> Result<Boxed<StmtKind>, AllocError>
        ensures { IfOk result (λ y. (plain_kind y, self.new) ≡ does (spec.return_of (option_map part_of x.now)) self.old) }
    {
        match x {
            None => Boxed::new(self.alloc, StmtKind::Return(Expr::Undefined)),
            Some(x) => {
                let value = self.expr(x)?;
                Boxed::new(self.alloc, StmtKind::Return(value.into_inner()))
            }
        }
    }

    /// What `print` becomes. An error is want of memory.
    #[inline(never)]
    fn print_of(&mut self, xs: &[TreeExpr]) -> Result<Boxed<StmtKind>, AllocError>
        ensures { IfOk result (λ y. (plain_kind y, self.new) ≡ does (spec.print_of (map part_of xs.now)) self.old) }
    {
        let values = self.exprs(xs)?;
        Boxed::new(self.alloc, StmtKind::Print(values))
    }

    /// What `read` becomes. An error is want of memory.
    #[inline(never)]
    fn read_of(&mut self, names: &[Text]) -> Result<Boxed<StmtKind>, AllocError>
        ensures { IfOk result (λ y. (plain_kind y, self.new) ≡ does (spec.read_of names.now) self.old) }
    {
        let variables = self.scope.variables(self.alloc, names)?;
        Boxed::new(self.alloc, StmtKind::Read(variables))
    }

    /// What statements become. An error is want of memory.
    #[cycle(statements)]
    #[inline(never)]
    pub fn stmts(&mut self, xs: &[TreeStmt]) -> Result<Items<Stmt>, AllocError>
        ensures { IfOk result (λ all. (map plain_stmt all, self.new) ≡ does (spec.statements (map lined xs.now)) self.old) }
    {
        let mut all = Items::new(self.alloc);
        for x in xs {
            let kind = self.kind(x.line, &x.kind)?;
            makers::put_stmt(&mut all, x.line, kind)?;
        }
        Ok(all)
    }

    /// What a statement on this line becomes. An error is want of memory.
    #[cycle(statements)]
    #[inline(never)]
    fn kind(&mut self, line: u32, x: &TreeKind) -> Result<Boxed<StmtKind>, AllocError>
        ensures { IfOk result (λ y. (plain_kind y, self.new) ≡ does (kind_of x.now line) self.old) }
    {
        match x {
            TreeKind::Assign(place, value) => self.assignment(place, None, value),
            TreeKind::Update(place, op, value) => self.assignment(place, Some(*op), value),
            TreeKind::TupleAssign(slots, value) => {
                self.parts_assignment(slots.as_slice(), value)
            }
            TreeKind::Take(name, end, place) => self.taking_from(name, *end, place),
            TreeKind::Call(name, xs) => self.performance(name, xs.as_slice()),
            TreeKind::If(first, others, last) => self.if_of(line, first, others.as_slice(), last),
            TreeKind::For(turns, condition, body) => {
                self.for_loop(body.as_slice(), turns.as_slice(), condition)
            }
            TreeKind::While(condition, body) => self.while_loop(body.as_slice(), condition),
            TreeKind::Quit => Boxed::new(self.alloc, StmtKind::Quit),
            TreeKind::Continue => Boxed::new(self.alloc, StmtKind::Continue),
            TreeKind::Fail => Boxed::new(self.alloc, StmtKind::Fail),
            TreeKind::Succeed => Boxed::new(self.alloc, StmtKind::Succeed),
            TreeKind::Stop => Boxed::new(self.alloc, StmtKind::Stop),
            TreeKind::Pass => Boxed::new(self.alloc, StmtKind::Pass),
            TreeKind::Return(value) => self.return_of(value),
            TreeKind::Print(xs) => self.print_of(xs.as_slice()),
            TreeKind::Read(names) => self.read_of(names.as_slice()),
        }
    }

    /// What `if` becomes with its branches. An error is want of memory.
    #[cycle(statements)]
    #[inline(never)]
    fn if_of(
        &mut self,
        line: u32,
        first: &TreeBranch,
        others: &[TreeBranch],
        last: &Option<Items<TreeStmt>>,
    ) -> Result<Boxed<StmtKind>, AllocError>
        ensures { IfOk result (λ x. (plain_kind x, self.new) ≡ does (spec.choice line (branch_of first.now) (map branch_of others.now) (option_map (map lined) last.now)) self.old) }
    {
        let condition = self.expr(&first.condition)?;
        let head = beside(condition, self.stmts(first.body.as_slice()))?;
        let head = beside(head, self.branches(line, others))?;
        let (((condition, body), branches), last) = beside(head, self.optional_block(last))?;
        makers::if_statement(self.alloc, condition, body, branches, last)
    }

    /// What the statements of an `else` become, if there are any. An error is want of memory.
    #[cycle(statements)]
    #[inline(never)]
    fn optional_block(&mut self, xs: &Option<Items<TreeStmt>>) -> Result<Items<Stmt>, AllocError>
        ensures { IfOk result (λ all. (map plain_stmt all, self.new) ≡ does (spec.optional_block (option_map (map lined) xs.now)) self.old) }
    {
        match xs {
            None => Ok(Items::new(self.alloc)),
            Some(xs) => self.stmts(xs.as_slice()),
        }
    }

    /// What the `elseif` branches of an `if` on this line become. An error is want of memory.
    #[cycle(statements)]
    #[inline(never)]
    fn branches(&mut self, line: u32, branches: &[TreeBranch]) -> Result<Items<Branch>, AllocError>
        ensures { IfOk result (λ all. (map plain_branch all, self.new) ≡ does (spec.branches line (map branch_of branches.now)) self.old) }
    {
        let mut all = Items::new(self.alloc);
        for branch in branches {
            let condition = self.expr(&branch.condition)?;
            let (condition, body) = beside(condition, self.stmts(branch.body.as_slice()))?;
            makers::put_branch(&mut all, line, condition, body)?;
        }
        Ok(all)
    }

    /// What a loop over iterators becomes. An error is want of memory.
    #[cycle(statements)]
    #[inline(never)]
    fn for_loop(
        &mut self,
        body: &[TreeStmt],
        turns: &[Iter],
        condition: &Option<TreeExpr>,
    ) -> Result<Boxed<StmtKind>, AllocError>
        ensures { IfOk result (λ x. (plain_kind x, self.new) ≡ does (spec.for_loop (map turn_of turns.now) (option_map part_of condition.now) (map lined body.now)) self.old) }
    {
        let iterators = self.iterators(turns)?;
        let head = beside(iterators, self.optional_expr(condition))?;
        let ((iterators, condition), body) = beside(head, self.stmts(body))?;
        makers::for_loop(self.alloc, iterators, condition, body)
    }

    /// What a loop with a condition becomes. An error is want of memory.
    #[cycle(statements)]
    #[inline(never)]
    fn while_loop(
        &mut self,
        body: &[TreeStmt],
        condition: &TreeExpr,
    ) -> Result<Boxed<StmtKind>, AllocError>
        ensures { IfOk result (λ x. (plain_kind x, self.new) ≡ does (spec.while_loop (part_of condition.now) (map lined body.now)) self.old) }
    {
        let condition = self.expr(condition)?;
        let (condition, body) = beside(condition, self.stmts(body))?;
        makers::while_loop(self.alloc, condition, body)
    }
}
