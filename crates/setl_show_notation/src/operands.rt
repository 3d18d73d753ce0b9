//! Which expressions stand in parentheses.

ghost use Rattle.std.specs.Prelude.{◌≡◌};
ghost use Rattle.setl_tree.specs.Canonical.{shown};

use setl_tree::Expr;

/// Whether an expression is an operation, which stands in parentheses where it is an operand.
pub fn is_operation(x: &Expr) -> bool
    ensures { result ≡ (shown x.now).is_operation }
{
    match x {
        Expr::If(_, _, _) => true,
        Expr::Chain(_, _) => true,
        Expr::Compare(_, _, _) => true,
        Expr::Prefixed(_, _) => true,
        Expr::Quantified(_, _, _) => true,
        Expr::Selected(_, _) => false,
        Expr::Number(_) => false,
        Expr::Text(_) => false,
        Expr::Om => false,
        Expr::True => false,
        Expr::False => false,
        Expr::Newat => false,
        Expr::Eof => false,
        Expr::Ok => false,
        Expr::Name(_) => false,
        Expr::Set(_) => false,
        Expr::Tuple(_) => false,
    }
}

/// Whether an expression is a primary expression with selectors, which stands in parentheses before further selectors.
pub fn is_selection(x: &Expr) -> bool
    ensures { result ≡ (shown x.now).is_selection }
{
    match x {
        Expr::If(_, _, _) => false,
        Expr::Chain(_, _) => false,
        Expr::Compare(_, _, _) => false,
        Expr::Prefixed(_, _) => false,
        Expr::Quantified(_, _, _) => false,
        Expr::Selected(_, _) => true,
        Expr::Number(_) => false,
        Expr::Text(_) => false,
        Expr::Om => false,
        Expr::True => false,
        Expr::False => false,
        Expr::Newat => false,
        Expr::Eof => false,
        Expr::Ok => false,
        Expr::Name(_) => false,
        Expr::Set(_) => false,
        Expr::Tuple(_) => false,
    }
}
