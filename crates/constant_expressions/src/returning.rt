// Whether a body surely returns.

ghost use Rattle.std.specs.Prelude.{◌≡◌};
ghost use Rattle.constant_expressions.specs.Returning.{returns_in, statement_returns, has_own_break, any_breaks, some_returns, is_endless, condition_is_endless};

use c_tree::{Block, Expr, ExprKind, Stmt};

/// Whether one of the statements of the block surely returns. A `return` does, a block with such a
/// statement, an `if` with `else` both of whose branches do, and a `while` or `for` whose condition is a
/// number other than 0, or is missing, and which no `break` of its own leaves.
pub fn surely_returns(block: &Block) -> bool
    ensures { result ≡ returns_in block.now }
{
    some_returns(block.stmts.as_slice())
}

/// Whether one of the statements surely returns.
#[cycle(returning)]
#[tactic(auto, using(crate::proofs::Returned::returnings))]
fn some_returns(stmts: &[Stmt]) -> bool
    ensures { result ≡ some_returns stmts.now }
{
    for stmt in stmts {
        if statement_returns(stmt) {
            return true;
        }
    }
    false
}

#[cycle(returning)]
#[tactic(auto, using(crate::proofs::Returned::returnings))]
fn statement_returns(stmt: &Stmt) -> bool
    ensures { result ≡ statement_returns stmt.now }
{
    match stmt {
        Stmt::Return { .. } => true,
        Stmt::Block(block) => some_returns(block.stmts.as_slice()),
        Stmt::If { yes, no, .. } => match no {
            Some(no) => statement_returns(yes.get()) && statement_returns(no.get()),
            None => false,
        },
        Stmt::While { cond, body, .. } => is_endless(cond.get()) && !has_own_break(body.get()),
        Stmt::For { cond, body, .. } => match cond {
            Some(cond) => is_endless(cond.get()) && !has_own_break(body.get()),
            None => !has_own_break(body.get()),
        },
        _ => false,
    }
}

/// Whether the condition is a number other than 0.
fn is_endless(cond: &Expr) -> bool
    ensures { result ≡ is_endless cond.now }
{
    match cond.kind {
        ExprKind::Int(value) => value != 0,
        _ => false,
    }
}

/// Whether a `break` in a loop's body leaves that loop.
#[cycle(breaking)]
#[tactic(auto, using(crate::proofs::Returned::breakings))]
fn has_own_break(stmt: &Stmt) -> bool
    ensures { result ≡ has_own_break stmt.now }
{
    match stmt {
        Stmt::Break { .. } => true,
        Stmt::Block(block) => any_breaks(block.stmts.as_slice()),
        Stmt::If { yes, no, .. } => match no {
            Some(no) => has_own_break(yes.get()) || has_own_break(no.get()),
            None => has_own_break(yes.get()),
        },
        _ => false,
    }
}

/// Whether one of the statements has a `break` that leaves the loop around them.
#[cycle(breaking)]
#[tactic(auto, using(crate::proofs::Returned::breakings))]
fn any_breaks(stmts: &[Stmt]) -> bool
    ensures { result ≡ any_breaks stmts.now }
{
    for stmt in stmts {
        if has_own_break(stmt) {
            return true;
        }
    }
    false
}
