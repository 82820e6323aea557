// What is seen in statements.
#![tactic(auto, using(crate::proofs::Statements_seen::walks))]

ghost use Rattle.std.specs.Prelude.{◌≡◌, ◌++◌, ◌∷◌, [], OnOk, IfOk};
ghost use Rattle.c_seen.specs.Declarations.{number_if_any, seen_in_lists, after_lists};
ghost use Rattle.c_seen.specs.Meanings.{names_of};
ghost use Rattle.c_seen.specs.Statements.{in_loop, seen_in_simple, simples, seen_in_block, seen_in_statements, seen_in_statement, seen_if_any, inner};

use crate::declarations::objects;
use crate::expressions::{call, expression, place};
use crate::scope::Scope;
use crate::seen::{Need, Seen};
use c_tree::{Block, Expr, Objects, Simple, Stmt};
use sat_base::{At, Memory};
use sqlite_items::Boxed;

/// Where a statement stands.
#[derive(Clone, Copy)]
pub struct Spot {
    /// The number of scopes around it.
    pub depth: u32,
    pub in_loop: bool,
    /// Whether the function gives a number.
    pub gives: bool,
}

impl Spot {
    fn in_loop(self) -> Spot
        ensures { result ≡ in_loop self }
    {
        Spot {
            depth: self.depth,
            in_loop: true,
            gives: self.gives,
        }
    }
}

fn simple(scope: &Scope<'_, '_>, simple: &Simple, seen: &mut Vec<Seen>) -> Result<(), Memory>
    ensures { OnOk result (seen.new.items ≡ seen.old.items ++ seen_in_simple (names_of scope.now) simple.now) }
{
    match simple {
        Simple::Assign {
            place: target,
            value,
            ..
        } => {
            place(scope, target.get(), false, Need::Target, seen)?;
            expression(scope, value.get(), Need::Number, seen)
        },
        Simple::Step { place: target, .. } => place(scope, target.get(), false, Need::Target, seen),
        Simple::SetOverflow { value, .. } => expression(scope, value.get(), Need::Number, seen),
        Simple::Call(called) => call(scope, called, Need::Nothing, seen),
    }
}

fn simples(scope: &Scope<'_, '_>, list: &[Simple], seen: &mut Vec<Seen>) -> Result<(), Memory>
    ensures { OnOk result (seen.new.items ≡ seen.old.items ++ simples (names_of scope.now) list.now) }
{
    for one in list {
        simple(scope, one, seen)?;
    }
    Ok(())
}

fn number_if_any(
    scope: &Scope<'_, '_>,
    e: &Option<Boxed<Expr>>,
    seen: &mut Vec<Seen>,
) -> Result<(), Memory>
    ensures { OnOk result (seen.new.items ≡ seen.old.items ++ number_if_any (names_of scope.now) e.now) }
{
    match e {
        Some(e) => expression(scope, e.get(), Need::Number, seen),
        None => Ok(()),
    }
}

fn declarations<'a>(
    scope: &mut Scope<'_, 'a>,
    depth: u32,
    lists: &'a [Objects],
    seen: &mut Vec<Seen>,
) -> Result<(), Memory>
    ensures seen { OnOk result (seen.new.items ≡ seen.old.items ++ seen_in_lists (names_of scope.old) depth lists.now) }
    ensures names { OnOk result (names_of scope.new ≡ after_lists (names_of scope.old) depth lists.now) }
{
    for list in lists {
        objects(scope, depth, list.decls.as_slice(), seen)?;
    }
    Ok(())
}

/// A block, after which the names are in scope that were before it.
#[cycle(statement)]
pub(crate) fn block<'a>(
    scope: &mut Scope<'_, 'a>,
    spot: Spot,
    block: &'a Block,
    seen: &mut Vec<Seen>,
) -> Result<(), Memory>
    ensures seen { OnOk result (seen.new.items ≡ seen.old.items ++ seen_in_block block.now (names_of scope.old) spot) }
    ensures names { OnOk result (names_of scope.new ≡ names_of scope.old) }
{
    let len = scope.len();
    declarations(scope, spot.depth, block.objects.as_slice(), seen)?;
    statements(scope, spot, block.stmts.as_slice(), seen)?;
    scope.leave(len);
    Ok(())
}

/// Inside a block.
fn inner(spot: Spot) -> Result<Spot, Memory>
    ensures { IfOk result (λ deeper. deeper ≡ inner spot) }
{
    match spot.depth.checked_add(1) {
        Some(depth) => Ok(Spot {
            depth,
            in_loop: spot.in_loop,
            gives: spot.gives,
        }),
        None => Err(Memory),
    }
}

#[cycle(statement)]
fn statements<'a>(
    scope: &mut Scope<'_, 'a>,
    spot: Spot,
    stmts: &'a [Stmt],
    seen: &mut Vec<Seen>,
) -> Result<(), Memory>
    ensures seen { OnOk result (seen.new.items ≡ seen.old.items ++ seen_in_statements stmts.now (names_of scope.old) spot) }
    ensures names { OnOk result (names_of scope.new ≡ names_of scope.old) }
{
    for stmt in stmts {
        statement(scope, spot, stmt, seen)?;
    }
    Ok(())
}

#[cycle(statement)]
fn else_if_any<'a>(
    scope: &mut Scope<'_, 'a>,
    spot: Spot,
    other: &'a Option<Boxed<Stmt>>,
    seen: &mut Vec<Seen>,
) -> Result<(), Memory>
    ensures seen { OnOk result (seen.new.items ≡ seen.old.items ++ seen_if_any other.now (names_of scope.old) spot) }
    ensures names { OnOk result (names_of scope.new ≡ names_of scope.old) }
{
    match other {
        Some(stmt) => statement(scope, spot, stmt.get(), seen),
        None => Ok(()),
    }
}

fn stands(at: At, seen: &mut Vec<Seen>) -> Result<(), Memory>
    ensures { OnOk result (seen.new.items ≡ seen.old.items ++ Seen.Statement at ∷ []) }
{
    Ok(seen.push(Seen::Statement { at })?)
}

/// `break` or `continue`.
fn leave(at: At, spot: Spot, seen: &mut Vec<Seen>) -> Result<(), Memory>
    ensures { OnOk result (seen.new.items ≡ seen.old.items ++ Seen.Leave at spot.in_loop ∷ []) }
{
    Ok(seen.push(Seen::Leave {
        at,
        in_loop: spot.in_loop,
    })?)
}

#[cycle(statement)]
fn statement<'a>(
    scope: &mut Scope<'_, 'a>,
    spot: Spot,
    stmt: &'a Stmt,
    seen: &mut Vec<Seen>,
) -> Result<(), Memory>
    ensures seen { OnOk result (seen.new.items ≡ seen.old.items ++ seen_in_statement stmt.now (names_of scope.old) spot) }
    ensures names { OnOk result (names_of scope.new ≡ names_of scope.old) }
{
    match stmt {
        Stmt::Empty { at } => stands(*at, seen),
        Stmt::Block(body) => {
            stands(body.at, seen)?;
            block(scope, inner(spot)?, body, seen)
        },
        Stmt::Simple(one) => {
            stands(one.at(), seen)?;
            simple(scope, one, seen)
        },
        Stmt::If { at, cond, yes, no } => {
            stands(*at, seen)?;
            expression(scope, cond.get(), Need::Number, seen)?;
            statement(scope, spot, yes.get(), seen)?;
            else_if_any(scope, spot, no, seen)
        },
        Stmt::While { at, cond, body } => {
            stands(*at, seen)?;
            expression(scope, cond.get(), Need::Number, seen)?;
            statement(scope, spot.in_loop(), body.get(), seen)
        },
        Stmt::Do { at, body, cond } => {
            stands(*at, seen)?;
            statement(scope, spot.in_loop(), body.get(), seen)?;
            expression(scope, cond.get(), Need::Number, seen)
        },
        Stmt::For {
            at,
            first,
            cond,
            last,
            body,
        } => {
            stands(*at, seen)?;
            simples(scope, first.as_slice(), seen)?;
            number_if_any(scope, cond, seen)?;
            simples(scope, last.as_slice(), seen)?;
            statement(scope, spot.in_loop(), body.get(), seen)
        },
        Stmt::Break { at } => {
            stands(*at, seen)?;
            leave(*at, spot, seen)
        },
        Stmt::Continue { at } => {
            stands(*at, seen)?;
            leave(*at, spot, seen)
        },
        Stmt::Return { at, value } => {
            stands(*at, seen)?;
            seen.push(Seen::Return {
                at: *at,
                has_value: value.is_some(),
                gives: spot.gives,
            })?;
            number_if_any(scope, value, seen)
        },
    }
}
