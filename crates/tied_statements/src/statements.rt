// Statements and blocks whose names are tied.

ghost use Rattle.std.specs.Prelude.{◌≡◌, ◌++◌, IfOk, OnOk};
ghost use Rattle.tied_names.specs.Ties.{here_of, object_of};
ghost use Rattle.tied_expressions.specs.Expressions.{tied_expression};
ghost use Rattle.tied_statements.specs.Statements.{name_in, assign_kind, step_kind, assigned, returned, tied_simple, tied_simples, tied_if_any, tied_block, tied_statement, tied_else, tied_statements};
ghost use Rattle.tied_statements.specs.Declarations.{with_objects};

use crate::declarations::starts;
use c_tree::{AssignMark, Block, Expr, Place, Simple, Stmt};
use c_typed::{TypedBlock, TypedExpr, TypedSimple, TypedStmt};
use operator_meaning::SiteKind;
use sat_base::{Memory, Width};
use sqlite_items::{Boxed, Items};
use std::alloc::Global;
use tied_expressions::{call, expression, place, site_if, with_conversion};
use tied_names::{Note, TiedObject, Ties};

/// The function that a statement stands in: its number, and the width of the number that it gives, if it gives one.
#[derive(Clone, Copy)]
pub struct Inside {
    pub function: u32,
    pub gives: Option<Width>,
}

fn name_in(place: &Place) -> &[u8]
    ensures { result.now ≡ name_in place.now }
{
    match place {
        Place::Plain { name } => name.name.as_bytes(),
        Place::Index { name, .. } => name.name.as_bytes(),
        Place::Index2 { name, .. } => name.name.as_bytes(),
        Place::Deref { name, .. } => name.name.as_bytes(),
    }
}

/// The site that a mark of assignment is, if it is one.
fn assign_kind(mark: AssignMark) -> Option<SiteKind>
    ensures { result ≡ assign_kind mark }
{
    match mark {
        AssignMark::Plus => Some(SiteKind::Sum),
        AssignMark::Minus => Some(SiteKind::Difference),
        AssignMark::Times => Some(SiteKind::Product),
        _ => None,
    }
}

fn step_kind(up: bool) -> SiteKind
    ensures { result ≡ step_kind up }
{
    if up {
        SiteKind::Sum
    } else {
        SiteKind::Difference
    }
}

/// The value that `=` assigns to a target of the width; the compound marks take theirs as it is.
fn assigned(
    alloc: Global,
    mark: AssignMark,
    width: Width,
    e: TypedExpr,
) -> Result<TypedExpr, Memory>
    ensures { IfOk result (λ value. value ≡ assigned mark width e) }
{
    match mark {
        AssignMark::Plain => with_conversion(alloc, width, e),
        _ => Ok(e),
    }
}

fn simple(
    ties: &Ties<'_, '_>,
    simple: &Simple,
    notes: &mut Vec<Note>,
) -> Result<TypedSimple, Memory>
    ensures value { IfOk result (λ tied. tied ≡ (tied_simple (here_of ties.now) simple.now).value) }
    ensures notes { OnOk result (notes.new.items ≡ notes.old.items ++ (tied_simple (here_of ties.now) simple.now).notes) }
{
    match simple {
        Simple::Assign {
            at,
            place: target,
            mark,
            mark_at,
            value,
        } => {
            let width = TiedObject::of(ties.find(name_in(target.get()))).width;
            let target = place(ties, target.get(), false, notes)?;
            let site = site_if(ties, assign_kind(*mark), *mark_at, notes)?;
            let value = expression(ties, value.get(), notes)?;
            let value = assigned(ties.alloc, *mark, width, value)?;
            Ok(TypedSimple::Assign {
                at: *at,
                place: Boxed::new(ties.alloc, target)?,
                mark: *mark,
                mark_at: *mark_at,
                site,
                value: Boxed::new(ties.alloc, value)?,
            })
        },
        Simple::Step {
            at,
            place: target,
            up,
            mark_at,
        } => {
            let target = place(ties, target.get(), false, notes)?;
            let site = site_if(ties, Some(step_kind(*up)), *mark_at, notes)?;
            Ok(TypedSimple::Step {
                at: *at,
                place: Boxed::new(ties.alloc, target)?,
                up: *up,
                mark_at: *mark_at,
                site,
            })
        },
        Simple::SetOverflow { at, value } => {
            let value = expression(ties, value.get(), notes)?;
            let value = with_conversion(ties.alloc, Width::W32, value)?;
            Ok(TypedSimple::SetOverflow {
                at: *at,
                value: Boxed::new(ties.alloc, value)?,
            })
        },
        Simple::Call(called) => Ok(TypedSimple::Call(call(ties, called, notes)?)),
    }
}

fn simples(
    ties: &Ties<'_, '_>,
    list: &[Simple],
    notes: &mut Vec<Note>,
) -> Result<Items<TypedSimple>, Memory>
    ensures value { IfOk result (λ tied. tied ≡ (tied_simples (here_of ties.now) list.now).value) }
    ensures notes { OnOk result (notes.new.items ≡ notes.old.items ++ (tied_simples (here_of ties.now) list.now).notes) }
{
    let mut tied = Items::new(ties.alloc);
    for one in list {
        tied.push(simple(ties, one, notes)?)?;
    }
    Ok(tied)
}

fn boxed(ties: &Ties<'_, '_>, e: &Expr, notes: &mut Vec<Note>) -> Result<Boxed<TypedExpr>, Memory>
    ensures value { IfOk result (λ tied. tied ≡ (tied_expression e.now (here_of ties.now)).value) }
    ensures notes { OnOk result (notes.new.items ≡ notes.old.items ++ (tied_expression e.now (here_of ties.now)).notes) }
{
    let tied = expression(ties, e, notes)?;
    Ok(Boxed::new(ties.alloc, tied)?)
}

fn boxed_if_any(
    ties: &Ties<'_, '_>,
    e: &Option<Boxed<Expr>>,
    notes: &mut Vec<Note>,
) -> Result<Option<Boxed<TypedExpr>>, Memory>
    ensures value { IfOk result (λ tied. tied ≡ (tied_if_any (here_of ties.now) e.now).value) }
    ensures notes { OnOk result (notes.new.items ≡ notes.old.items ++ (tied_if_any (here_of ties.now) e.now).notes) }
{
    match e {
        Some(e) => Ok(Some(boxed(ties, e.get(), notes)?)),
        None => Ok(None),
    }
}

/// The value that is returned, converted to what the function gives.
fn returned(
    alloc: Global,
    gives: Option<Width>,
    value: Option<Boxed<TypedExpr>>,
) -> Result<Option<Boxed<TypedExpr>>, Memory>
    ensures { IfOk result (λ whole. whole ≡ returned gives value) }
{
    match gives {
        Some(width) => match value {
            Some(value) => {
                let value = with_conversion(alloc, width, value.into_inner())?;
                Ok(Some(Boxed::new(alloc, value)?))
            },
            None => Ok(None),
        },
        None => Ok(value),
    }
}

/// A block, after which the names are in scope that were before it.
///
/// # Errors
/// For want of memory alone.
#[cycle(statement)]
pub fn block<'a>(
    ties: &mut Ties<'_, 'a>,
    inside: Inside,
    block: &'a Block,
    notes: &mut Vec<Note>,
) -> Result<TypedBlock, Memory>
    ensures value { IfOk result (λ tied. tied ≡ (tied_block block.now (here_of ties.old) inside).value) }
    ensures notes { OnOk result (notes.new.items ≡ notes.old.items ++ (tied_block block.now (here_of ties.old) inside).notes) }
    ensures after { OnOk result (here_of ties.new ≡ with_objects (here_of ties.old) (tied_block block.now (here_of ties.old) inside).objects) }
{
    let len = ties.names.len();
    let objects = starts(ties, inside.function, block.objects.as_slice(), notes)?;
    let stmts = statements(ties, inside, block.stmts.as_slice(), notes)?;
    ties.leave(len);
    Ok(TypedBlock {
        at: block.at,
        objects,
        stmts,
    })
}

#[cycle(statement)]
fn statements<'a>(
    ties: &mut Ties<'_, 'a>,
    inside: Inside,
    stmts: &'a [Stmt],
    notes: &mut Vec<Note>,
) -> Result<Items<TypedStmt>, Memory>
    ensures value { IfOk result (λ tied. tied ≡ (tied_statements stmts.now (here_of ties.old) inside).value) }
    ensures notes { OnOk result (notes.new.items ≡ notes.old.items ++ (tied_statements stmts.now (here_of ties.old) inside).notes) }
    ensures after { OnOk result (here_of ties.new ≡ with_objects (here_of ties.old) (tied_statements stmts.now (here_of ties.old) inside).objects) }
{
    let mut tied = Items::new(ties.alloc);
    for stmt in stmts {
        tied.push(statement(ties, inside, stmt, notes)?)?;
    }
    Ok(tied)
}

#[cycle(statement)]
fn else_if_any<'a>(
    ties: &mut Ties<'_, 'a>,
    inside: Inside,
    other: &'a Option<Boxed<Stmt>>,
    notes: &mut Vec<Note>,
) -> Result<Option<Boxed<TypedStmt>>, Memory>
    ensures value { IfOk result (λ tied. tied ≡ (tied_else other.now (here_of ties.old) inside).value) }
    ensures notes { OnOk result (notes.new.items ≡ notes.old.items ++ (tied_else other.now (here_of ties.old) inside).notes) }
    ensures after { OnOk result (here_of ties.new ≡ with_objects (here_of ties.old) (tied_else other.now (here_of ties.old) inside).objects) }
{
    match other {
        Some(stmt) => Ok(Some(boxed_statement(ties, inside, stmt.get(), notes)?)),
        None => Ok(None),
    }
}

#[cycle(statement)]
fn boxed_statement<'a>(
    ties: &mut Ties<'_, 'a>,
    inside: Inside,
    stmt: &'a Stmt,
    notes: &mut Vec<Note>,
) -> Result<Boxed<TypedStmt>, Memory>
    ensures value { IfOk result (λ tied. tied ≡ (tied_statement stmt.now (here_of ties.old) inside).value) }
    ensures notes { OnOk result (notes.new.items ≡ notes.old.items ++ (tied_statement stmt.now (here_of ties.old) inside).notes) }
    ensures after { OnOk result (here_of ties.new ≡ with_objects (here_of ties.old) (tied_statement stmt.now (here_of ties.old) inside).objects) }
{
    let tied = statement(ties, inside, stmt, notes)?;
    Ok(Boxed::new(ties.alloc, tied)?)
}

#[cycle(statement)]
fn statement<'a>(
    ties: &mut Ties<'_, 'a>,
    inside: Inside,
    stmt: &'a Stmt,
    notes: &mut Vec<Note>,
) -> Result<TypedStmt, Memory>
    ensures value { IfOk result (λ tied. tied ≡ (tied_statement stmt.now (here_of ties.old) inside).value) }
    ensures notes { OnOk result (notes.new.items ≡ notes.old.items ++ (tied_statement stmt.now (here_of ties.old) inside).notes) }
    ensures after { OnOk result (here_of ties.new ≡ with_objects (here_of ties.old) (tied_statement stmt.now (here_of ties.old) inside).objects) }
{
    match stmt {
        Stmt::Empty { at } => Ok(TypedStmt::Empty { at: *at }),
        Stmt::Block(inner) => Ok(TypedStmt::Block(block(ties, inside, inner, notes)?)),
        Stmt::Simple(one) => Ok(TypedStmt::Simple(simple(ties, one, notes)?)),
        Stmt::If { at, cond, yes, no } => {
            let cond = boxed(ties, cond.get(), notes)?;
            let yes = boxed_statement(ties, inside, yes.get(), notes)?;
            let no = else_if_any(ties, inside, no, notes)?;
            Ok(TypedStmt::If {
                at: *at,
                cond,
                yes,
                no,
            })
        },
        Stmt::While { at, cond, body } => {
            let cond = boxed(ties, cond.get(), notes)?;
            let body = boxed_statement(ties, inside, body.get(), notes)?;
            Ok(TypedStmt::While {
                at: *at,
                cond,
                body,
            })
        },
        Stmt::Do { at, body, cond } => {
            let body = boxed_statement(ties, inside, body.get(), notes)?;
            let cond = boxed(ties, cond.get(), notes)?;
            Ok(TypedStmt::Do {
                at: *at,
                body,
                cond,
            })
        },
        Stmt::For {
            at,
            first,
            cond,
            last,
            body,
        } => {
            let first = simples(ties, first.as_slice(), notes)?;
            let cond = boxed_if_any(ties, cond, notes)?;
            let last = simples(ties, last.as_slice(), notes)?;
            let body = boxed_statement(ties, inside, body.get(), notes)?;
            Ok(TypedStmt::For {
                at: *at,
                first,
                cond,
                last,
                body,
            })
        },
        Stmt::Break { at } => Ok(TypedStmt::Break { at: *at }),
        Stmt::Continue { at } => Ok(TypedStmt::Continue { at: *at }),
        Stmt::Return { at, value } => {
            let value = boxed_if_any(ties, value, notes)?;
            Ok(TypedStmt::Return {
                at: *at,
                value: returned(ties.alloc, inside.gives, value)?,
            })
        },
    }
}
