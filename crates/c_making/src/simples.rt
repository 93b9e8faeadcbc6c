// The statements that assignments and other statements without parts are.
ghost use Rattle.std.specs.Prelude.{◌≡◌, ◌∷◌, [], IfOk, Some};
ghost use Rattle.c_types.specs.declared.program.Stmt.TheVariants.{Do};
ghost use Rattle.c_typing.specs.Programs.{assign_stmt, assignment, dest_of, maybe_simple, simple_stmts, stored};

use crate::acts::{assignment, freed};
use crate::calling::{call_stmt, right_call, stored_call};
use c_ast::{Call, Rhs, Simple};
use c_expressions::meanings::meaning_of_path;
use c_functions::called::called_number;
use c_scopes::scopes::Scope;
use c_tables::tables::Tables;
use c_types::{Act, Stmt};
use c_typing::Meaning;
use fore_base::boxed::Boxed;
use fore_base::list::List;
use fore_base::memory::Mem;
use std::alloc::Global;

/// A list of one statement.
pub fn one(alloc: Global, stmt: Stmt) -> Mem<List<Stmt>>
    ensures { IfOk result (λ stmts. stmts ≡ stmt ∷ []) }
{
    let mut stmts = List::new(alloc);
    stmts.push(stmt)?;
    Ok(stmts)
}

/// A statement without parts.
pub fn doing(alloc: Global, act: Act, line: u32) -> Mem<List<Stmt>>
    ensures { IfOk result (λ stmts. stmts ≡ Do act line ∷ []) }
{
    one(alloc, Stmt::Do { act, line })
}

/// The assignment of a right side that calls no function of the file.
fn plain_stmt(
    alloc: Global,
    tables: &Tables,
    scope: &Scope,
    target: Meaning,
    rhs: &Rhs,
    line: u32,
) -> Mem<Stmt>
    ensures { IfOk result (λ stmt. stmt ≡ Do (assignment tables.now scope.now target rhs.now) line) }
{
    let act = assignment(alloc, tables, scope, target, rhs)?;
    Ok(Stmt::Do { act, line })
}

/// The assignment of a right side that is this call.
fn stored_stmt(
    alloc: Global,
    tables: &Tables,
    scope: &Scope,
    target: Meaning,
    rhs: &Rhs,
    call: &Call,
    line: u32,
) -> Mem<Stmt>
    ensures { IfOk result (λ stmt. stmt
        ≡ stored tables.now scope.now (Some call.now) (dest_of target)
        (assignment tables.now scope.now target rhs.now) line) }
{
    match called_number(tables, call.name.text.as_slice()) {
        Some(function) => stored_call(alloc, tables, scope, function, target, call, line),
        None => plain_stmt(alloc, tables, scope, target, rhs, line),
    }
}

/// The assignment of a right side.
fn assign_stmt(
    alloc: Global,
    tables: &Tables,
    scope: &Scope,
    target: Meaning,
    rhs: &Rhs,
    line: u32,
) -> Mem<Stmt>
    ensures { IfOk result (λ stmt. stmt ≡ assign_stmt tables.now scope.now target rhs.now line) }
{
    match right_call(rhs) {
        Some(call) => stored_stmt(alloc, tables, scope, target, rhs, call, line),
        None => plain_stmt(alloc, tables, scope, target, rhs, line),
    }
}

/// The one statement that the assignment of a right side is.
pub fn assign_stmts(
    alloc: Global,
    tables: &Tables,
    scope: &Scope,
    target: Meaning,
    rhs: &Rhs,
    line: u32,
) -> Mem<List<Stmt>>
    ensures { IfOk result (λ stmts. stmts ≡ assign_stmt tables.now scope.now target rhs.now line ∷ []) }
{
    let stmt = assign_stmt(alloc, tables, scope, target, rhs, line)?;
    one(alloc, stmt)
}

/// What a statement without parts does.
pub fn simple_stmts(
    alloc: Global,
    tables: &Tables,
    scope: &Scope,
    simple: &Simple,
) -> Mem<List<Stmt>>
    ensures { IfOk result (λ stmts. stmts ≡ simple_stmts tables.now scope.now simple.now) }
{
    match simple {
        Simple::Assign { to, from } => {
            let target = meaning_of_path(alloc, tables, scope, to)?;
            assign_stmts(alloc, tables, scope, target, from, to.head.at.line)
        }
        Simple::Call(call) => {
            let stmt = call_stmt(alloc, tables, scope, call)?;
            one(alloc, stmt)
        }
        Simple::Free { at, path } => {
            let meaning = meaning_of_path(alloc, tables, scope, path)?;
            doing(alloc, freed(meaning), at.line)
        }
    }
}

/// What a statement does that may be missing.
pub fn maybe_simple(
    alloc: Global,
    tables: &Tables,
    scope: &Scope,
    simple: &Option<Boxed<Simple>>,
) -> Mem<List<Stmt>>
    ensures { IfOk result (λ stmts. stmts ≡ maybe_simple tables.now scope.now simple.now) }
{
    match simple {
        None => Ok(List::new(alloc)),
        Some(simple) => simple_stmts(alloc, tables, scope, simple.get()),
    }
}
