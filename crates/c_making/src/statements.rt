// The statements that parts of a body are.
ghost use Rattle.std.specs.Prelude.{◌≡◌, ◌++◌, ◌∷◌, [], IfOk, OnOk};
ghost use Rattle.c_ast.specs.declared.conditions.Cond.{Cond};
ghost use Rattle.c_types.specs.declared.program.Act.TheVariants.{Error};
ghost use Rattle.c_types.specs.declared.program.Stmt.TheVariants.{Branch, Do};
ghost use Rattle.c_typing.specs.Programs.{grouped, next_variable, initialised, declarators_stmts, declare_stmts};
ghost use Rattle.c_typing.specs.Programs.{part_stmts, parts_stmts, block_stmts, stmt_stmts, other_stmts, cond_of};
ghost use Rattle.c_typing.specs.Programs.{return_act};
ghost use Rattle.c_typing.specs.Scopes.{all_declared, declared, past_declare, past_first, past_part, past_parts};
ghost use Rattle.c_typing.specs.Scopes.{past_block, past_stmt, past_other, opened, outer};
ghost use Rattle.c_making.specs.inner.Making.{first_stmts, group_first, for_body, past_for, for_made};

use crate::calling::return_act;
use crate::declaring::{declarators_of, kind_of};
use crate::simples::{assign_stmts, doing, maybe_simple, one, simple_stmts};
use c_ast::{Block, Cond, Declarator, Declare, First, Operand, Part, Rhs, Simple, Stmt as Named};
use c_expressions::conditions::{cond_of, maybe_cond};
use c_expressions::meanings::variable;
use c_scopes::scopes::Scope;
use c_tables::tables::Tables;
use c_types::{Act, Cond as Formula, Stmt};
use c_typing::{Kind, Meaning};
use fore_base::boxed::Boxed;
use fore_base::list::List;
use fore_base::memory::{Mem, beside};
use std::alloc::Global;

/// A statement with the variables of the innermost block, which die on this line.
fn grouped(alloc: Global, scope: &Scope, body: List<Stmt>, line: u32) -> Mem<Stmt>
    ensures { IfOk result (λ stmt. stmt ≡ grouped body scope.now line) }
{
    let ptrs = scope.ptrs(alloc)?;
    let datums = scope.datums(alloc)?;
    Ok(Stmt::Group {
        body,
        ptrs,
        datums,
        close: line,
    })
}

/// The variable that the next declarator of this kind declares.
fn next_variable(alloc: Global, scope: &Scope, kind: Kind) -> Mem<Meaning>
    ensures { IfOk result (λ meaning. meaning ≡ next_variable scope.now kind) }
{
    let number = scope.next_number(kind)?;
    Ok(variable(alloc, kind, number))
}

/// The assignment of an initialiser, if there is one.
fn initialised(
    alloc: Global,
    tables: &Tables,
    scope: &Scope,
    target: Meaning,
    line: u32,
    from: &Option<Rhs>,
) -> Mem<List<Stmt>>
    ensures { IfOk result (λ stmts. stmts ≡ initialised tables.now scope.now target line from.now) }
{
    match from {
        None => Ok(List::new(alloc)),
        Some(rhs) => assign_stmts(alloc, tables, scope, target, rhs, line),
    }
}

/// What a declarator does.
fn declarator_stmts(
    alloc: Global,
    tables: &Tables,
    scope: &mut Scope,
    kind: Kind,
    declarator: &Declarator,
) -> Mem<List<Stmt>>
    ensures past { OnOk result (scope.new ≡ declared scope.old declarator.now.name.text kind) }
    ensures stmts { IfOk result (λ stmts. stmts
        ≡ initialised tables.now (declared scope.old declarator.now.name.text kind) (next_variable scope.old kind)
        declarator.now.name.at.line declarator.now.from) }
{
    let target = next_variable(alloc, scope, kind)?;
    scope.declare(alloc, declarator.name.text.as_slice(), kind)?;
    initialised(
        alloc,
        tables,
        scope,
        target,
        declarator.name.at.line,
        &declarator.from,
    )
}

fn declarators_stmts(
    alloc: Global,
    tables: &Tables,
    scope: &mut Scope,
    kind: Kind,
    vars: &[Declarator],
) -> Mem<List<Stmt>>
    ensures past { OnOk result (scope.new ≡ all_declared kind vars.now scope.old) }
    ensures stmts { IfOk result (λ stmts. stmts ≡ declarators_stmts tables.now kind vars.now scope.old) }
{
    let mut all = List::new(alloc);
    for var in vars {
        let next = declarator_stmts(alloc, tables, scope, kind, var)?;
        all.append(next)?;
    }
    Ok(all)
}

/// What a declaration does.
fn declare_stmts(
    alloc: Global,
    tables: &Tables,
    scope: &mut Scope,
    declare: &Declare,
) -> Mem<List<Stmt>>
    ensures past { OnOk result (scope.new ≡ past_declare tables.now declare.now scope.old) }
    ensures stmts { IfOk result (λ stmts. stmts ≡ declare_stmts tables.now declare.now scope.old) }
{
    let kind = kind_of(tables, declare);
    declarators_stmts(alloc, tables, scope, kind, declarators_of(declare))
}

/// What stands first in the head of a `for` does.
fn first_stmts(alloc: Global, tables: &Tables, scope: &mut Scope, first: &First) -> Mem<List<Stmt>>
    ensures past { OnOk result (scope.new ≡ past_first tables.now first.now scope.old) }
    ensures stmts { IfOk result (λ stmts. stmts ≡ first_stmts tables.now first.now scope.old) }
{
    match first {
        First::Declare(declare) => declare_stmts(alloc, tables, scope, declare),
        First::Simple(simple) => simple_stmts(alloc, tables, scope, simple),
        First::Nothing => Ok(List::new(alloc)),
    }
}

/// The statements of a `for`: a group where it declares.
fn group_first(
    alloc: Global,
    scope: &Scope,
    first: &First,
    body: List<Stmt>,
    line: u32,
) -> Mem<List<Stmt>>
    ensures { IfOk result (λ stmts. stmts ≡ group_first first.now body scope.now line) }
{
    match first {
        First::Declare(_) => {
            let group = grouped(alloc, scope, body, line)?;
            one(alloc, group)
        }
        First::Simple(_) | First::Nothing => Ok(body),
    }
}

/// What a `return` does.
fn return_stmts(
    alloc: Global,
    tables: &Tables,
    scope: &Scope,
    operand: &Option<Operand>,
    line: u32,
) -> Mem<List<Stmt>>
    ensures { IfOk result (λ stmts. stmts ≡ Do (return_act tables.now scope.now scope.now.home operand.now) line ∷ []) }
{
    let act = return_act(alloc, tables, scope, operand)?;
    doing(alloc, act, line)
}

/// The statement that an `assert` is.
fn assert_stmts(
    alloc: Global,
    tables: &Tables,
    scope: &Scope,
    cond: &Cond,
    line: u32,
) -> Mem<List<Stmt>>
    ensures { IfOk result (λ stmts. stmts
        ≡ Branch (cond_of tables.now scope.now cond.now) [] (Do Error line ∷ [])
        ∷ []) }
{
    let no = doing(alloc, Act::Error, line)?;
    let cond = cond_of(alloc, tables, scope, cond)?;
    one(
        alloc,
        Stmt::Branch {
            cond,
            yes: List::new(alloc),
            no,
        },
    )
}

/// The statement that a block is.
#[cycle(make)]
#[tactic(auto, using(c_typing::proofs::ScopeLayers::scope_layers, crate::proofs::ScopeSteps::scoping))]
pub fn block_stmts(
    alloc: Global,
    tables: &Tables,
    scope: &mut Scope,
    block: &Block,
) -> Mem<List<Stmt>>
    ensures past { OnOk result (scope.new ≡ past_block tables.now block.now scope.old) }
    ensures blocks { OnOk result (scope.new.blocks ≡ scope.old.blocks) }
    ensures stmts { IfOk result (λ stmts. stmts ≡ block_stmts tables.now block.now scope.old) }
{
    scope.enter(alloc)?;
    let body = parts_stmts(alloc, tables, scope, block.parts.as_slice())?;
    let group = grouped(alloc, scope, body, block.close.line)?;
    scope.leave();
    let stmts = one(alloc, group)?;
    Ok(stmts)
}

#[cycle(make)]
#[tactic(auto, using(c_typing::proofs::ScopeLayers::scope_layers, crate::proofs::ScopeSteps::scoping))]
fn parts_stmts(alloc: Global, tables: &Tables, scope: &mut Scope, parts: &[Part]) -> Mem<List<Stmt>>
    ensures past { OnOk result (scope.new ≡ past_parts tables.now parts.now scope.old) }
    ensures outer { OnOk result (outer scope.new.blocks ≡ outer scope.old.blocks) }
    ensures stmts { IfOk result (λ stmts. stmts ≡ parts_stmts tables.now parts.now scope.old) }
{
    let mut all = List::new(alloc);
    for part in parts {
        let next = part_stmts(alloc, tables, scope, part)?;
        all.append(next)?;
    }
    Ok(all)
}

#[cycle(make)]
#[tactic(auto, using(c_typing::proofs::ScopeLayers::scope_layers, crate::proofs::ScopeSteps::scoping))]
fn part_stmts(alloc: Global, tables: &Tables, scope: &mut Scope, part: &Part) -> Mem<List<Stmt>>
    ensures past { OnOk result (scope.new ≡ past_part tables.now part.now scope.old) }
    ensures outer { OnOk result (outer scope.new.blocks ≡ outer scope.old.blocks) }
    ensures stmts { IfOk result (λ stmts. stmts ≡ part_stmts tables.now part.now scope.old) }
{
    match part {
        Part::Declare(declare) => declare_stmts(alloc, tables, scope, declare),
        Part::Stmt(stmt) => stmt_stmts(alloc, tables, scope, stmt),
    }
}

/// The statements that a statement is.
#[cycle(make)]
#[tactic(auto, using(c_typing::proofs::ScopeLayers::scope_layers, crate::proofs::ScopeSteps::scoping))]
fn stmt_stmts(alloc: Global, tables: &Tables, scope: &mut Scope, stmt: &Named) -> Mem<List<Stmt>>
    ensures past { OnOk result (scope.new ≡ past_stmt tables.now stmt.now scope.old) }
    ensures blocks { OnOk result (scope.new.blocks ≡ scope.old.blocks) }
    ensures stmts { IfOk result (λ stmts. stmts ≡ stmt_stmts tables.now stmt.now scope.old) }
{
    match stmt {
        Named::Empty { .. } => Ok(List::new(alloc)),
        Named::Block(block) => block_stmts(alloc, tables, scope, block),
        Named::Simple(simple) => simple_stmts(alloc, tables, scope, simple.get()),
        Named::If {
            cond,
            then,
            other,
            ..
        } => {
            let (cond, yes) = headed(alloc, tables, scope, then, cond)?;
            let no = other_stmts(alloc, tables, scope, other)?;
            let stmts = one(alloc, Stmt::Branch { cond, yes, no })?;
            Ok(stmts)
        }
        Named::While { cond, body, .. } => {
            let (cond, body) = headed(alloc, tables, scope, body, cond)?;
            let stmts = one(alloc, Stmt::While { cond, body })?;
            Ok(stmts)
        }
        Named::Do { body, cond, .. } => {
            let (cond, body) = headed(alloc, tables, scope, body, cond)?;
            let stmts = one(alloc, Stmt::DoWhile { cond, body })?;
            Ok(stmts)
        }
        Named::For {
            at,
            first,
            cond,
            next,
            body,
        } => for_stmts(alloc, tables, scope, at.line, first.get(), cond, next, body),
        Named::Return { at, operand } => return_stmts(alloc, tables, scope, operand, at.line),
        Named::Break { at } => doing(alloc, Act::Break, at.line),
        Named::Continue { at } => doing(alloc, Act::Continue, at.line),
        Named::Assert { at, cond } => assert_stmts(alloc, tables, scope, cond, at.line),
    }
}

/// The formula of the condition in the head of a statement, and the statements that its body is.
#[cycle(make)]
fn headed(
    alloc: Global,
    tables: &Tables,
    scope: &mut Scope,
    body: &Boxed<Named>,
    cond: &Cond,
) -> Mem<(Formula, List<Stmt>)>
    ensures past { OnOk result (scope.new ≡ past_stmt tables.now body.now scope.old) }
    ensures blocks { OnOk result (scope.new.blocks ≡ scope.old.blocks) }
    ensures parts { IfOk result (λ parts. (parts.0 ≡ cond_of tables.now scope.old cond.now)
        × (parts.1 ≡ stmt_stmts tables.now body.now scope.old)) }
{
    let cond = cond_of(alloc, tables, scope, cond)?;
    let (cond, body) = beside(cond, stmt_stmts(alloc, tables, scope, body.get()))?;
    Ok((cond, body))
}

/// The statements that a `for` is.
#[cycle(make)]
#[tactic(auto, using(crate::proofs::ScopeSteps::scoping))]
fn for_stmts(
    alloc: Global,
    tables: &Tables,
    scope: &mut Scope,
    line: u32,
    first: &First,
    cond: &Option<Cond>,
    next: &Option<Boxed<Simple>>,
    body: &Boxed<Named>,
) -> Mem<List<Stmt>>
    ensures past { OnOk result (scope.new ≡ past_for tables.now first.now body.now scope.old) }
    ensures blocks { OnOk result (scope.new.blocks ≡ scope.old.blocks) }
    ensures stmts { IfOk result (λ stmts. stmts
        ≡ for_made tables.now line first.now cond.now next.now body.now
        scope.old) }
{
    scope.enter(alloc)?;
    let mut all = first_stmts(alloc, tables, scope, first)?;
    let looped = for_body(alloc, tables, scope, line, cond, next, body)?;
    all.push(looped)?;
    let stmts = group_first(alloc, scope, first, all, line)?;
    scope.leave();
    Ok(stmts)
}

/// The loop of a `for`.
#[cycle(make)]
fn for_body(
    alloc: Global,
    tables: &Tables,
    scope: &mut Scope,
    line: u32,
    cond: &Option<Cond>,
    next: &Option<Boxed<Simple>>,
    body: &Boxed<Named>,
) -> Mem<Stmt>
    ensures past { OnOk result (scope.new ≡ past_stmt tables.now body.now scope.old) }
    ensures blocks { OnOk result (scope.new.blocks ≡ scope.old.blocks) }
    ensures stmt { IfOk result (λ stmt. stmt ≡ for_body tables.now line cond.now next.now body.now scope.old) }
{
    let next = maybe_simple(alloc, tables, scope, next)?;
    let cond = maybe_cond(alloc, tables, scope, line, cond)?;
    let (cond, body) = beside(cond, stmt_stmts(alloc, tables, scope, body.get()))?;
    Ok(Stmt::For { cond, next, body })
}

#[cycle(make)]
fn other_stmts(
    alloc: Global,
    tables: &Tables,
    scope: &mut Scope,
    other: &Option<Boxed<Named>>,
) -> Mem<List<Stmt>>
    ensures past { OnOk result (scope.new ≡ past_other tables.now other.now scope.old) }
    ensures blocks { OnOk result (scope.new.blocks ≡ scope.old.blocks) }
    ensures stmts { IfOk result (λ stmts. stmts ≡ other_stmts tables.now other.now scope.old) }
{
    match other {
        Some(stmt) => stmt_stmts(alloc, tables, scope, stmt.get()),
        None => Ok(List::new(alloc)),
    }
}
