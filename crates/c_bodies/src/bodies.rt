// What declarations, statements and blocks break, each in its scope.
ghost use Rattle.std.specs.Prelude.{◌≡◌, true, false, OnOk, Option};
ghost use Rattle.c_ast.specs.declared.conditions.Cond.{Cond};
ghost use Rattle.c_ast.specs.declared.simples.Simple.{Simple};
ghost use Rattle.c_typing.specs.BodySites.{maybe_sites, declarator_sites, declarators_sites, declare_sites};
ghost use Rattle.c_typing.specs.BodySites.{first_sites, part_sites, parts_sites, block_sites, stmt_sites, other_sites};
ghost use Rattle.c_typing.specs.Scopes.{all_declared, declared, past_declare, past_first, past_part, past_parts};
ghost use Rattle.c_typing.specs.Scopes.{past_block, past_stmt, past_other, opened, closed, outer};
ghost use Rattle.c_typing.specs.Sites.{simple_sites, cond_sites, wanted_sites, rhs_sites, want_of_kind};
ghost use Rattle.c_bodies.specs.inner.Assigning.{assign_sites, free_sites, return_sites};
ghost use Rattle.c_expressions.specs.Meeting.{met};

use crate::types::uses_type;
use c_ast::{Block, Cond, Declarator, Declare, First, Operand, Part, Path, Rhs, Simple, Stmt};
use c_expressions::arguments::call_faults;
use c_expressions::conditions::cond_faults;
use c_expressions::meanings::meaning_of_path;
use c_expressions::noting::{defines_variable, jumps, returns, stands};
use c_expressions::operands::{path_faults, read_faults, rhs_faults, wanted_faults};
use c_expressions::wants::{want_of_kind, want_of_return, want_of_target};
use c_making::declaring::{declarators_of, kind_of};
use c_scopes::scopes::Scope;
use c_tables::tables::Tables;
use c_typing::{Kind, Spot, TypeFault, Want};
use fore_base::boxed::Boxed;
use fore_base::memory::Mem;
use fore_base::place::Place;
use std::alloc::Global;

/// What an assignment breaks.
#[tactic(auto, using(c_expressions::proofs::MeetingLemmas::meeting))]
fn assign_faults(
    alloc: Global,
    tables: &Tables,
    scope: &Scope,
    to: &Path,
    from: &Rhs,
    found: &mut Option<TypeFault>,
) -> Mem<()>
    ensures { OnOk result (found.new ≡ met tables.now found.old (assign_sites tables.now scope.now to.now from.now)) }
{
    path_faults(alloc, tables, scope, true, to, found)?;
    let target = meaning_of_path(alloc, tables, scope, to)?;
    rhs_faults(alloc, tables, scope, want_of_target(&target), from, found)
}

/// What a `free` breaks.
#[tactic(auto, using(c_expressions::proofs::MeetingLemmas::meeting))]
fn free_faults(
    alloc: Global,
    tables: &Tables,
    scope: &Scope,
    path: &Path,
    found: &mut Option<TypeFault>,
) -> Mem<()>
    ensures { OnOk result (found.new ≡ met tables.now found.old (free_sites tables.now scope.now path.now)) }
{
    read_faults(alloc, tables, scope, path, found)?;
    let meaning = meaning_of_path(alloc, tables, scope, path)?;
    stands(tables, Want::Pointer(None), path.head.at, &meaning, found);
    Ok(())
}

/// What a statement without parts breaks.
#[tactic(auto, using(c_expressions::proofs::MeetingLemmas::meeting))]
pub fn simple_faults(
    alloc: Global,
    tables: &Tables,
    scope: &Scope,
    simple: &Simple,
    found: &mut Option<TypeFault>,
) -> Mem<()>
    ensures { OnOk result (found.new ≡ met tables.now found.old (simple_sites tables.now scope.now simple.now)) }
{
    match simple {
        Simple::Assign { to, from } => assign_faults(alloc, tables, scope, to, from, found),
        Simple::Call(call) => call_faults(alloc, tables, scope, Spot::Statement, call, found),
        Simple::Free { path, .. } => free_faults(alloc, tables, scope, path, found),
    }
}

#[tactic(auto, using(c_expressions::proofs::MeetingLemmas::meeting))]
fn maybe_simple_faults(
    alloc: Global,
    tables: &Tables,
    scope: &Scope,
    simple: &Option<Boxed<Simple>>,
    found: &mut Option<TypeFault>,
) -> Mem<()>
    ensures { OnOk result
        (found.new ≡ met tables.now found.old
        (maybe_sites (simple_sites tables.now scope.now) simple.now)) }
{
    match simple {
        Some(simple) => simple_faults(alloc, tables, scope, simple.get(), found),
        None => Ok(()),
    }
}

#[tactic(auto, using(c_expressions::proofs::MeetingLemmas::meeting))]
fn maybe_cond_faults(
    alloc: Global,
    tables: &Tables,
    scope: &Scope,
    cond: &Option<Cond>,
    found: &mut Option<TypeFault>,
) -> Mem<()>
    ensures { OnOk result
        (found.new ≡ met tables.now found.old
        (maybe_sites (cond_sites tables.now scope.now) cond.now)) }
{
    match cond {
        Some(cond) => cond_faults(alloc, tables, scope, cond, found),
        None => Ok(()),
    }
}

/// What the operand of a `return` breaks, if there is one.
#[tactic(auto, using(c_expressions::proofs::MeetingLemmas::meeting))]
fn returned_faults(
    alloc: Global,
    tables: &Tables,
    scope: &Scope,
    want: Want,
    operand: &Option<Operand>,
    found: &mut Option<TypeFault>,
) -> Mem<()>
    ensures { OnOk result
        (found.new ≡ met tables.now found.old
        (maybe_sites (wanted_sites tables.now scope.now Spot.Elsewhere want) operand.now)) }
{
    match operand {
        Some(operand) => wanted_faults(alloc, tables, scope, Spot::Elsewhere, want, operand, found),
        None => Ok(()),
    }
}

/// What a `return` breaks in the function around.
#[tactic(auto, using(c_expressions::proofs::MeetingLemmas::meeting))]
fn return_faults(
    alloc: Global,
    tables: &Tables,
    scope: &Scope,
    at: Place,
    operand: &Option<Operand>,
    found: &mut Option<TypeFault>,
) -> Mem<()>
    ensures { OnOk result (found.new ≡ met tables.now found.old (return_sites tables.now scope.now at operand.now)) }
{
    let home = scope.home();
    returns(tables, home, operand.is_some(), at, found);
    returned_faults(
        alloc,
        tables,
        scope,
        want_of_return(tables, home),
        operand,
        found,
    )
}

#[tactic(auto, using(c_expressions::proofs::MeetingLemmas::meeting))]
fn maybe_rhs_faults(
    alloc: Global,
    tables: &Tables,
    scope: &Scope,
    kind: Kind,
    from: &Option<Rhs>,
    found: &mut Option<TypeFault>,
) -> Mem<()>
    ensures { OnOk result
        (found.new ≡ met tables.now found.old
        (maybe_sites (rhs_sites tables.now scope.now (want_of_kind kind)) from.now)) }
{
    match from {
        Some(rhs) => rhs_faults(alloc, tables, scope, want_of_kind(kind), rhs, found),
        None => Ok(()),
    }
}

/// What a declarator breaks, which is in scope from then on, also in its own initialiser.
#[tactic(auto, using(c_expressions::proofs::MeetingLemmas::meeting, c_making::proofs::ScopeSteps::scoping))]
fn declarator_faults(
    alloc: Global,
    tables: &Tables,
    scope: &mut Scope,
    kind: Kind,
    declarator: &Declarator,
    found: &mut Option<TypeFault>,
) -> Mem<()>
    ensures past { OnOk result (scope.new ≡ declared scope.old declarator.now.name.text kind) }
    ensures found { OnOk result
        (found.new ≡ met tables.now found.old
        (declarator_sites tables.now kind scope.old declarator.now)) }
{
    defines_variable(tables, scope, &declarator.name, found);
    scope.declare(alloc, declarator.name.text.as_slice(), kind)?;
    maybe_rhs_faults(alloc, tables, scope, kind, &declarator.from, found)
}

#[tactic(auto, using(c_expressions::proofs::MeetingLemmas::meeting, c_making::proofs::ScopeSteps::scoping))]
fn declarators_faults(
    alloc: Global,
    tables: &Tables,
    scope: &mut Scope,
    kind: Kind,
    vars: &[Declarator],
    found: &mut Option<TypeFault>,
) -> Mem<()>
    ensures past { OnOk result (scope.new ≡ all_declared kind vars.now scope.old) }
    ensures found { OnOk result
        (found.new ≡ met tables.now found.old
        (declarators_sites tables.now kind vars.now scope.old)) }
{
    for var in vars {
        declarator_faults(alloc, tables, scope, kind, var, found)?;
    }
    Ok(())
}

/// What a declaration breaks.
#[tactic(auto, using(c_expressions::proofs::MeetingLemmas::meeting, c_making::proofs::ScopeSteps::scoping))]
fn declare_faults(
    alloc: Global,
    tables: &Tables,
    scope: &mut Scope,
    declare: &Declare,
    found: &mut Option<TypeFault>,
) -> Mem<()>
    ensures past { OnOk result (scope.new ≡ past_declare tables.now declare.now scope.old) }
    ensures found { OnOk result
        (found.new ≡ met tables.now found.old
        (declare_sites tables.now declare.now scope.old)) }
{
    uses_type(tables, declare, found);
    let kind = kind_of(tables, declare);
    declarators_faults(alloc, tables, scope, kind, declarators_of(declare), found)
}

/// What stands first in the head of a `for` breaks.
#[tactic(auto, using(c_expressions::proofs::MeetingLemmas::meeting, c_making::proofs::ScopeSteps::scoping))]
fn first_faults(
    alloc: Global,
    tables: &Tables,
    scope: &mut Scope,
    first: &First,
    found: &mut Option<TypeFault>,
) -> Mem<()>
    ensures past { OnOk result (scope.new ≡ past_first tables.now first.now scope.old) }
    ensures found { OnOk result (found.new ≡ met tables.now found.old (first_sites tables.now first.now scope.old)) }
{
    match first {
        First::Declare(declare) => declare_faults(alloc, tables, scope, declare, found),
        First::Simple(simple) => simple_faults(alloc, tables, scope, simple, found),
        First::Nothing => Ok(()),
    }
}

/// What a block breaks.
#[cycle(stmt)]
#[tactic(auto, using(c_typing::proofs::ScopeLayers::scope_layers, c_making::proofs::ScopeSteps::scoping))]
pub fn block_faults(
    alloc: Global,
    tables: &Tables,
    scope: &mut Scope,
    looping: bool,
    block: &Block,
    found: &mut Option<TypeFault>,
) -> Mem<()>
    ensures past { OnOk result (scope.new ≡ past_block tables.now block.now scope.old) }
    ensures blocks { OnOk result (scope.new.blocks ≡ scope.old.blocks) }
    ensures found { OnOk result
        (found.new ≡ met tables.now found.old
        (block_sites tables.now block.now looping scope.old)) }
{
    scope.enter(alloc)?;
    parts_faults(alloc, tables, scope, looping, block.parts.as_slice(), found)?;
    scope.leave();
    Ok(())
}

/// What parts of a block break, each in the scope that those before it leave.
#[cycle(stmt)]
#[tactic(auto, using(c_typing::proofs::ScopeLayers::scope_layers, c_making::proofs::ScopeSteps::scoping))]
fn parts_faults(
    alloc: Global,
    tables: &Tables,
    scope: &mut Scope,
    looping: bool,
    parts: &[Part],
    found: &mut Option<TypeFault>,
) -> Mem<()>
    ensures past { OnOk result (scope.new ≡ past_parts tables.now parts.now scope.old) }
    ensures outer { OnOk result (outer scope.new.blocks ≡ outer scope.old.blocks) }
    ensures found { OnOk result
        (found.new ≡ met tables.now found.old
        (parts_sites tables.now parts.now looping scope.old)) }
{
    for part in parts {
        part_faults(alloc, tables, scope, looping, part, found)?;
    }
    Ok(())
}

#[cycle(stmt)]
#[tactic(auto, using(c_typing::proofs::ScopeLayers::scope_layers, c_making::proofs::ScopeSteps::scoping))]
fn part_faults(
    alloc: Global,
    tables: &Tables,
    scope: &mut Scope,
    looping: bool,
    part: &Part,
    found: &mut Option<TypeFault>,
) -> Mem<()>
    ensures past { OnOk result (scope.new ≡ past_part tables.now part.now scope.old) }
    ensures outer { OnOk result (outer scope.new.blocks ≡ outer scope.old.blocks) }
    ensures found { OnOk result
        (found.new ≡ met tables.now found.old
        (part_sites tables.now part.now looping scope.old)) }
{
    match part {
        Part::Declare(declare) => declare_faults(alloc, tables, scope, declare, found),
        Part::Stmt(stmt) => stmt_faults(alloc, tables, scope, looping, stmt, found),
    }
}

/// What a statement breaks.
#[cycle(stmt)]
#[tactic(auto, using(c_typing::proofs::ScopeLayers::scope_layers, c_making::proofs::ScopeSteps::scoping))]
fn stmt_faults(
    alloc: Global,
    tables: &Tables,
    scope: &mut Scope,
    looping: bool,
    stmt: &Stmt,
    found: &mut Option<TypeFault>,
) -> Mem<()>
    ensures past { OnOk result (scope.new ≡ past_stmt tables.now stmt.now scope.old) }
    ensures blocks { OnOk result (scope.new.blocks ≡ scope.old.blocks) }
    ensures found { OnOk result
        (found.new ≡ met tables.now found.old
        (stmt_sites tables.now stmt.now looping scope.old)) }
{
    match stmt {
        Stmt::Empty { .. } => Ok(()),
        Stmt::Block(block) => block_faults(alloc, tables, scope, looping, block, found),
        Stmt::Simple(simple) => simple_faults(alloc, tables, scope, simple.get(), found),
        Stmt::If {
            cond,
            then,
            other,
            ..
        } => {
            cond_faults(alloc, tables, scope, cond, found)?;
            stmt_faults(alloc, tables, scope, looping, then.get(), found)?;
            other_faults(alloc, tables, scope, looping, other, found)
        }
        Stmt::While { cond, body, .. } => {
            cond_faults(alloc, tables, scope, cond, found)?;
            stmt_faults(alloc, tables, scope, true, body.get(), found)
        }
        Stmt::Do { body, cond, .. } => {
            cond_faults(alloc, tables, scope, cond, found)?;
            stmt_faults(alloc, tables, scope, true, body.get(), found)
        }
        Stmt::For {
            first,
            cond,
            next,
            body,
            ..
        } => {
            scope.enter(alloc)?;
            first_faults(alloc, tables, scope, first.get(), found)?;
            maybe_cond_faults(alloc, tables, scope, cond, found)?;
            maybe_simple_faults(alloc, tables, scope, next, found)?;
            stmt_faults(alloc, tables, scope, true, body.get(), found)?;
            scope.leave();
            Ok(())
        }
        Stmt::Return { at, operand } => return_faults(alloc, tables, scope, *at, operand, found),
        Stmt::Break { at } => {
            jumps(tables, looping, *at, found);
            Ok(())
        }
        Stmt::Continue { at } => {
            jumps(tables, looping, *at, found);
            Ok(())
        }
        Stmt::Assert { cond, .. } => cond_faults(alloc, tables, scope, cond, found),
    }
}

#[cycle(stmt)]
#[tactic(auto, using(c_expressions::proofs::MeetingLemmas::meeting))]
fn other_faults(
    alloc: Global,
    tables: &Tables,
    scope: &mut Scope,
    looping: bool,
    other: &Option<Boxed<Stmt>>,
    found: &mut Option<TypeFault>,
) -> Mem<()>
    ensures past { OnOk result (scope.new ≡ past_other tables.now other.now scope.old) }
    ensures blocks { OnOk result (scope.new.blocks ≡ scope.old.blocks) }
    ensures found { OnOk result
        (found.new ≡ met tables.now found.old
        (other_sites tables.now other.now looping scope.old)) }
{
    match other {
        Some(stmt) => stmt_faults(alloc, tables, scope, looping, stmt.get(), found),
        None => Ok(()),
    }
}
