// What statements and blocks call.
ghost use Rattle.std.specs.Prelude.{◌≡◌, ◌++◌, map, OnOk};
ghost use Rattle.c_typing.specs.Callees.{maybe_callees, rhs_callees, simple_callees, declarator_callees};
ghost use Rattle.c_typing.specs.Callees.{declare_callees, first_callees, part_callees, stmt_callees, block_callees};
ghost use Rattle.c_typing.specs.Callees.{other_callees};
ghost use Rattle.c_typing.specs.Globals.{numbers_among};
ghost use Rattle.c_typing.specs.Texts.{each_of, joined};
ghost use Rattle.c_callees.specs.inner.Calling.{called};

use crate::operands::{call_calls, cond_calls, maybe_cond_calls, maybe_operand_calls, rhs_calls};
use c_ast::{Block, Declarator, Declare, First, Part, Simple, Stmt};
use fore_base::boxed::Boxed;
use fore_base::list::List;
use fore_base::memory::Mem;
use fore_base::names::Names;

/// What a statement without parts calls.
#[tactic(auto, using(crate::proofs::CallingLemmas::calling))]
fn simple_calls(names: &Names, simple: &Simple, found: &mut List<u32>) -> Mem<()>
    ensures { OnOk result (found.new ≡ called names.now found.old (simple_callees simple.now)) }
{
    match simple {
        Simple::Assign { from, .. } => rhs_calls(names, from, found),
        Simple::Call(call) => call_calls(names, call, found),
        Simple::Free { .. } => Ok(()),
    }
}

#[tactic(auto, using(crate::proofs::CallingLemmas::calling))]
fn maybe_simple_calls(
    names: &Names,
    simple: &Option<Boxed<Simple>>,
    found: &mut List<u32>,
) -> Mem<()>
    ensures { OnOk result (found.new ≡ called names.now found.old (maybe_callees simple_callees simple.now)) }
{
    match simple {
        Some(simple) => simple_calls(names, simple.get(), found),
        None => Ok(()),
    }
}

/// What an initialiser calls.
#[tactic(auto, using(crate::proofs::CallingLemmas::calling))]
fn declarator_calls(names: &Names, declarator: &Declarator, found: &mut List<u32>) -> Mem<()>
    ensures { OnOk result (found.new ≡ called names.now found.old (declarator_callees declarator.now)) }
{
    match &declarator.from {
        Some(rhs) => rhs_calls(names, rhs, found),
        None => Ok(()),
    }
}

#[tactic(auto, using(crate::proofs::CallingLemmas::calling))]
fn declarators_calls(names: &Names, vars: &[Declarator], found: &mut List<u32>) -> Mem<()>
    ensures { OnOk result (found.new ≡ called names.now found.old (each_of declarator_callees vars.now)) }
{
    for var in vars {
        declarator_calls(names, var, found)?;
    }
    Ok(())
}

/// What a declaration calls.
#[tactic(auto, using(crate::proofs::CallingLemmas::calling))]
fn declare_calls(names: &Names, declare: &Declare, found: &mut List<u32>) -> Mem<()>
    ensures { OnOk result (found.new ≡ called names.now found.old (declare_callees declare.now)) }
{
    match declare {
        Declare::Pointers { vars, .. } | Declare::Datums { vars, .. } => {
            declarators_calls(names, vars.as_slice(), found)
        }
    }
}

/// What stands first in the head of a `for` calls.
#[tactic(auto, using(crate::proofs::CallingLemmas::calling))]
fn first_calls(names: &Names, first: &First, found: &mut List<u32>) -> Mem<()>
    ensures { OnOk result (found.new ≡ called names.now found.old (first_callees first.now)) }
{
    match first {
        First::Declare(declare) => declare_calls(names, declare, found),
        First::Simple(simple) => simple_calls(names, simple, found),
        First::Nothing => Ok(()),
    }
}

#[cycle(stmt)]
#[tactic(auto, using(c_typing::proofs::CalleeLayers::callee_layers, crate::proofs::CallingLemmas::calling))]
fn within_block(names: &Names, block: &Block, found: &mut List<u32>) -> Mem<()>
    ensures { OnOk result (found.new ≡ called names.now found.old (block_callees block.now)) }
{
    parts_calls(names, block.parts.as_slice(), found)
}

#[cycle(stmt)]
#[tactic(auto, using(crate::proofs::CallingLemmas::calling))]
fn parts_calls(names: &Names, parts: &[Part], found: &mut List<u32>) -> Mem<()>
    ensures { OnOk result (found.new ≡ called names.now found.old (joined (map part_callees parts.now))) }
{
    for part in parts {
        part_calls(names, part, found)?;
    }
    Ok(())
}

#[cycle(stmt)]
#[tactic(auto, using(c_typing::proofs::CalleeLayers::callee_layers, crate::proofs::CallingLemmas::calling))]
fn part_calls(names: &Names, part: &Part, found: &mut List<u32>) -> Mem<()>
    ensures { OnOk result (found.new ≡ called names.now found.old (part_callees part.now)) }
{
    match part {
        Part::Declare(declare) => declare_calls(names, declare, found),
        Part::Stmt(stmt) => stmt_calls(names, stmt, found),
    }
}

/// What a statement calls.
#[cycle(stmt)]
#[tactic(auto, using(c_typing::proofs::CalleeLayers::callee_layers, crate::proofs::CallingLemmas::calling))]
fn stmt_calls(names: &Names, stmt: &Stmt, found: &mut List<u32>) -> Mem<()>
    ensures { OnOk result (found.new ≡ called names.now found.old (stmt_callees stmt.now)) }
{
    match stmt {
        Stmt::Empty { .. } | Stmt::Break { .. } | Stmt::Continue { .. } => Ok(()),
        Stmt::Block(block) => within_block(names, block, found),
        Stmt::Simple(simple) => simple_calls(names, simple.get(), found),
        Stmt::If {
            cond,
            then,
            other,
            ..
        } => {
            cond_calls(names, cond, found)?;
            stmt_calls(names, then.get(), found)?;
            other_calls(names, other, found)?;
            Ok(())
        }
        Stmt::While { cond, body, .. } => {
            cond_calls(names, cond, found)?;
            stmt_calls(names, body.get(), found)?;
            Ok(())
        }
        Stmt::Do { body, cond, .. } => {
            stmt_calls(names, body.get(), found)?;
            cond_calls(names, cond, found)?;
            Ok(())
        }
        Stmt::For {
            first,
            cond,
            next,
            body,
            ..
        } => {
            first_calls(names, first.get(), found)?;
            maybe_cond_calls(names, cond, found)?;
            maybe_simple_calls(names, next, found)?;
            stmt_calls(names, body.get(), found)?;
            Ok(())
        }
        Stmt::Return { operand, .. } => maybe_operand_calls(names, operand, found),
        Stmt::Assert { cond, .. } => cond_calls(names, cond, found),
    }
}

#[cycle(stmt)]
#[tactic(auto, using(crate::proofs::CallingLemmas::calling))]
fn other_calls(names: &Names, other: &Option<Boxed<Stmt>>, found: &mut List<u32>) -> Mem<()>
    ensures { OnOk result (found.new ≡ called names.now found.old (other_callees other.now)) }
{
    match other {
        Some(stmt) => stmt_calls(names, stmt.get(), found),
        None => Ok(()),
    }
}

/// Adds the numbers of the functions that a block calls, in the order of the text, each as often as it is called; those
/// whose names are not among `names` count for nothing.
///
/// # Errors
///
/// Want of memory.
pub fn block_calls(names: &Names, block: &Block, found: &mut List<u32>) -> Mem<()>
    ensures { OnOk result (found.new ≡ found.old ++ numbers_among names.now (block_callees block.now)) }
{
    within_block(names, block, found)?;
    Ok(())
}
