//! Whether an act, the end of a block, or a step of a call takes a reference to a cell away. Any other step has the
//! leak test's answer of before it.

ghost use Rattle.std.specs.Prelude.{◌≡◌, ◌||◌, [], ◌∷◌, length, map};
ghost use Rattle.c_types.specs.Control.{closed_ptrs, with_result};
ghost use Rattle.c_types.specs.Losses.{is_cell, hold_cell, got_cell, assign_loses, act_loses, vars_hold, to_loses};
ghost use Rattle.c_types.specs.Steps.{read, below};
ghost use Rattle.c_machine.specs.Pending.{pending};
ghost use Rattle.c_machine.specs.inner.Losing.{some_true, held_in, held_among};

use crate::items::Item;
use c_acts::paths::read;
use c_heap::heap::Heap;
use c_types::program::{Act, Dest, Func, Path, PtrRhs, Stmt, VarRef};
use fore_base::store::Value;

fn is_cell(value: Value) -> bool
    ensures { result ≡ is_cell value }
{
    match value {
        Value::Cell(_) => true,
        _ => false,
    }
}

/// Whether one of these variables refers to a cell.
pub fn hold_cell(heap: &Heap, vars: &[u32]) -> bool
    ensures { result ≡ hold_cell heap.now.vars vars.now }
{
    for var in vars {
        if is_cell(heap.var(*var)) {
            return true;
        }
    }
    false
}

fn is_some_cell(values: &[Value]) -> bool
    ensures { result ≡ some_true (map is_cell values.now) }
{
    for value in values {
        if is_cell(*value) {
            return true;
        }
    }
    false
}

/// Whether any variable refers to a cell.
#[tactic(auto, using(crate::proofs::Holding::hold_all))]
fn some_holds_cell(heap: &Heap) -> bool
    ensures { result ≡ hold_cell heap.now.vars (below (length heap.now.vars)) }
{
    is_some_cell(heap.store().vars.as_slice())
}

fn leads_to_cell(heap: &Heap, path: &Path) -> bool
    ensures { result ≡ got_cell (read heap.now path.now) }
{
    match read(heap, path) {
        Ok(value) => is_cell(value),
        Err(_) => false,
    }
}

fn assign_loses(heap: &Heap, to: &Path, from: &PtrRhs) -> bool
    ensures { result ≡ assign_loses heap.now to.now from.now }
{
    match from {
        PtrRhs::New(_) => true,
        PtrRhs::Path(_) | PtrRhs::Null => leads_to_cell(heap, to),
    }
}

/// Whether a variable of the blocks among these statements refers to a cell.
#[cycle(blocks_hold_cell)]
#[tactic(auto, using(crate::proofs::Holding::held, crate::proofs::Walks::walks))]
fn blocks_hold_cell(heap: &Heap, stmts: &[Stmt]) -> bool
    ensures { result ≡ held_among heap.now.vars stmts.now }
{
    for stmt in stmts {
        if stmt_holds_cell(heap, stmt) {
            return true;
        }
    }
    false
}

#[cycle(blocks_hold_cell)]
#[tactic(auto, using(crate::proofs::Holding::held, crate::proofs::Walks::walks))]
fn stmt_holds_cell(heap: &Heap, stmt: &Stmt) -> bool
    ensures { result ≡ held_in heap.now.vars stmt.now }
{
    match stmt {
        Stmt::Group { body, ptrs, .. } => {
            blocks_hold_cell(heap, body.as_slice()) || hold_cell(heap, ptrs.as_slice())
        }
        _ => false,
    }
}

/// Whether a variable that dies where a round is left refers to a cell.
#[tactic(auto, using(crate::proofs::Holding::leaves))]
fn round_holds_cell(heap: &Heap, stack: &[Item]) -> bool
    ensures { result ≡ hold_cell heap.now.vars (closed_ptrs (pending stack.now)) }
{
    match stack.split_last() {
        None => false,
        Some((item, others)) => match *item {
            Item::Block(body) => {
                blocks_hold_cell(heap, body.stmts) || round_holds_cell(heap, others)
            }
            Item::Close { ptrs, .. } => hold_cell(heap, ptrs) || round_holds_cell(heap, others),
            Item::Loop { .. } => round_holds_cell(heap, others),
            Item::Exit { .. } | Item::Again { .. } | Item::DoAgain { .. } => false,
        },
    }
}

/// Whether an act, before what is on the stack, takes a reference to a cell away.
pub fn act_loses(heap: &Heap, stack: &[Item], act: &Act) -> bool
    ensures { result ≡ act_loses act.now (pending stack.now) heap.now }
{
    match act {
        Act::SetPtr { to, from } => assign_loses(heap, to, from),
        Act::Free(path) => leads_to_cell(heap, path),
        Act::Return(_) => some_holds_cell(heap),
        Act::Break | Act::Continue => round_holds_cell(heap, stack),
        Act::SetData { .. } | Act::Error | Act::Halt | Act::Leave { .. } => false,
    }
}

/// Whether one of these variables refers to a cell.
#[tactic(auto, using(crate::proofs::Holding::calls))]
fn vars_hold(heap: &Heap, vars: &[VarRef]) -> bool
    ensures { result ≡ vars_hold heap.now vars.now }
{
    match vars.split_first() {
        Some((var, others)) => var_holds(heap, var) || vars_hold(heap, others),
        None => false,
    }
}

fn var_holds(heap: &Heap, var: &VarRef) -> bool
    ensures { result ≡ vars_hold heap.now (var.now ∷ []) }
{
    match var {
        VarRef::Ptr(var) => is_cell(heap.var(*var)),
        VarRef::Data(_) => false,
    }
}

/// Whether the result, if there is one, or another of these variables refers to a cell.
#[tactic(auto, using(crate::proofs::Holding::calls))]
fn call_holds(heap: &Heap, held: &Option<VarRef>, vars: &[VarRef]) -> bool
    ensures { result ≡ vars_hold heap.now (with_result held.now vars.now) }
{
    match held {
        Some(var) => var_holds(heap, var) || vars_hold(heap, vars),
        None => vars_hold(heap, vars),
    }
}

/// Whether what the result of a call is assigned to refers to a cell.
fn target_holds(heap: &Heap, to: &Option<Dest>) -> bool
    ensures { result ≡ to_loses heap.now to.now }
{
    match to {
        Some(Dest::Ptr(path)) => leads_to_cell(heap, path),
        Some(Dest::Data(_)) | None => false,
    }
}

/// Whether the beginning of a call takes a reference to a cell away: a parameter refers to one.
pub fn enter_loses(heap: &Heap, func: &Func) -> bool
    ensures { result ≡ vars_hold heap.now func.now.params }
{
    vars_hold(heap, func.params.as_slice())
}

/// Whether a function is left with a reference to a cell in its result or in a local variable, which goes.
pub fn leave_loses(heap: &Heap, func: &Func) -> bool
    ensures { result ≡ vars_hold heap.now (with_result func.now.result func.now.locals) }
{
    call_holds(heap, &func.result, func.locals.as_slice())
}

/// Whether the end of a call takes a reference to a cell away: what the result is assigned to, the result or a
/// parameter refers to one.
pub fn exit_loses(heap: &Heap, func: &Func, to: &Option<Dest>) -> bool
    ensures { result ≡ to_loses heap.now to.now || vars_hold heap.now (with_result func.now.result func.now.params) }
{
    target_holds(heap, to) || call_holds(heap, &func.result, func.params.as_slice())
}
