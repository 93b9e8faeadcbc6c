// How many edges acts and tests have, by the lengths of their paths, and how many the steps of calls have, by their
// links.
ghost use Rattle.std.specs.Prelude.{◌≡◌, ◌+◌, length, slice_get, IfOk};
ghost use Rattle.c_lower.specs.inner.Numbering.{enter_width, exit_width};
ghost use Rattle.c_lower.specs.inner.Sizes.{end_size, step_size, path_size, var_size, field_size, ptr_size, read_size};
ghost use Rattle.c_lower.specs.inner.Sizes.{datum_size, data_var_size, data_field_size, data_size, return_size};
ghost use Rattle.c_lower.specs.inner.Sizes.{act_size, leave_size};
ghost use Rattle.c_lower.specs.inner.Sizes.{test_size, op_size, data_op_size, atom_size};

use c_edges::calls::{enter_links, exit_links, leave_links};
use c_links::counts::Counts;
use c_links::sums::{count, sum};
use c_types::program::{
    Act, Arg, Atom, DataOp, DataPath, DataRhs, Dest, Func, Path, PtrOp, PtrRhs, VarRef,
};
use fore_base::list::List;
use fore_base::memory::Mem;
use std::alloc::Global;

/// The `Kill` of the temporaries that so many reads use.
fn end_size(reads: u32) -> u32
    ensures { result ≡ end_size reads }
{
    if reads == 0 { 0 } else { 1 }
}

/// So many reads, one more edge, and the end.
fn step_size(reads: u32) -> Mem<u32>
    ensures { IfOk result (λ size. size ≡ step_size reads) }
{
    let edges = sum(reads, 1)?;
    sum(edges, end_size(reads))
}

/// The number of arrows of a path.
fn arrows(path: &Path) -> Mem<u32>
    ensures { IfOk result (λ arrows. arrows ≡ length path.now.fields) }
{
    count(path.fields.len())
}

/// How many edges an act has, in a program with these functions.
pub fn act_size(alloc: Global, counts: &Counts, funcs: &List<Func>, act: &Act) -> Mem<u32>
    ensures { IfOk result (λ size. size ≡ act_size counts.now.ptrs counts.now.datums funcs.now act.now) }
{
    match act {
        Act::SetPtr { to, from } => ptr_size(to.fields.as_slice(), from),
        Act::SetData { to, from } => data_size(to, from),
        Act::Free(path) => step_size(arrows(path)?),
        Act::Error => Ok(1),
        Act::Halt => Ok(1),
        Act::Return(operand) => return_size(operand),
        Act::Leave { func, value } => leave_size(alloc, counts, funcs, *func, value),
        Act::Break => Ok(1),
        Act::Continue => Ok(1),
    }
}

/// How many edges a `return` of a function has.
fn leave_size(
    alloc: Global,
    counts: &Counts,
    funcs: &List<Func>,
    func: u32,
    value: &Option<Arg>,
) -> Mem<u32>
    ensures { IfOk result (λ size. size
        ≡ leave_size counts.now.ptrs counts.now.datums funcs.now (slice_get funcs.now func) value.now) }
{
    match funcs.get(func as usize) {
        None => Ok(1),
        Some(left) => {
            let locals = left.locals.as_slice();
            let links = leave_links(alloc, counts, &left.result, locals, value)?;
            count(links.len())
        }
    }
}

/// How many edges the begin of a call has.
#[tactic(auto, using(crate::proofs::Sized::sizes))]
pub fn enter_size(alloc: Global, counts: &Counts, params: &[VarRef], args: &[Arg]) -> Mem<u32>
    ensures { IfOk result (λ size. size ≡ enter_width counts.now.ptrs counts.now.datums params.now args.now) }
{
    let links = enter_links(alloc, counts, params, args)?;
    count(links.len())
}

/// How many edges the end of a call has.
#[tactic(auto, using(crate::proofs::Sized::sizes))]
pub fn exit_size(
    alloc: Global,
    counts: &Counts,
    source: &Option<VarRef>,
    params: &[VarRef],
    to: &Option<Dest>,
) -> Mem<u32>
    ensures { IfOk result (λ size. size
        ≡ exit_width counts.now.ptrs counts.now.datums source.now params.now to.now) }
{
    let links = exit_links(alloc, counts, source, params, to)?;
    count(links.len())
}

fn ptr_size(to: &[u32], from: &PtrRhs) -> Mem<u32>
    ensures { IfOk result (λ size. size ≡ ptr_size to.now from.now) }
{
    match to.split_first() {
        None => var_size(from),
        Some((_, others)) => field_size(count(others.len())?, from),
    }
}

fn var_size(from: &PtrRhs) -> Mem<u32>
    ensures { IfOk result (λ size. size ≡ var_size from.now) }
{
    match from {
        PtrRhs::Path(path) => path_size(path.fields.as_slice()),
        PtrRhs::Null => Ok(1),
        PtrRhs::New(_) => Ok(1),
    }
}

/// The reads before the last arrow of a path, and the last one.
fn path_size(fields: &[u32]) -> Mem<u32>
    ensures { IfOk result (λ size. size ≡ path_size fields.now) }
{
    match fields.split_first() {
        None => Ok(1),
        Some((_, others)) => step_size(count(others.len())?),
    }
}

/// An assignment to the end of one arrow more than these.
fn field_size(before: u32, from: &PtrRhs) -> Mem<u32>
    ensures { IfOk result (λ size. size ≡ field_size before from.now) }
{
    match from {
        PtrRhs::Path(path) => step_size(sum(arrows(path)?, before)?),
        PtrRhs::Null => step_size(before),
        PtrRhs::New(_) => sum(before, 3),
    }
}

fn data_size(to: &DataPath, from: &DataRhs) -> Mem<u32>
    ensures { IfOk result (λ size. size ≡ data_size to.now from.now) }
{
    match to {
        DataPath::Var(_) => data_var_size(from),
        DataPath::Field { base, .. } => data_field_size(arrows(base)?, from),
    }
}

fn data_var_size(from: &DataRhs) -> Mem<u32>
    ensures { IfOk result (λ size. size ≡ data_var_size from.now) }
{
    match from {
        DataRhs::Path(path) => datum_size(path),
        DataRhs::Known(_) => Ok(1),
        DataRhs::Choice => Ok(1),
    }
}

fn datum_size(path: &DataPath) -> Mem<u32>
    ensures { IfOk result (λ size. size ≡ datum_size path.now) }
{
    match path {
        DataPath::Var(_) => Ok(1),
        DataPath::Field { base, .. } => step_size(arrows(base)?),
    }
}

/// An assignment to a data field of a cell behind so many arrows.
fn data_field_size(before: u32, from: &DataRhs) -> Mem<u32>
    ensures { IfOk result (λ size. size ≡ data_field_size before from.now) }
{
    match from {
        DataRhs::Path(path) => step_size(sum(read_size(path)?, before)?),
        DataRhs::Known(_) => step_size(before),
        DataRhs::Choice => sum(before, 3),
    }
}

/// The reads of a datum.
fn read_size(path: &DataPath) -> Mem<u32>
    ensures { IfOk result (λ size. size ≡ read_size path.now) }
{
    match path {
        DataPath::Var(_) => Ok(0),
        DataPath::Field { base, .. } => sum(arrows(base)?, 1),
    }
}

fn return_size(operand: &Option<DataPath>) -> Mem<u32>
    ensures { IfOk result (λ size. size ≡ return_size operand.now) }
{
    match operand {
        None => Ok(1),
        Some(path) => sum(read_size(path)?, 1),
    }
}

/// How many locations a test takes.
pub fn atom_size(atom: &Atom) -> Mem<u32>
    ensures { IfOk result (λ size. size ≡ atom_size atom.now) }
{
    match atom {
        Atom::Choice => Ok(1),
        Atom::Known(_) => Ok(1),
        Atom::Ptr { left, right, .. } => test_size(sum(op_size(left)?, op_size(right)?)?),
        Atom::Data { left, right, .. } => test_size(sum(
            data_op_size(left)?,
            data_op_size(right)?,
        )?),
    }
}

/// A test after so many reads, whose temporaries die on each branch.
fn test_size(reads: u32) -> Mem<u32>
    ensures { IfOk result (λ size. size ≡ test_size reads) }
{
    let own = sum(reads, 1)?;
    let ends = end_size(reads);
    sum(own, ends + ends)
}

fn op_size(op: &PtrOp) -> Mem<u32>
    ensures { IfOk result (λ size. size ≡ op_size op.now) }
{
    match op {
        PtrOp::Path(path) => arrows(path),
        PtrOp::Null => Ok(0),
    }
}

fn data_op_size(op: &DataOp) -> Mem<u32>
    ensures { IfOk result (λ size. size ≡ data_op_size op.now) }
{
    match op {
        DataOp::Path(path) => read_size(path),
        DataOp::Known(_) => Ok(0),
    }
}
