//! Data: the values of data variables and of the data fields of cells.

ghost use Rattle.std.specs.Prelude.{◌≡◌, MatchResult, OnErr};
ghost use Rattle.c_types.specs.Steps.{read_data, read_data_op, read_data_rhs, look_at, write_data, same_values};
ghost use Rattle.c_types.specs.Steps.{same_datums, agrees, atom_of, read_op, is_one};
ghost use Rattle.c_heap.specs.Sizes.{IsNoLarger};

use crate::paths::read;
use c_heap::heap::Heap;
use c_types::program::{Atom, DataOp, DataPath, DataRhs, PtrOp};
use fore_base::fault::Fault;
use fore_base::store::{Datum, Value};

/// The datum at a path.
pub fn read_data(heap: &Heap, path: &DataPath) -> Result<Datum, Fault>
    ensures { result ≡ read_data heap.now path.now }
{
    match path {
        DataPath::Var(var) => Ok(heap.datum(*var)),
        DataPath::Field { base, field } => {
            let value = read(heap, base)?;
            heap.load_datum(value, *field)
        }
    }
}

/// Writes the datum at a path.
pub fn write_data(heap: &mut Heap, path: &DataPath, datum: Datum) -> Result<(), Fault>
    ensures result { MatchResult result (λ _. write_data heap.old path.now datum ≡ Ok heap.new)
        (λ fault. write_data heap.old path.now datum ≡ Err fault) }
    ensures keeps { IsNoLarger heap.old heap.new }
{
    match path {
        DataPath::Var(var) => {
            heap.set_datum(*var, datum);
            Ok(())
        }
        DataPath::Field { base, field } => {
            let value = read(heap, base)?;
            heap.store_datum(value, *field, datum)
        }
    }
}

/// What is assigned to a datum; `choice` is the choice that was taken, if one was.
pub fn read_data_rhs(heap: &Heap, from: &DataRhs, choice: u8) -> Result<Datum, Fault>
    ensures { result ≡ read_data_rhs heap.now from.now choice }
{
    match from {
        DataRhs::Path(path) => read_data(heap, path),
        DataRhs::Known(number) => Ok(Datum::Known(*number)),
        DataRhs::Choice => Ok(Datum::Known(choice)),
    }
}

pub fn read_op(heap: &Heap, op: &PtrOp) -> Result<Value, Fault>
    ensures { result ≡ read_op heap.now op.now }
{
    match op {
        PtrOp::Path(path) => read(heap, path),
        PtrOp::Null => Ok(Value::Null),
    }
}

pub fn read_data_op(heap: &Heap, op: &DataOp) -> Result<Datum, Fault>
    ensures { result ≡ read_data_op heap.now op.now }
{
    match op {
        DataOp::Path(path) => read_data(heap, path),
        DataOp::Known(number) => Ok(Datum::Known(*number)),
    }
}

/// Whether two pointers are equal. An indeterminate one cannot be tested.
pub fn same_values(left: Value, right: Value) -> Result<bool, Fault>
    ensures { result ≡ same_values left right }
{
    match (left, right) {
        (Value::Uninit, _) | (Value::Dangling, _) => Err(Fault::IndetTest),
        (_, Value::Uninit) | (_, Value::Dangling) => Err(Fault::IndetTest),
        (Value::Null, Value::Null) => Ok(true),
        (Value::Cell(one), Value::Cell(other)) => Ok(one == other),
        (Value::Null, Value::Cell(_)) | (Value::Cell(_), Value::Null) => Ok(false),
    }
}

pub fn same_datums(left: Datum, right: Datum) -> Result<bool, Fault>
    ensures { result ≡ same_datums left right }
{
    match (left, right) {
        (Datum::Known(one), Datum::Known(other)) => Ok(one == other),
        _ => Err(Fault::IndetTest),
    }
}

pub fn agreed(equal: bool, same: bool) -> bool
    ensures { result ≡ agrees equal same }
{
    if equal { same } else { !same }
}

fn compare(heap: &Heap, left: &PtrOp, right: &PtrOp, equal: bool) -> Result<bool, Fault>
    ensures { result ≡ atom_of (Atom.Ptr left.now right.now equal) heap.now 0 }
{
    let one = read_op(heap, left)?;
    let other = read_op(heap, right)?;
    let same = same_values(one, other)?;
    Ok(agreed(equal, same))
}

fn compare_data(heap: &Heap, left: &DataOp, right: &DataOp, equal: bool) -> Result<bool, Fault>
    ensures { result ≡ atom_of (Atom.Data left.now right.now equal) heap.now 0 }
{
    let one = read_data_op(heap, left)?;
    let other = read_data_op(heap, right)?;
    let same = same_datums(one, other)?;
    Ok(agreed(equal, same))
}

/// A choice as a truth.
pub fn chosen(choice: u8) -> bool
    ensures { result ≡ is_one choice }
{
    choice != 0
}

/// The outcome of a test without parts; `choice` is the choice that was taken, if one was.
pub fn outcome_of(heap: &Heap, atom: &Atom, choice: u8) -> Result<bool, Fault>
    ensures { result ≡ atom_of atom.now heap.now choice }
{
    match atom {
        Atom::Choice => Ok(chosen(choice)),
        Atom::Known(truth) => Ok(*truth),
        Atom::Ptr { left, right, equal } => compare(heap, left, right, *equal),
        Atom::Data { left, right, equal } => compare_data(heap, left, right, *equal),
    }
}
