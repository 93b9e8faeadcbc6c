// What acts do to the store. They take no memory.
ghost use Rattle.std.specs.Prelude.{◌≡◌, ◌<◌, ◌+◌, ◌^◌, Some, MatchResult};
ghost use Rattle.c_types.specs.Steps.{makes_cell, assign_new, assign, look_at, write_path, blank};
ghost use Rattle.fore_base.specs.Stores.{grown};
ghost use Rattle.c_heap.specs.Needs.{IsRoomy};
ghost use Rattle.c_heap.specs.Sizes.{IsNoLarger, IsLittleLarger};
ghost use Rattle.c_acts.specs.Assigning.{copied, copied_data, freed_at, done_to};
ghost use Rattle.c_acts.specs.Making.{made_from};

use crate::data::{chosen, read_data, read_data_rhs, write_data};
use crate::paths::{read, write};
use c_heap::heap::Heap;
use c_heap::spares::Rooms;
use c_types::mode::MallocMode;
use c_types::program::{DataPath, DataRhs, Path, PtrRhs};
use fore_base::fault::Fault;
use fore_base::shape::Shape;
use fore_base::store::Value;
use std::alloc::Global;

/// Makes the cell that was made ready, and writes the pointer to it.
fn make(
    alloc: Global,
    shapes: &[Shape],
    shape: u32,
    heap: &mut Heap,
    rooms: &mut Rooms,
    to: &Path,
) -> Result<(), Fault>
    requires roomy { IsRoomy shapes.now heap.old (Some shape) rooms.old }
    requires below { heap.old.next + 1 < 2 ^ 64 }
    ensures done { MatchResult result
        (λ _. write_path (grown heap.old (blank shapes.now heap.old.next shape)) to.now.var to.now.fields
        (Value.Cell heap.old.next) ≡ Ok heap.new)
        (λ fault. write_path (grown heap.old (blank shapes.now heap.old.next shape)) to.now.var to.now.fields
        (Value.Cell heap.old.next) ≡ Err fault) }
    ensures larger { IsLittleLarger heap.old heap.new }
    ensures marks { rooms.new.marks ≡ rooms.old.marks }
{
    let _shapes = shapes;
    let _shape = shape;
    match rooms.blank.take() {
        Some(cell) => {
            let number = heap.grow(alloc, &mut rooms.seats, cell);
            write(heap, to, Value::Cell(number))
        }
        None => unreachable!(),
    }
}

/// Whether a `malloc` makes a cell; `choice` is the choice that was taken, if one was.
fn makes_cell(mode: MallocMode, choice: u8) -> bool
    ensures { result ≡ makes_cell mode choice }
{
    match mode {
        MallocMode::Always => true,
        MallocMode::MayFail => chosen(choice),
    }
}

/// Writes the pointer that a `malloc` gives.
fn assign_new(
    alloc: Global,
    shapes: &[Shape],
    makes: bool,
    shape: u32,
    heap: &mut Heap,
    rooms: &mut Rooms,
    to: &Path,
) -> Result<(), Fault>
    requires roomy { IsRoomy shapes.now heap.old (Some shape) rooms.old }
    requires below { heap.old.next + 1 < 2 ^ 64 }
    ensures done { MatchResult result (λ _. assign_new makes shapes.now heap.old to.now shape ≡ Ok heap.new)
        (λ fault. assign_new makes shapes.now heap.old to.now shape ≡ Err fault) }
    ensures larger { IsLittleLarger heap.old heap.new }
    ensures marks { rooms.new.marks ≡ rooms.old.marks }
{
    if makes {
        make(alloc, shapes, shape, heap, rooms, to)
    } else {
        write(heap, to, Value::Null)
    }
}

/// Assigns to a pointer; `choice` is the choice that was taken, if one was.
pub fn assign(
    alloc: Global,
    shapes: &[Shape],
    mode: MallocMode,
    heap: &mut Heap,
    rooms: &mut Rooms,
    to: &Path,
    from: &PtrRhs,
    choice: u8,
) -> Result<(), Fault>
    requires roomy { IsRoomy shapes.now heap.old (made_from from.now) rooms.old }
    requires below { heap.old.next + 1 < 2 ^ 64 }
    ensures done { MatchResult result (λ _. assign shapes.now mode heap.old to.now from.now choice ≡ Ok heap.new)
        (λ fault. assign shapes.now mode heap.old to.now from.now choice ≡ Err fault) }
    ensures larger { IsLittleLarger heap.old heap.new }
    ensures marks { rooms.new.marks ≡ rooms.old.marks }
{
    match from {
        PtrRhs::Path(path) => copy(heap, to, path),
        PtrRhs::Null => write(heap, to, Value::Null),
        PtrRhs::New(shape) => {
            let makes = makes_cell(mode, choice);
            assign_new(alloc, shapes, makes, *shape, heap, rooms, to)
        }
    }
}

fn copy(heap: &mut Heap, to: &Path, from: &Path) -> Result<(), Fault>
    ensures done { MatchResult result (λ _. copied heap.old to.now from.now ≡ Ok heap.new)
        (λ fault. copied heap.old to.now from.now ≡ Err fault) }
    ensures keeps { IsNoLarger heap.old heap.new }
{
    let value = read(heap, from)?;
    write(heap, to, value)
}

pub fn assign_data(heap: &mut Heap, to: &DataPath, from: &DataRhs, choice: u8) -> Result<(), Fault>
    ensures done { MatchResult result (λ _. copied_data heap.old to.now from.now choice ≡ Ok heap.new)
        (λ fault. copied_data heap.old to.now from.now choice ≡ Err fault) }
    ensures keeps { IsNoLarger heap.old heap.new }
{
    let datum = read_data_rhs(heap, from, choice)?;
    write_data(heap, to, datum)
}

pub fn free(heap: &mut Heap, path: &Path) -> Result<(), Fault>
    ensures done { MatchResult result (λ _. freed_at heap.old path.now ≡ Ok heap.new)
        (λ fault. freed_at heap.old path.now ≡ Err fault) }
    ensures keeps { IsNoLarger heap.old heap.new }
{
    let value = read(heap, path)?;
    heap.free(value)
}

/// What a `return` looks at.
pub fn look(heap: &Heap, operand: &Option<DataPath>) -> Result<(), Fault>
    ensures { done_to result heap.now ≡ look_at heap.now operand.now }
{
    match operand {
        None => Ok(()),
        Some(path) => {
            let _datum = read_data(heap, path)?;
            Ok(())
        }
    }
}
