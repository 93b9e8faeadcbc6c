//! The leak test: a walk over the cells from the variables. It takes no memory where there is room for its marks.

ghost use Rattle.std.specs.Prelude.{◌≡◌, ◌≤◌, ◌<◌, ◌++◌, ◌∷◌, [], true, false, not, length, replicate, slice_index_or};
ghost use Rattle.std.specs.Prelude.{slice_set, OnOk};
ghost use Rattle.std.specs.Vec.{vec_capacity};
ghost use Rattle.fore_base.specs.Heap.{leaks};
ghost use Rattle.c_heap.specs.Rising.{CellsRiseFrom, HasRisingCells, position_in};
ghost use Rattle.c_heap.specs.inner.Marking.{seen, noted, noted_at, noted_all, IsCounted};
ghost use Rattle.c_heap.specs.Marks.{HasRoomFor, IsAsRoomy};

use crate::search::position_of;
use fore_base::memory::Mem;
use fore_base::store::{CellRec, Store, Value};
use std::alloc::Global;

/// Which cells were reached, by their positions, and these positions in the order in which they were reached.
#[derive(Drop)]
pub struct Marks {
    pub reached: Vec<bool>,
    pub order: Vec<usize>,
}

/// Marks without room.
pub fn no_marks(alloc: Global) -> Marks {
    Marks {
        reached: Vec::new(alloc),
        order: Vec::new(alloc),
    }
}

/// Makes room for the marks of so many cells.
pub fn make_room(marks: &mut Marks, count: usize) -> Mem<()>
    ensures { OnOk result (HasRoomFor count marks.new) }
{
    marks.reached.clear();
    marks.order.clear();
    marks.reached.reserve(count)?;
    marks.order.reserve(count)?;
    Ok(())
}

/// Whether some cell cannot be reached from the variables. Each cell is looked at once.
pub fn has_leaked(marks: &mut Marks, store: &Store) -> bool
    requires rising { HasRisingCells store.now }
    requires room { HasRoomFor (length store.now.cells) marks.old }
    ensures leaked { result ≡ leaks store.now }
    ensures room { IsAsRoomy marks.old marks.new }
{
    let cells = store.cells.as_slice();
    begin(marks, cells.len());
    note_all(cells, store.vars.as_slice(), marks);
    let mut done = 0;
    while done < marks.order.len() {
        let at = nth(marks.order.as_slice(), done);
        note_all(cells, cells[at].fields.as_slice(), marks);
        done += 1;
    }
    marks.order.len() < cells.len()
}

fn nth(order: &[usize], at: usize) -> usize
    requires { at < length order.now }
    ensures { result ≡ slice_index_or order.now at 0 }
{
    order[at]
}

/// No cell is marked.
fn begin(marks: &mut Marks, count: usize)
    requires { HasRoomFor count marks.old }
    ensures none { seen marks.new ≡ record { reached = replicate count false; order = [] } }
    ensures counted { IsCounted marks.new }
    ensures room { IsAsRoomy marks.old marks.new }
{
    marks.order.clear();
    marks.reached.clear();
    match marks.reached.resize(count, false) {
        Ok(()) => {}
        Err(_) => unreachable!(),
    }
}

fn note_all(cells: &[CellRec], values: &[Value], marks: &mut Marks)
    requires rising { CellsRiseFrom 0 cells.now }
    requires counted { IsCounted marks.old }
    ensures noted { seen marks.new ≡ noted_all cells.now values.now (seen marks.old) }
    ensures counted { IsCounted marks.new }
    ensures room { IsAsRoomy marks.old marks.new }
{
    for value in values {
        note(cells, *value, marks);
    }
}

fn note(cells: &[CellRec], value: Value, marks: &mut Marks)
    requires rising { CellsRiseFrom 0 cells.now }
    requires counted { IsCounted marks.old }
    ensures noted { seen marks.new ≡ noted cells.now value (seen marks.old) }
    ensures counted { IsCounted marks.new }
    ensures room { IsAsRoomy marks.old marks.new }
{
    if let Value::Cell(number) = value {
        if let Some(at) = position_of(cells, number) {
            mark(marks, at);
        }
    }
}

fn is_fresh(reached: &[bool], at: usize) -> bool
    ensures { result ≡ not (slice_index_or reached.now at true) }
{
    match reached.get(at) {
        Some(mark) => !*mark,
        None => false,
    }
}

fn mark(marks: &mut Marks, at: usize)
    requires { IsCounted marks.old }
    ensures noted { seen marks.new ≡ noted_at (Some at) (seen marks.old) }
    ensures counted { IsCounted marks.new }
    ensures room { IsAsRoomy marks.old marks.new }
{
    if is_fresh(marks.reached.as_slice(), at) {
        add(marks, at);
    }
}

/// Marks a cell that was not marked.
fn add(marks: &mut Marks, at: usize)
    requires counted { IsCounted marks.old }
    requires fresh { slice_index_or marks.old.reached.items at true ≡ false }
    ensures noted { seen marks.new
        ≡ record { reached = slice_set marks.old.reached.items at true; order = marks.old.order.items ++ at ∷ [] } }
    ensures counted { IsCounted marks.new }
    ensures room { IsAsRoomy marks.old marks.new }
{
    marks.reached[at] = true;
    match marks.order.push(at) {
        Ok(()) => {}
        Err(_) => unreachable!(),
    }
}
