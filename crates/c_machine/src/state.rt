//! What a machine is made of.

ghost use Rattle.std.specs.Prelude.{◌≡◌, true, false, None};
ghost use Rattle.fore_base.specs.Heap.{leaks};
ghost use Rattle.c_machine.specs.inner.Needs.{made_at};
ghost use Rattle.c_heap.specs.Needs.{IsRoomy};
ghost use Rattle.c_machine.specs.Pending.{IsReady};

use crate::items::Control;
use c_heap::heap::Heap;
use c_heap::spares::Rooms;
use c_types::mode::MallocMode;
use c_types::program::Typed;
use fore_base::fault::Fault;
use std::alloc::Global;

/// What a step answers.
#[derive(Clone, Copy)]
pub enum Turn {
    /// The step was taken.
    Next,
    /// The step, which has this line, meets this fault.
    Fault { kind: Fault, line: u32 },
    /// The run has ended.
    Ended,
    /// The step needs a choice, and none is given.
    NeedsChoice,
}

/// A program on its way: whether its `malloc` may fail, its store and what is left to do.
///
/// `reserve` makes ready what a step needs, and a step then takes no memory. After a fault or the end each step answers
/// the same again. As long as the run is not over no cell has leaked, so that only a step that loses a reference to a
/// cell needs the leak test.
#[derive(Drop)]
pub struct Machine<'p> {
    pub(crate) program: &'p Typed,
    pub(crate) mode: MallocMode,
    pub(crate) alloc: Global,
    pub(crate) control: Control<'p>,
    pub(crate) heap: Heap,
    pub(crate) rooms: Rooms,
    pub(crate) over: Option<Turn>,
    pub(crate) reserved: bool,
    ghost ready: { reserved ≡ true → IsReady control
        × IsRoomy program.now.shapes.structs heap (made_at control.front) rooms },
    ghost unleaked: { over ≡ None → leaks heap ≡ false },
}
