//! The steps of a call, each with the leak test at its end. They take no memory.

ghost use Rattle.std.specs.Prelude.{◌≡◌, false, length};
ghost use Rattle.c_types.specs.Control.{Items, from_exit};
ghost use Rattle.c_types.specs.Steps.{settled, enter, leave, exit};
ghost use Rattle.fore_base.specs.Heap.{leaks};
ghost use Rattle.c_heap.specs.Marks.{HasRoomFor};
ghost use Rattle.c_heap.specs.Sizes.{IsNoLarger};
ghost use Rattle.c_machine.specs.inner.Acts.{turn_seen};
ghost use Rattle.c_machine.specs.Pending.{pending};

use crate::acting::{Pace, settle};
use crate::items::Item;
use crate::leaving::leave_body;
use crate::losing::{enter_loses, exit_loses, leave_loses};
use c_acts::calling::{enter, exit, leave};
use c_heap::heap::Heap;
use c_heap::leak::Marks;
use c_types::program::{Arg, Dest, Func};

/// Begins a call of a function.
pub fn take_enter(heap: &mut Heap, marks: &mut Marks, func: &Func, args: &[Arg]) -> Pace
    requires room { HasRoomFor (length heap.old.cells) marks.old }
    requires unleaked { leaks heap.old ≡ false }
    ensures turn { (is : Items) → settled (enter heap.old func.now.params args.now) is
        ≡ turn_seen result is heap.new }
    ensures unleaked { result ≡ Pace.Goes → leaks heap.new ≡ false }
    ensures keeps { IsNoLarger heap.old heap.new }
{
    let lost = enter_loses(heap, func);
    let done = enter(heap, func.params.as_slice(), args);
    settle(heap, marks, done, lost)
}

/// Leaves a function, with what it returns: what is left of its body goes.
pub fn take_leave<'p>(
    stack: &mut Vec<Item<'p>>,
    heap: &mut Heap,
    marks: &mut Marks,
    func: &Func,
    value: &Option<Arg>,
) -> Pace
    requires room { HasRoomFor (length heap.old.cells) marks.old }
    requires unleaked { leaks heap.old ≡ false }
    ensures turn { settled (leave heap.old func.now.result func.now.locals value.now)
        (from_exit (pending stack.old.items))
        ≡ turn_seen result (pending stack.new.items) heap.new }
    ensures unleaked { result ≡ Pace.Goes → leaks heap.new ≡ false }
    ensures keeps { IsNoLarger heap.old heap.new }
{
    let lost = leave_loses(heap, func);
    leave_body(stack);
    let done = leave(heap, func, value);
    settle(heap, marks, done, lost)
}

/// Ends a call of a function, whose result is assigned there.
pub fn take_exit(heap: &mut Heap, marks: &mut Marks, func: &Func, to: &Option<Dest>) -> Pace
    requires room { HasRoomFor (length heap.old.cells) marks.old }
    requires unleaked { leaks heap.old ≡ false }
    ensures turn { (is : Items) → settled (exit heap.old func.now.result func.now.params to.now) is
        ≡ turn_seen result is heap.new }
    ensures unleaked { result ≡ Pace.Goes → leaks heap.new ≡ false }
    ensures keeps { IsNoLarger heap.old heap.new }
{
    let lost = exit_loses(heap, func, to);
    let done = exit(heap, func, to);
    settle(heap, marks, done, lost)
}
