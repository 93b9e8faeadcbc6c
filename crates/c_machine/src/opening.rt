//! Opening: the front of what is left becomes an act, the test of an atom, the end of a block, or a step of a call. It
//! takes no step.

ghost use Rattle.std.specs.Prelude.{◌≡◌, ◌≢◌, ◌+◌, ◌≤◌, ◌<◌, ◌++◌, ◌∷◌, [], ℕ, true, false, IfOk, OnOk, OnSome};
ghost use Rattle.std.specs.Prelude.{MatchOption};
ghost use Rattle.std.specs.Vec.{vec_len, vec_capacity};
ghost use Rattle.c_types.specs.Control.{Items, Done, opened, act_items, start_of, test_of};
ghost use Rattle.c_machine.specs.Pending.{before, pending, facing, item_weight, stack_weight, weight_of, size_of};
ghost use Rattle.c_machine.specs.Pending.{asked_size, shut_weight, test_before, through, ways_of, left_of, is_open};
ghost use Rattle.c_machine.specs.Pending.{IsReady, item_of, block, block_weight};

use crate::items::{Body, Control, Front, Item, Part, Sides};
use c_types::laws::calls_end;
use c_types::program::{Act, Arg, Cond, Dest, Stmt, Typed};
use fore_base::list::List;
use fore_base::memory::Mem;
use std::alloc::Global;

/// Puts an entry on the stack, for which there is room.
#[tactic(auto, using(crate::proofs::Stacks::pushing))]
pub fn put<'p>(stack: &mut Vec<Item<'p>>, item: Item<'p>)
    requires { vec_len stack.old < vec_capacity stack.old }
    ensures pending { pending stack.new.items ≡ before item.entry (pending stack.old.items) }
    ensures weight { stack_weight stack.new.items ≡ item_weight item.entry + stack_weight stack.old.items }
    ensures len { vec_len stack.new ≡ vec_len stack.old + 1 }
    ensures capacity { vec_capacity stack.old ≤ vec_capacity stack.new }
{
    match stack.push(item) {
        Ok(()) => {}
        Err(_) => unreachable!(),
    }
}

/// Takes the first entry off the stack.
#[tactic(auto, using(crate::proofs::Stacks::pushing))]
pub fn take<'p>(stack: &mut Vec<Item<'p>>) -> Option<Item<'p>>
    ensures pending { MatchOption result ((pending stack.old.items ≡ Done) × (pending stack.new.items ≡ Done))
        (λ item. pending stack.old.items ≡ before item (pending stack.new.items)) }
    ensures weight { MatchOption result (stack_weight stack.new.items ≡ 0)
        (λ item. stack_weight stack.old.items ≡ item_weight item + stack_weight stack.new.items) }
    ensures len { vec_len stack.new ≤ vec_len stack.old }
    ensures capacity { vec_capacity stack.new ≡ vec_capacity stack.old }
    ensures shorter { OnSome result (vec_len stack.new < vec_len stack.old) }
    ensures room { OnSome result (vec_len stack.new < vec_capacity stack.new) }
{
    stack.pop()
}

/// Statements of a program.
fn body_of<'p>(program: &'p Typed, stmts: &'p List<Stmt>) -> Body<'p>
    ensures { (result.program.now ≡ program.now) × (result.stmts.now ≡ stmts.now) }
{
    Body {
        program,
        stmts: stmts.as_slice(),
    }
}

/// Opens an act: a `return` of a function is a step of its call.
#[tactic(auto, using(crate::proofs::Stacks::layers))]
fn open_act<'p>(program: &'p Typed, act: &'p Act, line: u32) -> Front<'p>
    ensures left { (r : Items) → opened (facing result [] r) ≡ opened (act_items program.now.funcs act.now line r) }
    ensures act { (weight : ℕ) → shut_weight result weight ≡ 0 }
{
    match act {
        Act::Leave { func, value } => match program.funcs.get(*func as usize) {
            Some(func) => Front::Leave { func, value, line },
            None => Front::Act { act, line },
        },
        Act::SetPtr { .. } | Act::SetData { .. } | Act::Free(_) => Front::Act { act, line },
        Act::Error | Act::Halt | Act::Return(_) => Front::Act { act, line },
        Act::Break | Act::Continue => Front::Act { act, line },
    }
}

/// Opens a call: the function's body goes on the stack, and after it the end of the call.
#[tactic(auto, using(crate::proofs::Stacks::layers))]
fn open_call<'p>(
    stack: &mut Vec<Item<'p>>,
    program: &'p Typed,
    called: u32,
    args: &'p [Arg],
    to: &'p Option<Dest>,
    line: u32,
) -> Front<'p>
    requires { vec_len stack.old + 2 ≤ vec_capacity stack.old }
    ensures left { opened (facing result [] (pending stack.new.items))
        ≡ opened (item_of program.now.funcs (Stmt.Call called args.now to.now line) (pending stack.old.items)) }
    ensures weight { shut_weight result (stack_weight stack.new.items) ≤ 1 + stack_weight stack.old.items }
{
    calls_end(program);
    match program.funcs.get(called as usize) {
        Some(func) => {
            put(stack, Item::Exit { func, to, line });
            put(stack, Item::Block(body_of(program, &func.body)));
            Front::Enter { func, args, line }
        }
        // No typed program calls one that is not there.
        None => Front::Shut,
    }
}

/// Opens a statement: what comes first of it, while the rest goes on the stack.
#[tactic(auto, using(crate::proofs::Stacks::layers))]
fn open_stmt<'p>(stack: &mut Vec<Item<'p>>, program: &'p Typed, stmt: &'p Stmt) -> Front<'p>
    requires { vec_len stack.old + 2 ≤ vec_capacity stack.old }
    ensures left { opened (facing result [] (pending stack.new.items))
        ≡ opened (item_of program.now.funcs stmt.now (pending stack.old.items)) }
    ensures weight { shut_weight result (stack_weight stack.new.items)
        ≤ weight_of stmt.now + stack_weight stack.old.items }
{
    match stmt {
        Stmt::Do { act, line } => open_act(program, act, *line),
        Stmt::Branch { cond, yes, no } => Front::Asked {
            cond,
            sides: Sides::Branch {
                yes: body_of(program, yes),
                no: body_of(program, no),
            },
        },
        Stmt::While { cond, body } => Front::Asked {
            cond,
            sides: Sides::Round {
                cond,
                next: Body {
                    program,
                    stmts: &[],
                },
                body: body_of(program, body),
            },
        },
        Stmt::For { cond, next, body } => Front::Asked {
            cond,
            sides: Sides::Round {
                cond,
                next: body_of(program, next),
                body: body_of(program, body),
            },
        },
        Stmt::DoWhile { cond, body } => {
            let body = body_of(program, body);
            put(stack, Item::DoAgain { cond, body });
            put(stack, Item::Block(body));
            Front::Shut
        }
        Stmt::Group {
            body,
            ptrs,
            datums,
            close,
        } => {
            put(
                stack,
                Item::Close {
                    ptrs: ptrs.as_slice(),
                    datums: datums.as_slice(),
                    line: *close,
                },
            );
            put(stack, Item::Block(body_of(program, body)));
            Front::Shut
        }
        Stmt::Call {
            func,
            args,
            to,
            line,
        } => open_call(stack, program, *func, args.as_slice(), to, *line),
    }
}

/// Opens statements in turn: the first of them, while the others go on the stack.
#[tactic(auto, using(crate::proofs::Stacks::layers))]
fn open_block<'p>(stack: &mut Vec<Item<'p>>, body: Body<'p>) -> Front<'p>
    requires { vec_len stack.old + 3 ≤ vec_capacity stack.old }
    ensures left { opened (facing result [] (pending stack.new.items))
        ≡ opened (block body.entry (pending stack.old.items)) }
    ensures weight { shut_weight result (stack_weight stack.new.items)
        ≤ block_weight body.entry.stmts.now + 1 + stack_weight stack.old.items }
{
    let program = body.program;
    match body.stmts.split_first() {
        None => Front::Shut,
        Some((stmt, others)) => {
            put(
                stack,
                Item::Block(Body {
                    program,
                    stmts: others,
                }),
            );
            open_stmt(stack, program, stmt)
        }
    }
}

/// Opens an entry that was taken off the stack.
#[tactic(auto, using(crate::proofs::Stacks::layers))]
fn open_item<'p>(stack: &mut Vec<Item<'p>>, item: Item<'p>) -> Front<'p>
    requires { vec_len stack.old + 3 ≤ vec_capacity stack.old }
    ensures left { opened (facing result [] (pending stack.new.items))
        ≡ opened (before item.entry (pending stack.old.items)) }
    ensures weight { shut_weight result (stack_weight stack.new.items)
        ≤ item_weight item.entry + stack_weight stack.old.items }
{
    match item {
        Item::Block(body) => open_block(stack, body),
        Item::Close { ptrs, datums, line } => if ptrs.is_empty() && datums.is_empty() {
            Front::Shut
        } else {
            Front::Close { ptrs, datums, line }
        },
        Item::Loop { cond, next, body } => Front::Asked {
            cond,
            sides: Sides::Round { cond, next, body },
        },
        Item::Again { cond, next, body } => {
            put(stack, Item::Loop { cond, next, body });
            put(stack, Item::Block(next));
            Front::Shut
        }
        Item::DoAgain { cond, body } => Front::Asked {
            cond,
            sides: Sides::DoRound { cond, body },
        },
        Item::Exit { func, to, line } => Front::Exit { func, to, line },
    }
}

/// Puts down what stands between an atom and its whole condition, for which there is room.
#[tactic(auto, using(crate::proofs::Stacks::pushing))]
pub fn put_part<'p>(parts: &mut Vec<Part<'p>>, part: Part<'p>)
    requires { vec_len parts.old < vec_capacity parts.old }
    ensures { parts.new.items ≡ parts.old.items ++ part.entry ∷ [] }
{
    match parts.push(part) {
        Ok(()) => {}
        Err(_) => unreachable!(),
    }
}

/// Opens one layer of a condition.
#[tactic(auto, using(crate::proofs::Stacks::conditions))]
fn open_cond<'p>(parts: &mut Vec<Part<'p>>, cond: &'p Cond, sides: Sides<'p>) -> Front<'p>
    requires { vec_len parts.old < vec_capacity parts.old }
    ensures left { (r : Items) → opened (facing result parts.new.items r)
        ≡ opened (test_before (test_of cond.now) (through (ways_of sides.entry) parts.old.items) r) }
    ensures size { asked_size result < size_of cond.now }
    ensures asked { result ≢ Front.Shut }
{
    match cond {
        Cond::Atom { atom, line } => Front::Test {
            atom,
            line: *line,
            sides,
        },
        Cond::Not(part) => {
            put_part(parts, Part::Negated);
            Front::Asked {
                cond: part.get(),
                sides,
            }
        }
        Cond::All(conds) => match conds.as_slice().split_first() {
            None => Front::Truth { sides },
            Some((first, others)) => {
                put_part(parts, Part::AllOf(others));
                Front::Asked { cond: first, sides }
            }
        },
        Cond::Any(conds) => match conds.as_slice().split_first() {
            None => Front::Truth { sides },
            Some((first, others)) => {
                put_part(parts, Part::AnyOf(others));
                Front::Asked { cond: first, sides }
            }
        },
    }
}

impl<'p> Control<'p> {
    /// What is left of a program at first.
    #[tactic(auto, using(crate::proofs::Stacks::layers))]
    pub fn new(alloc: Global, program: &'p Typed) -> Mem<Control<'p>>
        ensures { IfOk result (λ control. left_of control ≡ opened (start_of program.now)) }
    {
        let mut stack = Vec::with_capacity(alloc, 1)?;
        put(&mut stack, Item::Block(body_of(program, &program.body)));
        let parts = Vec::new(alloc);
        Ok(Control {
            front: Front::Shut,
            parts,
            stack,
        })
    }

    /// Opens the front, and makes room for the entries that a step adds.
    pub fn open(&mut self) -> Mem<()>
        ensures left { left_of self.new ≡ left_of self.old }
        ensures ok { OnOk result (IsReady self.new) }
    {
        self.open_stack()?;
        self.open_test()?;
        self.stack.reserve(2)?;
        Ok(())
    }

    fn open_stack(&mut self) -> Mem<()>
        ensures left { left_of self.new ≡ left_of self.old }
        ensures ok { OnOk result (self.new.front ≢ Front.Shut) }
    {
        while let Front::Shut = self.front {
            self.stack.reserve(3)?;
            self.open_front();
        }
        Ok(())
    }

    #[tactic(auto, using(crate::proofs::Stacks::parting))]
    fn open_front(&mut self)
        requires shut { self.old.front ≡ Front.Shut }
        requires room { vec_len self.old.stack + 3 ≤ vec_capacity self.old.stack }
        ensures left { left_of self.new ≡ left_of self.old }
        ensures weight { shut_weight self.new.front (stack_weight self.new.stack.items)
            ≤ stack_weight self.old.stack.items }
    {
        self.parts.clear();
        match take(&mut self.stack) {
            None => {
                self.front = Front::Nothing;
            }
            Some(item) => {
                self.front = open_item(&mut self.stack, item);
            }
        }
    }

    fn open_test(&mut self) -> Mem<()>
        requires { self.old.front ≢ Front.Shut }
        ensures left { left_of self.new ≡ left_of self.old }
        ensures ok { OnOk result (is_open self.new.front ≡ true) }
    {
        while let Front::Asked { cond, sides } = self.front {
            self.parts.reserve(1)?;
            self.front = open_cond(&mut self.parts, cond, sides);
        }
        Ok(())
    }
}
