//! `break` and `continue`: what is left to do up to the end of a round goes, and the variables of its blocks die; a call
//! that is still to come has none. And `return` of a function: what is left to do up to the end of its call goes.

ghost use Rattle.std.specs.Prelude.{◌≡◌, ◌≤◌, true, false};
ghost use Rattle.std.specs.Vec.{vec_len, vec_capacity};
ghost use Rattle.c_types.specs.Control.{from_exit};
ghost use Rattle.c_machine.specs.Pending.{pending, ends_among, ends_of, leaving, left_round};
ghost use Rattle.c_heap.specs.Sizes.{IsNoLarger};

use crate::items::{Body, Item};
use crate::opening::{put, take};
use c_heap::heap::Heap;
use c_types::program::Stmt;

/// Lets the variables of the blocks among these statements die.
#[cycle(end_blocks)]
#[tactic(auto, using(crate::proofs::RoundLemmas::ends, crate::proofs::Walks::walks))]
fn end_blocks(heap: &mut Heap, stmts: &[Stmt])
    ensures left { heap.new ≡ ends_among stmts.now heap.old }
    ensures keeps { IsNoLarger heap.old heap.new }
{
    for stmt in stmts {
        end_stmt(heap, stmt);
    }
}

#[cycle(end_blocks)]
#[tactic(auto, using(crate::proofs::RoundLemmas::ends, crate::proofs::Walks::walks))]
fn end_stmt(heap: &mut Heap, stmt: &Stmt)
    ensures left { heap.new ≡ ends_of stmt.now heap.old }
    ensures keeps { IsNoLarger heap.old heap.new }
{
    match stmt {
        Stmt::Group {
            body,
            ptrs,
            datums,
            ..
        } => {
            end_blocks(heap, body.as_slice());
            heap.kill(ptrs.as_slice(), datums.as_slice());
        }
        _ => {}
    }
}

/// Takes what is left of a round off the stack: for `continue` up to its end, which stays, and for `break` with it.
#[tactic(auto, using(crate::proofs::RoundLemmas::leaves))]
pub fn leave_round<'p>(stack: &mut Vec<Item<'p>>, heap: &mut Heap, goes_on: bool)
    ensures store { heap.new ≡ leaving (pending stack.old.items) heap.old }
    ensures items { pending stack.new.items ≡ left_round goes_on (pending stack.old.items) }
    ensures keeps { IsNoLarger heap.old heap.new }
{
    while let Some(item) = take(stack) {
        match item {
            Item::Block(Body { stmts, .. }) => end_blocks(heap, stmts),
            Item::Close { ptrs, datums, .. } => heap.kill(ptrs, datums),
            Item::Loop { .. } => {}
            Item::Exit { .. } => {
                drop_round(stack, goes_on);
                return;
            }
            Item::Again { .. } | Item::DoAgain { .. } => {
                if goes_on {
                    put(stack, item);
                }
                return;
            }
        }
    }
}

/// The same behind the end of the call, where no variable is its own. No program comes here: a `break` or `continue`
/// stands in a loop of its own function.
#[tactic(auto, using(crate::proofs::RoundLemmas::leaves))]
fn drop_round<'p>(stack: &mut Vec<Item<'p>>, goes_on: bool)
    ensures { pending stack.new.items ≡ left_round goes_on (pending stack.old.items) }
{
    while let Some(item) = take(stack) {
        match item {
            Item::Block(_) | Item::Close { .. } | Item::Loop { .. } | Item::Exit { .. } => {}
            Item::Again { .. } | Item::DoAgain { .. } => {
                if goes_on {
                    put(stack, item);
                }
                return;
            }
        }
    }
}

/// Takes what is left of a function's body off the stack, up to the end of its call, which stays.
#[tactic(auto, using(crate::proofs::RoundLemmas::returns))]
pub fn leave_body<'p>(stack: &mut Vec<Item<'p>>)
    ensures { pending stack.new.items ≡ from_exit (pending stack.old.items) }
{
    while let Some(entry) = take(stack) {
        match entry {
            Item::Block(_) | Item::Close { .. } => {}
            Item::Loop { .. } | Item::Again { .. } | Item::DoAgain { .. } => {}
            Item::Exit { .. } => {
                put(stack, entry);
                return;
            }
        }
    }
}
