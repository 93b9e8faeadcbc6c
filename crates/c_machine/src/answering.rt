//! Where the outcome of an atom leads, and where `break` and `continue` do. None of it takes memory.

ghost use Rattle.std.specs.Prelude.{◌≡◌, ◌+◌, ◌≤◌, ◌<◌, ◌++◌, ◌∷◌, [], true, false, OnSome, MatchOption};
ghost use Rattle.std.specs.Vec.{vec_len, vec_capacity};
ghost use Rattle.c_types.specs.Control.{Items, ◌then◌, opened, test_of};
ghost use Rattle.c_machine.specs.Pending.{pending, Ways, narrowed, through, ways_of, way, test_before, left_of, PastIs};

use crate::items::{Control, Front, Item, Part, Sides};
use crate::opening::{put, put_part};
use c_types::program::Cond;

/// What is known of a condition once a part of it has an outcome.
#[derive(Clone, Copy)]
enum Past<'p> {
    /// The outcome of the condition round it.
    Known(bool),
    /// Nothing yet: this part is next.
    Asks(&'p Cond),
}

/// Goes past one part of a condition, from the outcome of what stood within it.
#[tactic(auto, using(crate::proofs::Stacks::asking))]
fn pass_part<'p>(parts: &mut Vec<Part<'p>>, part: Part<'p>, outcome: bool) -> Past<'p>
    requires { vec_len parts.old < vec_capacity parts.old }
    ensures { PastIs result parts.old.items parts.new.items part.entry outcome }
{
    match part {
        Part::Negated => Past::Known(!outcome),
        Part::AllOf(others) => match others.split_first() {
            Some((first, rest)) => if outcome {
                put_part(parts, Part::AllOf(rest));
                Past::Asks(first)
            } else {
                Past::Known(outcome)
            },
            None => Past::Known(outcome),
        },
        Part::AnyOf(others) => match others.split_first() {
            Some((first, rest)) => if outcome {
                Past::Known(outcome)
            } else {
                put_part(parts, Part::AnyOf(rest));
                Past::Asks(first)
            },
            None => Past::Known(outcome),
        },
    }
}

/// Takes the part that is nearest to the atom.
fn take_part<'p>(parts: &mut Vec<Part<'p>>) -> Option<Part<'p>>
    ensures front { MatchOption result (parts.old.items ≡ []) (λ part. parts.old.items ≡ parts.new.items ++ part ∷ []) }
    ensures room { OnSome result (vec_len parts.new < vec_capacity parts.new) }
{
    parts.pop()
}

/// Goes to the side of a whole condition's outcome.
#[tactic(auto, using(crate::proofs::Stacks::sides))]
fn turn_to<'p>(stack: &mut Vec<Item<'p>>, sides: Sides<'p>, outcome: bool)
    requires { vec_len stack.old + 2 ≤ vec_capacity stack.old }
    ensures { pending stack.new.items ≡ way outcome (ways_of sides.entry) then pending stack.old.items }
{
    match sides {
        Sides::Branch { yes, no } => if outcome {
            put(stack, Item::Block(yes));
        } else {
            put(stack, Item::Block(no));
        },
        Sides::Round { cond, next, body } => if outcome {
            put(stack, Item::Again { cond, next, body });
            put(stack, Item::Block(body));
        },
        Sides::DoRound { cond, body } => if outcome {
            put(stack, Item::DoAgain { cond, body });
            put(stack, Item::Block(body));
        },
    }
}

/// Goes on with the outcome of an atom.
#[tactic(auto, using(crate::proofs::Stacks::parting))]
pub fn answer<'p>(control: &mut Control<'p>, sides: Sides<'p>, outcome: bool)
    requires { vec_len control.old.stack + 2 ≤ vec_capacity control.old.stack }
    ensures { left_of control.new ≡ opened
        (way outcome (through (ways_of sides.entry) control.old.parts.items) then pending control.old.stack.items) }
{
    let mut outcome = outcome;
    while let Some(part) = take_part(&mut control.parts) {
        match pass_part(&mut control.parts, part, outcome) {
            Past::Known(known) => outcome = known,
            Past::Asks(cond) => {
                control.front = Front::Asked { cond, sides };
                return;
            }
        }
    }
    turn_to(&mut control.stack, sides, outcome);
    control.front = Front::Shut;
}
