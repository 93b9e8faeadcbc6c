// What shows that a tree of the left automaton is none of the right one.

ghost use Rattle.std.specs.Prelude.{◌≡◌, ◌↔◌, Some, slice_get, IsTrue, MatchOption};
ghost use Rattle.fore_base.specs.Lists.{IsIn, Every};
ghost use Rattle.ta_incl.specs.inner.Founds.{IsFailing};

use crate::found::Found;
use fore_base::marks::is_some_marked;

/// The first pair with one of the left root states and none of the right ones.
pub fn failing(lefts: &[u32], rights: &[u32], found: &[Found]) -> Option<usize>
    ensures { MatchOption result (Every (λ f. IsFailing lefts.now rights.now f → ⊥) found.now)
        (λ place. (f : Found) × (slice_get found.now place ≡ Some f) × IsFailing lefts.now rights.now f) }
{
    for (place, pair) in found.iter().enumerate() {
        if is_failing(lefts, rights, pair) {
            return Some(place);
        }
    }
    None
}

fn is_failing(lefts: &[u32], rights: &[u32], pair: &Found) -> bool
    ensures { IsTrue result ↔ IsFailing lefts.now rights.now pair.now }
{
    is_one_of(pair.state, lefts) && !is_some_marked(pair.marks.as_slice(), rights)
}

/// Whether the state is one of these.
pub fn is_one_of(state: u32, states: &[u32]) -> bool
    ensures { IsTrue result ↔ IsIn state states.now }
{
    for other in states {
        if *other == state {
            return true;
        }
    }
    false
}
