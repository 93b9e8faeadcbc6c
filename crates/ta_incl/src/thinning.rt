// The pairs that are answered: those that no other one covers.

ghost use Rattle.std.specs.Prelude.{◌≡◌, ◌↔◌, ℕ, length, IfOk};
ghost use Rattle.fore_base.specs.Lists.{IsIn, Every, Paired};
ghost use Rattle.fore_base.specs.Marks.{IsMarked};
ghost use Rattle.ta_incl.specs.inner.Founds.{AreFresh, IsCover, IsThinned, IsPairOf};

use crate::found::{Found, has_cover};
use crate::inclusion::Pair;
use crate::order::Order;
use fore_base::list::List;
use fore_base::marks::is_marked;
use fore_base::memory::Mem;
use std::alloc::Global;

/// Those pairs that no later one covers, the last one first.
pub fn thinned(alloc: Global, order: &Order, found: List<Found>) -> Mem<List<Found>>
    requires fresh { AreFresh order.now found }
    requires same { Every (λ f. IsCover order.now f f) found }
    ensures { IfOk result (IsThinned order.now found) }
{
    let mut rest = found;
    let mut kept = List::new(alloc);
    'pairs: while let Some(pair) = rest.pop() {
        if !has_cover(order, kept.as_slice(), &pair) {
            kept.push(pair)?;
        }
    }
    Ok(kept)
}

/// The pairs with lists of states, of which there are so many.
pub fn pairs_of(alloc: Global, states: u32, found: &[Found]) -> Mem<List<Pair>>
    requires { Every (λ f. length f.marks ≡ states) found.now }
    ensures { IfOk result (Paired IsPairOf found.now) }
{
    let mut pairs = List::new(alloc);
    for pair in found {
        let set = states_of(alloc, states, pair.marks.as_slice())?;
        pairs.push(Pair {
            state: pair.state,
            set,
        })?;
    }
    Ok(pairs)
}

/// The marked states, in rising order.
fn states_of(alloc: Global, states: u32, marks: &[bool]) -> Mem<List<u32>>
    requires { length marks.now ≡ states }
    ensures { IfOk result (λ set. (q : ℕ) → IsIn q set ↔ IsMarked marks.now q) }
{
    let mut set = List::new(alloc);
    for state in 0..states {
        if is_marked(marks, state) {
            set.push(state)?;
        }
    }
    Ok(set)
}
