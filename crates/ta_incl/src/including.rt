// The two calls: with what shows the answer, and without.

ghost use Rattle.std.specs.Prelude.{◌↔◌, IsTrue, IfOk};
ghost use Rattle.ta_core.specs.Language.{IsWithin};
ghost use Rattle.ta_incl.specs.Inclusions.{IsAntichain, IsClosed, MeetsRoots, IsMissing, IfYes, IfNo};
ghost use Rattle.ta_incl.specs.inner.Answers.{Answers};

use crate::comparing::are_equal;
use crate::failing::failing;
use crate::growing::tree_at;
use crate::inclusion::Inclusion;
use crate::searching::{Findings, explored};
use crate::thinning::{pairs_of, thinned};
use fore_base::memory::Mem;
use std::alloc::Global;
use ta_core::auto::Auto;

/// Whether each tree of the left automaton is one of the right one, with what shows it: pairs, or a tree. The tree can
/// be exponentially larger than the automata.
///
/// # Errors
///
/// Want of memory.
pub fn included(alloc: Global, left: &Auto, right: &Auto) -> Mem<Inclusion>
    ensures within { IfOk result (IfYes (λ _. IsWithin left.now right.now)) }
    ensures antichain { IfOk result (IfYes IsAntichain) }
    ensures closed { IfOk result (IfYes (IsClosed left.now right.now)) }
    ensures roots { IfOk result (IfYes (MeetsRoots left.now right.now)) }
    ensures missing { IfOk result (IfNo (IsMissing left.now right.now)) }
{
    answered(alloc, left, right)
}

fn answered(alloc: Global, left: &Auto, right: &Auto) -> Mem<Inclusion>
    ensures { IfOk result (Answers left.now right.now) }
{
    let search = explored(alloc, left, right)?;
    match failing(
        left.roots.as_slice(),
        right.roots.as_slice(),
        search.found.as_slice(),
    ) {
        Some(place) => {
            let tree = tree_at(alloc, &left.rules, search.found.as_slice(), place)?;
            Ok(Inclusion::No { tree })
        }
        None => {
            let Findings { orders, found } = search;
            let kept = thinned(alloc, &orders.left, found)?;
            let pairs = pairs_of(alloc, right.states, kept.as_slice())?;
            Ok(Inclusion::Yes { pairs })
        }
    }
}

/// Whether each tree of the left automaton is one of the right one. Unlike `included` it makes no tree, and where both
/// automata are equal it makes no search.
///
/// # Errors
///
/// Want of memory.
pub fn is_included(alloc: Global, left: &Auto, right: &Auto) -> Mem<bool>
    ensures { IfOk result (λ yes. IsTrue yes ↔ IsWithin left.now right.now) }
{
    if are_equal(left, right) {
        return Ok(true);
    }
    let search = explored(alloc, left, right)?;
    let place = failing(
        left.roots.as_slice(),
        right.roots.as_slice(),
        search.found.as_slice(),
    );
    Ok(place.is_none())
}
