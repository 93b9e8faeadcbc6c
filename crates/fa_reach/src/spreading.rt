// What is reached for each choice from what is known, as far as one look at each component shows it: where a component
// has one signature, and by ways back.

ghost use Rattle.std.specs.Prelude.{◌≡◌, ◌<◌, ℕ, ◌^◌, length, Some, slice_get, IfOk};
ghost use Rattle.fore_base.specs.Lists.{IsIn};
ghost use Rattle.fa_reach.specs.declared.part.Part.{Part};
ghost use Rattle.fa_back.specs.declared.hops.Hop.{Hop};
ghost use Rattle.fa_reach.specs.inner.Going.{ForcedFrom};
ghost use Rattle.fa_reach.specs.inner.Sweeps.{Gains};

use crate::part::Part;
use fa_back::Hop;
use fore_base::list::List;
use fore_base::marks::{is_marked, mark};
use fore_base::memory::Mem;
use std::alloc::Global;

/// The marks that are known, with those that a look at each of the components adds.
#[tactic(auto, using(crate::proofs::Known::gains_none, crate::proofs::Known::gains_on))]
pub fn spread(alloc: Global, parts: &[Part], known: &[bool]) -> Mem<List<bool>>
    requires { length parts.now < 2 ^ 32 }
    ensures { IfOk result (Gains parts.now known.now) }
{
    let mut more = List::from_slice(alloc, known)?;
    let mut place: u32 = 0;
    for part in parts {
        spread_part(parts, place, part, &mut more);
        place += 1;
    }
    Ok(more)
}

#[tactic(auto, using(crate::proofs::Known::gains_on))]
fn spread_part(parts: &[Part], place: u32, part: &Part, known: &mut List<bool>)
    requires { slice_get parts.now place ≡ Some part.now }
    ensures { Gains parts.now known.old known.new }
{
    spread_down(parts, place, part, known);
    spread_hops(parts, part, known);
}

/// Marks the roots of the one signature of a component that is known.
#[tactic(auto, using(crate::proofs::Known::gains_none, crate::proofs::Known::only_down))]
fn spread_down(parts: &[Part], place: u32, part: &Part, known: &mut List<bool>)
    requires { slice_get parts.now place ≡ Some part.now }
    ensures { Gains parts.now known.old known.new }
{
    if !is_marked(known.as_slice(), place) {
        return;
    }
    match part.downs.as_slice() {
        [only] => mark_all(parts, only.as_slice(), known),
        _ => {}
    }
}

fn mark_all(_parts: &[Part], roots: &[u32], known: &mut List<bool>)
    requires { (r : ℕ) → IsIn r roots.now → ForcedFrom _parts.now known.old r }
    ensures { Gains _parts.now known.old known.new }
{
    for root in roots {
        mark(known, *root);
    }
}

/// Marks where the component leads back from what is known.
#[tactic(auto, using(crate::proofs::Known::gains_none, crate::proofs::Known::gains_on))]
fn spread_hops(parts: &[Part], part: &Part, known: &mut List<bool>)
    requires { IsIn part.now parts.now }
    ensures { Gains parts.now known.old known.new }
{
    for hop in part.hops.as_slice() {
        spread_hop(parts, part, *hop, known);
    }
}

fn spread_hop(_parts: &[Part], _part: &Part, hop: Hop, known: &mut List<bool>)
    requires part { IsIn _part.now _parts.now }
    requires hop { IsIn hop _part.now.hops }
    ensures { Gains _parts.now known.old known.new }
{
    if !is_marked(known.as_slice(), hop.from) {
        return;
    }
    mark(known, hop.to);
}
