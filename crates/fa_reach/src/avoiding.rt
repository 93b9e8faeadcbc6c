// Whether some choice keeps away from a component, where each component has one part.

ghost use Rattle.std.specs.Prelude.{◌≡◌, ◌<◌, ◌^◌, ℕ, true, false, length, slice_index_or, slice_set, replicate, IfOk};
ghost use Rattle.fore_base.specs.Marks.{IsMarked};
ghost use Rattle.fa_reach.specs.inner.Going.{AreFit, AvoidedFrom, ForcedFrom};

use crate::part::Part;
use crate::steps::Steps;
use crate::sweeping::sweep;
use fore_base::list::List;
use fore_base::memory::Mem;
use std::alloc::Global;

/// Whether for some choice none of the known components leads to `to`. It takes out of the set of all but `to` what
/// cannot keep out of the others, until nothing changes or a known component falls.
pub fn can_avoid(
    alloc: Global,
    parts: &[Part],
    known: &[bool],
    to: u32,
    steps: &mut Steps,
) -> Mem<bool>
    requires count { length parts.now < 2 ^ 32 }
    requires fit { AreFit parts.now }
    requires to { to < length parts.now }
    requires known { length known.now ≡ length parts.now }
    ensures yes { IfOk result (λ yes. yes ≡ true → AvoidedFrom parts.now known.now to) }
    ensures no { IfOk result (λ yes. yes ≡ false → ForcedFrom parts.now known.now to) }
{
    let mut set = all_but(alloc, parts.len(), to)?;
    'sweeps: while !has_fallen(known, &set) {
        steps.take(parts)?;
        if !sweep(parts, &mut set) {
            return Ok(true);
        }
    }
    Ok(false)
}

/// The set of all but one.
fn all_but(alloc: Global, count: usize, to: u32) -> Mem<List<bool>>
    ensures { IfOk result (λ set. set ≡ slice_set (replicate count true) to false) }
{
    let mut set = List::filled(alloc, true, count)?;
    set.set_within(to as usize, false);
    Ok(set)
}

/// Whether one that is known is not in the set.
pub fn has_fallen(known: &[bool], set: &List<bool>) -> bool
    ensures yes { result ≡ true → (u : ℕ) × IsMarked known.now u × (slice_index_or set.now u false ≡ false) }
    ensures no { result ≡ false → (u : ℕ) → IsMarked known.now u → IsMarked set.now u }
{
    for (place, is_known) in known.iter().enumerate() {
        if *is_known && !set.get_or(place, false) {
            return true;
        }
    }
    false
}
