// The choices of parts, gone through one after another.

ghost use Rattle.std.specs.Prelude.{◌≡◌, ◌<◌, ◌-◌, ◌^◌, ℕ, true, false, length, IfOk, MatchOption};
ghost use Rattle.fore_base.specs.Marks.{marked_count};
ghost use Rattle.fa_reach.specs.inner.Going.{AllFit, AreFit, AvoidedFrom, Forced, Missed};
ghost use Rattle.fa_reach.specs.inner.Going.{MayMissBy, AlwaysBy, MayMeetBy, NeverBy};
ghost use Rattle.fa_reach.specs.inner.Sweeps.{Gains, IsUnknown};

use crate::asking::next;
use crate::avoiding::can_avoid;
use crate::choosing::{choice, choice_count};
use crate::merging::{can_miss, can_reach, only};
use crate::part::Part;
use crate::spreading::spread;
use crate::steps::Steps;
use fore_base::list::List;
use fore_base::marks::{count_marked, mark};
use fore_base::memory::Mem;
use std::alloc::Global;

/// Whether for some choice `from` does not lead to `to`.
pub fn may_miss(alloc: Global, all: &[List<Part>], from: u32, to: u32) -> Mem<bool>
    requires count { length all.now < 2 ^ 32 }
    requires fit { AllFit (length all.now) all.now }
    requires from { from < length all.now }
    requires to { to < length all.now }
    ensures yes { IfOk result (λ yes. yes ≡ true → MayMissBy all.now from to) }
    ensures no { IfOk result (λ yes. yes ≡ false → AlwaysBy all.now from to) }
{
    let mut steps = Steps::new();
    let count = choice_count(all)?;
    for number in 0..count {
        let parts = choice(alloc, all, number)?;
        steps.take_lists(parts.as_slice())?;
        let misses = can_miss(alloc, parts.as_slice(), from, to, &mut steps)?;
        if misses {
            return Ok(true);
        }
    }
    Ok(false)
}

/// Whether for some choice `from` leads to `to`.
pub fn may_reach(alloc: Global, all: &[List<Part>], from: u32, to: u32) -> Mem<bool>
    requires count { length all.now < 2 ^ 32 }
    requires fit { AllFit (length all.now) all.now }
    requires from { from < length all.now }
    requires to { to < length all.now }
    ensures yes { IfOk result (λ yes. yes ≡ true → MayMeetBy all.now from to) }
    ensures no { IfOk result (λ yes. yes ≡ false → NeverBy all.now from to) }
{
    let mut steps = Steps::new();
    let count = choice_count(all)?;
    for number in 0..count {
        let parts = choice(alloc, all, number)?;
        steps.take_lists(parts.as_slice())?;
        let reaches = can_reach(alloc, parts.as_slice(), from, to, &mut steps)?;
        if reaches {
            return Ok(true);
        }
    }
    Ok(false)
}

/// Whether for some choice `from` does not lead to some component.
pub fn may_miss_some(alloc: Global, all: &[List<Part>], from: u32) -> Mem<bool>
    requires count { length all.now < 2 ^ 32 }
    requires fit { AllFit (length all.now) all.now }
    requires from { from < length all.now }
    ensures yes { IfOk result (λ yes. yes ≡ true → (r : ℕ) × (r < length all.now) × MayMissBy all.now from r) }
    ensures no { IfOk result (λ yes. yes ≡ false → (r : ℕ) → r < length all.now → AlwaysBy all.now from r) }
{
    let mut steps = Steps::new();
    let count = choice_count(all)?;
    for number in 0..count {
        let parts = choice(alloc, all, number)?;
        steps.take_lists(parts.as_slice())?;
        let misses = can_miss_some(alloc, parts.as_slice(), from, &mut steps)?;
        if misses {
            return Ok(true);
        }
    }
    Ok(false)
}

/// Whether for some choice of signatures of these parts `from` does not lead to some component. What is always reached
/// from it is known from then on.
fn can_miss_some(alloc: Global, parts: &[Part], from: u32, steps: &mut Steps) -> Mem<bool>
    requires count { length parts.now < 2 ^ 32 }
    requires fit { AreFit parts.now }
    requires from { from < length parts.now }
    ensures yes { IfOk result (λ yes. yes ≡ true → (r : ℕ) × (r < length parts.now) × Missed parts.now from r) }
    ensures no { IfOk result (λ yes. yes ≡ false → (r : ℕ) → r < length parts.now → Forced parts.now from r) }
{
    let mut known = only(alloc, parts.len(), from)?;
    'roots: while let Some(to) = next(parts, &known) {
        match known_more(alloc, parts, known, to, steps)? {
            None => return Ok(true),
            Some(more) => known = more,
        }
    }
    Ok(false)
}

/// More that is known: what a look at each component adds, or where that is nothing, `to`, which is not known. None
/// where some choice keeps away from it.
#[tactic(auto, using(crate::proofs::Known::count_falls))]
fn known_more(
    alloc: Global,
    parts: &[Part],
    known: List<bool>,
    to: u32,
    steps: &mut Steps,
) -> Mem<Option<List<bool>>>
    requires count { length parts.now < 2 ^ 32 }
    requires fit { AreFit parts.now }
    requires long { length known ≡ length parts.now }
    requires unknown { IsUnknown known to }
    ensures { IfOk result (λ found. MatchOption found (AvoidedFrom parts.now known to)
        (λ more. Gains parts.now known more × (length more - marked_count more < length known - marked_count known))) }
{
    steps.take(parts)?;
    let more = spread(alloc, parts, known.as_slice())?;
    if count_marked(known.as_slice()) < count_marked(more.as_slice()) {
        return Ok(Some(more));
    }
    let avoids = can_avoid(alloc, parts, known.as_slice(), to, steps)?;
    if avoids {
        return Ok(None);
    }
    let mut all = known;
    mark(&mut all, to);
    Ok(Some(all))
}
