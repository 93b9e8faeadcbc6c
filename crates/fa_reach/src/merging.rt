// Parts with one signature that refers to all the roots: what is reached by them is what is reached for some choice.

ghost use Rattle.std.specs.Prelude.{◌≡◌, ◌<◌, ◌^◌, ◌++◌, true, false, length, map, slice_set, replicate, IfOk, OnOk};
ghost use Rattle.fa_reach.specs.inner.Going.{AreFit, Barred, Forced, Met, Missed, flat, merged};

use crate::avoiding::can_avoid;
use crate::part::Part;
use crate::steps::Steps;
use fore_base::list::{Copies, List};
use fore_base::marks::{mark, unmarked};
use fore_base::memory::Mem;
use std::alloc::Global;

/// Whether `from` leads to `to` for some choice.
pub fn can_reach(alloc: Global, parts: &[Part], from: u32, to: u32, steps: &mut Steps) -> Mem<bool>
    requires count { length parts.now < 2 ^ 32 }
    requires fit { AreFit parts.now }
    requires from { from < length parts.now }
    requires to { to < length parts.now }
    ensures yes { IfOk result (λ yes. yes ≡ true → Met parts.now from to) }
    ensures no { IfOk result (λ yes. yes ≡ false → Barred parts.now from to) }
{
    let all = merged_parts(alloc, parts)?;
    let misses = can_miss(alloc, all.as_slice(), from, to, steps)?;
    Ok(!misses)
}

/// Whether `from` does not lead to `to` for some choice.
pub fn can_miss(alloc: Global, parts: &[Part], from: u32, to: u32, steps: &mut Steps) -> Mem<bool>
    requires count { length parts.now < 2 ^ 32 }
    requires fit { AreFit parts.now }
    requires from { from < length parts.now }
    requires to { to < length parts.now }
    ensures yes { IfOk result (λ yes. yes ≡ true → Missed parts.now from to) }
    ensures no { IfOk result (λ yes. yes ≡ false → Forced parts.now from to) }
{
    let known = only(alloc, parts.len(), from)?;
    let avoids = can_avoid(alloc, parts, known.as_slice(), to, steps)?;
    Ok(avoids)
}

/// The set of one number.
pub fn only(alloc: Global, count: usize, number: u32) -> Mem<List<bool>>
    ensures { IfOk result (λ marks. marks ≡ slice_set (replicate count false) number true) }
{
    let mut marks = unmarked(alloc, count)?;
    mark(&mut marks, number);
    Ok(marks)
}

fn merged_parts(alloc: Global, parts: &[Part]) -> Mem<List<Part>>
    ensures { IfOk result (λ all. all ≡ map merged parts.now) }
{
    let mut all = List::new(alloc);
    for part in parts {
        let one = merged_part(alloc, part)?;
        all.push(one)?;
    }
    Ok(all)
}

fn merged_part(alloc: Global, part: &Part) -> Mem<Part>
    ensures { IfOk result (λ one. one ≡ merged part.now) }
{
    let hops = part.hops.copy(alloc)?;
    let roots = flat(alloc, part.downs.as_slice())?;
    let mut downs = List::new(alloc);
    downs.push(roots)?;
    Ok(Part { hops, downs })
}

fn flat(alloc: Global, downs: &[List<u32>]) -> Mem<List<u32>>
    ensures { IfOk result (λ roots. roots ≡ flat downs.now) }
{
    let mut roots = List::new(alloc);
    for down in downs {
        let more = down.copy(alloc)?;
        roots.append(more)?;
    }
    Ok(roots)
}
