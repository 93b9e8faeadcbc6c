// What is reached for every choice of one signature of each component.

ghost use Rattle.std.specs.Prelude.{◌≡◌, ◌<◌, ◌^◌, true, false, length, IfOk};
ghost use Rattle.fore_base.specs.Lists.{Every};
ghost use Rattle.fa_back.specs.Reached.{AllNameBelow};
ghost use Rattle.fa_reach.specs.Choices.{AllReach, SomeMissed, IsLead, HasSign};

use crate::answer::Lead;
use crate::choices::{may_miss, may_miss_some, may_reach};
use crate::parting::fit_parts;
use fa_core::signature::Signature;
use fore_base::list::List;
use fore_base::memory::Mem;
use std::alloc::Global;

/// Whether for each choice of one signature of each component every component is reached from `from`, by references
/// and by ways back.
///
/// # Errors
///
/// Want of memory, also where signatures lead back so differently that more than 65,536 choices would be gone through,
/// or where it takes more than some 67 million steps.
pub fn reach_all(alloc: Global, lists: &[List<Signature>], from: u32) -> Mem<bool>
    requires count { length lists.now < 2 ^ 32 }
    requires within { Every (AllNameBelow (length lists.now)) lists.now }
    requires from { from < length lists.now }
    requires full { Every HasSign lists.now }
    ensures yes { IfOk result (λ yes. yes ≡ true → AllReach lists.now from) }
    ensures no { IfOk result (λ yes. yes ≡ false → SomeMissed lists.now from) }
{
    let all = fit_parts(alloc, lists)?;
    let misses = may_miss_some(alloc, all.as_slice(), from)?;
    Ok(!misses)
}

/// Whether `to` is reached from `from` for each choice of one signature of each component, for none, or for some
/// alone.
///
/// # Errors
///
/// Want of memory, also where signatures lead back so differently that more than 65,536 choices would be gone through,
/// or where it takes more than some 67 million steps.
pub fn lead(alloc: Global, lists: &[List<Signature>], from: u32, to: u32) -> Mem<Lead>
    requires count { length lists.now < 2 ^ 32 }
    requires within { Every (AllNameBelow (length lists.now)) lists.now }
    requires from { from < length lists.now }
    requires to { to < length lists.now }
    requires full { Every HasSign lists.now }
    ensures { IfOk result (IsLead lists.now from to) }
{
    let all = fit_parts(alloc, lists)?;
    let misses = may_miss(alloc, all.as_slice(), from, to)?;
    if !misses {
        return Ok(Lead::Always);
    }
    let reaches = may_reach(alloc, all.as_slice(), from, to)?;
    if !reaches {
        return Ok(Lead::Never);
    }
    Ok(Lead::Sometimes)
}
