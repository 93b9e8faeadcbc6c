// Lists of automata compared.

ghost use Rattle.std.specs.Prelude.{◌↔◌, IsTrue, IfOk};
ghost use Rattle.fore_base.specs.Lists.{Paired};
ghost use Rattle.ta_core.specs.Language.{IsWithin};

use crate::tops::keep_tops;
use fore_base::memory::Mem;
use std::alloc::Global;
use ta_core::auto::Auto;
use ta_incl::is_included;

/// Whether there are as many automata, and the language of each is within that in its place. Their numbers and the
/// symbols at the tops of their trees are compared before any language.
///
/// # Errors
///
/// Want of memory.
pub fn are_within(alloc: Global, narrow: &[Auto], wide: &[Auto]) -> Mem<bool>
    ensures { IfOk result (λ yes. IsTrue yes ↔ Paired IsWithin narrow.now wide.now) }
{
    if !keep_tops(alloc, narrow, wide)? {
        return Ok(false);
    }
    are_included(alloc, narrow, wide)
}

/// The same, language by language. Err is want of memory.
fn are_included(alloc: Global, narrow: &[Auto], wide: &[Auto]) -> Mem<bool>
    ensures { IfOk result (λ yes. IsTrue yes ↔ Paired IsWithin narrow.now wide.now) }
{
    if narrow.len() != wide.len() {
        return Ok(false);
    }
    for place in 0..narrow.len() {
        if !is_included(alloc, &narrow[place], &wide[place])? {
            return Ok(false);
        }
    }
    Ok(true)
}
