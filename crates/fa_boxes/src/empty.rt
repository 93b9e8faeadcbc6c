// Whether a component of a box has no tree.

ghost use Rattle.std.specs.Prelude.{◌≡◌, ◌↔◌, false, IsTrue, IfOk};
ghost use Rattle.fore_base.specs.Lists.{IsIn, Every};
ghost use Rattle.ta_core.specs.Auto.{Automaton};
ghost use Rattle.ta_core.specs.Language.{IsBarren};
ghost use Rattle.fa_core.specs.Filled.{HasSome};

use fore_base::memory::Mem;
use std::alloc::Global;
use ta_core::auto::Auto;
use ta_core::inhabited::is_empty;

/// Whether some component accepts no tree, as rule B7 refuses it. Where it says no, each component accepts one.
///
/// # Errors
///
/// Want of memory.
pub fn is_some_empty(alloc: Global, autos: &[Auto]) -> Mem<bool>
    ensures empty { IfOk result (λ yes. IsTrue yes ↔ ((a : Automaton) × IsIn a autos.now × IsBarren a)) }
    ensures full { IfOk result (λ yes. yes ≡ false → Every HasSome autos.now) }
{
    for auto in autos {
        if is_empty(alloc, auto)? {
            return Ok(true);
        }
    }
    Ok(false)
}
