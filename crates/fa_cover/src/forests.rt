// The parts of two forests compared.

ghost use Rattle.std.specs.Prelude.{◌↔◌, IsTrue, IfOk};
ghost use Rattle.fa_core.specs.Covering.{Covers};

use crate::components::are_within;
use fa_core::forest::{Forest, are_same_data, are_same_targets};
use fore_base::memory::Mem;
use std::alloc::Global;

/// Whether the one forest covers the other. Targets, data, the number of roots and the symbols of the roots' rules are
/// compared before any language. Err is want of memory.
pub fn is_covered(alloc: Global, wide: &Forest, narrow: &Forest) -> Mem<bool>
    ensures { IfOk result (λ yes. IsTrue yes ↔ Covers wide.now narrow.now) }
{
    if !are_same_targets(narrow.vars.as_slice(), wide.vars.as_slice()) {
        return Ok(false);
    }
    if !are_same_data(narrow.data_vars.as_slice(), wide.data_vars.as_slice()) {
        return Ok(false);
    }
    are_within(alloc, narrow.autos.as_slice(), wide.autos.as_slice())
}
