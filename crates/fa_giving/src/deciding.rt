// Whether the cells of the inside of a box are right, for each choice of trees.

ghost use Rattle.std.specs.Prelude.{◌≡◌, ◌<◌, ◌^◌, true, false, List, length, IfOk};
ghost use Rattle.fore_base.specs.Lists.{Every};
ghost use Rattle.ta_core.specs.Language.{IsTrim};
ghost use Rattle.ta_core.specs.declared.tree.Tree.{Tree};
ghost use Rattle.fa_core.specs.Filled.{Choice, HasSome};
ghost use Rattle.fa_box_rules.specs.Cells.{AreRight};
ghost use Rattle.fa_box_rules.specs.Rules.{IsWellNamed, Breaks4, port_count};
ghost use Rattle.fa_giving.specs.inner.Totals.{ForAll};

use crate::below::are_below_once;
use crate::roots::are_roots_right;
use crate::shapes::are_shaped;
use fa_core::faces::Face;
use fore_base::memory::Mem;
use std::alloc::Global;
use ta_core::auto::Auto;

/// Whether rule B4 holds of a box over the face with these components, the first of which are its ports: for each
/// choice of trees the ends of each cell fit, its slots stand in order, and each field of an inner cell is given once,
/// of a port once at most.
///
/// # Errors
///
/// Want of memory.
pub fn are_right(
    alloc: Global,
    face: &Face,
    _input: u32,
    output: Option<u32>,
    autos: &[Auto],
) -> Mem<bool>
    requires named { IsWellNamed face.now (record { input = _input; output = output; autos = autos.now }) }
    requires trim { Every IsTrim autos.now }
    requires full { Every HasSome autos.now }
    requires count { length autos.now < 2 ^ 32 }
    ensures yes { IfOk result (λ yes. yes ≡ true
        → (ts : List Tree) → Choice autos.now ts → AreRight face.now ts 0 (port_count output) ts) }
    ensures no { IfOk result (λ yes. yes ≡ false
        → Breaks4 face.now (record { input = _input; output = output; autos = autos.now })) }
{
    let yes = are_cells_right(alloc, face, port_count(output), autos)?;
    Ok(yes)
}

fn port_count(output: Option<u32>) -> usize
    ensures { result ≡ port_count output }
{
    match output {
        Some(_) => 2,
        None => 1,
    }
}

/// Whether for each choice of trees all cells are right, where so many components are ports.
fn are_cells_right(alloc: Global, face: &Face, ports: usize, autos: &[Auto]) -> Mem<bool>
    requires trim { Every IsTrim autos.now }
    requires full { Every HasSome autos.now }
    requires count { length autos.now < 2 ^ 32 }
    ensures { IfOk result (ForAll autos.now (λ ts. AreRight face.now ts 0 ports ts)) }
{
    if !are_shaped(alloc, face, autos)? {
        return Ok(false);
    }
    if !are_below_once(alloc, face, autos)? {
        return Ok(false);
    }
    let yes = are_roots_right(alloc, face, ports, autos)?;
    Ok(yes)
}
