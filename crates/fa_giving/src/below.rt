// Whether each field of the cells below others is given once, from the rules of the components.

ghost use Rattle.std.specs.Prelude.{◌≡◌, ◌<◌, ℕ, IfOk, Some, length, slice_get};
ghost use Rattle.fore_base.specs.Lists.{Every};
ghost use Rattle.ta_core.specs.Language.{IsTrim};
ghost use Rattle.fa_core.specs.Filled.{HasSome};
ghost use Rattle.fa_giving.specs.inner.Shaped.{IsOnceRoot};
ghost use Rattle.fa_giving.specs.inner.Totals.{ForAll};

use fa_core::faces::Face;
use fa_filling::giving::are_edges_once;
use fore_base::memory::Mem;
use std::alloc::Global;
use ta_core::auto::Auto;

/// Whether for each choice of trees each field of each cell below another is given once. Err is want of memory.
pub fn are_below_once(alloc: Global, face: &Face, autos: &[Auto]) -> Mem<bool>
    requires trim { Every IsTrim autos.now }
    requires full { Every HasSome autos.now }
    ensures { IfOk result (ForAll autos.now (λ ts. (r : ℕ) → r < length autos.now → IsOnceRoot face.now r ts)) }
{
    for (place, auto) in autos.iter().enumerate() {
        if !is_below_once(alloc, face, autos, auto, place)? {
            return Ok(false);
        }
    }
    Ok(true)
}

/// Whether it is so in the trees of this component.
fn is_below_once(
    alloc: Global,
    face: &Face,
    _autos: &[Auto],
    auto: &Auto,
    _place: usize,
) -> Mem<bool>
    requires trim { IsTrim auto.now }
    requires full { Every HasSome _autos.now }
    requires own { slice_get _autos.now _place ≡ Some auto.now }
    ensures { IfOk result (ForAll _autos.now (IsOnceRoot face.now _place)) }
{
    auto.known();
    let yes = are_edges_once(alloc, face, auto.rules.as_slice())?;
    Ok(yes)
}
