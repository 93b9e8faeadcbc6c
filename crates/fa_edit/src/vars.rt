//! What the variables are.

ghost use Rattle.std.specs.Prelude.{◌≡◌, length, IfOk};
ghost use Rattle.fore_base.specs.Lists.{Every};
ghost use Rattle.fa_core.specs.Boxless.{HasNoBoxes};
ghost use Rattle.fa_core.specs.Canonical.{IsCanonical};
ghost use Rattle.fa_core.specs.Filled.{DatumFits, IsRoot};

use fa_core::forest::Target;
use fa_sound::Sound;
use fore_base::list::List;
use fore_base::memory::Mem;
use fore_base::store::Datum;
use std::alloc::Global;

/// The forest with these targets, each a root of it or none, and these data. Where the targets stay, a canonical forest
/// stays canonical. Err is want of memory.
pub fn with_vars(
    alloc: Global,
    forest: &Sound,
    vars: List<Target>,
    data_vars: List<Datum>,
) -> Mem<Sound>
    requires targets { Every (IsRoot (length forest.now.forest.autos)) vars }
    requires data { Every DatumFits data_vars }
    ensures value { IfOk result (λ made. made.forest
        ≡ record forest.now.forest { vars = vars; data_vars = data_vars }) }
    ensures face { IfOk result (λ made. made.face ≡ forest.now.face) }
    ensures plain { Every HasNoBoxes forest.now.forest.autos
        → IfOk result (λ made. Every HasNoBoxes made.forest.autos) }
    ensures canonical { vars ≡ forest.now.forest.vars → IsCanonical forest.now.face forest.now.forest
        → IfOk result (λ made. IsCanonical made.face made.forest) }
{
    forest.known();
    let made = forest.with_vars(alloc, vars, data_vars)?;
    Ok(made)
}
