// Forests with their components reduced.

ghost use Rattle.std.specs.Prelude.{◌≡◌, IfOk};
ghost use Rattle.fore_base.specs.Lists.{Every, Paired};
ghost use Rattle.par_kit.specs.Crews.{IsJobs};
ghost use Rattle.ta_core.specs.Auto.{IsRanked};
ghost use Rattle.fa_core.specs.Boxless.{HasNoBoxes};
ghost use Rattle.fa_core.specs.Canonical.{IsCanonical};
ghost use Rattle.fa_core.specs.Covering.{Covers, Reduced};
ghost use Rattle.fa_order.specs.inner.Reduced.{IsReduction};

use fa_core::forest::Forest;
use fa_sound::Sound;
use fore_base::list::{Copies, List};
use fore_base::memory::Mem;
use par_kit::crew::Crew;
use par_kit::gate::Gate;
use std::alloc::Global;
use std::thread::Threads;
use ta_core::auto::Auto;
use ta_reduce::reducing::reduce;

/// The forest with each component reduced: the same languages, component by component, the same targets and data. Box
/// edges are symbols: where there were none there are none. Where the forest is canonical, so is the result. The crew
/// runs 1 to 64 jobs and has no bearing on the answer. Err is want of memory.
pub fn reduce_forest<R: Threads + Sync, G: Gate>(
    rt: &R,
    alloc: Global,
    forest: &Sound,
    crew: &Crew<'_, G>,
) -> Mem<Sound>
    requires jobs { IsJobs crew.now.jobs }
    ensures covers { IfOk result (λ made. Covers made.forest forest.now.forest) }
    ensures covered { IfOk result (λ made. Covers forest.now.forest made.forest) }
    ensures reduced { IfOk result (λ made. Reduced made.forest) }
    ensures face { IfOk result (λ made. made.face ≡ forest.now.face) }
    ensures plain { Every HasNoBoxes forest.now.forest.autos
        → IfOk result (λ made. Every HasNoBoxes made.forest.autos) }
    ensures canonical { IfOk result (λ made. IsCanonical forest.now.face forest.now.forest
        → IsCanonical made.face made.forest) }
{
    forest.known();
    let autos = reduced_autos(rt, alloc, forest.forest().autos.as_slice(), crew)?;
    let made = with_autos(alloc, forest.forest(), autos)?;
    Sound::of(alloc, made, forest.face())
}

/// The forest with other components. Err is want of memory.
fn with_autos(alloc: Global, forest: &Forest, autos: List<Auto>) -> Mem<Forest>
    ensures { IfOk result (λ made. made
        ≡ record {
          autos = autos;
          vars = forest.now.vars;
          data_vars = forest.now.data_vars;
        }) }
{
    let vars = forest.vars.copy(alloc)?;
    let data_vars = forest.data_vars.copy(alloc)?;
    Ok(Forest {
        autos,
        vars,
        data_vars,
    })
}

fn reduced_autos<R: Threads + Sync, G: Gate>(
    rt: &R,
    alloc: Global,
    autos: &[Auto],
    crew: &Crew<'_, G>,
) -> Mem<List<Auto>>
    requires { IsJobs crew.now.jobs }
    ensures reductions { IfOk result (λ made. Paired IsReduction autos.now made) }
    ensures ranked { IfOk result (λ made. Every IsRanked made) }
{
    let mut made = List::new(alloc);
    for auto in autos {
        let reduced = reduced_auto(rt, alloc, auto, crew)?;
        reduced.known();
        made.push(reduced)?;
    }
    Ok(made)
}

fn reduced_auto<R: Threads + Sync, G: Gate>(
    rt: &R,
    alloc: Global,
    auto: &Auto,
    crew: &Crew<'_, G>,
) -> Mem<Auto>
    requires { IsJobs crew.now.jobs }
    ensures { IfOk result (IsReduction auto.now) }
{
    reduce(rt, alloc, auto, crew)
}
