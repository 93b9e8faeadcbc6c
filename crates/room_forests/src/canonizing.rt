// Forests made canonical.

ghost use Rattle.fa_order.specs.Placing.{DoEdgesGive};

use anyhow::{Result, bail};
use fa_canon::canonical;
use fa_merge::leaking_root;
use fa_sound::Sound;
use fore_base::list::List;
use par_kit::crew::Crew;
use par_kit::gate::NoGate;
use row_forests::letters;
use std::alloc::Global;
use std::thread::Threads;

// canonical: which of the wanted forests the canonical forests are. turned: the same of the forest in its other form,
// which has the same members.
pub fn canonical_letters<R: Threads + Sync>(
    rt: &R,
    alloc: Global,
    forest: &Sound,
    wanted: &[&str],
) -> Result<String>
    requires giving { DoEdgesGive forest.now.face forest.now.forest }
{
    let made = canonical_of(rt, alloc, forest)?;
    letters(alloc, made.as_slice(), wanted)
}

// The canonical forests of a forest of which no member leaks.
fn canonical_of<R: Threads + Sync>(rt: &R, alloc: Global, forest: &Sound) -> Result<List<Sound>>
    requires giving { DoEdgesGive forest.now.face forest.now.forest }
{
    let leak = leaking_root(alloc, forest)?;
    match leak {
        Some(_) => bail!("a leak"),
        None => {
            let crew = Crew {
                jobs: 1,
                gate: &NoGate,
            };
            Ok(canonical(rt, alloc, forest, &crew)?)
        }
    }
}
