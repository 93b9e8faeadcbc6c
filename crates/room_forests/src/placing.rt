// Roots put into the order of the walk, components reduced, and whether forests are canonical.

ghost use Rattle.fa_order.specs.Placing.{DoEdgesGive};

use crate::roots::shown;
use anyhow::{Result, bail};
use fa_merge::leaking_root;
use fa_order::{has_root_kinds, is_canonical, place_roots, reduce_forest};
use fa_sound::Sound;
use par_kit::crew::Crew;
use par_kit::gate::NoGate;
use row_forests::put_number;
use row_kit::yes_or_no;
use std::alloc::Global;
use std::thread::Threads;
use ta_core::auto::Auto;

// canonical?: whether the roots are those of a canonical forest, and whether the forest is canonical.
pub fn decided(alloc: Global, forest: &Sound) -> Result<String> {
    let is_rooted = yes_or_no(has_root_kinds(alloc, forest)?);
    let is_canonical = yes_or_no(is_canonical(alloc, forest)?);
    Ok(format!(in alloc; "{is_rooted} {is_canonical}")?)
}

// placed: the forest with its roots in the order of the walk.
pub fn placed(alloc: Global, forest: &Sound) -> Result<String>
    requires { DoEdgesGive forest.now.face forest.now.forest }
{
    shown(alloc, place(alloc, forest)?)
}

fn place(alloc: Global, forest: &Sound) -> Result<Sound>
    requires { DoEdgesGive forest.now.face forest.now.forest }
{
    if !has_root_kinds(alloc, forest)? {
        bail!("other roots than those of a canonical forest");
    }
    let leak = leaking_root(alloc, forest)?;
    match leak {
        Some(_) => bail!("a leak"),
        None => Ok(place_roots(alloc, forest)?),
    }
}

// reduced: how many states the reduced components have.
pub fn reduced<R: Threads + Sync>(rt: &R, alloc: Global, forest: &Sound) -> Result<String> {
    let crew = Crew {
        jobs: 2,
        gate: &NoGate,
    };
    let made = reduce_forest(rt, alloc, forest, &crew)?;
    counts(alloc, made.forest().autos.as_slice())
}

fn counts(alloc: Global, autos: &[Auto]) -> Result<String> {
    let mut text = String::new(alloc);
    for auto in autos {
        put_number(&mut text, auto.states)?;
    }
    Ok(text)
}
