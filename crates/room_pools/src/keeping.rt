// Forests kept in a pool.

use anyhow::Result;
use fa_core::faces::Face;
use fa_pool::{Kept, Pool};
use fa_sound::Sound;
use fore_base::list::List;
use row_forests::{face, sound_over};
use std::alloc::Global;

/// Keeps the forests of the texts, in their order.
pub fn keep_all(alloc: Global, pool: &mut Pool, texts: &[&str]) -> Result<List<Kept>> {
    let face = face(alloc)?;
    keep_over(alloc, pool, &face, texts)
}

/// Keeps the forests, in their order.
pub fn keep_sounds(alloc: Global, pool: &mut Pool, forests: &[Sound]) -> Result<List<Kept>> {
    let mut all = List::new(alloc);
    for forest in forests {
        let kept = pool.keep(alloc, forest)?;
        all.push(kept)?;
    }
    Ok(all)
}

fn keep_over(alloc: Global, pool: &mut Pool, face: &Face, texts: &[&str]) -> Result<List<Kept>> {
    let mut all = List::new(alloc);
    for text in texts {
        let kept = keep(alloc, pool, face, text)?;
        all.push(kept)?;
    }
    Ok(all)
}

fn keep(alloc: Global, pool: &mut Pool, face: &Face, text: &str) -> Result<Kept> {
    let forest = sound_over(alloc, face, text)?;
    Ok(pool.keep(alloc, &forest)?)
}
