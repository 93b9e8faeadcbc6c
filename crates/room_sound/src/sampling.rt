// sample: a member of a sound forest.

ghost use Rattle.std.specs.Prelude.{◌≡◌};

use crate::stores::text_of_store;
use anyhow::{Result, bail};
use fa_core::table::BoxTable;
use fa_sample::sample;
use fa_sound::Sound;
use row_forests::sound;
use std::alloc::Global;

pub fn sampled(alloc: Global, text: &str) -> Result<String> {
    let forest = sound(alloc, text)?;
    plain_member(alloc, &forest)
}

fn plain_member(alloc: Global, forest: &Sound) -> Result<String> {
    if !forest.face().boxes.is_empty() {
        bail!("a box");
    }
    let table = BoxTable::empty(alloc, &forest.face().shapes)?;
    member_text(alloc, forest, &table)
}

/// A member of the forest over the faces of the table.
pub fn member_text(alloc: Global, forest: &Sound, table: &BoxTable) -> Result<String>
    requires { table.now.face ≡ forest.now.face }
{
    let store = sample(alloc, forest, table)?;
    text_of_store(alloc, &store)
}
