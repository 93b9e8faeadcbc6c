// What an edge of a box is unfolded into.

ghost use Rattle.std.specs.Prelude.{◌≡◌};

use anyhow::Result;
use fa_core::table::BoxTable;
use fa_sound::Sound;
use fa_unfold::{can_unfold, unfold};
use row_forests::letters;
use row_kit::said;
use std::alloc::Global;

/// The letters of the wanted forests that those are in which the edge at the slot of the root is replaced by the inside
/// of its box; `refused` where no edge is there.
///
/// # Errors
///
/// A wanted text that cannot be read, and want of memory.
pub fn unfolded_letters(
    alloc: Global,
    forest: &Sound,
    table: &BoxTable,
    root: u32,
    slot: u32,
    wanted: &[&str],
) -> Result<String>
    requires { table.now.face ≡ forest.now.face }
{
    if can_unfold(forest, root, slot as usize) {
        let made = unfold(alloc, forest, table, root, slot as usize)?;
        letters(alloc, made.as_slice(), wanted)
    } else {
        said(alloc, "refused")
    }
}
