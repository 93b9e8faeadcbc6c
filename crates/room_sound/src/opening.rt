// Box edges opened for a field of a root.

ghost use Rattle.std.specs.Prelude.{◌≡◌};

use anyhow::Result;
use fa_core::table::BoxTable;
use fa_opening::{can_open, open_edges};
use fa_sound::Sound;
use row_forests::letters;
use row_kit::said;
use std::alloc::Global;

// opened ROOT FIELD: which of the forests behind the boxes those are in which no box edge covers the field of the root
// or gives it to the root, in the order of the wanted ones.
pub fn opened(
    alloc: Global,
    forest: &Sound,
    table: &BoxTable,
    root: u32,
    field: u32,
    wanted: &[&str],
) -> Result<String>
    requires { table.now.face ≡ forest.now.face }
{
    if can_open(forest, root) {
        let made = open_edges(alloc, forest, table, root, field)?;
        letters(alloc, made.as_slice(), wanted)
    } else {
        said(alloc, "refused")
    }
}
