// One box edge replaced that covers a field of a root or gives it to the root.

ghost use Rattle.std.specs.Prelude.{◌≡◌, IfOk};
ghost use Rattle.fore_base.specs.Lists.{IsIn, Every};
ghost use Rattle.fa_core.specs.declared.forest.Target.TheVariants.{At};
ghost use Rattle.fa_sound.specs.Unions.{forests};
ghost use Rattle.fa_opening.specs.Opened.{IsThatField, OpensInto};
ghost use Rattle.fa_opening.specs.inner.Rounds.{IsLowered, IsNeeded};

use crate::applying::on_each;
use crate::choosing::{Choose, known_each};
use fa_back::ranked_insides;
use fa_core::table::BoxTable;
use fa_sound::Sound;
use fa_unfold::unfold;
use fore_base::list::List;
use fore_base::memory::Mem;
use std::alloc::Global;

/// The forests in which the box edge at the slot of the root `at`, which is one for the field of the root `root`, is
/// replaced by the inside of its box, each with one rule at the root `root`. Err is want of memory.
pub fn unfold_at(
    alloc: Global,
    forest: &Sound,
    table: &BoxTable,
    at: u32,
    slot: usize,
    root: u32,
    _field: u32,
) -> Mem<List<Sound>>
    requires face { table.now.face ≡ forest.now.face }
    requires target { IsIn (At root) forest.now.forest.vars }
    requires edge { IsNeeded table.now.face.boxes root _field forest.now.forest at slot }
    ensures each { IfOk result (Every (IsLowered table.now root _field forest.now.forest)) }
    ensures whole { IfOk result (λ made.
        OpensInto table.now.face.boxes table.now.defs root (IsThatField _field) forest.now.forest (forests made)) }
{
    forest.known();
    table.known();
    ranked_insides(table);
    let parts = unfold(alloc, forest, table, at, slot)?;
    known_each(parts.as_slice());
    let made = on_each(alloc, &Choose { root }, parts.as_slice())?;
    Ok(made)
}
