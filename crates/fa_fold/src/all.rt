// All folds of a forest.

ghost use Rattle.std.specs.Prelude.{◌≡◌, ◌<◌, length, List, IfOk};
ghost use Rattle.fore_base.specs.Lists.{Paired};
ghost use Rattle.fore_base.specs.declared.shape.Shape.{Shape};
ghost use Rattle.fore_base.specs.declared.store.Store.{Store};
ghost use Rattle.fa_core.specs.LeastFolds.{FoldsTo, IsFolded, IsLeastFold};
ghost use Rattle.fa_core.specs.Member.{Stands};
ghost use Rattle.fa_merge.specs.Reached.{DoesNoneLeak, NeverLeaks};
ghost use Rattle.fa_fold.specs.All.{HasAsManyVariables};
ghost use Rattle.fa_fold.specs.Least.{IsLeastSite};
ghost use Rattle.fa_fold.specs.TopFields.{all_top_fields};
ghost use Rattle.fa_part.specs.Ports.{AreFieldsOf};

use crate::folds::fold_by;
use crate::least::{FoldSite, least_by};
use fa_back::ranked_insides;
use fa_core::folds::FoldStep;
use fa_core::table::BoxTable;
use fa_merge::laws::{all_leak_or_none, sound_forests_have_members};
use fa_part::{PortFields, table_fields};
use fa_sound::Sound;
use fore_base::list::{Copies, List};
use fore_base::memory::Mem;
use std::alloc::Global;

/// The forest after the folds that its boxes allow, and the folds: each takes the least box, input and output that can
/// be folded, until nothing can. Each member stays, by the boxes of the table. Where no member leaks by these boxes, no
/// member of the result leaks by any.
///
/// # Errors
///
/// Want of memory, also where numbers of states and roots do not fit 32 bits.
pub fn fold_all(alloc: Global, forest: &Sound, table: &BoxTable) -> Mem<(Sound, List<FoldStep>)>
    requires { table.now.face ≡ forest.now.face }
    ensures folds { IfOk result (λ made. FoldsTo table.now forest.now.forest made.1 made.0.forest) }
    ensures folded { IfOk result (λ made. IsFolded table.now made.0.forest) }
    ensures face { IfOk result (λ made. made.0.face ≡ forest.now.face) }
    ensures variables { IfOk result (λ made. HasAsManyVariables forest.now.forest made.0.forest) }
    ensures members { IfOk result (λ made. (hs : List Shape) (s : Store)
        → Stands hs table.now.defs forest.now.forest s → Stands hs table.now.defs made.0.forest s) }
    ensures leaks { IfOk result (λ made. DoesNoneLeak table.now.face table.now.defs forest.now.forest
        → NeverLeaks table.now.face made.0.forest) }
{
    forest.known();
    table.known();
    ranked_insides(table);
    all_leak_or_none();
    sound_forests_have_members();
    let fields = table_fields(alloc, table)?;
    let mut folded = forest.copy(alloc)?;
    let mut steps = List::new(alloc);
    'folds: while let Some(site) = least_by(alloc, &folded, table, &fields)? {
        let (next, step) = fold_least(alloc, &folded, table, &fields, &site)?;
        folded = next;
        steps.push(step)?;
    }
    folded.known();
    Ok((folded, steps))
}

/// The fold at the least place. Err is want of memory, also where numbers of states and roots do not fit 32 bits.
fn fold_least(
    alloc: Global,
    forest: &Sound,
    table: &BoxTable,
    fields: &List<PortFields>,
    site: &FoldSite,
) -> Mem<(Sound, FoldStep)>
    requires face { table.now.face ≡ forest.now.face }
    requires fields { Paired (AreFieldsOf table.now.face.boxes) table.now.defs fields.now }
    requires site { IsLeastSite table.now forest.now.forest site.now }
    ensures fold { IfOk result (λ made. IsLeastFold table.now forest.now.forest made.1 made.0.forest) }
    ensures face { IfOk result (λ made. made.0.face ≡ forest.now.face) }
    ensures falls { IfOk result
        (λ made. all_top_fields made.0.forest.autos < all_top_fields forest.now.forest.autos) }
    ensures members { IfOk result (λ made. (hs : List Shape) (s : Store)
        → Stands hs table.now.defs forest.now.forest s → Stands hs table.now.defs made.0.forest s) }
{
    let own = fields.at(site.box_no as usize);
    let made = fold_by(
        alloc,
        forest,
        table,
        own,
        site.box_no,
        site.input,
        site.output,
    )?;
    Ok(made)
}
