// One fold of a part that is within its box.

ghost use Rattle.std.specs.Prelude.{◌≡◌, ◌<◌, List, Some, IfOk};
ghost use Rattle.fore_base.specs.Lists.{Every};
ghost use Rattle.fore_base.specs.declared.shape.Shape.{Shape};
ghost use Rattle.fore_base.specs.declared.store.Store.{Store};
ghost use Rattle.fa_core.specs.Folding.{IsFold};
ghost use Rattle.fa_core.specs.LeastFolds.{CanFold};
ghost use Rattle.fa_core.specs.Member.{Stands};
ghost use Rattle.fa_fold.specs.Folds.{IsStepAt};
ghost use Rattle.fa_fold.specs.TopFields.{all_top_fields};
ghost use Rattle.fa_fold.specs.inner.Fields.{AreBoxFields};
ghost use Rattle.fa_fold.specs.inner.Folds.{IsFoldable};
ghost use Rattle.fa_part.specs.Ports.{AreInnerRoots, IsPortOf, ports_of};

use crate::folded::fold_at;
use fa_back::ranked_insides;
use fa_core::boxes::BoxDef;
use fa_core::folds::FoldStep;
use fa_core::table::BoxTable;
use fa_part::{Port, PortFields, box_fields, lone_roots, made_part, ports_at};
use fa_sound::Sound;
use fore_base::list::List;
use fore_base::memory::Mem;
use std::alloc::Global;

/// The forest after one fold: an edge of the box takes the place of the part at these roots, which is within the box.
/// Roots move down where inner roots are taken away. With it comes what was folded. Each member stays, by the boxes of
/// the table, and the Field slots at the tops of the components are fewer.
///
/// # Errors
///
/// Want of memory, also where numbers of states and roots do not fit 32 bits.
pub fn fold_once(
    alloc: Global,
    forest: &Sound,
    table: &BoxTable,
    box_no: u32,
    input: u32,
    output: Option<u32>,
) -> Mem<(Sound, FoldStep)>
    requires face { table.now.face ≡ forest.now.face }
    requires can { CanFold table.now forest.now.forest box_no input output }
    ensures fold { IfOk result
        (λ made. IsFold table.now.face.boxes table.now.defs forest.now.forest made.1 made.0.forest) }
    ensures step { IfOk result (λ made. IsStepAt box_no input output made.1) }
    ensures face { IfOk result (λ made. made.0.face ≡ forest.now.face) }
    ensures falls { IfOk result
        (λ made. all_top_fields made.0.forest.autos < all_top_fields forest.now.forest.autos) }
    ensures members { IfOk result (λ made. (hs : List Shape) (s : Store)
        → Stands hs table.now.defs forest.now.forest s → Stands hs table.now.defs made.0.forest s) }
{
    let fields = box_fields(alloc, table, box_no)?;
    fold_by(alloc, forest, table, &fields, box_no, input, output)
}

/// That fold, of a box of which it is known which fields its ports cover. Err is want of memory, also where numbers of
/// states and roots do not fit 32 bits.
pub(crate) fn fold_by(
    alloc: Global,
    forest: &Sound,
    table: &BoxTable,
    fields: &PortFields,
    box_no: u32,
    input: u32,
    output: Option<u32>,
) -> Mem<(Sound, FoldStep)>
    requires face { table.now.face ≡ forest.now.face }
    requires fields { AreBoxFields table.now box_no fields.now }
    requires can { CanFold table.now forest.now.forest box_no input output }
    ensures fold { IfOk result
        (λ made. IsFold table.now.face.boxes table.now.defs forest.now.forest made.1 made.0.forest) }
    ensures step { IfOk result (λ made. IsStepAt box_no input output made.1) }
    ensures face { IfOk result (λ made. made.0.face ≡ forest.now.face) }
    ensures falls { IfOk result
        (λ made. all_top_fields made.0.forest.autos < all_top_fields forest.now.forest.autos) }
    ensures members { IfOk result (λ made. (hs : List Shape) (s : Store)
        → Stands hs table.now.defs forest.now.forest s → Stands hs table.now.defs made.0.forest s) }
{
    forest.known();
    table.known();
    ranked_insides(table);
    let def = table.box_def(box_no);
    let ports = ports_at(alloc, def, fields, input, output)?;
    match lone_roots(alloc, forest, ports.as_slice())? {
        None => unreachable!(),
        Some(inner) => fold_ports(
            alloc,
            forest,
            table,
            def,
            ports.as_slice(),
            &inner,
            box_no,
            input,
            output,
        ),
    }
}

/// The fold at these ports, with these inner roots. Err is want of memory.
fn fold_ports(
    alloc: Global,
    forest: &Sound,
    table: &BoxTable,
    def: &BoxDef,
    ports: &[Port],
    inner: &List<u32>,
    box_no: u32,
    input: u32,
    output: Option<u32>,
) -> Mem<(Sound, FoldStep)>
    requires face { table.now.face ≡ forest.now.face }
    requires ports { Every (IsPortOf forest.now.forest.autos) ports.now }
    requires inner { AreInnerRoots forest.now.forest (ports_of ports.now) inner.now }
    requires can { IsFoldable table.now forest.now.forest box_no input output def.now ports.now inner.now }
    ensures fold { IfOk result
        (λ made. IsFold table.now.face.boxes table.now.defs forest.now.forest made.1 made.0.forest) }
    ensures step { IfOk result (λ made. IsStepAt box_no input output made.1) }
    ensures face { IfOk result (λ made. made.0.face ≡ forest.now.face) }
    ensures falls { IfOk result
        (λ made. all_top_fields made.0.forest.autos < all_top_fields forest.now.forest.autos) }
{
    let part = made_part(alloc, forest, def, ports, inner)?;
    let made = fold_at(
        alloc,
        forest,
        table.face(),
        ports,
        inner,
        box_no,
        input,
        output,
    )?;
    let step = FoldStep {
        box_no,
        input,
        output,
        part,
    };
    Ok((made, step))
}
