// A member of a sound forest.

ghost use Rattle.std.specs.Prelude.{◌≡◌, IfOk, map};
ghost use Rattle.fa_core.specs.Dressed.{value_in};
ghost use Rattle.fa_core.specs.Member.{Stands};
ghost use Rattle.fa_sample.specs.inner.Sampled.{store_sampled};

use crate::drafts::{finish, next_number};
use crate::picking::{pick_insides, pick_trees};
use crate::walking::{add_forest, nth_value};
use fa_back::ranked_insides;
use fa_core::forest::{Forest, Target};
use fa_core::table::BoxTable;
use fa_sound::sound::Sound;
use fore_base::list::{Copies, List};
use fore_base::memory::Mem;
use fore_base::store::{Store, Value};
use std::alloc::Global;
use ta_core::tree::Tree;

/// A member of the forest, by the boxes of the table: a store for which the forest stands. It has the cells of a
/// smallest tree of each component, and those of the inside of each box edge, numbered from 1. Err is want of memory.
pub fn sample(alloc: Global, forest: &Sound, table: &BoxTable) -> Mem<Store>
    requires face { table.now.face ≡ forest.now.face }
    ensures { IfOk result (Stands forest.now.face.shapes.structs table.now.defs forest.now.forest) }
{
    forest.known();
    table.known();
    ranked_insides(table);
    let boxes = pick_insides(alloc, table)?;
    let trees = pick_trees(alloc, forest.forest().autos.as_slice())?;
    let depth = table.len();
    let store = make_store(
        alloc,
        boxes.as_slice(),
        depth,
        forest.forest(),
        trees.as_slice(),
    )?;
    Ok(store)
}

/// The store of one tree of each component, by the trees of boxes that lie this deep in one another.
fn make_store(
    alloc: Global,
    boxes: &[List<Tree>],
    depth: u32,
    forest: &Forest,
    trees: &[Tree],
) -> Mem<Store>
    ensures { IfOk result (λ store. store ≡ store_sampled boxes.now depth forest.now trees.now) }
{
    let mut drafts = List::new(alloc);
    let none: List<Value> = List::new(alloc);
    let values = add_forest(alloc, boxes, depth, none.as_slice(), trees, &mut drafts)?;
    let vars = target_values(alloc, values.as_slice(), forest.vars.as_slice())?;
    let data_vars = forest.data_vars.copy(alloc)?;
    let cells = finish(alloc, drafts.as_slice())?;
    let next = next_number(&drafts)?;
    Ok(Store {
        vars,
        data_vars,
        cells,
        next,
    })
}

/// What the targets are, by what the roots are. Err is want of memory.
fn target_values(alloc: Global, roots: &[Value], targets: &[Target]) -> Mem<List<Value>>
    ensures { IfOk result (λ values. values ≡ map (value_in roots.now) targets.now) }
{
    let mut values = List::new(alloc);
    for target in targets {
        values.push(target_value(roots, *target))?;
    }
    Ok(values)
}

fn target_value(roots: &[Value], target: Target) -> Value
    ensures { result ≡ value_in roots.now target }
{
    match target {
        Target::Null => Value::Null,
        Target::Uninit => Value::Uninit,
        Target::Dangling => Value::Dangling,
        Target::At(root) => nth_value(roots, root),
    }
}
