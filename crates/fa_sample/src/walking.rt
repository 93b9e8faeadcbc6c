// Cells from trees: a walk through each tree writes its cells. What is still to be done stands in a list, so that no
// call goes as deep as a tree; calls go as deep as boxes lie in one another.

ghost use Rattle.std.specs.Prelude.{◌≡◌, ◌++◌, ◌∷◌, ◌<◌, ◌+◌, [], length, drop, IfOk, map, suc};
ghost use Rattle.fore_base.specs.declared.store.Value.TheVariants.{Cell};
ghost use Rattle.fa_core.specs.Dressed.{nth_value};
ghost use Rattle.fa_sample.specs.inner.Dressing.{root_values, forest_made, insides_made};
ghost use Rattle.fa_sample.specs.inner.Emitted.{forest_out};
ghost use Rattle.fa_sample.specs.inner.Walk.{seen, ends, weight, top_value, followed, root_draft};
ghost use Rattle.fa_sample.specs.inner.Walk.{root_ended, roots_reserved, roots_ended};
ghost use Rattle.ta_core.specs.declared.tree.Tree.{out-Tree};
ghost use Rattle.fa_sample.specs.inner.Written.{written};

use crate::drafts::{Draft, FieldValue, add_draft, add_field, next_number, reserve};
use fore_base::list::{Copies, List};
use fore_base::memory::Mem;
use fore_base::store::Value;
use std::alloc::Global;
use ta_core::symbol::{Slot, Symbol};
use ta_core::tree::Tree;

/// The slots of a cell that are still to be walked, and the trees below them.
#[derive(Clone, Copy)]
pub struct Task<'a> {
    pub cell: u64,
    pub slots: &'a [Slot],
    pub trees: &'a [Tree],
}

/// Writes the cells of a forest of these trees, of which the first are ports with these values, and gives what its
/// roots are. `boxes` are the trees of each box, whose insides are written as many levels deep as `depth` says. Err is
/// want of memory.
#[cycle(forest)]
pub fn add_forest(
    alloc: Global,
    boxes: &[List<Tree>],
    depth: u32,
    ports: &[Value],
    trees: &[Tree],
    drafts: &mut List<Draft>,
) -> Mem<List<Value>>
    ensures values { IfOk result (λ values. values ≡ root_values ports.now trees.now (suc (length drafts.old))) }
    ensures cells { IfOk result (λ _. drafts.new ≡ written (forest_out ports.now
        (forest_made (insides_made boxes.now depth) ports.now trees.now (suc (length drafts.old))).0) drafts.old) }
    ensures next { IfOk result (λ _. suc (length drafts.new)
        ≡ (forest_made (insides_made boxes.now depth) ports.now trees.now (suc (length drafts.old))).1) }
{
    let values = reserve_roots(alloc, ports, trees, drafts)?;
    add_roots(alloc, boxes, depth, values.as_slice(), trees, drafts)?;
    Ok(values)
}

/// Writes what stands below the roots, which are these values.
#[cycle(forest)]
fn add_roots(
    alloc: Global,
    boxes: &[List<Tree>],
    depth: u32,
    values: &[Value],
    trees: &[Tree],
    drafts: &mut List<Draft>,
) -> Mem<()>
    ensures { IfOk result (λ _. (drafts.new, suc (length drafts.new))
        ≡ roots_ended (insides_made boxes.now depth) values.now values.now trees.now drafts.old) }
{
    let mut trees = trees;
    for place in 0..values.len() {
        trees = add_root(alloc, boxes, depth, values, place, trees, drafts)?;
    }
    Ok(())
}

/// Writes what stands below the root at this place, whose tree is the first of the trees, and gives the others.
#[cycle(forest)]
fn add_root<'a>(
    alloc: Global,
    boxes: &[List<Tree>],
    depth: u32,
    values: &[Value],
    place: usize,
    trees: &'a [Tree],
    drafts: &mut List<Draft>,
) -> Mem<&'a [Tree]>
    ensures { IfOk result (λ rest. roots_ended (insides_made boxes.now depth) values.now (drop place values.now)
        trees.entry.now drafts.old
        ≡ roots_ended (insides_made boxes.now depth) values.now (drop (place + 1) values.now) rest.now drafts.new) }
{
    let Some(value) = values.get(place) else {
        return Ok(trees);
    };
    let Some((tree, rest)) = trees.split_first() else {
        return Ok(trees);
    };
    match value {
        Value::Null | Value::Uninit | Value::Dangling => Ok(rest),
        Value::Cell(cell) => {
            add_cell(alloc, boxes, depth, values, *cell, tree, drafts)?;
            Ok(rest)
        }
    }
}

/// Writes what stands below the root that is this cell.
#[cycle(forest)]
fn add_cell(
    alloc: Global,
    boxes: &[List<Tree>],
    depth: u32,
    values: &[Value],
    cell: u64,
    tree: &Tree,
    drafts: &mut List<Draft>,
) -> Mem<()>
    ensures { IfOk result (λ _. (drafts.new, suc (length drafts.new))
        ≡ root_ended (insides_made boxes.now depth) values.now (Cell cell) tree.now drafts.old) }
{
    let mut tasks = List::new(alloc);
    follow(tree, cell, &mut tasks)?;
    do_tasks(alloc, boxes, depth, values, drafts, tasks)?;
    Ok(())
}

/// Does the tasks, the last one first, and those that they make.
#[cycle(forest)]
fn do_tasks(
    alloc: Global,
    boxes: &[List<Tree>],
    depth: u32,
    values: &[Value],
    drafts: &mut List<Draft>,
    mut tasks: List<Task<'_>>,
) -> Mem<()>
    ensures { IfOk result (λ _. (drafts.new, suc (length drafts.new))
        ≡ ends (insides_made boxes.now depth) values.now (map seen tasks.entry) drafts.old) }
{
    'tasks: while let Some(task) = tasks.pop() {
        do_task(alloc, boxes, depth, values, task, drafts, &mut tasks)?;
    }
    Ok(())
}

/// Does the first slot of a task.
#[cycle(forest)]
fn do_task<'a>(
    alloc: Global,
    boxes: &[List<Tree>],
    depth: u32,
    values: &[Value],
    task: Task<'a>,
    drafts: &mut List<Draft>,
    tasks: &mut List<Task<'a>>,
) -> Mem<()>
    ensures ends { IfOk result (λ _. ends (insides_made boxes.now depth) values.now (map seen tasks.new) drafts.new
        ≡ ends (insides_made boxes.now depth) values.now (map seen tasks.old ++ seen task.entry ∷ []) drafts.old) }
    ensures less { IfOk result
        (λ _. weight (map seen tasks.new) < weight (map seen tasks.old ++ seen task.entry ∷ [])) }
{
    let Some((slot, slots)) = task.slots.split_first() else {
        return Ok(());
    };
    let cell = task.cell;
    let trees = task.trees;
    match slot {
        Slot::Hook(box_no) => {
            tasks.push(Task { cell, slots, trees })?;
            let ports = [Value::Cell(cell)];
            add_inside(alloc, boxes, depth, *box_no, &ports, drafts)?;
            Ok(())
        }
        Slot::Field(field) => {
            let Some((tree, trees)) = trees.split_first() else {
                return Ok(());
            };
            tasks.push(Task { cell, slots, trees })?;
            let own = next_number(drafts)?;
            let value = top_value(values, tree, own);
            reserve(alloc, tree, drafts)?;
            let field = *field;
            add_field(alloc, cell, FieldValue { field, value }, drafts)?;
            follow(tree, own, tasks)?;
            Ok(())
        }
        Slot::Link(box_no) => {
            let Some((tree, trees)) = trees.split_first() else {
                return Ok(());
            };
            tasks.push(Task { cell, slots, trees })?;
            let own = next_number(drafts)?;
            let value = top_value(values, tree, own);
            reserve(alloc, tree, drafts)?;
            let ports = [Value::Cell(cell), value];
            add_inside(alloc, boxes, depth, *box_no, &ports, drafts)?;
            follow(tree, own, tasks)?;
            Ok(())
        }
    }
}

/// Writes the inside of an edge of a box between these ports.
#[cycle(forest)]
fn add_inside(
    alloc: Global,
    boxes: &[List<Tree>],
    depth: u32,
    box_no: u32,
    ports: &[Value],
    drafts: &mut List<Draft>,
) -> Mem<()>
    ensures cells { IfOk result (λ _. drafts.new ≡ written (forest_out ports.now
        (insides_made boxes.now depth box_no ports.now (suc (length drafts.old))).0) drafts.old) }
    ensures next { IfOk result (λ _. suc (length drafts.new)
        ≡ (insides_made boxes.now depth box_no ports.now (suc (length drafts.old))).1) }
{
    if depth == 0 {
        return Ok(());
    }
    match boxes.get(box_no as usize) {
        None => Ok(()),
        Some(trees) => {
            add_forest(alloc, boxes, depth - 1, ports, trees.as_slice(), drafts)?;
            Ok(())
        }
    }
}

/// Adds the cells of the roots that are no ports, and gives what the roots are. A root whose tree is a leaf is a cell
/// of struct 0.
fn reserve_roots(
    alloc: Global,
    ports: &[Value],
    trees: &[Tree],
    drafts: &mut List<Draft>,
) -> Mem<List<Value>>
    ensures values { IfOk result (λ values. values ≡ root_values ports.now trees.now (suc (length drafts.old))) }
    ensures cells { IfOk result (λ _. drafts.new ≡ roots_reserved ports.now trees.now drafts.old) }
{
    let mut values = List::new(alloc);
    let mut ports = ports;
    for tree in trees {
        match ports.split_first() {
            Some((port, rest)) => {
                values.push(*port)?;
                ports = rest;
            }
            None => {
                let own = next_number(drafts)?;
                values.push(Value::Cell(own))?;
                reserve_root(alloc, tree, drafts)?;
            }
        }
    }
    Ok(values)
}

fn reserve_root(alloc: Global, tree: &Tree, drafts: &mut List<Draft>) -> Mem<()>
    ensures { IfOk result (λ _. drafts.new ≡ drafts.old ++ root_draft (out-Tree tree.now).symbol ∷ []) }
{
    match &tree.symbol {
        Symbol::Null | Symbol::Uninit | Symbol::Dangling | Symbol::Ref(_) => {
            add_draft(alloc, 0, List::new(alloc), drafts)
        }
        Symbol::Cell { shape, datums, .. } => {
            let datums = datums.copy(alloc)?;
            add_draft(alloc, *shape, datums, drafts)
        }
    }
}

/// The value at the top of a tree, whose cell, where there is one, has this number.
fn top_value(values: &[Value], tree: &Tree, number: u64) -> Value
    ensures { result ≡ top_value values.now tree.now number }
{
    match &tree.symbol {
        Symbol::Null => Value::Null,
        Symbol::Uninit => Value::Uninit,
        Symbol::Dangling => Value::Dangling,
        Symbol::Ref(root) => nth_value(values, *root),
        Symbol::Cell { .. } => Value::Cell(number),
    }
}

/// The value of a root, Dangling where there is none.
pub fn nth_value(values: &[Value], root: u32) -> Value
    ensures { result ≡ nth_value values.now root }
{
    match values.get(root as usize) {
        Some(value) => *value,
        None => Value::Dangling,
    }
}

/// Adds the slots at the top of a tree, where it is a cell, as those of the cell of this number.
fn follow<'a>(tree: &'a Tree, cell: u64, tasks: &mut List<Task<'a>>) -> Mem<()>
    ensures { IfOk result (λ _. map seen tasks.new ≡ followed tree.now cell (map seen tasks.old)) }
{
    match &tree.symbol {
        Symbol::Null | Symbol::Uninit | Symbol::Dangling | Symbol::Ref(_) => Ok(()),
        Symbol::Cell { slots, .. } => {
            let slots = slots.as_slice();
            let trees = tree.children.as_slice();
            tasks.push(Task { cell, slots, trees })?;
            Ok(())
        }
    }
}
