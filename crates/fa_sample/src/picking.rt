// A smallest tree of each component, of a forest and of the insides of boxes.

ghost use Rattle.std.specs.Prelude.{IfOk, ◌<◌, length};
ghost use Rattle.fa_core.specs.Boxes.{IsBoxTable};
ghost use Rattle.fa_sample.specs.inner.Picked.{ArePicked, IsPickedAt};
ghost use Rattle.fore_base.specs.Lists.{Every};
ghost use Rattle.fa_core.specs.Filled.{Choice, HasSome};
ghost use Rattle.ta_core.specs.Auto.{IsRanked};
ghost use Rattle.ta_core.specs.Language.{InLanguage};

use fa_core::boxes::BoxDef;
use fa_core::table::BoxTable;
use fore_base::list::List;
use fore_base::memory::Mem;
use std::alloc::Global;
use ta_core::auto::Auto;
use ta_core::smallest::smallest_tree;
use ta_core::tree::Tree;

/// A smallest tree of each automaton. Err is want of memory.
pub fn pick_trees(alloc: Global, autos: &[Auto]) -> Mem<List<Tree>>
    requires { Every HasSome autos.now }
    ensures choice { IfOk result (Choice autos.now) }
    ensures ranked { IfOk result (λ _. Every IsRanked autos.now) }
{
    let mut trees = List::new(alloc);
    for auto in autos {
        let tree = pick_tree(alloc, auto)?;
        trees.push(tree)?;
    }
    Ok(trees)
}

fn pick_tree(alloc: Global, auto: &Auto) -> Mem<Tree>
    requires { HasSome auto.now }
    ensures tree { IfOk result (InLanguage auto.now) }
    ensures ranked { IsRanked auto.now }
{
    auto.known();
    match smallest_tree(alloc, auto)? {
        Some(tree) => Ok(tree),
        None => unreachable!(),
    }
}

/// Smallest trees of the inside of each box. Err is want of memory.
pub fn pick_insides(alloc: Global, table: &BoxTable) -> Mem<List<List<Tree>>>
    ensures { IfOk result (ArePicked table.now.defs) }
{
    table.known();
    let mut boxes = List::new(alloc);
    for number in 0..table.len() {
        let trees = pick_inside(alloc, table, number)?;
        boxes.push(trees)?;
    }
    Ok(boxes)
}

fn pick_inside(alloc: Global, table: &BoxTable, number: u32) -> Mem<List<Tree>>
    requires table { IsBoxTable table.now }
    requires number { number < length table.now.defs }
    ensures { IfOk result (IsPickedAt table.now.defs number) }
{
    let one: &BoxDef = table.box_def(number);
    pick_trees(alloc, one.inside.autos.as_slice())
}
