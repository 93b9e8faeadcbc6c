// The texts of nodes, and of whole explorations.
ghost use Rattle.std.specs.Prelude.{◌≡◌, ◌++◌, ◌<◌, ℕ, Some, codes, flat_map, length, slice_get, OnOk};
ghost use Rattle.c_cfg.specs.Lowering.{LowerOf};
ghost use Rattle.fa_core.specs.declared.boxes.BoxDef.{BoxDef};
ghost use Rattle.fa_print.specs.Texts.{box_text, forest_text};
ghost use Rattle.fix_core.specs.Explorations.{Exploration, IsNode};
ghost use Rattle.fix_core.specs.declared.nodes.Node.{Node};
ghost use Rattle.fore_explored.specs.inner.States.{IsStateOf};
ghost use Rattle.fore_explored.specs.Texts as spec;

use crate::heads::put_head;
use crate::states::{put_forest, put_settled};
use c_cfg::graph::{Edge, Graph};
use c_types::mode::MallocMode;
use c_types::program::Typed;
use fa_core::table::BoxTable;
use fa_print::print_box;
use fix_core::nodes::Nodes;
use fore_base::memory::Mem;
use fore_base::text::Text;
use std::alloc::Global;

/// What the line with the counts says of a `malloc` that may fail, with a space before each word.
fn mode_text(mode: MallocMode) -> &'static [u8]
    ensures { result.now ≡ flat_map (λ w. codes " " ++ w) (spec.mode_words mode) }
{
    match mode {
        MallocMode::Always => b"",
        MallocMode::MayFail => b" malloc-null",
    }
}

/// The line with the height of the abstraction, the number of abstract states that are kept at most, the number of
/// those that there are, and whether `malloc` may fail.
fn put_counts(text: &mut Text, mode: MallocMode, height: u32, budget: u32, count: u32) -> Mem<()>
    ensures { OnOk result (text.new ≡ text.old ++ spec.count_line mode height budget count) }
{
    text.put(b"height ")?;
    text.put_number(height as u64)?;
    text.put(b" budget ")?;
    text.put_number(budget as u64)?;
    text.put(b" nodes ")?;
    text.put_number(count as u64)?;
    text.put(mode_text(mode))?;
    text.put(b"\n")?;
    Ok(())
}

/// The box of this number.
fn put_box(alloc: Global, text: &mut Text, table: &BoxTable, number: u32) -> Mem<()>
    requires { number < length table.now.defs }
    ensures { OnOk result ((def : BoxDef) → slice_get table.now.defs number ≡ Some def
        → text.new ≡ text.old ++ box_text table.now def) }
{
    let printed = print_box(alloc, table, number)?;
    text.put(printed.as_slice())?;
    Ok(())
}

/// The boxes of a table, in order.
fn put_boxes(alloc: Global, text: &mut Text, table: &BoxTable) -> Mem<()>
    ensures { OnOk result (text.new ≡ text.old ++ spec.boxes_text table.now) }
{
    for number in 0..table.len() {
        put_box(alloc, text, table, number)?;
    }
    Ok(())
}

/// The forest of the node of this number before it was folded and abstracted, if it was, behind the folds.
fn put_middle(
    alloc: Global,
    text: &mut Text,
    table: &BoxTable,
    program: &Typed,
    nodes: &Nodes,
    number: u32,
) -> Mem<()>
    requires number { number < length nodes.now }
    requires state { (n : Node) → IsNode nodes.now number n → IsStateOf table.now program.now n.state }
    ensures { OnOk result ((n : Node) → IsNode nodes.now number n
        → text.new ≡ text.old ++ spec.middle_text table.now program.now n.state.folds n.state.middle) }
{
    match nodes.middle(alloc, number)? {
        None => Ok(()),
        Some(middle) => {
            put_settled(alloc, text, table, program, nodes.folds(number), &middle)?;
            Ok(())
        }
    }
}

/// The forest of the node of this number.
fn put_node_forest(
    alloc: Global,
    text: &mut Text,
    table: &BoxTable,
    program: &Typed,
    nodes: &Nodes,
    number: u32,
) -> Mem<()>
    requires number { number < length nodes.now }
    requires state { (n : Node) → IsNode nodes.now number n → IsStateOf table.now program.now n.state }
    ensures { OnOk result ((n : Node) → IsNode nodes.now number n
        → text.new ≡ text.old ++ forest_text table.now program.now n.state.forest) }
{
    let forest = nodes.forest(alloc, number)?;
    put_forest(alloc, text, table, program, &forest)?;
    Ok(())
}

/// The node of this number.
fn put_node(
    alloc: Global,
    text: &mut Text,
    table: &BoxTable,
    program: &Typed,
    edges: &[Edge],
    nodes: &Nodes,
    number: u32,
) -> Mem<()>
    requires number { number < length nodes.now }
    requires state { (n : Node) → IsNode nodes.now number n → IsStateOf table.now program.now n.state }
    ensures { OnOk result ((n : Node) → IsNode nodes.now number n
        → text.new ≡ text.old ++ spec.node_text table.now program.now edges.now number n) }
{
    put_head(text, edges, number, nodes.head(number))?;
    put_middle(alloc, text, table, program, nodes, number)?;
    put_node_forest(alloc, text, table, program, nodes, number)?;
    Ok(())
}

/// The nodes, in order.
fn put_nodes(
    alloc: Global,
    text: &mut Text,
    table: &BoxTable,
    program: &Typed,
    edges: &[Edge],
    nodes: &Nodes,
) -> Mem<()>
    requires { (j : ℕ) (n : Node) → IsNode nodes.now j n → IsStateOf table.now program.now n.state }
    ensures { OnOk result (text.new ≡ text.old ++ spec.nodes_text table.now program.now edges.now 0 nodes.now) }
{
    for number in 0..nodes.len() {
        put_node(alloc, text, table, program, edges, nodes, number)?;
    }
    Ok(())
}

/// Adds the text of an exploration of the control graph of a program whose `malloc` answers by the mode: its height,
/// its budget, how many nodes it has, whether `malloc` may fail, the boxes of the table, and each node with how it was
/// reached, its folds, the forest before them, and its forest. Err is want of memory.
pub fn put_exploration(
    alloc: Global,
    text: &mut Text,
    table: &BoxTable,
    program: &Typed,
    mode: MallocMode,
    graph: &Graph,
    height: u32,
    budget: u32,
    nodes: &Nodes,
) -> Mem<()>
    requires lowered { LowerOf program.now mode graph.now }
    requires shapes { graph.now.shapes ≡ table.now.face.shapes }
    requires explored { Exploration table.now graph.now height nodes.now }
    ensures { OnOk result (text.new ≡ text.old
        ++ spec.exploration_text table.now program.now mode graph.now height budget nodes.now) }
{
    put_counts(text, mode, height, budget, nodes.len())?;
    put_boxes(alloc, text, table)?;
    put_nodes(alloc, text, table, program, graph.edges.as_slice(), nodes)?;
    Ok(())
}
