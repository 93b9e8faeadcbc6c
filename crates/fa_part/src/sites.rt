// Where an edge of a box could stand in a forest.

ghost use Rattle.std.specs.Prelude.{◌↔◌, ◌<◌, length, slice_get, IsTrue, IfSome};
ghost use Rattle.fa_part.specs.Sites.{BoxFits, IsSite, OutputFits};

use fa_core::forest::Forest;
use fa_core::table::BoxTable;

/// Whether the box is in the table, the root in the forest, and the root at the output, which is named exactly where
/// the box has one, too. It takes no memory.
pub fn is_site(
    forest: &Forest,
    table: &BoxTable,
    box_no: u32,
    input: u32,
    output: Option<u32>,
) -> bool
    ensures { IsTrue result ↔ IsSite table.now forest.now box_no input output }
{
    does_box_fit(table, box_no, output) && is_root(forest, input) && is_root_or_none(forest, output)
}

fn does_box_fit(table: &BoxTable, box_no: u32, output: Option<u32>) -> bool
    ensures { IsTrue result ↔ BoxFits (slice_get table.now.defs box_no) output }
{
    box_no < table.len() && does_output_fit(table.box_def(box_no).face.output, output)
}

fn does_output_fit(own: Option<u32>, named: Option<u32>) -> bool
    ensures { IsTrue result ↔ OutputFits own named }
{
    match own {
        None => named.is_none(),
        Some(_) => named.is_some(),
    }
}

fn is_root(forest: &Forest, root: u32) -> bool
    ensures { IsTrue result ↔ (root < length forest.now.autos) }
{
    (root as usize) < forest.autos.len()
}

fn is_root_or_none(forest: &Forest, root: Option<u32>) -> bool
    ensures { IsTrue result ↔ IfSome root (λ r. r < length forest.now.autos) }
{
    match root {
        None => true,
        Some(root) => is_root(forest, root),
    }
}
