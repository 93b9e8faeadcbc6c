// Whether two trees are one. The nodes that are still to be compared stand in lists, so that no call goes as deep as
// the trees.

ghost use Rattle.std.specs.Prelude.{◌≡◌, ◌↔◌, ◌++◌, map, IsTrue, IfOk, OnOk};
ghost use Rattle.ta_core.specs.inner.Comparing.{seen, IsSameNode};

use crate::tree::Tree;
use fore_base::list::List;
use fore_base::memory::Mem;
use std::alloc::Global;

/// Whether both are one tree.
pub fn are_same(alloc: Global, left: &Tree, right: &Tree) -> Mem<bool>
    ensures { IfOk result (λ yes. IsTrue yes ↔ (left.now ≡ right.now)) }
{
    let mut lefts = List::new(alloc);
    lefts.push(left)?;
    let mut rights = List::new(alloc);
    rights.push(right)?;
    'nodes: while let Some(node) = lefts.pop() {
        match rights.pop() {
            Some(other) => {
                if !are_same_node(node, other) {
                    return Ok(false);
                }
                add(node.children.as_slice(), &mut lefts)?;
                add(other.children.as_slice(), &mut rights)?;
            }
            None => unreachable!(),
        }
    }
    Ok(true)
}

/// Whether both have one symbol at the top, and as many children.
fn are_same_node(left: &Tree, right: &Tree) -> bool
    ensures { IsTrue result ↔ IsSameNode left.now right.now }
{
    left.symbol.is_same(&right.symbol) && left.children.len() == right.children.len()
}

/// Adds the trees at the end.
fn add<'a>(trees: &'a [Tree], nodes: &mut List<&'a Tree>) -> Mem<()>
    ensures { OnOk result (map seen nodes.new ≡ map seen nodes.old ++ trees.entry.now) }
{
    for tree in trees {
        nodes.push(tree)?;
    }
    Ok(())
}
