// Trees of symbols, how two are compared, and how one is let go.

ghost use Rattle.std.specs.Prelude.{◌≡◌, ◌↔◌, ◌<◌, IsTrue, IfOk};
ghost use Rattle.ta_core.specs.declared.tree.Tree.{out-Tree};
ghost use Rattle.ta_core.specs.inner.LettingGo.{toll, toll_with};

use crate::comparing::are_same;
use crate::symbol::Symbol;
use fore_base::list::List;
use fore_base::memory::Mem;
use std::alloc::Global;
use std::fmt;
use std::mem::replace;

/// A tree of symbols. Nothing keeps the number of children: a tree with another number than its symbol's has no run.
///
/// It can be as deep as memory holds: letting it go takes neither memory nor calls that go as deep as it. So there is
/// no `==`, which could not take the memory that a comparison needs.
pub struct Tree {
    pub symbol: Symbol,
    pub children: List<Tree>,
}

impl fmt::Debug for Tree {
    /// Writes the symbol at the top and the number of its children, not the whole tree, which can be deeper than calls
    /// can go.
    fn fmt<W: fmt::Write>(&self, f: &mut fmt::Formatter<W>) -> fmt::Result {
        f.debug_struct("Tree")
            .field("symbol", &self.symbol)
            .field("children", &self.children.len())
            .finish()
    }
}

impl Drop for Tree {
    fn drop(self) {
        let mut rest = self.into_children();
        'trees: while let Some(tree) = rest.pop() {
            rest = tree.let_go_down(rest);
        }
        rest.destroy_empty();
    }
}

impl Tree {
    /// Whether both are one tree.
    ///
    /// # Errors
    ///
    /// Want of memory.
    pub fn is_same(&self, alloc: Global, other: &Tree) -> Mem<bool>
        ensures { IfOk result (λ yes. IsTrue yes ↔ (self.now ≡ other.now)) }
    {
        are_same(alloc, self, other)
    }

    /// The children. The symbol is let go.
    fn into_children(self) -> Vec<Tree>
        ensures { result.items ≡ (out-Tree self).children }
    {
        let Tree {
            symbol: _symbol,
            children,
        } = self;
        children.into_vec()
    }

    /// Lets go of nodes of the tree, from the top down to a leaf. The result has what is left of it, and the other
    /// trees.
    ///
    /// Where both a node's children and the others are some, the first child's place is taken by a tree over the
    /// others, which so come last.
    fn let_go_down(mut self, mut others: Vec<Tree>) -> Vec<Tree>
        ensures { toll result.items < toll_with self others.items }
    {
        'nodes: loop {
            let mut below = self.into_children();
            if below.is_empty() {
                below.destroy_empty();
                return others;
            }
            if others.is_empty() {
                others.destroy_empty();
                return below;
            }
            let over = Tree {
                symbol: Symbol::Null,
                children: List::from_vec(others),
            };
            self = replace(&mut below[0], over);
            others = below;
        }
    }
}
