// What stands at the tops of the trees of a state.

ghost use Rattle.std.specs.Prelude.{◌≡◌, ◌↔◌, false, List, IsTrue, IfOk, OnOk, MatchOption};
ghost use Rattle.fore_base.specs.Lists.{IsIn, Every};
ghost use Rattle.fore_base.specs.Marks.{MarksOf};
ghost use Rattle.ta_core.specs.Language.{HasTree};
ghost use Rattle.fa_core.specs.Cells.{is_leaf};
ghost use Rattle.fa_core.specs.Member.{leaf_symbol};
ghost use Rattle.fa_split.specs.Split.{AreThose};
ghost use Rattle.fa_split.specs.inner.Ends.{HasCellRule, HasLeafRule, IsAdded, IsCellRule};

use fa_core::cells::is_leaf;
use fa_core::forest::Target;
use fore_base::list::List;
use fore_base::marks::are_all_marked;
use fore_base::memory::Mem;
use std::alloc::Global;
use ta_core::auto::Rule;
use ta_core::symbol::Symbol;

/// The leaf of the symbol, None where it is a cell's.
pub fn leaf_of(symbol: &Symbol) -> Option<Target>
    ensures { MatchOption result (is_leaf symbol.now ≡ false) (λ leaf. symbol.now ≡ leaf_symbol leaf) }
{
    match symbol {
        Symbol::Null => Some(Target::Null),
        Symbol::Uninit => Some(Target::Uninit),
        Symbol::Dangling => Some(Target::Dangling),
        Symbol::Ref(root) => Some(Target::At(*root)),
        Symbol::Cell { .. } => None,
    }
}

fn has_leaf(leaves: &[Target], leaf: Target) -> bool
    ensures { IsTrue result ↔ IsIn leaf leaves.now }
{
    for other in leaves {
        if *other == leaf {
            return true;
        }
    }
    false
}

/// Adds the leaf where it is not there yet.
fn add_leaf(leaves: &mut List<Target>, leaf: Target) -> Mem<()>
    ensures { OnOk result (IsAdded leaves.old leaf leaves.new) }
{
    if !has_leaf(leaves.as_slice(), leaf) {
        leaves.push(leaf)?;
    }
    Ok(())
}

/// The leaves of the state, each once. Err is want of memory.
pub fn leaves_at(alloc: Global, rules: &[Rule], state: u32) -> Mem<List<Target>>
    ensures { IfOk result (AreThose (HasLeafRule rules.now state)) }
{
    let mut leaves = List::new(alloc);
    for rule in rules {
        if rule.state == state {
            if let Some(leaf) = leaf_of(&rule.symbol) {
                add_leaf(&mut leaves, leaf)?;
            }
        }
    }
    Ok(leaves)
}

fn is_cell_at(all: &[Rule], marks: &[bool], rule: &Rule, state: u32, count: u32) -> bool
    requires { MarksOf count (HasTree all.now) marks.now }
    ensures { IsTrue result ↔ IsCellRule all.now state rule.now }
{
    if rule.state != state {
        return false;
    }
    !is_leaf(&rule.symbol) && are_all_marked(marks, rule.children.as_slice())
}

/// Whether some tree of the state is a cell; the marks are of the states that have trees.
pub fn has_cell_at(rules: &[Rule], marks: &[bool], state: u32, count: u32) -> bool
    requires { MarksOf count (HasTree rules.now) marks.now }
    ensures { IsTrue result ↔ HasCellRule rules.now state rules.now }
{
    for rule in rules {
        if is_cell_at(rules, marks, rule, state, count) {
            return true;
        }
    }
    false
}
