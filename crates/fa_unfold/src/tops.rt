// The rules of cells at the tops of trees.

ghost use Rattle.std.specs.Prelude.{◌≡◌, ◌↔◌, IsTrue, IfOk};
ghost use Rattle.fore_base.specs.Marks.{MarksOf};
ghost use Rattle.ta_core.specs.Language.{HasTree};
ghost use Rattle.fa_core.specs.Folding.{symbol_slots};
ghost use Rattle.fa_unfold.specs.Unfolding.{AreTops, IsTop, have_no_slots, is_bare};

use fa_core::cells::is_leaf;
use fa_split::{rules_of, slots_of, stands_at_top};
use fore_base::list::{Copies, List};
use fore_base::memory::Mem;
use std::alloc::Global;
use ta_core::auto::{Auto, Rule};
use ta_core::inhabited::inhabited;
use ta_core::symbol::Symbol;

/// The rules of cells that stand at the top of some tree, in their order. Err is want of memory.
pub fn tops(alloc: Global, auto: &Auto) -> Mem<List<Rule>>
    ensures { IfOk result (AreTops auto.now) }
{
    let marks = inhabited(alloc, auto)?;
    let rules = rules_of(auto);
    let mut made = List::new(alloc);
    for rule in rules {
        if is_top(auto, marks.as_slice(), rule) {
            made.push(rule.copy(alloc)?)?;
        }
    }
    Ok(made)
}

/// Whether the rule is of a cell, and stands at the top of some tree; the marks are of the states that have trees.
fn is_top(auto: &Auto, marks: &[bool], rule: &Rule) -> bool
    requires { MarksOf auto.now.states (HasTree auto.now.rules) marks.now }
    ensures { IsTrue result ↔ IsTop auto.now rule.now }
{
    if is_leaf(&rule.symbol) {
        return false;
    }
    stands_at_top(auto, marks, rule)
}

/// Whether none of the rules has a slot.
pub fn have_no_slots(rules: &[Rule]) -> bool
    ensures { result ≡ have_no_slots rules.now }
{
    for rule in rules {
        if !is_bare(&rule.symbol) {
            return false;
        }
    }
    true
}

fn is_bare(symbol: &Symbol) -> bool
    ensures { result ≡ is_bare (symbol_slots symbol.now) }
{
    slots_of(symbol).split_first().is_none()
}
