// The symbols at the tops of trees, compared before any language.

ghost use Rattle.std.specs.Prelude.{◌≡◌, ◌↔◌, IsTrue, IfOk};
ghost use Rattle.fore_base.specs.Lists.{IsIn, Every, Paired};
ghost use Rattle.ta_core.specs.Language.{HasTree};
ghost use Rattle.fa_cover.specs.inner.Tops.{HasRootRule, IsRootRule, KeepsSymbol, KeepsTop, KeepsTops};

use fore_base::marks::are_all_marked;
use fore_base::memory::Mem;
use std::alloc::Global;
use ta_core::auto::{Auto, Rule};
use ta_core::inhabited::inhabited;
use ta_core::symbol::Symbol;

/// Whether there are as many automata, and the symbol at the top of each tree is that of a rule of a root state in its
/// place. Where it is not, some tree is none of the wide automaton. Err is want of memory.
pub fn keep_tops(alloc: Global, narrow: &[Auto], wide: &[Auto]) -> Mem<bool>
    ensures { IfOk result (λ yes. IsTrue yes ↔ Paired KeepsTops narrow.now wide.now) }
{
    if narrow.len() != wide.len() {
        return Ok(false);
    }
    for place in 0..narrow.len() {
        if !keeps_tops(alloc, &narrow[place], &wide[place])? {
            return Ok(false);
        }
    }
    Ok(true)
}

fn keeps_tops(alloc: Global, narrow: &Auto, wide: &Auto) -> Mem<bool>
    ensures { IfOk result (λ yes. IsTrue yes ↔ KeepsTops narrow.now wide.now) }
{
    let rules = rules_of(narrow);
    for rule in rules {
        if !keeps_top(alloc, narrow, wide, rule)? {
            return Ok(false);
        }
    }
    Ok(true)
}

/// Which states have trees is asked only where the symbol is not kept.
fn keeps_top(alloc: Global, narrow: &Auto, wide: &Auto, rule: &Rule) -> Mem<bool>
    ensures { IfOk result (λ yes. IsTrue yes ↔ KeepsTop narrow.now wide.now rule.now) }
{
    if keeps_symbol(narrow, wide, rule) {
        return Ok(true);
    }
    let is_top = have_trees(alloc, narrow, rule.children.as_slice())?;
    Ok(!is_top)
}

/// Whether each of the states has a tree. Err is want of memory.
fn have_trees(alloc: Global, auto: &Auto, states: &[u32]) -> Mem<bool>
    ensures { IfOk result (λ yes. IsTrue yes ↔ Every (HasTree auto.now.rules) states.now) }
{
    let marks = inhabited(alloc, auto)?;
    Ok(are_all_marked(marks.as_slice(), states))
}

fn keeps_symbol(narrow: &Auto, wide: &Auto, rule: &Rule) -> bool
    ensures { IsTrue result ↔ KeepsSymbol narrow.now wide.now rule.now }
{
    !has_root(narrow, rule.state) || has_root_rule(wide, &rule.symbol)
}

fn has_root_rule(auto: &Auto, symbol: &Symbol) -> bool
    ensures { IsTrue result ↔ HasRootRule auto.now symbol.now }
{
    let rules = rules_of(auto);
    for rule in rules {
        if is_root_rule(auto, symbol, rule) {
            return true;
        }
    }
    false
}

fn is_root_rule(auto: &Auto, symbol: &Symbol, rule: &Rule) -> bool
    ensures { IsTrue result ↔ IsRootRule auto.now symbol.now rule.now }
{
    rule.symbol.is_same(symbol) && has_root(auto, rule.state)
}

fn has_root(auto: &Auto, state: u32) -> bool
    ensures { IsTrue result ↔ IsIn state auto.now.roots }
{
    auto.roots.as_slice().contains(&state)
}

fn rules_of(auto: &Auto) -> &[Rule]
    ensures { result.now ≡ auto.now.rules }
{
    auto.rules.as_slice()
}
