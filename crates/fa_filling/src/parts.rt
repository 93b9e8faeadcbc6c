// The trees of an automaton, cut into parts by the structs of the cells at their tops.

ghost use Rattle.std.specs.Prelude.{◌≡◌, ◌↔◌, true, IsTrue, IfOk, OnOk, MatchOption};
ghost use Rattle.fore_base.specs.Lists.{IsIn, IsDistinct, Paired};
ghost use Rattle.fore_base.specs.Marks.{all_marked};
ghost use Rattle.fa_filling.specs.Parted.{chosen, fresh_rule, is_of, rules_of, AreTopRules, AreStructsOf};
ghost use Rattle.fa_filling.specs.Parted.{HasLeafRule, IsAdded, IsPartFor, IsPartOf, HasLeaf};
ghost use Rattle.ta_core.specs.declared.auto.Rule.{Rule};

use fore_base::list::{Copies, List};
use fore_base::marks::are_all_marked;
use fore_base::memory::Mem;
use std::alloc::Global;
use ta_core::auto::{Auto, Rule};
use ta_core::inhabited::inhabited;
use ta_core::joining::room;
use ta_core::symbol::Symbol;
use ta_core::trimming::trim;

/// An automaton whose trees all have a cell of one struct at the top.
#[derive(Drop)]
pub struct Part {
    pub top: u32,
    pub auto: Auto,
}

/// The parts of the automaton, one for each struct of a cell at the top of its trees. None where a leaf is one of its
/// trees. Err is want of memory.
pub fn parts(alloc: Global, auto: &Auto) -> Mem<Option<List<Part>>>
    ensures { IfOk result (λ found. MatchOption found (HasLeaf auto.now) (IsPartOf auto.now)) }
{
    let tops = top_rules(alloc, auto)?;
    match structs_of(alloc, tops.as_slice())? {
        None => Ok(None),
        Some(structs) => {
            let parts = parts_for(alloc, auto, tops.as_slice(), structs.as_slice())?;
            Ok(Some(parts))
        }
    }
}

/// The rules of root states that some tree can use.
pub fn top_rules(alloc: Global, auto: &Auto) -> Mem<List<Rule>>
    ensures { IfOk result (AreTopRules auto.now auto.now.rules) }
{
    let marks = inhabited(alloc, auto)?;
    let mut tops = List::new(alloc);
    for rule in auto.rules.as_slice() {
        if is_top_rule(marks.as_slice(), auto.roots.as_slice(), rule) {
            let top = rule.copy(alloc)?;
            tops.push(top)?;
        }
    }
    Ok(tops)
}

/// Whether the rule is one of a root state, and its children all have marks.
fn is_top_rule(marks: &[bool], roots: &[u32], rule: &Rule) -> bool
    ensures { IsTrue result ↔ (IsIn rule.now.state roots.now × (all_marked marks.now rule.now.children ≡ true)) }
{
    is_one_of(rule.state, roots) && are_all_marked(marks, rule.children.as_slice())
}

/// Whether the number is one of these.
pub fn is_one_of(number: u32, numbers: &[u32]) -> bool
    ensures { IsTrue result ↔ IsIn number numbers.now }
{
    for other in numbers {
        if number == *other {
            return true;
        }
    }
    false
}

/// The structs of the rules' cells, each once. None where a rule has a leaf.
fn structs_of(alloc: Global, rules: &[Rule]) -> Mem<Option<List<u32>>>
    ensures { IfOk result (λ found. MatchOption found (HasLeafRule rules.now) (AreStructsOf rules.now)) }
{
    let mut structs = List::new(alloc);
    for rule in rules {
        match &rule.symbol {
            Symbol::Cell { shape, .. } => add(&mut structs, *shape)?,
            _ => return Ok(None),
        }
    }
    Ok(Some(structs))
}

/// Adds the number where it is not there.
fn add(numbers: &mut List<u32>, number: u32) -> Mem<()>
    requires { IsDistinct numbers.old }
    ensures { OnOk result (IsAdded number numbers.old numbers.new) }
{
    if !is_one_of(number, numbers.as_slice()) {
        numbers.push(number)?;
    }
    Ok(())
}

/// The part for each of the structs.
fn parts_for(alloc: Global, whole: &Auto, tops: &[Rule], structs: &[u32]) -> Mem<List<Part>>
    requires { (r : Rule) → IsIn r tops.now → IsIn r whole.now.rules }
    ensures { IfOk result (Paired (IsPartFor whole.now tops.now) structs.now) }
{
    let mut parts = List::new(alloc);
    for shape in structs {
        let part = part_for(alloc, whole, tops, *shape)?;
        parts.push(part)?;
    }
    Ok(parts)
}

/// The trees by those of the rules that have a cell of the struct.
pub fn part_for(alloc: Global, whole: &Auto, tops: &[Rule], shape: u32) -> Mem<Part>
    requires { (r : Rule) → IsIn r tops.now → IsIn r whole.now.rules }
    ensures { IfOk result (IsPartFor whole.now tops.now shape) }
{
    whole.known();
    let chosen = chosen(alloc, whole, tops, shape)?;
    let auto = trim(alloc, &chosen)?;
    Ok(Part { top: shape, auto })
}

/// The automaton with those of the rules alone at its root that have a cell of the struct; the root is a state of its
/// own.
fn chosen(alloc: Global, auto: &Auto, tops: &[Rule], shape: u32) -> Mem<Auto>
    requires { (r : Rule) → IsIn r tops.now → IsIn r auto.now.rules }
    ensures { IfOk result (λ made. made ≡ chosen auto.now (rules_of shape tops.now)) }
{
    let states = room(auto, 1)?;
    let roots = List::filled(alloc, auto.states, 1)?;
    let mut rules = auto.rules.copy(alloc)?;
    for rule in tops {
        if is_of(shape, &rule.symbol) {
            let fresh = fresh_rule(alloc, auto, rule)?;
            rules.push(fresh)?;
        }
    }
    Ok(Auto {
        states,
        roots,
        rules,
    })
}

/// The rule at the state behind those of the automaton.
fn fresh_rule(alloc: Global, auto: &Auto, rule: &Rule) -> Mem<Rule>
    ensures { IfOk result (λ made. made ≡ fresh_rule auto.now rule.now) }
{
    Ok(Rule {
        state: auto.states,
        symbol: rule.symbol.copy(alloc)?,
        children: rule.children.copy(alloc)?,
    })
}

/// Whether the symbol is a cell of the struct.
fn is_of(shape: u32, symbol: &Symbol) -> bool
    ensures { result ≡ is_of shape symbol.now }
{
    match symbol {
        Symbol::Cell { shape: own, .. } => *own == shape,
        _ => false,
    }
}
