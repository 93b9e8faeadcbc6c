// An automaton without the states that take no part.

ghost use Rattle.std.specs.Prelude.{◌≡◌, ◌≤◌, List, IfOk, map};
ghost use Rattle.ta_core.specs.Language.{HasSameLanguage, IsTrim, HasTree, TakesPart};
ghost use Rattle.fore_base.specs.Marks.{MarksOf};
ghost use Rattle.ta_core.specs.Renumbered.{StandsFor};
ghost use Rattle.ta_core.specs.inner.Arcs.{down_arc, root_arcs, rule_arcs};

use crate::arc::Arc;
use crate::auto::{Auto, Rule};
use crate::closing::reached;
use crate::inhabited::inhabited;
use crate::restricting::restrict;
use fore_base::list::List;
use fore_base::marks::{are_all_marked, is_marked};
use fore_base::memory::Mem;
use std::alloc::Global;

/// The automaton with the states alone that take part in the run of some accepted tree, numbered anew in their order,
/// and the rules over these.
///
/// # Errors
///
/// Want of memory.
pub fn trim(alloc: Global, auto: &Auto) -> Mem<Auto>
    ensures language { IfOk result (λ made. HasSameLanguage auto.now made) }
    ensures trim { IfOk result IsTrim }
    ensures parts { IfOk result (λ made. StandsFor auto.now made) }
    ensures size { IfOk result (λ made. made.states ≤ auto.now.states) }
{
    let inhabited = inhabited(alloc, auto)?;
    let used = used(alloc, auto, inhabited.as_slice())?;
    restrict(alloc, auto, used.as_slice())
}

/// The states that take part, by the states to which some tree has a run.
fn used(alloc: Global, auto: &Auto, inhabited: &[bool]) -> Mem<List<bool>>
    requires { MarksOf auto.now.states (HasTree auto.now.rules) inhabited.now }
    ensures { IfOk result (MarksOf auto.now.states (TakesPart auto.now)) }
{
    let mut arcs = to_roots(alloc, inhabited, auto.roots.as_slice())?;
    let more = to_children(alloc, inhabited, auto.rules.as_slice())?;
    arcs.append(more)?;
    reached(alloc, auto.states, arcs.as_slice())
}

/// A arc to each root state to which some tree has a run.
fn to_roots(alloc: Global, inhabited: &[bool], roots: &[u32]) -> Mem<List<Arc>>
    ensures { IfOk result (λ arcs. arcs ≡ root_arcs inhabited.now roots.now) }
{
    let mut arcs = List::new(alloc);
    for root in roots {
        if is_marked(inhabited, *root) {
            let arc = Arc {
                from: List::new(alloc),
                to: *root,
            };
            arcs.push(arc)?;
        }
    }
    Ok(arcs)
}

/// A arc from the state of each rule that some tree can use to each of its children.
fn to_children(alloc: Global, inhabited: &[bool], rules: &[Rule]) -> Mem<List<Arc>>
    ensures { IfOk result (λ arcs. arcs ≡ rule_arcs inhabited.now rules.now) }
{
    let mut arcs = List::new(alloc);
    for rule in rules {
        if are_all_marked(inhabited, rule.children.as_slice()) {
            let more = down_arcs(alloc, rule)?;
            arcs.append(more)?;
        }
    }
    Ok(arcs)
}

fn down_arcs(alloc: Global, rule: &Rule) -> Mem<List<Arc>>
    ensures { IfOk result (λ arcs. arcs ≡ map (down_arc rule.now.state) rule.now.children) }
{
    let mut arcs = List::new(alloc);
    for child in rule.children.as_slice() {
        let mut from = List::new(alloc);
        from.push(rule.state)?;
        let arc = Arc { from, to: *child };
        arcs.push(arc)?;
    }
    Ok(arcs)
}
