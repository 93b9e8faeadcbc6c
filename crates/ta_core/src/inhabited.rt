// Which states have trees, and whether the language is empty.

ghost use Rattle.std.specs.Prelude.{◌≡◌, ◌↔◌, false, IsTrue, IfOk, map};
ghost use Rattle.ta_core.specs.Language.{IsBarren, InLanguage, HasTree};
ghost use Rattle.ta_core.specs.declared.tree.Tree.{Tree};
ghost use Rattle.fore_base.specs.Marks.{MarksOf};
ghost use Rattle.ta_core.specs.inner.Arcs.{up_arc};

use crate::arc::Arc;
use crate::auto::{Auto, Rule};
use crate::closing::reached;
use fore_base::list::{Copies, List};
use fore_base::marks::is_some_marked;
use fore_base::memory::Mem;
use std::alloc::Global;

/// Whether the automaton accepts no tree. Where it says no, there is one.
///
/// # Errors
///
/// Want of memory.
pub fn is_empty(alloc: Global, auto: &Auto) -> Mem<bool>
    ensures empty { IfOk result (λ yes. IsTrue yes ↔ IsBarren auto.now) }
    ensures tree { IfOk result (λ yes. yes ≡ false → (t : Tree) × InLanguage auto.now t) }
{
    let marks = inhabited(alloc, auto)?;
    Ok(!is_some_marked(marks.as_slice(), auto.roots.as_slice()))
}

/// The states to which some tree has a run.
///
/// # Errors
///
/// Want of memory.
pub fn inhabited(alloc: Global, auto: &Auto) -> Mem<List<bool>>
    ensures { IfOk result (MarksOf auto.now.states (HasTree auto.now.rules)) }
{
    let arcs = up_arcs(alloc, auto.rules.as_slice())?;
    reached(alloc, auto.states, arcs.as_slice())
}

/// For each rule the arc from its children to its state.
fn up_arcs(alloc: Global, rules: &[Rule]) -> Mem<List<Arc>>
    ensures { IfOk result (λ arcs. arcs ≡ map up_arc rules.now) }
{
    let mut arcs = List::new(alloc);
    for rule in rules {
        let from = rule.children.copy(alloc)?;
        let arc = Arc {
            from,
            to: rule.state,
        };
        arcs.push(arc)?;
    }
    Ok(arcs)
}
