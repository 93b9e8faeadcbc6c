// One rule chosen at a root.

ghost use Rattle.std.specs.Prelude.{◌≡◌, ◌↔◌, ◌<◌, List, length, IsTrue, IfOk};
ghost use Rattle.fore_base.specs.Lists.{IsIn, Every};
ghost use Rattle.fore_base.specs.Marks.{MarksOf};
ghost use Rattle.ta_core.specs.Language.{HasTree};
ghost use Rattle.ta_core.specs.Single.{HasOneTop};
ghost use Rattle.fa_core.specs.Boxless.{HasNoBoxes};
ghost use Rattle.fa_core.specs.Member.{Regroups, RegroupsInto};
ghost use Rattle.fa_core.specs.declared.boxes.BoxDef.{BoxDef};
ghost use Rattle.fa_sound.specs.Components.{component_at};
ghost use Rattle.fa_split.specs.Chosen.{AreChosen, IsChosenOf, StandsAtTop, chosen_at};
ghost use Rattle.fa_split.specs.Divided.{HasVarsOf};
ghost use Rattle.fa_sound.specs.Unions.{forests, IsUnionOf};

use crate::topping::{choose, roots_of, rules_of};
use fa_core::cells::has;
use fa_sound::{Sound, component};
use fore_base::list::List;
use fore_base::marks::are_all_marked;
use fore_base::memory::Mem;
use std::alloc::Global;
use ta_core::auto::{Auto, Rule};
use ta_core::inhabited::inhabited;

/// One forest for each rule of the root that stands at the top of some tree, in the order of the rules, each with that
/// rule alone at the root. The root state is a new one each time, since the old one may stand inside the trees. Err is
/// want of memory.
pub fn choose_rule(alloc: Global, forest: &Sound, root: u32) -> Mem<List<Sound>>
    requires { root < length forest.now.forest.autos }
    ensures value { IfOk result (λ made. AreChosen forest.now.forest root (forests made)) }
    ensures face { IfOk result (λ made. Every (λ s. s.face ≡ forest.now.face) made) }
    ensures vars { IfOk result (λ made. Every (HasVarsOf forest.now.forest) (forests made)) }
    ensures plain { IfOk result
        (λ made. Every HasNoBoxes forest.now.forest.autos → Every (λ G. Every HasNoBoxes G.autos) (forests made)) }
    ensures tops { IfOk result (λ made. Every (λ G. HasOneTop (component_at G.autos root)) (forests made)) }
    ensures dressed { IfOk result (λ made. (T : List BoxDef)
        → Every (IsChosenOf T forest.now.forest root) (forests made)) }
    ensures regroups { IfOk result (λ made. (T : List BoxDef) → Every (Regroups T forest.now.forest) (forests made)) }
    ensures whole { IfOk result (λ made. (T : List BoxDef) → RegroupsInto T forest.now.forest (forests made)) }
    ensures members { IfOk result (λ made. IsUnionOf forest.now.forest (forests made)) }
{
    forest.known();
    let made = forests_by_rule(alloc, forest, root)?;
    Ok(made)
}

fn forests_by_rule(alloc: Global, forest: &Sound, root: u32) -> Mem<List<Sound>>
    requires { root < length forest.now.forest.autos }
    ensures value { IfOk result (λ made. AreChosen forest.now.forest root (forests made)) }
    ensures face { IfOk result (λ made. Every (λ s. s.face ≡ forest.now.face) made) }
{
    let auto = component(forest.forest(), root);
    let marks = inhabited(alloc, auto)?;
    let rules = rules_of(auto);
    let mut made = List::new(alloc);
    for rule in rules {
        if stands_at_top(auto, marks.as_slice(), rule) {
            made.push(with_rule(alloc, forest, root, rule)?)?;
        }
    }
    Ok(made)
}

/// Whether the rule is of a root state and stands at the top of some tree; the marks are of the states that have trees.
pub fn stands_at_top(auto: &Auto, marks: &[bool], rule: &Rule) -> bool
    requires { MarksOf auto.now.states (HasTree auto.now.rules) marks.now }
    ensures { IsTrue result ↔ StandsAtTop auto.now rule.now }
{
    has(rule.state, roots_of(auto)) && are_all_marked(marks, rule.children.as_slice())
}

/// The forest with the rule, which stands at the top of some tree, alone at the root. Err is want of memory.
fn with_rule(alloc: Global, forest: &Sound, root: u32, rule: &Rule) -> Mem<Sound>
    requires root { root < length forest.now.forest.autos }
    requires rule { IsIn rule.now (component_at forest.now.forest.autos root).rules }
    requires top { StandsAtTop (component_at forest.now.forest.autos root) rule.now }
    ensures forest { IfOk result (λ made. made.forest ≡ chosen_at forest.now.forest root rule.now) }
    ensures face { IfOk result (λ made. made.face ≡ forest.now.face) }
{
    forest.known();
    let auto = choose(alloc, component(forest.forest(), root), rule)?;
    forest.with_component(alloc, root, auto)
}
