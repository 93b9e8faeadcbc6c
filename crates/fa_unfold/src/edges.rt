// Box edges at the slots of roots that have one rule.

ghost use Rattle.std.specs.Prelude.{◌≡◌, ◌↔◌, ◌≤◌, Some, length, slice_get, IsTrue, MatchOption};
ghost use Rattle.fore_base.specs.Lists.{Every};
ghost use Rattle.ta_core.specs.Arity.{child_slots};
ghost use Rattle.ta_core.specs.Auto.{IsRanked};
ghost use Rattle.ta_core.specs.Single.{HasOneTop};
ghost use Rattle.fa_core.specs.Folding.{symbol_slots};
ghost use Rattle.fa_core.specs.declared.forest.Target.{Target};
ghost use Rattle.fa_split.specs.Split.{top_rule};
ghost use Rattle.fa_split.specs.inner.Ends.{HasLeafRule};
ghost use Rattle.fa_unfold.specs.Sites.{IsLinkAt, IsLinkAtSlot, child_place};
ghost use Rattle.fa_unfold.specs.Slots.{children_before};
ghost use Rattle.fa_unfold.specs.UnfoldingOf.{CanUnfold, IsBoxEdge, root_slots};
ghost use Rattle.fa_unfold.specs.inner.Cuts.{HasLinkAt};

use fa_core::forest::{Forest, Target};
use fa_sound::{Sound, component};
use fa_split::{leaf_of, rule_at_top, rules_of, slots_of, state_at};
use ta_core::auto::{Auto, Rule};
use ta_core::single::has_one_top;
use ta_core::symbol::Slot;

/// Whether the root is there and has one rule, whose slot of this number is a Link or a Hook.
pub fn can_unfold(forest: &Sound, root: u32, slot: usize) -> bool
    ensures { IsTrue result ↔ CanUnfold forest.now.forest root slot }
{
    let forest = forest.forest();
    if (root as usize) >= forest.autos.len() {
        return false;
    }
    let auto = component(forest, root);
    has_one_top(auto) && is_box_edge(slots_at_top(auto), slot)
}

fn is_box_edge(slots: &[Slot], slot: usize) -> bool
    ensures { IsTrue result ↔ IsBoxEdge (slice_get slots.now slot) }
{
    match slots.get(slot) {
        Some(Slot::Link(_) | Slot::Hook(_)) => true,
        _ => false,
    }
}

/// The slots of the one rule at the top.
fn slots_at_top(auto: &Auto) -> &[Slot]
    requires { HasOneTop auto.now }
    ensures { result.now ≡ symbol_slots (top_rule auto.now).symbol }
{
    slots_of(&rule_at_top(auto).symbol)
}

/// The box edge at the slot of the root.
pub fn edge_at(forest: &Forest, root: u32, slot: usize) -> Slot
    requires { CanUnfold forest.now root slot }
    ensures { slice_get (root_slots forest.now root) slot ≡ Some result }
{
    let slots = slots_at_top(component(forest, root));
    slots[slot]
}

/// The place among the children of the child at the slot, which is a Link.
pub fn child_place(forest: &Forest, root: u32, slot: usize, _number: u32) -> usize
    requires { IsLinkAtSlot forest.now root slot _number }
    ensures { result ≡ child_place forest.now root slot }
{
    children_before(slots_at_top(component(forest, root)), slot)
}

fn children_before(slots: &[Slot], slot: usize) -> usize
    requires { slot ≤ length slots.now }
    ensures { result ≡ children_before slots.now slot }
{
    let (before, _others) = slots.split_at(slot);
    count_children(before)
}

fn count_children(slots: &[Slot]) -> usize
    ensures { result ≡ child_slots slots.now }
{
    let mut count = 0;
    for slot in slots {
        match slot {
            Slot::Field(_) | Slot::Link(_) => count += 1,
            Slot::Hook(_) => {}
        }
    }
    count
}

/// The leaf that stands alone at the end of the Link at the slot.
pub fn end_of(forest: &Forest, root: u32, slot: usize, number: u32) -> Target
    requires ranked { Every IsRanked forest.now.autos }
    requires at { HasLinkAt forest.now root slot number }
    ensures { IsLinkAt forest.now root slot number result }
{
    let auto = component(forest, root);
    let state = state_at(auto, child_place(forest, root, slot, number));
    leaf_of_state(rules_of(auto), state)
}

/// The leaf of a rule of the state, which there is.
fn leaf_of_state(rules: &[Rule], state: u32) -> Target
    requires { (y : Target) × HasLeafRule rules.now state y }
    ensures { HasLeafRule rules.now state result }
{
    match first_leaf(rules, state) {
        Some(leaf) => leaf,
        None => unreachable!(),
    }
}

/// The leaf of the first rule of the state that is of a leaf.
fn first_leaf(rules: &[Rule], state: u32) -> Option<Target>
    ensures { MatchOption result ((y : Target) → HasLeafRule rules.now state y → ⊥) (HasLeafRule rules.now state) }
{
    for rule in rules {
        if rule.state == state {
            if let Some(leaf) = leaf_of(&rule.symbol) {
                return Some(leaf);
            }
        }
    }
    None
}
