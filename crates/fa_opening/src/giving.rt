// Box edges of roots that give a field to a root.

ghost use Rattle.std.specs.Prelude.{◌≡◌, ◌↔◌, ◌<◌, ℕ, length, Some, slice_get, IsTrue, IfOk, MatchOption};
ghost use Rattle.fore_base.specs.Lists.{IsIn};
ghost use Rattle.ta_core.specs.declared.auto.Rule.{Rule};
ghost use Rattle.fa_unfold.specs.Slots.{Place};
ghost use Rattle.fa_opening.specs.inner.Rounds.{HasGiver, IsGiver, IsGivingPlace, IsOnlyRef, IsRefAlone};

use fa_core::faces::BoxFace;
use fa_lift::{may_refer, slot_gives};
use fa_sound::{Sound, component, count_roots};
use fa_split::{rule_at_top, rules_of};
use fa_unfold::rule_places;
use fore_base::list::List;
use fore_base::memory::Mem;
use std::alloc::Global;
use ta_core::auto::Rule;
use ta_core::single::has_one_top;
use ta_core::symbol::{Slot, Symbol};

/// The first root with one rule of which a slot gives the field to the root, which alone stands at its end, and that
/// slot. There is one. Err is want of memory.
pub fn giver(alloc: Global, forest: &Sound, root: u32, field: u32) -> Mem<(u32, usize)>
    requires { HasGiver forest.now.face.boxes root field forest.now.forest }
    ensures { IfOk result (λ x. IsGiver forest.now.face.boxes root field forest.now.forest x.0 x.1) }
{
    let count = count_roots(forest.forest())?;
    for at in 0..count {
        match giving_slot(alloc, forest, at, root, field)? {
            Some(slot) => return Ok((at, slot)),
            None => {}
        }
    }
    unreachable!()
}

/// The first such slot of the root `at`, if there is one.
fn giving_slot(alloc: Global, forest: &Sound, at: u32, root: u32, field: u32) -> Mem<Option<usize>>
    requires { at < length forest.now.forest.autos }
    ensures { IfOk result (λ found. MatchOption found
        ((p : ℕ) → IsGiver forest.now.face.boxes root field forest.now.forest at p → ⊥)
        (IsGiver forest.now.face.boxes root field forest.now.forest at)) }
{
    let auto = component(forest.forest(), at);
    if !has_one_top(auto) {
        return Ok(None);
    }
    let places = rule_places(alloc, rule_at_top(auto))?;
    let boxes = forest.face().boxes.as_slice();
    Ok(first_giving(boxes, rules_of(auto), places.as_slice(), root, field))
}

fn first_giving(
    boxes: &[BoxFace],
    rules: &[Rule],
    places: &[(Slot, List<u32>)],
    root: u32,
    field: u32,
) -> Option<usize>
    ensures { MatchOption result
        ((p : ℕ) (x : Place) → slice_get places.now p ≡ Some x → IsGivingPlace boxes.now root field rules.now x → ⊥)
        (λ p. (x : Place) × (slice_get places.now p ≡ Some x) × IsGivingPlace boxes.now root field rules.now x) }
{
    for index in 0..places.len() {
        if is_giving(boxes, rules, &places[index], root, field) {
            return Some(index);
        }
    }
    None
}

fn is_giving(
    boxes: &[BoxFace],
    rules: &[Rule],
    place: &(Slot, List<u32>),
    root: u32,
    field: u32,
) -> bool
    ensures { IsTrue result ↔ IsGivingPlace boxes.now root field rules.now place.now }
{
    slot_gives(boxes, field, place.0) && is_ref_alone(rules, place.1.as_slice(), root)
}

/// Whether there is one state, of which each rule is the reference to the root.
fn is_ref_alone(rules: &[Rule], states: &[u32], root: u32) -> bool
    ensures { IsTrue result ↔ IsRefAlone rules.now root states.now }
{
    states.len() == 1 && refers_only(rules, states[0], root)
}

fn refers_only(rules: &[Rule], state: u32, root: u32) -> bool
    ensures { IsTrue result ↔ IsOnlyRef rules.now root state }
{
    may_refer(rules, root, state) && are_refs(rules, state, root)
}

fn are_refs(rules: &[Rule], state: u32, root: u32) -> bool
    ensures { IsTrue result
        ↔ ((x : Rule) → IsIn x rules.now → x.state ≡ state → x.symbol ≡ Symbol.Ref root) }
{
    for rule in rules {
        if rule.state == state && !is_ref(&rule.symbol, root) {
            return false;
        }
    }
    true
}

fn is_ref(symbol: &Symbol, root: u32) -> bool
    ensures { IsTrue result ↔ (symbol.now ≡ Symbol.Ref root) }
{
    match symbol {
        Symbol::Ref(other) => *other == root,
        _ => false,
    }
}
