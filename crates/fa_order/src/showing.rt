// What the trees of each root show: the signature, and what may stand at the ends of the top's fields.

ghost use Rattle.std.specs.Prelude.{
  ◌≡◌,
  ◌↔◌,
  ◌<◌,
  ◌≤◌,
  ◌∷◌,
  ◌++◌,
  [],
  ℕ,
  List,
  length,
  drop,
  Some,
  slice_get,
  IsTrue,
  IfOk,
};
ghost use Rattle.std.specs.Prelude.{MatchOption};
ghost use Rattle.fore_base.specs.Lists.{IsIn, Every, Paired};
ghost use Rattle.fore_base.specs.Marks.{MarksOf};
ghost use Rattle.ta_core.specs.Auto.{Automaton};
ghost use Rattle.ta_core.specs.Language.{HasTree};
ghost use Rattle.ta_core.specs.Single.{HasOneTop};
ghost use Rattle.ta_core.specs.declared.symbol.Slot.{Slot};
ghost use Rattle.ta_core.specs.declared.symbol.Slot.TheVariants.{Field, Link};
ghost use Rattle.fa_order.specs.inner.Showing.{HasNoRule, IsRuleOf, IsShownBy, IsShownEnd, is_cell_rule};
ghost use Rattle.fa_order.specs.inner.Showing.{has_cell_rule, states_at, states_under};

use crate::referring::root_state;
use fa_core::cells::is_leaf;
use fa_core::signature::{Below, RefMark};
use fa_sound::Sound;
use fore_base::list::{Copies, List};
use fore_base::marks::are_all_marked;
use fore_base::memory::Mem;
use std::alloc::Global;
use ta_core::auto::{Auto, Rule};
use ta_core::inhabited::inhabited;
use ta_core::symbol::{Slot, Symbol};

/// What the trees of a root show. Where both a leaf and a cell may stand at the end of a field, it is the cell.
#[derive(Drop)]
pub struct Shown {
    /// The signature of the trees.
    pub marks: List<RefMark>,
    /// What stands at the ends of the top's fields, those of box edges left out.
    pub ends: List<Below>,
}

/// What the trees of each root show.
pub fn shown_roots(alloc: Global, forest: &Sound, count: u32) -> Mem<List<Shown>>
    requires count { count ≡ length forest.now.forest.autos }
    requires tops { Every HasOneTop forest.now.forest.autos }
    ensures { IfOk result (λ all. Paired (IsShownBy forest.now.face.boxes) forest.now.forest.autos all) }
{
    let mut all = List::new(alloc);
    for root in 0..count {
        let shown = shown_root(alloc, forest, root)?;
        all.push(shown)?;
    }
    Ok(all)
}

/// What the trees of the root show.
fn shown_root(alloc: Global, forest: &Sound, root: u32) -> Mem<Shown>
    requires below { root < length forest.now.forest.autos }
    requires tops { Every HasOneTop forest.now.forest.autos }
    ensures { IfOk result (λ shown. (a : Automaton) → slice_get forest.now.forest.autos root ≡ Some a
        → IsShownBy forest.now.face.boxes a shown) }
{
    let auto = forest.forest().autos.at(root as usize);
    let state = root_state(auto);
    match rule_of(auto.rules.as_slice(), state) {
        Some(rule) => shown_by(alloc, forest, root, auto, state, rule),
        None => unreachable!(),
    }
}

/// What the trees of the root show, by the one rule of its one root state.
fn shown_by(
    alloc: Global,
    forest: &Sound,
    root: u32,
    auto: &Auto,
    state: u32,
    rule: &Rule,
) -> Mem<Shown>
    requires at { slice_get forest.now.forest.autos root ≡ Some auto.now }
    requires top { HasOneTop auto.now }
    requires state { auto.now.roots ≡ state ∷ [] }
    requires rule { IsRuleOf auto.now.rules state rule.now }
    ensures { IfOk result (IsShownBy forest.now.face.boxes auto.now) }
{
    forest.known();
    auto.known();
    let marks = forest.signature(root, state).refs.copy(alloc)?;
    let states = field_states(alloc, &rule.symbol, rule.children.as_slice())?;
    let ends = shown_ends(alloc, forest, root, auto, states.as_slice())?;
    Ok(Shown { marks, ends })
}

/// The states at the ends of the fields of a cell with this symbol, by the states of its children.
fn field_states(alloc: Global, symbol: &Symbol, children: &[u32]) -> Mem<List<u32>>
    ensures { IfOk result (λ made. made ≡ states_under symbol.now children.now) }
{
    match symbol {
        Symbol::Cell { slots, .. } => states_at(alloc, slots.as_slice(), children),
        _ => Ok(List::new(alloc)),
    }
}

/// The states at the ends of the fields, by the slots and the states of the children.
fn states_at(alloc: Global, slots: &[Slot], children: &[u32]) -> Mem<List<u32>>
    ensures { IfOk result (λ made. made ≡ states_at slots.now children.now) }
{
    let mut made = List::new(alloc);
    let mut place: usize = 0;
    for slot in slots {
        place = push_end(&mut made, slot, children, place)?;
    }
    Ok(made)
}

/// The place of the next child, behind the slot's own, which is pushed where the slot is a field.
fn push_end(made: &mut List<u32>, slot: &Slot, children: &[u32], place: usize) -> Mem<usize>
    requires { place ≤ length children.now }
    ensures within { IfOk result (λ next. next ≤ length children.now) }
    ensures states { IfOk result (λ next. (slots : List Slot)
        → made.old ++ states_at (slot.now ∷ slots) (drop place children.now)
        ≡ made.new ++ states_at slots (drop next children.now)) }
{
    match slot {
        Slot::Hook(_) => Ok(place),
        Slot::Link(_) => Ok(next_place(children, place)),
        Slot::Field(_) => push_child(made, children, place),
    }
}

/// The place of the next child, if there is one at this place.
fn next_place(children: &[u32], place: usize) -> usize
    requires { place ≤ length children.now }
    ensures within { result ≤ length children.now }
    ensures states { (slots : List Slot) (b : ℕ) → states_at (Link b ∷ slots) (drop place children.now)
        ≡ states_at slots (drop result children.now) }
{
    if place < children.len() {
        place + 1
    } else {
        place
    }
}

/// So, where the child at this place is pushed.
fn push_child(made: &mut List<u32>, children: &[u32], place: usize) -> Mem<usize>
    requires { place ≤ length children.now }
    ensures within { IfOk result (λ next. next ≤ length children.now) }
    ensures states { IfOk result (λ next. (slots : List Slot) (f : ℕ)
        → made.old ++ states_at (Field f ∷ slots) (drop place children.now)
        ≡ made.new ++ states_at slots (drop next children.now)) }
{
    if place < children.len() {
        made.push(children[place])?;
        Ok(place + 1)
    } else {
        Ok(place)
    }
}

/// The first rule of the state.
fn rule_of(rules: &[Rule], state: u32) -> Option<&Rule>
    ensures { MatchOption result (HasNoRule rules.now state) (λ r. IsRuleOf rules.now state r.now) }
{
    for rule in rules {
        if is_of(rule, state) {
            return Some(rule);
        }
    }
    None
}

fn is_of(rule: &Rule, state: u32) -> bool
    ensures { IsTrue result ↔ (rule.now.state ≡ state) }
{
    rule.state == state
}

/// What trees of the states show, each of which has one.
fn shown_ends(
    alloc: Global,
    forest: &Sound,
    root: u32,
    auto: &Auto,
    states: &[u32],
) -> Mem<List<Below>>
    requires at { slice_get forest.now.forest.autos root ≡ Some auto.now }
    requires below { Every (λ q. q < auto.now.states) states.now }
    requires trees { Every (HasTree auto.now.rules) states.now }
    ensures { IfOk result (λ ends. Paired (IsShownEnd forest.now.face.boxes auto.now.rules) states.now ends) }
{
    let inhabited = inhabited(alloc, auto)?;
    let mut ends = List::new(alloc);
    for state in states {
        let end = shown_end(alloc, forest, root, auto, inhabited.as_slice(), *state)?;
        ends.push(end)?;
    }
    Ok(ends)
}

/// What a tree of the state shows: a cell, if there is one.
fn shown_end(
    alloc: Global,
    forest: &Sound,
    root: u32,
    auto: &Auto,
    inhabited: &[bool],
    state: u32,
) -> Mem<Below>
    requires at { slice_get forest.now.forest.autos root ≡ Some auto.now }
    requires below { state < auto.now.states }
    requires tree { HasTree auto.now.rules state }
    requires inhabited { MarksOf auto.now.states (HasTree auto.now.rules) inhabited.now }
    ensures { IfOk result (IsShownEnd forest.now.face.boxes auto.now.rules state) }
{
    forest.known();
    let marks = forest.signature(root, state).refs.copy(alloc)?;
    let leaf = !has_cell_rule(inhabited, auto.rules.as_slice(), state);
    Ok(Below { leaf, marks })
}

/// Whether some tree of the state is a cell, by the states to which some tree has a run.
fn has_cell_rule(inhabited: &[bool], rules: &[Rule], state: u32) -> bool
    ensures { result ≡ has_cell_rule inhabited.now state rules.now }
{
    for rule in rules {
        if is_cell_rule(inhabited, rule, state) {
            return true;
        }
    }
    false
}

fn is_cell_rule(inhabited: &[bool], rule: &Rule, state: u32) -> bool
    ensures { result ≡ is_cell_rule inhabited.now state rule.now }
{
    rule.state == state
        && !is_leaf(&rule.symbol)
        && are_all_marked(inhabited, rule.children.as_slice())
}
