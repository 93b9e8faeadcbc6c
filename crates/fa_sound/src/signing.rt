// Whether all trees of each state, and all trees of an automaton, have one signature.

ghost use Rattle.std.specs.Prelude.{◌≡◌, ◌↔◌, ◌<◌, length, true, false, map, IsTrue, IfOk, MatchOption};
ghost use Rattle.fore_base.specs.Lists.{Every};
ghost use Rattle.fa_core.specs.Filled.{HasSignatures};
ghost use Rattle.fa_sound.specs.inner.Learnt.{first_known, flagged};
ghost use Rattle.fa_sound.specs.inner.Learnt.{said, below_at, IsSettled, AreMixed, AreOne, Agrees};
ghost use Rattle.fa_sound.specs.Signatures.{AreSignatures};

use crate::entries::{are_known, entry_at};
use crate::learning::{flagged, learn, rule_marks};
use fa_core::faces::BoxFace;
use fa_core::signature::{Below, RefMark, Signature};
use fore_base::list::{Copies, List};
use fore_base::memory::Mem;
use std::alloc::Global;
use ta_core::auto::{Auto, Rule};

/// The signature of each state, None where two trees of one state, or of the automaton, have different ones. Err is
/// want of memory.
pub fn signatures(alloc: Global, boxes: &[BoxFace], auto: &Auto) -> Mem<Option<List<Signature>>>
    ensures { IfOk result
        (λ found. MatchOption found (HasSignatures boxes.now auto.now → ⊥)
        (λ list. HasSignatures boxes.now auto.now × AreSignatures boxes.now auto.now list)) }
{
    let table = learn(alloc, boxes, auto.states, auto.rules.as_slice())?;
    if !are_mixed(alloc, boxes, table.as_slice(), auto.rules.as_slice())? {
        return Ok(None);
    }
    if !are_one(table.as_slice(), auto.roots.as_slice()) {
        return Ok(None);
    }
    let list = signatures_in(alloc, table.as_slice())?;
    Ok(Some(list))
}

/// The signature of each state of an automaton that is known to have one for the trees of each. Err is want of memory.
pub fn signatures_of(alloc: Global, boxes: &[BoxFace], auto: &Auto) -> Mem<List<Signature>>
    requires { HasSignatures boxes.now auto.now }
    ensures { IfOk result (AreSignatures boxes.now auto.now) }
{
    let table = learn(alloc, boxes, auto.states, auto.rules.as_slice())?;
    let list = signatures_in(alloc, table.as_slice())?;
    Ok(list)
}

/// Whether each rule gives trees with the signature of its state's tree, whichever of its children are leaves.
fn are_mixed(alloc: Global, boxes: &[BoxFace], table: &[Option<Below>], rules: &[Rule]) -> Mem<bool>
    requires { Every (λ r. r.state < length table.now) rules.now }
    ensures { IfOk result (λ yes. IsTrue yes ↔ AreMixed boxes.now table.now rules.now) }
{
    let lows = flagged(alloc, false, table, rules)?;
    if !are_settled(alloc, boxes, lows.as_slice(), rules)? {
        return Ok(false);
    }
    let highs = flagged(alloc, true, table, rules)?;
    are_settled(alloc, boxes, highs.as_slice(), rules)
}

/// Whether each rule gives trees with the signature of its state's tree.
fn are_settled(
    alloc: Global,
    boxes: &[BoxFace],
    table: &[Option<Below>],
    rules: &[Rule],
) -> Mem<bool>
    ensures { IfOk result (λ yes. IsTrue yes ↔ Every (IsSettled boxes.now table.now) rules.now) }
{
    for rule in rules {
        if !is_settled(alloc, boxes, table, rule)? {
            return Ok(false);
        }
    }
    Ok(true)
}

fn is_settled(alloc: Global, boxes: &[BoxFace], table: &[Option<Below>], rule: &Rule) -> Mem<bool>
    ensures { IfOk result (λ yes. IsTrue yes ↔ IsSettled boxes.now table.now rule.now) }
{
    if !are_known(table, rule.children.as_slice()) {
        return Ok(true);
    }
    let marks = rule_marks(alloc, boxes, table, rule)?;
    Ok(are_same(marks_at(table, rule.state), marks.as_slice()))
}

/// The signature of the state's tree, empty where the table does not speak of it.
pub fn marks_at<'a>(table: &'a [Option<Below>], state: u32) -> &'a [RefMark]
    ensures { result.now ≡ (below_at table.entry.now state).marks }
{
    match entry_at(table, state) {
        Some(below) => below.marks.as_slice(),
        None => &[],
    }
}

/// Whether both are one signature.
pub fn are_same(left: &[RefMark], right: &[RefMark]) -> bool
    ensures { IsTrue result ↔ (left.now ≡ right.now) }
{
    if left.len() != right.len() {
        return false;
    }
    for (place, mark) in left.iter().enumerate() {
        if !mark.is_same(&right[place]) {
            return false;
        }
    }
    true
}

/// Whether the trees of which the table speaks at these states have one signature.
fn are_one(table: &[Option<Below>], states: &[u32]) -> bool
    ensures { IsTrue result ↔ AreOne table.now states.now }
{
    let mut first = None;
    for state in states {
        if !agrees(table, first, *state) {
            return false;
        }
        first = first_known(table, first, *state);
    }
    true
}

/// Whether the state's tree, where the table speaks of one, has the signature of the first state's.
fn agrees(table: &[Option<Below>], first: Option<u32>, state: u32) -> bool
    ensures { IsTrue result ↔ Agrees table.now first state }
{
    match first {
        None => true,
        Some(first) => {
            entry_at(table, state).is_none()
                || are_same(marks_at(table, first), marks_at(table, state))
        }
    }
}

/// The first of the states of which the table speaks, by the one so far and the next state.
fn first_known(table: &[Option<Below>], first: Option<u32>, state: u32) -> Option<u32>
    ensures { result ≡ first_known table.now first state }
{
    match first {
        None => {
            if entry_at(table, state).is_some() {
                Some(state)
            } else {
                None
            }
        }
        Some(first) => Some(first),
    }
}

fn signatures_in(alloc: Global, table: &[Option<Below>]) -> Mem<List<Signature>>
    ensures { IfOk result (λ list. list ≡ map (λ e. record { refs = (said e).marks }) table.now) }
{
    let mut list = List::new(alloc);
    for below in table {
        let refs = match below {
            Some(below) => below.marks.copy(alloc)?,
            None => List::new(alloc),
        };
        list.push(Signature { refs })?;
    }
    Ok(list)
}
