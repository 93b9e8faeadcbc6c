// Pairs of a state and what is seen of some of its trees, and the rules over them: found from the leaves upward.

ghost use Rattle.std.specs.Prelude.{◌≡◌, ◌↔◌, ◌++◌, ◌∷◌, [], length, map, slice_get, Some, IsTrue, IfOk, OnOk};
ghost use Rattle.std.specs.Prelude.{MatchOption};
ghost use Rattle.fore_base.specs.Lists.{IsIn, Paired, IsDistinct};
ghost use Rattle.fa_signatures.specs.inner.CutPairs.{below_pair, seen_over, ArePlacesOf, ArePairRules, GrowsOr};
ghost use Rattle.fa_signatures.specs.inner.CutPairs.{AddsRule, AddsEach, AddsRules};
ghost use Rattle.fa_signatures.specs.inner.Telling.{told_states};

use crate::products::product;
use crate::telling::told_states;
use fa_core::cells::{has, is_leaf, marks_by};
use fa_core::faces::BoxFace;
use fa_core::signature::Below;
use fa_sound::are_same;
use fore_base::list::{Copies, List};
use fore_base::memory::Mem;
use std::alloc::{AllocError, Global};
use ta_core::auto::Rule;

/// A state and what is seen of some of its trees: their signature, and, where the state's leaves are told from its
/// cells, whether they are leaves.
pub type Pair = (u32, Below);

/// The pairs that were found, and the rules over them. The state of such a rule is the place of a pair.
#[derive(Drop)]
pub struct Found {
    pub pairs: List<Pair>,
    pub rules: List<Rule>,
}

/// The pairs that the rules give, and the rules over them. Err is want of memory.
pub fn pair_up(alloc: Global, boxes: &[BoxFace], rules: &[Rule]) -> Mem<Found>
    ensures rules { IfOk result
        (λ found. ArePairRules boxes.now (told_states boxes.now rules.now) found.pairs rules.now found.rules) }
    ensures apart { IfOk result (λ found. IsDistinct found.pairs) }
{
    let told = told_states(alloc, boxes, rules)?;
    pair_by(alloc, boxes, told.as_slice(), rules)
}

/// So where the leaves of these states are told from their cells.
fn pair_by(alloc: Global, boxes: &[BoxFace], told: &[u32], rules: &[Rule]) -> Mem<Found>
    ensures rules { IfOk result (λ found. ArePairRules boxes.now told.now found.pairs rules.now found.rules) }
    ensures apart { IfOk result (λ found. IsDistinct found.pairs) }
{
    let mut pairs = List::new(alloc);
    'rounds: loop {
        let before = pairs.len();
        let over = rules_over(alloc, boxes, told, rules, &mut pairs)?;
        if pairs.len() == before {
            return Ok(Found { pairs, rules: over });
        }
    }
}

/// The rules over the pairs that are there. Pairs that they give and that are not there are added.
fn rules_over(
    alloc: Global,
    boxes: &[BoxFace],
    told: &[u32],
    rules: &[Rule],
    pairs: &mut List<Pair>,
) -> Mem<List<Rule>>
    ensures grows { IfOk result
        (λ over. GrowsOr pairs.old pairs.new
        (ArePairRules boxes.now told.now pairs.old rules.now over)) }
    ensures apart { OnOk result (IsDistinct pairs.old → IsDistinct pairs.new) }
{
    let mut over = List::new(alloc);
    for rule in rules {
        take_rule(alloc, boxes, told, rule, pairs, &mut over)?;
    }
    Ok(over)
}

/// Adds the rules that stand for this one, over each choice of pairs for its children.
fn take_rule(
    alloc: Global,
    boxes: &[BoxFace],
    told: &[u32],
    rule: &Rule,
    pairs: &mut List<Pair>,
    over: &mut List<Rule>,
) -> Mem<()>
    ensures grows { OnOk result
        (GrowsOr pairs.old pairs.new
        (AddsRules boxes.now told.now pairs.old rule.now over.old over.new)) }
    ensures apart { OnOk result (IsDistinct pairs.old → IsDistinct pairs.new) }
{
    let options = options(alloc, pairs.as_slice(), rule.children.as_slice())?;
    let choices = product(alloc, options.as_slice())?;
    add_rules(alloc, boxes, told, rule, choices.as_slice(), pairs, over)
}

/// Adds a rule that stands for this one for each of the choices.
fn add_rules(
    alloc: Global,
    boxes: &[BoxFace],
    told: &[u32],
    rule: &Rule,
    choices: &[List<u32>],
    pairs: &mut List<Pair>,
    over: &mut List<Rule>,
) -> Mem<()>
    ensures grows { OnOk result
        (GrowsOr pairs.old pairs.new
        (AddsEach boxes.now told.now pairs.old rule.now choices.now over.old over.new)) }
    ensures apart { OnOk result (IsDistinct pairs.old → IsDistinct pairs.new) }
{
    for choice in choices {
        add_rule(alloc, boxes, told, rule, choice, pairs, over)?;
    }
    Ok(())
}

/// Adds the rule that stands for this one over the pairs in these places.
fn add_rule(
    alloc: Global,
    boxes: &[BoxFace],
    told: &[u32],
    rule: &Rule,
    places: &List<u32>,
    pairs: &mut List<Pair>,
    over: &mut List<Rule>,
) -> Mem<()>
    ensures grows { OnOk result
        (GrowsOr pairs.old pairs.new
        (AddsRule boxes.now told.now pairs.old rule.now places.now over.old over.new)) }
    ensures apart { OnOk result (IsDistinct pairs.old → IsDistinct pairs.new) }
{
    let below = seen_over(
        alloc,
        boxes,
        told,
        pairs.as_slice(),
        rule,
        places.as_slice(),
    )?;
    let state = place_for(rule.state, below, pairs)?;
    let symbol = rule.symbol.copy(alloc)?;
    let children = places.copy(alloc)?;
    over.push(Rule {
        state,
        symbol,
        children,
    })
}

/// What is seen of a tree by the rule over trees of the pairs in these places.
fn seen_over(
    alloc: Global,
    boxes: &[BoxFace],
    told: &[u32],
    pairs: &[Pair],
    rule: &Rule,
    places: &[u32],
) -> Mem<Below>
    ensures { IfOk result (λ below. below ≡ seen_over boxes.now told.now pairs.now rule.now places.now) }
{
    let belows = belows_at(alloc, pairs, places)?;
    if !are_small(belows.as_slice()) {
        return Err(AllocError);
    }
    let marks = marks_by(alloc, boxes, &rule.symbol, belows.as_slice())?;
    let leaf = has(rule.state, told) && is_leaf(&rule.symbol);
    Ok(Below { leaf, marks })
}

/// Whether no mark provides more fields than a struct could have: one that does is in no tree of a forest in which each
/// field is given exactly once, and what is provided could double with each state.
fn are_small(belows: &[Below]) -> bool {
    for below in belows {
        for mark in below.marks.as_slice() {
            if mark.provided.len() > 1024 {
                return false;
            }
        }
    }
    true
}

/// The place of the pair of this state of which this is seen, which is added where it is not there.
fn place_for(state: u32, below: Below, pairs: &mut List<Pair>) -> Mem<u32>
    ensures grows { IfOk result
        (λ place. GrowsOr pairs.old pairs.new
        (slice_get pairs.old place ≡ Some (state, below))) }
    ensures apart { OnOk result (IsDistinct pairs.old → IsDistinct pairs.new) }
{
    if let Some(place) = place_of(pairs.as_slice(), state, &below) {
        return number_of(place);
    }
    let place = number_of(pairs.len())?;
    pairs.push((state, below))?;
    Ok(place)
}

/// The number. One that does not fit 32 bits is want of memory.
pub fn number_of(place: usize) -> Mem<u32>
    ensures { IfOk result (λ number. number ≡ place) }
{
    if place > u32::MAX as usize {
        return Err(AllocError);
    }
    Ok(place as u32)
}

/// A place of the pair of this state of which this is seen.
fn place_of(pairs: &[Pair], state: u32, below: &Below) -> Option<usize>
    ensures { MatchOption result (IsIn (state, below.now) pairs.now → ⊥)
        (λ place. slice_get pairs.now place ≡ Some (state, below.now)) }
{
    for (place, pair) in pairs.iter().enumerate() {
        if pair.0 == state && is_same(&pair.1, below) {
            return Some(place);
        }
    }
    None
}

/// Whether the same is seen.
fn is_same(left: &Below, right: &Below) -> bool
    ensures { IsTrue result ↔ (left.now ≡ right.now) }
{
    left.leaf == right.leaf && are_same(left.marks.as_slice(), right.marks.as_slice())
}

/// For each of the states the places of its pairs.
fn options(alloc: Global, pairs: &[Pair], states: &[u32]) -> Mem<List<List<u32>>>
    ensures { IfOk result (λ options. Paired (ArePlacesOf pairs.now) options states.now) }
{
    let mut options = List::new(alloc);
    for state in states {
        let places = places_of(alloc, pairs, *state)?;
        options.push(places)?;
    }
    Ok(options)
}

/// The places of the pairs of this state.
fn places_of(alloc: Global, pairs: &[Pair], state: u32) -> Mem<List<u32>>
    ensures { IfOk result (λ places. ArePlacesOf pairs.now places state) }
{
    let mut places = List::new(alloc);
    for (place, pair) in pairs.iter().enumerate() {
        if pair.0 == state {
            let number = number_of(place)?;
            places.push(number)?;
        }
    }
    Ok(places)
}

/// What is seen of trees of the pairs in these places.
fn belows_at(alloc: Global, pairs: &[Pair], places: &[u32]) -> Mem<List<Below>>
    ensures { IfOk result (λ belows. belows ≡ map (below_pair pairs.now) places.now) }
{
    let mut belows = List::new(alloc);
    for place in places {
        let below = below_pair(alloc, pairs, *place)?;
        belows.push(below)?;
    }
    Ok(belows)
}

fn below_pair(alloc: Global, pairs: &[Pair], place: u32) -> Mem<Below>
    ensures { IfOk result (λ below. below ≡ below_pair pairs.now place) }
{
    match pairs.get(place as usize) {
        Some(pair) => pair.1.copy(alloc),
        None => Ok(Below {
            leaf: false,
            marks: List::new(alloc),
        }),
    }
}
