// One step of the search: which pairs the rules of the left automaton give over those that are ready.

ghost use Rattle.std.specs.Prelude.{◌≡◌, ◌↔◌, ◌<◌, ℕ, List, [], ◌++◌, ◌∷◌, length, false, IsTrue, IfOk, OnOk};
ghost use Rattle.fore_base.specs.Lists.{Every};
ghost use Rattle.fore_base.specs.Marks.{IsMarked};
ghost use Rattle.ta_core.specs.Auto.{Automaton};
ghost use Rattle.ta_incl.specs.inner.Founds.{AreAt, HaveStates, sets_of, IsBegun, IsFull, IsFrom, IsDerived, HasUnder};
ghost use Rattle.ta_incl.specs.inner.Founds.{is_among, is_due, CoversAt, CoversFrom, Widens};
ghost use Rattle.ta_incl.specs.inner.Orders.{AreUpward};

use crate::failing::is_one_of;
use crate::found::{Found, is_covered, mark_at};
use crate::order::{Orders, states_under};
use fore_base::list::{Copies, List};
use fore_base::memory::Mem;
use std::alloc::Global;
use ta_core::accepting::top_states;
use ta_core::auto::{Auto, Rule};

/// What a step combines: the pairs that are ready have marks, and the pair at this place, if there is one, is taken up:
/// it is one of those that are combined.
#[derive(Drop)]
pub struct Turn {
    pub at: Option<usize>,
    pub ready: List<bool>,
}

/// The further pairs that the rules give over those that are there.
pub fn step(
    alloc: Global,
    orders: &Orders,
    rules: &[Rule],
    right: &Auto,
    found: &[Found],
    turn: &Turn,
) -> Mem<List<Found>>
    requires { (a : Automaton) × AreUpward a right.now orders.now × Every (λ r. r.state < a.states) rules.now }
    ensures widens { IfOk result
        (Widens orders.now.left (λ f. IsDerived rules.now right.now found.now f × HasUnder right.now orders.now.right f)
        found.now []) }
    ensures covers { IfOk result
        (λ added. Every (λ r. CoversFrom right.now orders.now found.now turn.now (found.now ++ added) r []) rules.now) }
{
    let mut added = List::new(alloc);
    for (place, rule) in rules.iter().enumerate() {
        if may_serve(rule, found, turn) {
            extend(
                alloc,
                orders,
                place,
                rule,
                right,
                found,
                turn,
                &[],
                &mut added,
            )?;
        }
    }
    Ok(added)
}

/// Whether a child of the rule is the state of the pair that is taken up, if there is one.
fn may_serve(rule: &Rule, found: &[Found], turn: &Turn) -> bool
    ensures { result ≡ false → (places : List ℕ) (items : List Found) → AreAt found.now places items
        → HaveStates rule.now.children items → is_due turn.now.at places ≡ false }
{
    match turn.at {
        None => true,
        Some(at) => match found.get(at) {
            Some(pair) => is_one_of(pair.state, rule.children.as_slice()),
            None => false,
        },
    }
}

/// Adds what the rule, which has this place, gives over the pairs at these places and each choice of pairs for the
/// further children.
fn extend(
    alloc: Global,
    orders: &Orders,
    place: usize,
    rule: &Rule,
    right: &Auto,
    found: &[Found],
    turn: &Turn,
    from: &[usize],
    added: &mut List<Found>,
) -> Mem<()>
    requires begun { IsBegun found.now rule.now from.now }
    requires upward { (a : Automaton) × AreUpward a right.now orders.now × (rule.now.state < a.states) }
    ensures widens { OnOk result
        (Widens orders.now.left
        (λ f. IsFrom right.now found.now place rule.now f × HasUnder right.now orders.now.right f)
        found.now added.old added.new) }
    ensures covers { OnOk result
        (CoversFrom right.now orders.now found.now turn.now (found.now ++ added.new) rule.now from.now) }
{
    if from.len() >= rule.children.len() {
        if !is_due(turn.at, from) {
            return Ok(());
        }
        return add(alloc, orders, place, rule, right, found, from, added);
    }
    let state = *rule.children.at(from.len());
    for (next, pair) in found.iter().enumerate() {
        if fits(turn, from, next, pair, state, rule.children.len()) {
            let longer = with_place(alloc, from, next)?;
            extend(
                alloc,
                orders,
                place,
                rule,
                right,
                found,
                turn,
                longer.as_slice(),
                added,
            )?;
        }
    }
    Ok(())
}

/// Whether the pair, which has this place, has the state and is ready, and the pair that is taken up stands for one of
/// so many children, or can still come to.
fn fits(
    turn: &Turn,
    from: &[usize],
    place: usize,
    pair: &Found,
    state: u32,
    children: usize,
) -> bool
    requires { length from.now < children }
    ensures fits { IsTrue result → (pair.now.state ≡ state) × IsMarked turn.now.ready place }
    ensures late { result ≡ false → pair.now.state ≡ state → IsMarked turn.now.ready place → (rest : List ℕ)
        → length (from.now ++ place ∷ rest) ≡ children → is_due turn.now.at (from.now ++ place ∷ rest) ≡ false }
{
    if pair.state != state {
        return false;
    }
    if !mark_at(turn.ready.as_slice(), place) {
        return false;
    }
    can_be_due(turn.at, from, place, children)
}

/// Whether the pair that is taken up, if there is one, is at one of the places.
fn is_due(at: Option<usize>, places: &[usize]) -> bool
    ensures { result ≡ is_due at places.now }
{
    match at {
        None => true,
        Some(place) => is_place_of(place, places),
    }
}

/// Whether the pair that is taken up can still come to stand for one of so many children, where these places and the
/// next one are taken.
fn can_be_due(at: Option<usize>, places: &[usize], next: usize, children: usize) -> bool
    requires { length places.now < children }
    ensures { result ≡ false → (rest : List ℕ) → length (places.now ++ next ∷ rest) ≡ children
        → is_due at (places.now ++ next ∷ rest) ≡ false }
{
    match at {
        None => true,
        Some(place) => {
            if next == place {
                return true;
            }
            if children - places.len() > 1 {
                return true;
            }
            is_place_of(place, places)
        }
    }
}

fn is_place_of(place: usize, places: &[usize]) -> bool
    ensures { result ≡ is_among place places.now }
{
    for other in places {
        if *other == place {
            return true;
        }
    }
    false
}

/// Adds the pair that the rule gives over the pairs at these places, unless one covers it.
fn add(
    alloc: Global,
    orders: &Orders,
    place: usize,
    rule: &Rule,
    right: &Auto,
    found: &[Found],
    from: &[usize],
    added: &mut List<Found>,
) -> Mem<()>
    requires full { IsFull found.now rule.now from.now }
    requires upward { (a : Automaton) × AreUpward a right.now orders.now × (rule.now.state < a.states) }
    ensures widens { OnOk result
        (Widens orders.now.left
        (λ f. IsFrom right.now found.now place rule.now f × HasUnder right.now orders.now.right f)
        found.now added.old added.new) }
    ensures covers { OnOk result
        (CoversAt right.now orders.now found.now (found.now ++ added.new) rule.now from.now) }
{
    let sets = sets_at(alloc, found, from)?;
    let marks = top_states(
        alloc,
        right.rules.as_slice(),
        right.states,
        &rule.symbol,
        &sets,
    )?;
    let under = states_under(alloc, &orders.right, right.states, marks.as_slice())?;
    let from = List::from_slice(alloc, from)?;
    let pair = Found {
        state: rule.state,
        marks,
        under,
        rule: place,
        from,
    };
    if is_covered(&orders.left, found, added.as_slice(), &pair) {
        return Ok(());
    }
    added.push(pair)
}

/// The sets of the pairs at these places.
fn sets_at(alloc: Global, found: &[Found], places: &[usize]) -> Mem<List<List<bool>>>
    requires { Every (λ i. i < length found.now) places.now }
    ensures { IfOk result (λ sets. (items : List Found) → AreAt found.now places.now items → sets ≡ sets_of items) }
{
    let mut sets = List::new(alloc);
    for place in places {
        let set = found[*place].marks.copy(alloc)?;
        sets.push(set)?;
    }
    Ok(sets)
}

/// The places with one more behind them.
fn with_place(alloc: Global, places: &[usize], place: usize) -> Mem<List<usize>>
    ensures { IfOk result (λ all. all ≡ places.now ++ place ∷ []) }
{
    let mut all = List::from_slice(alloc, places)?;
    all.push(place)?;
    Ok(all)
}
