// The search: which pairs the rules of the left automaton give, from the leaves upward.

ghost use Rattle.std.specs.Prelude.{◌≡◌, ◌↔◌, ◌<◌, ◌≤◌, ◌-◌, ◌^◌, ℕ, [], ◌++◌, false, length, slice_index_or};
ghost use Rattle.std.specs.Prelude.{IfOk, OnOk, MatchBool, MatchOption};
ghost use Rattle.fore_base.specs.Marks.{IsMarked, marked_count};
ghost use Rattle.ta_incl.specs.inner.Founds.{IsDerived, HasUnder, Widens, is_due};
ghost use Rattle.ta_incl.specs.inner.Founds.{IsSearch, IsReady, CoversReady, IsExplored};
ghost use Rattle.ta_incl.specs.inner.Orders.{AreUpward};

use crate::exploring::{Turn, step};
use crate::failing::failing;
use crate::found::{Found, mark_at, still_lasting};
use crate::order::{Orders, equality, simulations};
use fore_base::list::List;
use fore_base::marks::unmarked;
use fore_base::memory::Mem;
use std::alloc::Global;
use ta_core::auto::Auto;
use ta_core::rounds::{Rounds, settle};

/// Pairs that are found, and the orders by which they cover each other.
#[derive(Drop)]
pub struct Findings {
    pub orders: Orders,
    pub found: List<Found>,
}

/// With more states than so many in both automata no tables are made.
const MOST: usize = 4096;

/// The pairs that are found until one fails, or no rule gives a further one. The search begins with equality, and
/// begins anew with the simulations where it has found many pairs.
pub fn explored(alloc: Global, left: &Auto, right: &Auto) -> Mem<Findings>
    ensures { IfOk result (λ x. IsExplored left.now right.now x.orders x.found) }
{
    let orders = equality();
    let few = few_pairs(left.states, right.states);
    if let Some(found) = searched(alloc, left, right, &orders, few)? {
        return Ok(Findings { orders, found });
    }
    let orders = simulations(alloc, left, right)?;
    match searched(alloc, left, right, &orders, usize::MAX)? {
        Some(found) => Ok(Findings { orders, found }),
        None => unreachable!(),
    }
}

/// As many pairs as a search by equality may find: two for each state of both automata.
fn few_pairs(left: u32, right: u32) -> usize {
    let states = left as usize + right as usize;
    if states > MOST {
        usize::MAX
    } else {
        2 * states
    }
}

/// The pairs that are found by the orders until one fails, or no rule gives a further one; None where they came to be
/// more than so many.
fn searched(
    alloc: Global,
    left: &Auto,
    right: &Auto,
    orders: &Orders,
    limit: usize,
) -> Mem<Option<List<Found>>>
    requires { AreUpward left.now right.now orders.now }
    ensures { IfOk result (λ o. MatchOption o (limit < 2 ^ 64 - 1) (IsExplored left.now right.now orders.now)) }
{
    let mut search = begun(alloc, left, right, orders)?;
    let searching = Searching {
        alloc,
        left,
        right,
        orders,
        limit,
    };
    settle(&searching, &mut search)?;
    if search.found.len() > limit {
        return Ok(None);
    }
    Ok(Some(search.into_found()))
}

/// The pairs that are found, with marks for those that no later one covers, and for those that were taken up; and
/// whether one of them fails.
#[derive(Drop)]
struct Search {
    found: List<Found>,
    live: List<bool>,
    taken: List<bool>,
    failed: bool,
}

impl Search {
    fn into_found(self) -> List<Found>
        ensures { result ≡ self.found }
    {
        let Search {
            found,
            live: _,
            taken: _,
            failed: _,
        } = self;
        found
    }
}

/// What searches for pairs of the two automata.
#[derive(Clone, Copy)]
struct Searching<'a> {
    alloc: Global,
    left: &'a Auto,
    right: &'a Auto,
    orders: &'a Orders,
    limit: usize,
}

impl Rounds<Search> for Searching<'_> {
    ghost use Rattle.std.specs.Prelude.{◌≤◌, ◌-◌, ◌^◌, length};
    ghost use Rattle.fore_base.specs.Marks.{marked_count};
    ghost use Rattle.ta_incl.specs.inner.Founds.{IsSearch, CoversReady, IsExplored};
    ghost use Rattle.ta_incl.specs.inner.Orders.{AreUpward};

    ghost keeps = { λ s x. AreUpward s.left.now s.right.now s.orders.now
        × IsSearch s.left.now s.right.now s.orders.now x
        × CoversReady s.left.now s.right.now s.orders.now x (λ _. Unit {0}) };

    ghost is_settled = { λ s x. length x.found ≤ s.limit → IsExplored s.left.now s.right.now s.orders.now x.found };

    ghost left = { λ s x. 2 ^ 64 - marked_count x.taken };

    fn round(&self, search: &mut Search) -> Mem<bool> {
        take_next(
            self.alloc,
            self.left,
            self.right,
            self.orders,
            self.limit,
            search,
        )
    }
}

/// The pairs of rules without children.
fn begun(alloc: Global, left: &Auto, right: &Auto, orders: &Orders) -> Mem<Search>
    requires { AreUpward left.now right.now orders.now }
    ensures { IfOk result (λ x. IsSearch left.now right.now orders.now x
        × CoversReady left.now right.now orders.now x (λ _. Unit {0})) }
{
    let mut search = Search {
        found: List::new(alloc),
        live: List::new(alloc),
        taken: List::new(alloc),
        failed: false,
    };
    take_up(alloc, left, right, orders, None, &mut search)?;
    Ok(search)
}

/// Takes up the last pair that no later one covers and that was not taken up before, and says whether there is one;
/// none is taken up where a pair fails, or where there are more pairs than the limit.
fn take_next(
    alloc: Global,
    left: &Auto,
    right: &Auto,
    orders: &Orders,
    limit: usize,
    search: &mut Search,
) -> Mem<bool>
    requires upward { AreUpward left.now right.now orders.now }
    requires search { IsSearch left.now right.now orders.now search.old }
    requires covers { CoversReady left.now right.now orders.now search.old (λ _. Unit {0}) }
    ensures search { OnOk result (IsSearch left.now right.now orders.now search.new) }
    ensures covers { OnOk result (CoversReady left.now right.now orders.now search.new (λ _. Unit {0})) }
    ensures changes { IfOk result (λ changed. MatchBool changed
        (2 ^ 64 - marked_count search.new.taken < 2 ^ 64 - marked_count search.old.taken)
        (length search.new.found ≤ limit → IsExplored left.now right.now orders.now search.new.found)) }
{
    left.known();
    right.known();
    if search.failed || search.found.len() > limit {
        return Ok(false);
    }
    match last_open(search.live.as_slice(), search.taken.as_slice()) {
        Some(place) => {
            search.taken.set(place, true);
            take_up(alloc, left, right, orders, Some(place), search)?;
            Ok(true)
        }
        None => Ok(false),
    }
}

/// The last place that has a mark in the first list and none in the second.
fn last_open(live: &[bool], taken: &[bool]) -> Option<usize>
    ensures open { MatchOption result ((i : ℕ) → IsMarked live.now i → IsMarked taken.now i)
        (λ i. IsMarked live.now i × (slice_index_or taken.now i false ≡ false)) }
    ensures long { length live.now < 2 ^ 64 }
{
    for place in (0..live.len()).rev() {
        if mark_at(live, place) && !mark_at(taken, place) {
            return Some(place);
        }
    }
    None
}

/// Adds what the rules give over the pairs that are ready, one of them the pair at this place, if there is one.
fn take_up(
    alloc: Global,
    left: &Auto,
    right: &Auto,
    orders: &Orders,
    at: Option<usize>,
    search: &mut Search,
) -> Mem<()>
    requires upward { AreUpward left.now right.now orders.now }
    requires search { IsSearch left.now right.now orders.now search.old }
    requires covers { CoversReady left.now right.now orders.now search.old (λ places. is_due at places ≡ false) }
    ensures search { OnOk result (IsSearch left.now right.now orders.now search.new) }
    ensures covers { OnOk result (CoversReady left.now right.now orders.now search.new (λ _. Unit {0})) }
    ensures count { OnOk result (marked_count search.new.taken ≡ marked_count search.old.taken) }
{
    let ready = marked_in_both(alloc, search.live.as_slice(), search.taken.as_slice())?;
    let turn = Turn { at, ready };
    let added = step(
        alloc,
        orders,
        left.rules.as_slice(),
        right,
        search.found.as_slice(),
        &turn,
    )?;
    add_all(alloc, left, right, orders, added, search)
}

/// A mark for each place that has one in both lists.
fn marked_in_both(alloc: Global, live: &[bool], taken: &[bool]) -> Mem<List<bool>>
    ensures { IfOk result (λ ready. (i : ℕ) → IsMarked ready i ↔ (IsMarked live.now i × IsMarked taken.now i)) }
{
    let mut ready = List::new(alloc);
    for (place, mark) in live.iter().enumerate() {
        ready.push(*mark && mark_at(taken, place))?;
    }
    Ok(ready)
}

/// Puts the further pairs behind the found ones. None of them is taken up yet.
fn add_all(
    alloc: Global,
    left: &Auto,
    right: &Auto,
    orders: &Orders,
    added: List<Found>,
    search: &mut Search,
) -> Mem<()>
    requires search { IsSearch left.now right.now orders.now search.old }
    requires added { Widens orders.now.left
        (λ f. IsDerived left.now.rules right.now search.old.found f × HasUnder right.now orders.now.right f)
        search.old.found [] added }
    ensures search { OnOk result (IsSearch left.now right.now orders.now search.new) }
    ensures found { OnOk result (search.new.found ≡ search.old.found ++ added) }
    ensures ready { OnOk result ((i : ℕ) → IsReady search.new i → IsReady search.old i) }
    ensures count { OnOk result (marked_count search.new.taken ≡ marked_count search.old.taken) }
{
    let failed = failing(
        left.roots.as_slice(),
        right.roots.as_slice(),
        added.as_slice(),
    )
    .is_some();
    let live = still_lasting(
        alloc,
        &orders.left,
        search.found.as_slice(),
        search.live.as_slice(),
        added.as_slice(),
    )?;
    let untaken = unmarked(alloc, added.len())?;
    search.taken.append(untaken)?;
    search.found.append(added)?;
    search.live = live;
    search.failed = failed;
    Ok(())
}
