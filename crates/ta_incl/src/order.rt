// Which states are below which: a state that is below another one takes part in no tree that the other one, in its
// place, does not take part in.

ghost use Rattle.std.specs.Prelude.{◌≡◌, ◌↔◌, ◌<◌, ℕ, length, IsTrue, IfOk};
ghost use Rattle.fore_base.specs.Marks.{IsMarked, MarksOf};
ghost use Rattle.ta_core.specs.Auto.{Automaton};
ghost use Rattle.ta_sim.specs.Relations.{AreRowsOf, Relates};
ghost use Rattle.ta_incl.specs.inner.Orders.{below, AreOrdered, AreUpward, IsUpwardOrder, IsUnder};

use crate::found::mark_at;
use fore_base::list::List;
use fore_base::memory::Mem;
use std::alloc::Global;
use ta_core::auto::Auto;
use ta_sim::relation::{Relation, entry_at};
use ta_sim::tabling::{Pairs, rows_of};
use ta_sim::upward::upward_alone;

/// Which states of an automaton are below which: each below itself alone, or row by row what the entries say.
#[derive(Drop)]
pub enum Order {
    Equal,
    Rows(List<List<bool>>),
}

/// The orders of the states of both automata.
#[derive(Drop)]
pub struct Orders {
    pub left: Order,
    pub right: Order,
}

/// Equality on both.
pub fn equality() -> Orders
    ensures { (a b : Automaton) → AreUpward a b result }
{
    Orders {
        left: Order::Equal,
        right: Order::Equal,
    }
}

/// The greatest upward simulations by equality of both. On the states of both automata side by side the greatest one
/// has these two as its parts.
pub fn simulations(alloc: Global, left: &Auto, right: &Auto) -> Mem<Orders>
    ensures { IfOk result (AreUpward left.now right.now) }
{
    let lefts = simulation(alloc, left)?;
    let rights = simulation(alloc, right)?;
    Ok(Orders {
        left: lefts,
        right: rights,
    })
}

/// The greatest upward simulation by equality.
fn simulation(alloc: Global, auto: &Auto) -> Mem<Order>
    ensures { IfOk result (λ order. IsUpwardOrder auto.now (AreOrdered order)) }
{
    let equal = equal_states(alloc, auto.states)?;
    let relation = upward_alone(alloc, auto, &equal)?;
    Ok(Order::Rows(relation.rows))
}

/// Each number is related to itself alone.
#[derive(Clone, Copy)]
struct EqualStates;

impl Pairs for EqualStates {
    ghost use Rattle.std.specs.Prelude.{◌≡◌};

    ghost relates = { λ e p q. p ≡ q };

    fn is_related(&self, left: u32, right: u32) -> bool {
        left == right
    }
}

/// Equality of the states, as a table.
fn equal_states(alloc: Global, states: u32) -> Mem<Relation>
    ensures size { IfOk result (λ made. made.size ≡ states) }
    ensures rows { IfOk result (λ made. AreRowsOf states (λ p q. p ≡ q) made.rows) }
{
    let rows = rows_of(alloc, &EqualStates, states)?;
    Ok(Relation { size: states, rows })
}

/// Whether the order has `low` below `high`.
pub fn is_below(order: &Order, low: u32, high: u32) -> bool
    ensures { result ≡ below order.now low high }
{
    match order {
        Order::Equal => low == high,
        Order::Rows(rows) => entry_at(rows.as_slice(), low, high),
    }
}

/// The states, of which there are so many, that are below a marked one.
pub fn states_under(alloc: Global, order: &Order, states: u32, marks: &[bool]) -> Mem<List<bool>>
    requires { length marks.now ≡ states }
    ensures { IfOk result (MarksOf states (λ m. (m < states) × IsUnder order.now marks.now m)) }
{
    match order {
        Order::Equal => List::from_slice(alloc, marks),
        Order::Rows(rows) => states_to(alloc, rows.as_slice(), states, marks),
    }
}

/// The states, of which there are so many, that the rows relate to a marked one.
fn states_to(alloc: Global, rows: &[List<bool>], states: u32, marks: &[bool]) -> Mem<List<bool>>
    ensures { IfOk result
        (MarksOf states (λ m. (m < states) × ((k : ℕ) × IsMarked marks.now k × Relates rows.now m k))) }
{
    let mut under = List::new(alloc);
    for state in 0..states {
        under.push(is_to(rows, state, marks))?;
    }
    Ok(under)
}

/// Whether the rows relate the state to a marked one.
fn is_to(rows: &[List<bool>], state: u32, marks: &[bool]) -> bool
    ensures { IsTrue result ↔ ((k : ℕ) × IsMarked marks.now k × Relates rows.now state k) }
{
    match rows.get(state as usize) {
        Some(row) => do_meet(row.as_slice(), marks),
        None => false,
    }
}

/// Whether a number has both marks.
fn do_meet(row: &[bool], marks: &[bool]) -> bool
    ensures { IsTrue result ↔ ((k : ℕ) × IsMarked marks.now k × IsMarked row.now k) }
{
    for (place, mark) in marks.iter().enumerate() {
        if *mark && mark_at(row, place) {
            return true;
        }
    }
    false
}
