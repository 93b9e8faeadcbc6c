// Relations on states, as tables.

ghost use Rattle.std.specs.Prelude.{◌≡◌, ◌↔◌, ◌<◌, IsTrue};
ghost use Rattle.fore_base.specs.Lists.{Paired};
ghost use Rattle.ta_sim.specs.inner.Matching.{related_each};
ghost use Rattle.ta_sim.specs.Relations.{entry, Relates};

use fore_base::list::List;
use std::marker::Model;

/// A relation on the numbers below `size`. It keeps that there are `size` rows of `size` entries; the entry of row
/// `left` at place `right` says whether `left` is related to `right`.
#[derive(Drop)]
pub struct Relation {
    pub size: u32,
    pub rows: List<List<bool>>,
}

impl Model for Relation {
    ghost use Rattle.ta_sim.specs.Relations.{Table, IsSquare};

    ghost Value = { Table };

    ghost view = { λ r. record { size = r.size; rows = r.rows } };

    ghost invariant = { λ r. IsSquare (record { size = r.size; rows = r.rows }) };
}

impl Relation {
    ghost use Rattle.ta_sim.specs.Relations.{Holds, IsSquare};

    /// Does nothing, and says what the relation keeps: for proofs in which no part of it is read.
    pub fn known(&self)
        ensures { IsSquare self.now }
    {
        let _size = self.size;
    }

    /// Whether `left` is related to `right`, both below `size`. Takes no memory.
    pub fn holds(&self, left: u32, right: u32) -> bool
        requires { (left < self.now.size) × (right < self.now.size) }
        ensures { IsTrue result ↔ Holds self.now left right }
    {
        entry_at(self.rows.as_slice(), left, right)
    }
}

/// The entry of row `left` at place `right`, false where there is none.
pub fn entry_at(rows: &[List<bool>], left: u32, right: u32) -> bool
    ensures { result ≡ entry rows.now left right }
{
    match rows.get(left as usize) {
        Some(row) => row.get_or(right as usize, false),
        None => false,
    }
}

/// Whether the states are as many on the left as on the right, and the rows relate those in each place.
pub fn are_related(rows: &[List<bool>], left: &[u32], right: &[u32]) -> bool
    ensures { IsTrue result ↔ Paired (Relates rows.now) left.now right.now }
{
    each_related(rows, left, right)
}

fn each_related(rows: &[List<bool>], left: &[u32], right: &[u32]) -> bool
    ensures { result ≡ related_each rows.now left.now right.now }
{
    if left.len() != right.len() {
        return false;
    }
    for (place, state) in left.iter().enumerate() {
        if !entry_at(rows, *state, right[place]) {
            return false;
        }
    }
    true
}
