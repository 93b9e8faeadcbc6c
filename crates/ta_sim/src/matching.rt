// Whether items of one state are matched by those of another one, by a relation on states.

ghost use Rattle.std.specs.Prelude.{◌≡◌, ◌↔◌, IsTrue};
ghost use Rattle.fore_base.specs.Lists.{Every};
ghost use Rattle.ta_sim.specs.inner.Matching.{group_at, IsAnswered};

use crate::relation::entry_at;
use crate::tabling::Pairs;
use fore_base::list::List;

/// Which items are matched by which.
pub trait Matching<T> {
    ghost use Rattle.std.specs.Prelude.{◌↔◌, IsTrue};

    /// The second item matches the first.
    ghost matches: { Self → T → T → Type 0 };

    /// Whether `other` matches the item.
    fn is_match(&self, item: &T, other: &T) -> bool
        ensures { IsTrue result ↔ matches self.now item.now other.now };
}

/// Two states are related where the rows relate them, and each item of the first is matched by one of the second.
#[derive(Clone, Copy)]
pub struct Staying<'a, T, M> {
    pub matching: &'a M,
    pub groups: &'a [List<T>],
    pub rows: &'a [List<bool>],
}

impl<T, M: Matching<T>> Pairs for Staying<'_, T, M> {
    ghost use Rattle.ta_sim.specs.inner.Matching.{Stays};

    ghost relates = { λ s. Stays (M.matches s.matching.now) s.groups.now s.rows.now };

    fn is_related(&self, left: u32, right: u32) -> bool {
        entry_at(self.rows, left, right)
            && are_answered(
                self.matching,
                group_of(self.groups, left),
                group_of(self.groups, right),
            )
    }
}

/// The items of the state, none where there is no such state.
fn group_of<'a, T>(groups: &'a [List<T>], state: u32) -> &'a [T]
    ensures { result.now ≡ group_at groups.entry.now state }
{
    match groups.get(state as usize) {
        Some(items) => items.as_slice(),
        None => &[],
    }
}

/// Whether each of the items is matched by one of the others.
fn are_answered<T, M: Matching<T>>(matching: &M, items: &[T], others: &[T]) -> bool
    ensures { IsTrue result ↔ Every (IsAnswered (M.matches matching.now) others.now) items.now }
{
    for item in items {
        if !is_answered(matching, item, others) {
            return false;
        }
    }
    true
}

fn is_answered<T, M: Matching<T>>(matching: &M, item: &T, others: &[T]) -> bool
    ensures { IsTrue result ↔ IsAnswered (M.matches matching.now) others.now item.now }
{
    for other in others {
        if matching.is_match(item, other) {
            return true;
        }
    }
    false
}
