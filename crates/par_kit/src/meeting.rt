// Pieces run beside each other: a gate that each of two pieces leaves only when the other one is there.

use crate::crew::Crew;
use crate::filling::{RowWorker, fill_rows};
use crate::finding::{Test, first_index};
use crate::gate::Gate;
use crate::making::{Maker, make_all};
use fore_base::list::List;
use fore_base::memory::Mem;
use std::alloc::Global;
use std::process::Abort;
use std::sync::atomic::{AtomicBool, Ordering};

const LOOKS: u32 = 500_000_000;

// One flag for each of two pieces, how often a piece looks at the other's at most, and whether each saw it.
#[derive(Drop)]
struct Meeting {
    looks: u32,
    first: AtomicBool,
    second: AtomicBool,
    first_saw: AtomicBool,
    second_saw: AtomicBool,
}

impl Meeting {
    fn new(looks: u32) -> Meeting {
        Meeting {
            looks,
            first: AtomicBool::new(false),
            second: AtomicBool::new(false),
            first_saw: AtomicBool::new(false),
            second_saw: AtomicBool::new(false),
        }
    }

    fn both_saw(&self) -> bool {
        self.first_saw.load(Ordering::SeqCst) && self.second_saw.load(Ordering::SeqCst)
    }
}

// Sets the own flag, and looks at the other one until it is set.
fn meet(looks: u32, own: &AtomicBool, other: &AtomicBool, saw: &AtomicBool) {
    own.store(true, Ordering::SeqCst);
    for _look in 0..looks {
        if other.load(Ordering::SeqCst) {
            saw.store(true, Ordering::SeqCst);
            return;
        }
    }
}

impl Gate for Meeting {
    fn enter(&self, piece: usize) {
        if piece == 0 {
            meet(self.looks, &self.first, &self.second, &self.first_saw);
        } else {
            meet(self.looks, &self.second, &self.first, &self.second_saw);
        }
    }
}

struct Doubles;

impl Maker<u32, u64> for Doubles {
    ghost use Rattle.std.specs.Prelude.{◌≡◌, ◌+◌, ◌<◌};

    ghost accepts = { λ maker item. item < 4294967296 };

    ghost relates = { λ maker item made. made ≡ item + item };

    fn make(&self, _alloc: Global, item: &u32) -> Mem<u64> {
        Ok(u64::from(*item) + u64::from(*item))
    }
}

struct IsZero;

impl Test<u32> for IsZero {
    ghost use Rattle.std.specs.Prelude.{◌≡◌, ◌<◌};

    ghost accepts = { λ test item. item < 4294967296 };

    ghost meets = { λ test item. item ≡ 0 };

    fn test(&self, _alloc: Global, item: &u32) -> Mem<bool> {
        Ok(*item == 0)
    }
}

// Sets the first entry of each row.
struct Marks;

impl RowWorker for Marks {
    ghost use Rattle.std.specs.Prelude.{◌≡◌, ◌<◌, true, slice_get, Some};

    ghost accepts = { λ worker index long. 0 < long };

    ghost is_row = { λ worker index row. slice_get row 0 ≡ Some true };

    fn row(&self, _alloc: Global, _index: usize, row: &mut List<bool>) -> Mem<()> {
        row.set(0, true);
        Ok(())
    }
}

#[test]
fn both_pieces_of_fill_rows_are_there_at_once(rt: HostRuntime) {
    let gate = Meeting::new(LOOKS);
    let crew = Crew {
        jobs: 2,
        gate: &gate,
    };
    match (
        List::filled(rt.alloc(), false, 1),
        List::filled(rt.alloc(), false, 2),
    ) {
        (Ok(first), Ok(second)) => {
            let mut rows = [first, second];
            let done = fill_rows(&rt, rt.alloc(), &mut rows, &Marks, &crew);
            assert!(rt; done.is_ok());
            assert!(rt; rows[0].get_or(0, false) && rows[1].get_or(0, false));
        }
        _ => assert!(rt; false),
    }
    assert!(rt; gate.both_saw());
}

#[test]
fn both_pieces_of_make_all_are_there_at_once(rt: HostRuntime) {
    let gate = Meeting::new(LOOKS);
    let crew = Crew {
        jobs: 2,
        gate: &gate,
    };
    match make_all(&rt, rt.alloc(), &[3u32, 4], &Doubles, &crew) {
        Ok(made) => {
            let first = made.get_or(0, 0);
            let second = made.get_or(1, 0);
            assert_eq!(rt; (first, second), (6, 8));
        }
        Err(_) => assert!(rt; false),
    }
    assert!(rt; gate.both_saw());
}

#[test]
fn both_pieces_of_first_index_are_there_at_once(rt: HostRuntime) {
    let gate = Meeting::new(LOOKS);
    let crew = Crew {
        jobs: 2,
        gate: &gate,
    };
    match first_index(&rt, rt.alloc(), &[3u32, 0], &IsZero, &crew) {
        Ok(found) => assert_eq!(rt; found, Some(1)),
        Err(_) => assert!(rt; false),
    }
    assert!(rt; gate.both_saw());
}

#[test]
fn the_looks_end(rt: HostRuntime) {
    let gate = Meeting::new(1000);
    gate.enter(0);
    assert!(rt; !gate.both_saw());
}
