// Pieces take turns: a gate lets each piece begin only when exactly so many items are done as the pieces before it
// should have, by number or from the last piece back. So a piece that has too few items, or too many, is seen.

use crate::crew::Crew;
use crate::filling::{RowWorker, fill_rows};
use crate::finding::{Test, first_index};
use crate::gate::{Gate, NoGate};
use crate::making::{Maker, make_all};
use fore_base::list::List;
use fore_base::memory::Mem;
use std::alloc::{AllocError, Global};
use std::process::Abort;
use std::sync::atomic::{AtomicBool, AtomicUsize, Ordering};
use std::thread::{Threads, yield_now};

const LOOKS: u32 = 500_000_000;

const LENGTHS: [usize; 7] = [0, 1, 2, 3, 63, 64, 65];

const JOBS: [usize; 4] = [1, 2, 3, 64];

const ITEMS: [u32; 65] = [7; 65];

// How many items are done, how many pieces have begun, and whether one of them waited in vain.
#[derive(Drop)]
struct Turns {
    items: usize,
    pieces: usize,
    backwards: bool,
    done: AtomicUsize,
    begun: AtomicUsize,
    missed: AtomicBool,
}

impl Turns {
    // So many items are cut into pieces, as many as there are jobs, but for those that would have no item.
    fn new(items: usize, jobs: usize, backwards: bool) -> Turns {
        Turns {
            items,
            pieces: jobs.min(items),
            backwards,
            done: AtomicUsize::new(0),
            begun: AtomicUsize::new(0),
            missed: AtomicBool::new(false),
        }
    }

    // How many items the first pieces have: the lengths differ by at most one, and the greater ones come first.
    fn before(&self, pieces: usize) -> usize {
        let share = self.items.checked_div(self.pieces).unwrap_or(0);
        let rest = self.items.checked_rem(self.pieces).unwrap_or(0);
        pieces.wrapping_mul(share).wrapping_add(pieces.min(rest))
    }

    // How many items are done when the turn of this piece comes.
    fn turn(&self, piece: usize) -> usize {
        if self.backwards {
            self.items.wrapping_sub(self.before(piece.wrapping_add(1)))
        } else {
            self.before(piece)
        }
    }

    fn count(&self) {
        self.done.fetch_add(1, Ordering::SeqCst);
    }

    // Each piece has begun once and in its turn, and each item is done.
    fn went_well(&self) -> bool {
        self.begun.load(Ordering::SeqCst) == self.pieces
            && self.done.load(Ordering::SeqCst) == self.items
            && !self.missed.load(Ordering::SeqCst)
    }
}

impl Gate for Turns {
    fn enter(&self, piece: usize) {
        self.begun.fetch_add(1, Ordering::SeqCst);
        let turn = self.turn(piece);
        for _look in 0..LOOKS {
            if self.done.load(Ordering::SeqCst) == turn {
                return;
            }
            yield_now();
        }
        self.missed.store(true, Ordering::SeqCst);
    }
}

// Counts each item.
#[derive(Drop)]
struct Counting<'a> {
    turns: &'a Turns,
}

impl<'a> Maker<u32, u32> for Counting<'a> {
    ghost use Rattle.std.specs.Prelude.{◌≡◌};

    ghost accepts = { λ maker item. Unit {0} };

    ghost relates = { λ maker item made. made ≡ item };

    fn make(&self, _alloc: Global, item: &u32) -> Mem<u32> {
        self.turns.count();
        Ok(*item)
    }
}

impl<'a> Test<u32> for Counting<'a> {
    ghost use Rattle.std.specs.Prelude.{◌≡◌};

    ghost accepts = { λ test item. Unit {0} };

    ghost meets = { λ test item. item ≡ 0 };

    fn test(&self, _alloc: Global, item: &u32) -> Mem<bool> {
        self.turns.count();
        Ok(*item == 0)
    }
}

impl<'a> RowWorker for Counting<'a> {
    ghost use Rattle.std.specs.Prelude.{◌≡◌, ◌<◌, true, slice_get, Some};

    ghost accepts = { λ worker index long. 0 < long };

    ghost is_row = { λ worker index row. slice_get row 0 ≡ Some true };

    fn row(&self, _alloc: Global, _index: usize, row: &mut List<bool>) -> Mem<()> {
        self.turns.count();
        row.set(0, true);
        Ok(())
    }
}

// Counts each row, and leaves it as it is.
#[derive(Drop)]
struct CountingRows<'a> {
    turns: &'a Turns,
}

impl<'a> RowWorker for CountingRows<'a> {
    ghost use Rattle.std.specs.Prelude.{◌≡◌};

    ghost accepts = { λ worker index long. Unit {0} };

    ghost is_row = { λ worker index row. Unit {0} };

    fn row(&self, _alloc: Global, _index: usize, _row: &mut List<bool>) -> Mem<()> {
        self.turns.count();
        Ok(())
    }
}

// Whether the pieces of `fill_rows` take their turns.
fn rows_are_even<R: Threads + Sync>(
    rt: &R,
    alloc: Global,
    length: usize,
    jobs: usize,
) -> Mem<bool> {
    let mut rows = Vec::new(alloc);
    for _row in 0..length {
        rows.push(List::new(alloc))?;
    }
    let turns = Turns::new(length, jobs, false);
    let crew = Crew {
        jobs: jobs.clamp(1, 64),
        gate: &turns,
    };
    let worker = CountingRows { turns: &turns };
    fill_rows(rt, alloc, rows.as_mut_slice(), &worker, &crew)?;
    Ok(turns.went_well())
}

// Whether the pieces of `first_index` and `make_all` take their turns.
fn are_even<R: Threads + Sync>(
    rt: &R,
    alloc: Global,
    length: usize,
    jobs: usize,
    backwards: bool,
) -> bool {
    let items = &ITEMS[..length.min(65)];
    let jobs = jobs.clamp(1, 64);
    let making = Turns::new(items.len(), jobs, backwards);
    let crew = Crew {
        jobs,
        gate: &making,
    };
    let made = make_all(rt, alloc, items, &Counting { turns: &making }, &crew);
    let finding = Turns::new(items.len(), jobs, backwards);
    let crew = Crew {
        jobs,
        gate: &finding,
    };
    let found = first_index(rt, alloc, items, &Counting { turns: &finding }, &crew);
    made.is_ok() && making.went_well() && found.is_ok() && finding.went_well()
}

#[test]
fn pieces_differ_by_at_most_one_item(rt: HostRuntime) {
    for length in LENGTHS {
        for jobs in JOBS {
            assert!(rt; are_even(&rt, rt.alloc(), length, jobs, false));
            assert!(rt; are_even(&rt, rt.alloc(), length, jobs, true));
        }
    }
}

#[test]
fn rows_are_shared_out_evenly(rt: HostRuntime) {
    for jobs in JOBS {
        match (
            List::filled(rt.alloc(), false, 1),
            List::filled(rt.alloc(), false, 2),
            List::filled(rt.alloc(), false, 3),
        ) {
            (Ok(first), Ok(second), Ok(third)) => {
                let mut rows = [first, second, third];
                let turns = Turns::new(3, jobs, false);
                let crew = Crew {
                    jobs: jobs.clamp(1, 64),
                    gate: &turns,
                };
                let done = fill_rows(
                    &rt,
                    rt.alloc(),
                    &mut rows,
                    &Counting { turns: &turns },
                    &crew,
                );
                assert!(rt; done.is_ok() && turns.went_well());
            }
            _ => assert!(rt; false),
        }
    }
}

#[test]
fn rows_of_each_number_are_shared_out(rt: HostRuntime) {
    for length in LENGTHS {
        for jobs in JOBS {
            assert!(rt; rows_are_even(&rt, rt.alloc(), length, jobs) == Ok(true));
        }
    }
}

// The third item is the first that is 0; products stand in the order of their items.
#[test]
fn pieces_answer_as_one(rt: HostRuntime) {
    let turns = Turns::new(4, 4, false);
    let counting = Counting { turns: &turns };
    let gate = NoGate;
    let four = Crew {
        jobs: 4,
        gate: &gate,
    };
    let found = first_index(&rt, rt.alloc(), &[3u32, 7, 0, 0], &counting, &four);
    assert!(rt; found == Ok(Some(2)));
    let two = Crew {
        jobs: 2,
        gate: &gate,
    };
    match make_all(&rt, rt.alloc(), &[3u32, 4, 5], &counting, &two) {
        Ok(made) => assert!(rt; made.as_slice() == [3u32, 4, 5].as_slice()),
        Err(_) => assert!(rt; false),
    }
}

// Want of memory at the item 9.
#[derive(Drop)]
struct WantsMemory;

impl Maker<u32, u32> for WantsMemory {
    ghost use Rattle.std.specs.Prelude.{◌≡◌, ◌<◌};

    ghost accepts = { λ maker item. item < 4294967296 };

    ghost relates = { λ maker item made. made ≡ item };

    fn make(&self, _alloc: Global, item: &u32) -> Mem<u32> {
        if *item == 9 {
            Err(AllocError)
        } else {
            Ok(*item)
        }
    }
}

#[test]
fn want_of_memory_in_a_piece_is_told(rt: HostRuntime) {
    let gate = NoGate;
    let crew = Crew {
        jobs: 3,
        gate: &gate,
    };
    let made = make_all(&rt, rt.alloc(), &[1u32, 2, 9, 4, 5, 6], &WantsMemory, &crew);
    assert!(rt; made.is_err());
}
