// Sets of numbers, kept as one mark for each number.

ghost use Rattle.std.specs.Prelude.{◌≡◌, false, true, slice_index_or, slice_set, replicate, IfOk};
ghost use Rattle.fore_base.specs.Marks.{all_marked, some_marked, marked_count};

use crate::list::List;
use crate::memory::Mem;
use std::alloc::Global;

/// The empty set of numbers below `count`.
///
/// # Errors
///
/// Want of memory.
pub fn unmarked(alloc: Global, count: usize) -> Mem<List<bool>>
    ensures { IfOk result (λ marks. marks ≡ replicate count false) }
{
    let marks = vec![in alloc; false; count]?;
    Ok(List::from_vec(marks))
}

/// Whether the number has a mark. One past the end has none.
pub fn is_marked(marks: &[bool], number: u32) -> bool
    ensures { result ≡ slice_index_or marks.now number false }
{
    match marks.get(number as usize) {
        Some(mark) => *mark,
        None => false,
    }
}

/// Marks the number. One past the end gets no mark.
pub fn mark(marks: &mut List<bool>, number: u32)
    ensures { marks.new ≡ slice_set marks.old number true }
{
    let place = number as usize;
    if place < marks.len() {
        marks.set(place, true);
    }
}

/// Whether each of the numbers has a mark.
pub fn are_all_marked(marks: &[bool], numbers: &[u32]) -> bool
    ensures { result ≡ all_marked marks.now numbers.now }
{
    for number in numbers {
        if !is_marked(marks, *number) {
            return false;
        }
    }
    true
}

/// Whether one of the numbers has a mark.
pub fn is_some_marked(marks: &[bool], numbers: &[u32]) -> bool
    ensures { result ≡ some_marked marks.now numbers.now }
{
    for number in numbers {
        if is_marked(marks, *number) {
            return true;
        }
    }
    false
}

/// How many numbers have marks.
pub fn count_marked(marks: &[bool]) -> usize
    ensures { result ≡ marked_count marks.now }
{
    let mut count = 0;
    for mark in marks {
        if *mark {
            count += 1;
        }
    }
    count
}
