// A search that looks at each number once.

ghost use Rattle.std.specs.Prelude.{◌<◌, ℕ, [], ◌∷◌, length, IfOk, OnOk};
ghost use Rattle.fore_base.specs.Lists.{Every, IsIn};
ghost use Rattle.fore_base.specs.Marks.{MarksOf};
ghost use Rattle.fore_search.specs.Reached.{IsReached, row};
ghost use Rattle.fore_search.specs.inner.Search.{Visits};

use fore_base::list::List;
use fore_base::marks::{is_marked, mark, unmarked};
use fore_base::memory::Mem;
use std::alloc::Global;

/// A mark for each number of `from`, and for each to which these lead by the table, whose row of a number holds the
/// numbers to which it leads at once. It looks at each row once at most.
///
/// # Errors
///
/// Want of memory.
pub fn search(alloc: Global, table: &List<List<u32>>, from: &[u32]) -> Mem<List<bool>>
    requires from { Every (λ q. q < length table.now) from.now }
    requires rows { (q r : ℕ) → IsIn r (row table.now q) → r < length table.now }
    ensures { IfOk result (MarksOf (length table.now) (IsReached table.now from.now)) }
{
    let mut marks = unmarked(alloc, table.len())?;
    let mut todo = List::new(alloc);
    visit(&mut marks, &mut todo, from)?;
    'numbers: while let Some(number) = todo.pop() {
        let row = table.at(number as usize).as_slice();
        visit(&mut marks, &mut todo, row)?;
    }
    Ok(marks)
}

/// Marks these numbers; those that had no mark are to be looked at.
fn visit(marks: &mut List<bool>, todo: &mut List<u32>, numbers: &[u32]) -> Mem<()>
    requires { Every (λ q. q < length marks.old) numbers.now }
    ensures { OnOk result (Visits numbers.now marks.old todo.old marks.new todo.new) }
{
    for number in numbers {
        visit_one(marks, todo, *number)?;
    }
    Ok(())
}

fn visit_one(marks: &mut List<bool>, todo: &mut List<u32>, number: u32) -> Mem<()>
    requires { number < length marks.old }
    ensures { OnOk result (Visits (number ∷ []) marks.old todo.old marks.new todo.new) }
{
    if !is_marked(marks.as_slice(), number) {
        todo.push(number)?;
        mark(marks, number);
    }
    Ok(())
}
