//! Room for a cell more, made before a step so that the step takes no memory.

ghost use Rattle.std.specs.Prelude.{◌≡◌, ◌<◌, ◌++◌, ◌∷◌, [], length, OnOk};
ghost use Rattle.std.specs.Vec.{vec_len, vec_capacity};

use fore_base::list::List;
use fore_base::memory::Mem;
use fore_base::store::CellRec;
use std::alloc::AllocError;
use std::mem::swap;

/// Makes room for so many cells and one more, and as many again, so that cells seldom move.
pub fn make_seats(seats: &mut Vec<CellRec>, count: usize) -> Mem<()>
    requires { seats.old.items ≡ [] }
    ensures empty { seats.new.items ≡ [] }
    ensures room { OnOk result (count < vec_capacity seats.new) }
{
    if seats.capacity() <= count {
        let wanted = count
            .saturating_add(count)
            .checked_add(1)
            .ok_or(AllocError)?;
        seats.reserve(wanted)?;
    }
    Ok(())
}

/// The cells with one more, which goes where they lie if there is room, and else moves with them to the seats.
pub fn seated(seats: &mut Vec<CellRec>, cells: List<CellRec>, cell: CellRec) -> List<CellRec>
    requires empty { seats.old.items ≡ [] }
    requires room { length cells < vec_capacity seats.old }
    ensures cells { result ≡ cells ++ cell ∷ [] }
    ensures empty { seats.new.items ≡ [] }
{
    let mut own = cells.into_vec();
    if own.capacity() <= own.len() {
        move_all(seats, &mut own);
        swap(seats, &mut own);
    }
    put_last(&mut own, cell);
    List::from_vec(own)
}

fn move_all(seats: &mut Vec<CellRec>, cells: &mut Vec<CellRec>)
    requires empty { seats.old.items ≡ [] }
    requires room { length cells.old.items < vec_capacity seats.old }
    ensures moved { seats.new.items ≡ cells.old.items }
    ensures left { cells.new.items ≡ [] }
    ensures room { vec_len seats.new < vec_capacity seats.new }
{
    match seats.append(cells) {
        Ok(()) => {}
        Err(_) => unreachable!(),
    }
}

fn put_last(cells: &mut Vec<CellRec>, cell: CellRec)
    requires { vec_len cells.old < vec_capacity cells.old }
    ensures { cells.new.items ≡ cells.old.items ++ cell ∷ [] }
{
    match cells.push(cell) {
        Ok(()) => {}
        Err(_) => unreachable!(),
    }
}
