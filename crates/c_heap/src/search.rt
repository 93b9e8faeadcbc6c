ghost use Rattle.std.specs.Prelude.{◌≡◌, ◌<◌, length, IfSome};
ghost use Rattle.c_heap.specs.Rising.{CellsRiseFrom, position_in};

use fore_base::store::CellRec;

/// The position of the cell of a number, among cells in order of their numbers.
pub fn position_of(cells: &[CellRec], number: u64) -> Option<usize>
    requires { CellsRiseFrom 0 cells.now }
    ensures position { result ≡ position_in cells.now number }
    ensures within { IfSome result (λ i. i < length cells.now) }
{
    let guess = guessed(cells, number);
    match cells.get(guess) {
        Some(cell) if cell.number == number => Some(guess),
        _ => searched(cells, number),
    }
}

/// Where the cell of a number stands if no cell between the first one and it is gone, as is so in most programs.
fn guessed(cells: &[CellRec], number: u64) -> usize {
    match cells.first() {
        Some(first) => number.saturating_sub(first.number) as usize,
        None => 0,
    }
}

fn searched(cells: &[CellRec], number: u64) -> Option<usize>
    requires { CellsRiseFrom 0 cells.now }
    ensures position { result ≡ position_in cells.now number }
    ensures within { IfSome result (λ i. i < length cells.now) }
{
    cells.binary_search_by_key(&number, |cell| cell.number).ok()
}
