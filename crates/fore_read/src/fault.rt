//! Why a file is not taken.
ghost use Rattle.std.specs.Prelude.{◌≡◌};
ghost use Rattle.fore_read.specs.inner.Taking.{not_given};

use c_front::Broken;
use fore_outside::shelf::ShelfFault;

/// Why what the words ask is refused. Each reason has one line of text.
#[derive(Clone, Copy)]
pub enum Refusal {
    /// K1: the C file has more bytes than the limit.
    TooLong,
    /// The first rule that the C file breaks.
    Breaks(Broken),
    /// K1: the file of boxes has more bytes than the limit.
    BoxesTooLong,
    /// The number of the first rule of boxes that the file of boxes breaks, and the line.
    BoxRule { rule: u8, line: u32 },
    /// K6: the file of boxes has too many boxes. The first line of the first that is too many.
    BoxLimit { line: u32 },
}

/// Why a file is not taken.
#[derive(Clone, Copy)]
pub enum ReadFault {
    /// It is refused.
    Refused(Refusal),
    /// It was not read, and its shelf has counted a fault.
    Failed,
    /// Want of memory.
    Memory,
}

/// Why a file that the shelf did not give is not taken. The first argument is the refusal of one that is too long.
pub(crate) fn not_given(too_long: Refusal, fault: ShelfFault) -> ReadFault
    ensures { result ≡ not_given too_long fault }
{
    match fault {
        ShelfFault::Failed => ReadFault::Failed,
        ShelfFault::TooLong => ReadFault::Refused(too_long),
        ShelfFault::Memory => ReadFault::Memory,
    }
}
