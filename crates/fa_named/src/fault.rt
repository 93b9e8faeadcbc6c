// Why the names of a file of boxes stand for nothing.

use std::alloc::AllocError;

/// Why a file of boxes is refused for its names. Lines are given by their numbers, the first being 1.
#[derive(Clone, Copy)]
pub enum NameFault {
    /// K6: the first line of the 33rd box.
    K6 { line: u32 },
    /// B2: a struct or a field that the program does not have, or data that are not the struct's.
    B2 { line: u32 },
    /// B3: an edge of a box that names no earlier box or is not written as that box has it, or a second box of a name.
    B3 { line: u32 },
    /// Want of memory.
    Memory,
}

impl From<AllocError> for NameFault {
    ghost use Rattle.std.specs.Prelude.{◌≡◌};
    ghost use Rattle.fa_named.specs.declared.fault.NameFault.TheVariants.{Memory};

    ghost from_gives = { λ _ e. e ≡ Memory };

    fn from(_: AllocError) -> NameFault {
        NameFault::Memory
    }
}
