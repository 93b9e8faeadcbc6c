// Why a text is not one of boxes.

use std::alloc::AllocError;

/// Why a text is not one of boxes as they are written.
#[derive(Clone, Copy)]
pub enum DraftFault {
    /// B1: the first line that is in the way, by its number, the first being 1.
    B1 { line: u32 },
    /// Want of memory.
    Memory,
}

impl From<AllocError> for DraftFault {
    ghost use Rattle.std.specs.Prelude.{◌≡◌};
    ghost use Rattle.fa_written.specs.declared.fault.DraftFault.TheVariants.{Memory};

    ghost from_gives = { λ _ e. e ≡ Memory };

    fn from(_: AllocError) -> DraftFault {
        DraftFault::Memory
    }
}
