// Why a line is not taken.

use std::alloc::AllocError;

/// Why a line is not taken.
#[derive(Clone, Copy)]
pub enum Unfit {
    /// No box goes on so.
    Other,
    /// Want of memory.
    Memory,
}

impl From<AllocError> for Unfit {
    ghost use Rattle.std.specs.Prelude.{◌≡◌};
    ghost use Rattle.fa_written.specs.declared.unfit.Unfit.TheVariants.{Memory};

    ghost from_gives = { λ _ e. e ≡ Memory };

    fn from(_: AllocError) -> Unfit {
        Unfit::Memory
    }
}
