// Why something is not read.

use std::alloc::AllocError;

/// Why pieces are not read as what was asked for.
#[derive(Clone, Copy)]
pub enum Unread {
    /// They are something else.
    Other,
    /// Want of memory.
    Memory,
}

impl From<AllocError> for Unread {
    ghost use Rattle.std.specs.Prelude.{◌≡◌};
    ghost use Rattle.fa_lines.specs.declared.unread.Unread.TheVariants.{Memory};

    ghost from_gives = { λ _ e. e ≡ Memory };

    fn from(_: AllocError) -> Unread {
        Unread::Memory
    }
}
