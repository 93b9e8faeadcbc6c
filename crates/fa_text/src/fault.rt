// Why a text is not one of sound boxes.

use std::alloc::AllocError;
use thiserror::Error;

/// Why a text is not one of sound boxes. Lines are given by their numbers, the first being 1.
#[derive(Clone, Copy, Debug, Error)]
pub enum BoxFault {
    /// The number of the first rule that the text breaks, 1 to 7, and the line.
    #[error("rule B{} is broken at line {}", .rule, .line)]
    Rule { rule: u8, line: u32 },
    /// More than 32 boxes: the first line of the 33rd.
    #[error("limit K6 is passed at line {}", .line)]
    Limit { line: u32 },
    /// Want of memory.
    #[error("no memory")]
    Memory,
}

impl From<AllocError> for BoxFault {
    ghost use Rattle.std.specs.Prelude.{◌≡◌};
    ghost use Rattle.fa_text.specs.declared.fault.BoxFault.TheVariants.{Memory};

    ghost from_gives = { λ _ e. e ≡ Memory };

    fn from(_: AllocError) -> BoxFault {
        BoxFault::Memory
    }
}
