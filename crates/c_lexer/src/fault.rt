// Refusals of texts.
use fore_base::place::Place;
use std::alloc::AllocError;
use thiserror::Error;

/// Why a text has no list of tokens.
#[derive(Clone, Copy, Debug, Error)]
pub enum LexFault {
    /// No token begins at this byte.
    #[error("no token begins at {}:{}", .at.line, .at.column)]
    L1 {
        /// The place of the byte.
        at: Place,
    },
    /// The comment that begins at this byte is not closed.
    #[error("the comment at {}:{} is not closed", .at.line, .at.column)]
    L2 {
        /// The place of its first byte.
        at: Place,
    },
    /// Want of memory.
    #[error("no memory")]
    Memory,
}

impl From<AllocError> for LexFault {
    ghost use Rattle.std.specs.Prelude.{◌≡◌};
    ghost use Rattle.c_lexer.specs.declared.fault.LexFault.TheVariants.{Memory};

    ghost from_gives = { λ _ fault. fault ≡ Memory };

    fn from(_error: AllocError) -> LexFault {
        LexFault::Memory
    }
}
