//! The rule that a file breaks, and where.
use fore_base::place::Place;
use std::alloc::AllocError;
use thiserror::Error;

/// What a rule is about.
#[derive(Clone, Copy, Debug)]
pub enum Letter {
    /// L: bytes that are no tokens.
    Lexical,
    /// P: tokens that no accepted program has.
    Profile,
    /// S: the grammar, and how deep it is nested.
    Syntax,
    /// T: names and types.
    Typing,
    /// K: limits.
    Limit,
}

/// A rule, by its letter and number, and the place at which a file breaks it.
#[derive(Clone, Copy, Debug)]
pub struct Broken {
    pub letter: Letter,
    pub number: u8,
    pub at: Place,
}

/// Why a file gives no program.
#[derive(Clone, Copy, Debug, Error)]
pub enum FileFault {
    /// This is the first rule that it breaks.
    #[error("the file breaks a rule at {}:{}", .first.at.line, .first.at.column)]
    Breaks {
        /// The rule and its place.
        first: Broken,
    },
    /// Want of memory.
    #[error("no memory")]
    Memory,
}

impl From<AllocError> for FileFault {
    ghost use Rattle.std.specs.Prelude.{◌≡◌};
    ghost use Rattle.c_front.specs.declared.broken.FileFault.TheVariants.{Memory};

    ghost from_gives = { λ _ fault. fault ≡ Memory };

    fn from(_error: AllocError) -> FileFault {
        FileFault::Memory
    }
}
