// Why a syntax tree is no program.

use fore_base::place::Place;
use std::alloc::AllocError;
use thiserror::Error;

/// Why a syntax tree is no program.
#[derive(Clone, Copy, Debug, Error)]
pub enum TypeFault {
    /// One of the rules T1 to T17 is broken here.
    #[error("rule T{} is broken at {}:{}", .rule, .at.line, .at.column)]
    Rule { rule: u8, at: Place },
    /// One of the limits K2 to K5 and K7 to K10 is passed here.
    #[error("limit K{} is passed at {}:{}", .limit, .at.line, .at.column)]
    Limit { limit: u8, at: Place },
    /// Want of memory.
    #[error("no memory")]
    Memory,
}

impl From<AllocError> for TypeFault {
    ghost use Rattle.std.specs.Prelude.{◌≡◌};
    ghost use Rattle.c_typing.specs.declared.fault.TypeFault.TheVariants.{Memory};

    ghost from_gives = { λ _ fault. fault ≡ Memory };

    fn from(_error: AllocError) -> TypeFault {
        TypeFault::Memory
    }
}
