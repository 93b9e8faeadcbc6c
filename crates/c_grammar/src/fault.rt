// Why a list of tokens is no unit.

use fore_base::place::Place;
use std::alloc::AllocError;
use thiserror::Error;

/// Why a list of tokens is no unit.
#[derive(Clone, Copy, Debug, Error)]
pub enum SyntaxFault {
    /// This token is refused by one of the rules P1 to P10.
    #[error("a token at {}:{} is refused by P{}", .at.line, .at.column, .rule)]
    Refused { rule: u8, at: Place },
    /// No unit begins with the tokens up to this one.
    #[error("a token at {}:{} fits nothing", .at.line, .at.column)]
    Syntax { at: Place },
    /// This token opens level 65.
    #[error("level 65 begins at {}:{}", .at.line, .at.column)]
    Deep { at: Place },
    /// Want of memory.
    #[error("no memory")]
    Memory,
}

impl From<AllocError> for SyntaxFault {
    ghost use Rattle.std.specs.Prelude.{◌≡◌};
    ghost use Rattle.c_grammar.specs.declared.fault.SyntaxFault.TheVariants.{Memory};

    ghost from_gives = { λ _ fault. fault ≡ Memory };

    fn from(_error: AllocError) -> SyntaxFault {
        SyntaxFault::Memory
    }
}
