// Right sides, and the statements that have no statement within.

use crate::operands::{Call, Name, Operand, Path};
use fore_base::place::Place;

/// `size = "sizeof" "(" "struct" id ")" | "sizeof" "(" "*" path ")" | "sizeof" "*" path`
#[derive(Drop)]
pub enum Size {
    Struct { at: Place, name: Name },
    Bracketed { at: Place, star: Place, path: Path },
    Bare { at: Place, star: Place, path: Path },
}

/// What may stand before a `malloc`: `"(" "struct" id "*" ")"`.
#[derive(Drop)]
pub struct Cast {
    pub at: Place,
    pub name: Name,
}

/// `rhs = operand | [ "(" "struct" id "*" ")" ] "malloc" "(" size ")"`
#[derive(Drop)]
pub enum Rhs {
    Operand(Operand),
    Malloc {
        cast: Option<Cast>,
        at: Place,
        size: Size,
    },
}

/// `simple = path "=" rhs | call | "free" "(" path ")"`
#[derive(Drop)]
pub enum Simple {
    Assign { to: Path, from: Rhs },
    Call(Call),
    Free { at: Place, path: Path },
}
