// Names, paths, calls and operands.

use fore_base::list::List;
use fore_base::place::Place;
use fore_base::text::Text;

/// A word that is not reserved, or a number, as it is written.
#[derive(Drop)]
pub struct Name {
    pub text: Text,
    pub at: Place,
}

/// One more field of a path: `"->" id`.
#[derive(Drop)]
pub struct Arrow {
    pub at: Place,
    pub field: Name,
}

/// `path = id { "->" id }`
#[derive(Drop)]
pub struct Path {
    pub head: Name,
    pub arrows: List<Arrow>,
}

/// `call = id "(" [ operand { "," operand } ] ")"`
#[cycle(operand)]
#[derive(Drop)]
pub struct Call {
    pub name: Name,
    pub operands: List<Operand>,
}

/// `operand = path | call | number | "NULL" | "true" | "false"`
#[cycle(operand)]
#[derive(Drop)]
pub enum Operand {
    Path(Path),
    Call(Call),
    Number(Name),
    Null { at: Place },
    True { at: Place },
    False { at: Place },
}
