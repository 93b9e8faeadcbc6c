// Conditions.

use crate::operands::Operand;
use fore_base::boxed::Boxed;
use fore_base::list::List;
use fore_base::place::Place;

/// `cond = and { "||" and }`
#[cycle(cond)]
#[derive(Drop)]
pub struct Cond {
    pub ands: List<And>,
}

/// `and = test { "&&" test }`
#[cycle(cond)]
#[derive(Drop)]
pub struct And {
    pub tests: List<Test>,
}

/// `test = operand ( "==" | "!=" ) operand | unary`
#[cycle(cond)]
#[derive(Drop)]
pub enum Test {
    /// `equal` tells `==` from `!=`.
    Compare {
        left: Operand,
        equal: bool,
        right: Operand,
    },
    Unary(Unary),
}

/// `unary = "!" unary | "(" cond ")" | operand`
#[cycle(cond)]
#[derive(Drop)]
pub enum Unary {
    Not { at: Place, unary: Boxed<Unary> },
    Bracket { at: Place, cond: Cond },
    Operand(Operand),
}
