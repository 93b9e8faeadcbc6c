// Values that hold only data can be shared between threads and moved to another.

use crate::conditions::Cond;
use crate::items::{Field, Head, Item, Unit};
use crate::operands::Operand;
use crate::simples::Simple;
use crate::statements::{Block, Declare, Stmt};
use fore_base::crossing::crosses;

/// Operands cross threads, and with them calls and paths.
pub fn operand_crosses(operand: &Operand) {
    crosses(operand)
}

/// Simple statements cross threads, and with them right sides and sizes.
pub fn simple_crosses(simple: &Simple) {
    crosses(simple)
}

/// Conditions cross threads.
pub fn cond_crosses(cond: &Cond) {
    crosses(cond)
}

/// Declarations cross threads.
pub fn declare_crosses(declare: &Declare) {
    crosses(declare)
}

/// Fields cross threads.
pub fn field_crosses(field: &Field) {
    crosses(field)
}

/// Heads of functions cross threads.
pub fn head_crosses(head: &Head) {
    crosses(head)
}

/// Statements cross threads.
pub fn stmt_crosses(stmt: &Stmt) {
    crosses(stmt)
}

/// Blocks cross threads.
pub fn block_crosses(block: &Block) {
    crosses(block)
}

/// Items cross threads.
pub fn item_crosses(item: &Item) {
    crosses(item)
}

/// Whole texts cross threads.
pub fn unit_crosses(unit: &Unit) {
    crosses(unit)
}
