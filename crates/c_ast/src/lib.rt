//! The syntax trees of the accepted C: one type for each rule of the grammar, and how deep a tree is.
#![tactic(auto)]

pub mod conditions;
pub mod crossing;
mod depths;
pub mod items;
pub mod operands;
pub mod simples;
pub mod statements;

pub use conditions::{And, Cond, Test, Unary};
pub use items::{Field, Head, Item, Param, Params, ReturnType, Unit};
pub use operands::{Arrow, Call, Name, Operand, Path};
pub use simples::{Cast, Rhs, Simple, Size};
pub use statements::{Block, Data, Declarator, Declare, First, Part, Stmt};
