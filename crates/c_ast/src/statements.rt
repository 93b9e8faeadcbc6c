// Declarations, statements and blocks.

use crate::conditions::Cond;
use crate::operands::{Name, Operand};
use crate::simples::{Rhs, Simple};
use fore_base::boxed::Boxed;
use fore_base::list::List;
use fore_base::place::Place;

/// `data = "int" | "enum" id`
#[derive(Drop)]
pub enum Data {
    Int { at: Place },
    Enum { at: Place, name: Name },
}

/// A name, and what it starts with: `id [ "=" rhs ]`.
#[derive(Drop)]
pub struct Declarator {
    pub name: Name,
    pub from: Option<Rhs>,
}

/// `declare = "struct" id "*" id [ "=" rhs ] { "," "*" id [ "=" rhs ] } ";" | data id [ "=" rhs ] { "," id [ "=" rhs ]
/// } ";"`
#[derive(Drop)]
pub enum Declare {
    Pointers {
        at: Place,
        name: Name,
        vars: List<Declarator>,
    },
    Datums {
        data: Data,
        vars: List<Declarator>,
    },
}

/// `block = "{" { declare | stmt } "}"`
#[cycle(stmt)]
#[derive(Drop)]
pub struct Block {
    pub at: Place,
    pub parts: List<Part>,
    /// The place of the closing brace, on whose line the block's variables die.
    pub close: Place,
}

/// One part of a block: `declare | stmt`.
#[cycle(stmt)]
#[derive(Drop)]
pub enum Part {
    Declare(Declare),
    Stmt(Stmt),
}

/// What stands first in the head of a `for`: `declare | [ simple ] ";"`.
#[derive(Drop)]
pub enum First {
    Declare(Declare),
    Simple(Simple),
    Nothing,
}

/// A statement: the alternatives of `stmt`, each with the place of its first token. What is large in it has a place of
/// its own, so that a
/// statement is small where it stands in a block.
#[cycle(stmt)]
#[derive(Drop)]
pub enum Stmt {
    Empty {
        at: Place,
    },
    Block(Block),
    Simple(Boxed<Simple>),
    If {
        at: Place,
        cond: Cond,
        then: Boxed<Stmt>,
        other: Option<Boxed<Stmt>>,
    },
    While {
        at: Place,
        cond: Cond,
        body: Boxed<Stmt>,
    },
    Do {
        at: Place,
        body: Boxed<Stmt>,
        cond: Cond,
    },
    For {
        at: Place,
        first: Boxed<First>,
        cond: Option<Cond>,
        next: Option<Boxed<Simple>>,
        body: Boxed<Stmt>,
    },
    Return {
        at: Place,
        operand: Option<Operand>,
    },
    Break {
        at: Place,
    },
    Continue {
        at: Place,
    },
    Assert {
        at: Place,
        cond: Cond,
    },
}
