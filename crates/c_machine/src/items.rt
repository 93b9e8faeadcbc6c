//! What the machine has still to do, as it lies in memory: each entry borrows the program, and a rest of a list is one
//! entry.

use c_types::program::{Act, Arg, Atom, Cond, Dest, Func, Stmt, Typed};

/// Statements of a program, whose functions they may call.
#[derive(Clone, Copy)]
pub struct Body<'p> {
    pub program: &'p Typed,
    pub stmts: &'p [Stmt],
}

/// A pending item. The last one on the stack comes first.
#[derive(Clone, Copy)]
pub enum Item<'p> {
    /// These statements in turn.
    Block(Body<'p>),
    /// The end of a block, where these variables die.
    Close {
        ptrs: &'p [u32],
        datums: &'p [u32],
        line: u32,
    },
    /// A `while` or `for` that has not asked its condition yet.
    Loop {
        cond: &'p Cond,
        next: Body<'p>,
        body: Body<'p>,
    },
    /// The end of a round of a `while` or `for`.
    Again {
        cond: &'p Cond,
        next: Body<'p>,
        body: Body<'p>,
    },
    /// The end of a round of a `do`.
    DoAgain {
        cond: &'p Cond,
        body: Body<'p>,
    },
    /// The end of a call of this function, whose result is assigned there.
    Exit {
        func: &'p Func,
        to: &'p Option<Dest>,
        line: u32,
    },
}

/// What stands between an atom and the whole condition of which it is a part. The last one is the nearest to the atom.
#[derive(Clone, Copy)]
pub enum Part<'p> {
    /// `!` of it.
    Negated,
    /// `&&` of it and these after it.
    AllOf(&'p [Cond]),
    /// `||` of it and these after it.
    AnyOf(&'p [Cond]),
}

/// Where the outcome of a whole condition leads.
#[derive(Clone, Copy)]
pub enum Sides<'p> {
    Branch {
        yes: Body<'p>,
        no: Body<'p>,
    },
    /// Another round of a `while` or `for`, or on.
    Round {
        cond: &'p Cond,
        next: Body<'p>,
        body: Body<'p>,
    },
    /// Another round of a `do`, or on.
    DoRound {
        cond: &'p Cond,
        body: Body<'p>,
    },
}

/// What comes before the stack.
#[derive(Clone, Copy)]
pub enum Front<'p> {
    /// Nothing: the stack is still to be opened.
    Shut,
    /// A condition that is still to be opened.
    Asked {
        cond: &'p Cond,
        sides: Sides<'p>,
    },
    Act {
        act: &'p Act,
        line: u32,
    },
    Test {
        atom: &'p Atom,
        line: u32,
        sides: Sides<'p>,
    },
    /// A test that always holds: an `&&` or `||` of no parts, of which a typed program has none.
    Truth {
        sides: Sides<'p>,
    },
    Close {
        ptrs: &'p [u32],
        datums: &'p [u32],
        line: u32,
    },
    /// The beginning of a call of this function.
    Enter {
        func: &'p Func,
        args: &'p [Arg],
        line: u32,
    },
    /// `return` of this function.
    Leave {
        func: &'p Func,
        value: &'p Option<Arg>,
        line: u32,
    },
    /// The end of a call of this function.
    Exit {
        func: &'p Func,
        to: &'p Option<Dest>,
        line: u32,
    },
    /// Nothing at all is left.
    Nothing,
}

/// What is left to do: the front, the parts of a condition that is asked there, and the stack.
#[derive(Drop)]
pub struct Control<'p> {
    pub front: Front<'p>,
    pub parts: Vec<Part<'p>>,
    pub stack: Vec<Item<'p>>,
}
