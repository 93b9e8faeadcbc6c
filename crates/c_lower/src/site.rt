// What the lowering of a program keeps at hand.
ghost use Rattle.std.specs.Prelude.{◌≡◌};
ghost use Rattle.c_lower.specs.inner.Emitting.{first_of, reached};
ghost use Rattle.c_lower.specs.inner.Sites.{deeper};

use c_links::counts::Counts;
use c_types::program::{Func, Stmt};
use fore_base::list::List;
use std::alloc::Global;

/// The lowering of a program: how many variables it has, its functions, and the location of its exit.
#[derive(Clone, Copy)]
pub struct Site<'p> {
    /// Where memory comes from.
    pub alloc: Global,
    /// How many variables the program has.
    pub counts: Counts,
    /// The location at which runs end.
    pub exit: u32,
    /// The functions besides `main`.
    pub funcs: &'p List<Func>,
    /// How deep calls are still followed: in `main`, as deep as there are functions.
    pub calls: usize,
}

impl<'p> Site<'p> {
    /// Where the body of a called function is lowered: calls are followed one less deep.
    pub fn deeper(&self) -> Site<'p>
        ensures { result ≡ deeper self.now }
    {
        let calls = if self.calls == 0 { 0 } else { self.calls - 1 };
        Site {
            alloc: self.alloc,
            counts: self.counts,
            exit: self.exit,
            funcs: self.funcs,
            calls,
        }
    }

    /// The body of a called function. Deeper than calls are followed it has no statement, and no program calls so deep.
    pub fn reached<'a>(&self, body: &'a [Stmt]) -> &'a [Stmt]
        ensures { result.now ≡ reached self.now.calls body.now }
    {
        if self.calls == 0 { &[] } else { body }
    }
}

/// Where a part of a program begins, and where what comes after it does.
#[derive(Clone, Copy)]
pub struct Span {
    /// The first location of the part.
    pub from: u32,
    /// The location after it.
    pub then: u32,
}

/// Where two parts of a statement stand.
#[derive(Clone, Copy)]
pub struct TwoSpans {
    pub first: Span,
    pub second: Span,
}

/// Where some items begin that have so many locations from a number on and stand before another location.
pub fn first_of(room: u32, from: u32, then: u32) -> u32
    ensures { result ≡ first_of room from then }
{
    if room == 0 { then } else { from }
}
