// The levels that are open.
ghost use Rattle.std.specs.Prelude.{suc, ◌≡◌, ◌≤◌, ◌<◌, ◌-◌, ◌++◌, ◌∷◌, [], ◌↔◌, IsTrue, length};

use smallvec::SmallVec;
use std::alloc::Global;
use std::marker::Model;

/// What opens a level.
#[derive(Clone, Copy, PartialEq, Eq, Default)]
pub enum Level {
    #[default]
    Block,
    If,
    While,
    Do,
    For,
    Call,
    Not,
    Bracket,
}

/// The levels that are open round the next token: at most 64, and no memory is taken for them. Contracts see how many
/// more may be opened.
#[derive(Drop)]
pub struct Levels {
    open: SmallVec<Level, 64>,
    ghost inline: { open.capacity ≡ 64 },
    ghost few: { length open.items ≤ 64 },
}

impl Model for Levels {
    ghost use Rattle.std.specs.Prelude.{ℕ, ◌-◌, length};
    ghost use Rattle.std.specs.Coded.{coded_ℕ};

    ghost Value = { ℕ };

    ghost coded = { coded_ℕ };

    ghost view = { λ levels. 64 - length levels.open.items };
}

impl Levels {
    pub fn new(alloc: Global) -> Levels
        ensures { result ≡ 64 }
    {
        Levels {
            open: SmallVec::new(alloc),
        }
    }

    /// No more levels may be opened.
    pub fn is_full(&self) -> bool
        ensures { IsTrue result ↔ (self.now ≡ 0) }
    {
        self.open.len() == 64
    }

    /// The same levels, and one more within.
    pub fn deeper(&self, alloc: Global, level: Level) -> Levels
        requires { 0 < self.now }
        ensures { self.now ≡ suc result }
    {
        Levels {
            open: with_one_more(alloc, self.open.as_slice(), level),
        }
    }
}

/// The kinds of a list, and one more.
fn with_one_more(alloc: Global, kinds: &[Level], level: Level) -> SmallVec<Level, 64>
    requires { length kinds.now < 64 }
    ensures items { result.items ≡ kinds.now ++ level ∷ [] }
    ensures capacity { result.capacity ≡ 64 }
{
    let mut open = SmallVec::new(alloc);
    for kind in kinds {
        open.push_reserved(*kind);
    }
    open.push_reserved(level);
    open
}
