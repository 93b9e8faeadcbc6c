// Answers of inclusion.

ghost use Rattle.std.specs.Prelude.{◌≡◌, ◌↔◌, ◌⊎◌, [], length, IsTrue, OnOk, OnErr, MatchOption};
ghost use Rattle.fore_base.specs.Lists.{IsIn};
ghost use Rattle.fa_kept.specs.Memos.{Answer, answer, Lacks};

use fore_base::memory::Mem;
use std::alloc::Global;
use std::collections::BTreeMap;
use std::marker::Model;

/// Answers of inclusion, each for the numbers of two automata in their order: whether the language of the first is
/// within that of the second. Contracts see the list of them.
#[derive(Drop)]
pub struct Memo {
    answers: BTreeMap<(usize, usize), bool>,
}

impl Model for Memo {
    ghost use Rattle.std.specs.Prelude.{List};
    ghost use Rattle.fa_kept.specs.Memos.{Answer};

    ghost Value = { List Answer };

    ghost view = { λ memo. memo.answers.entries };
}

impl Memo {
    /// No answers, which takes no memory.
    pub fn new(alloc: Global) -> Memo
        ensures { result ≡ [] }
    {
        Memo {
            answers: BTreeMap::new(alloc),
        }
    }

    /// The number of answers.
    pub fn len(&self) -> usize
        ensures { result ≡ length self.now }
    {
        self.answers.len()
    }

    /// Whether there are no answers.
    pub fn is_empty(&self) -> bool
        ensures { IsTrue result ↔ (self.now ≡ []) }
    {
        self.answers.is_empty()
    }

    /// The answer for the two numbers, None where there is none.
    pub fn answer(&self, narrow: usize, wide: usize) -> Option<bool>
        ensures { MatchOption result (Lacks self.now narrow wide)
            (λ yes. IsIn (answer narrow wide yes) self.now) }
    {
        self.answers.get(&(narrow, wide)).copied()
    }

    /// Adds the answer for the two numbers, or puts it in the place of the one that they have.
    ///
    /// # Errors
    ///
    /// Want of memory; the memo stays as it was.
    pub fn add(&mut self, narrow: usize, wide: usize, yes: bool) -> Mem<()>
        ensures ok { OnOk result (IsIn (answer narrow wide yes) self.new) }
        ensures others { (a : Answer) → IsIn a self.new → IsIn a self.old ⊎ (a ≡ answer narrow wide yes) }
        ensures err { OnErr result (self.new ≡ self.old) }
    {
        self.answers.insert((narrow, wide), yes)?;
        Ok(())
    }
}
