// Texts that are numbered in the order in which they first come.
ghost use Rattle.std.specs.Prelude.{◌≡◌, ◌↔◌, ◌<◌, [], ◌∷◌, ◌++◌, length, slice_get, IfOk, IsTrue, OnOk, OnErr};
ghost use Rattle.std.specs.Prelude.{MatchOption};
ghost use Rattle.fore_base.specs.Lists.{IsIn};
ghost use Rattle.fore_base.specs.Names.{IsDistinct};

use crate::list::List;
use crate::memory::Mem;
use crate::text::Text;
use std::alloc::{AllocError, Global};
use std::collections::HashMap;
use std::marker::Model;

/// Texts with their numbers. Contracts see the list of the texts, none twice and at most 4,294,967,295; a text's number
/// is its position there.
#[derive(Drop)]
pub struct Names {
    texts: List<Text>,
    numbers: HashMap<Vec<u8>, u32>,
    alloc: Global,
}

impl Model for Names {
    ghost use Rattle.std.specs.Prelude.{List, ℕ};
    ghost use Rattle.std.specs.Coded.{coded_list, coded_ℕ};
    ghost use Rattle.fore_base.specs.Names.{AreFound, IsNumbered};

    ghost Value = { List (List ℕ) };

    ghost coded = { coded_list (coded_list coded_ℕ) };

    ghost view = { λ names. names.texts };

    ghost invariant = { λ names. IsNumbered names.texts
        × AreFound (λ text. text.items) names.texts names.numbers };
}

impl Names {
    /// No texts, which takes no memory.
    pub fn new(alloc: Global) -> Names
        ensures { result ≡ [] }
    {
        Names {
            texts: List::new(alloc),
            numbers: HashMap::new(alloc),
            alloc,
        }
    }

    /// The number of texts.
    pub fn len(&self) -> usize
        ensures { result ≡ length self.now }
    {
        self.texts.len()
    }

    /// Whether there are no texts.
    pub fn is_empty(&self) -> bool
        ensures { IsTrue result ↔ (self.now ≡ []) }
    {
        self.len() == 0
    }

    /// Says that no text has two numbers, and does nothing.
    pub fn known_distinct(&self)
        ensures { IsDistinct self.now }
    {
        let _texts = &self.texts;
    }

    /// The number of the text; None exactly where it is not there.
    pub fn find(&self, text: &[u8]) -> Option<u32>
        ensures { MatchOption result (IsIn text.now self.now → ⊥)
            (λ number. slice_get self.now number ≡ Some text.now) }
    {
        match self.numbers.get_key_value(text) {
            Some((_, number)) => Some(*number),
            None => None,
        }
    }

    /// The number of the text, which is added at the end if it is not there. Fewer than 4,294,967,295 texts are there.
    ///
    /// # Errors
    ///
    /// Want of memory; the texts stay as they were.
    pub fn number(&mut self, text: &[u8]) -> Mem<u32>
        requires { length self.old < 4294967295 }
        ensures number { IfOk result (λ number. slice_get self.new number ≡ Some text.now) }
        ensures there { OnOk result (IsIn text.now self.old → self.new ≡ self.old) }
        ensures added { OnOk result ((IsIn text.now self.old → ⊥) → self.new ≡ self.old ++ text.now ∷ []) }
        ensures err { OnErr result (self.new ≡ self.old) }
    {
        match self.find(text) {
            Some(number) => Ok(number),
            None => self.add(text),
        }
    }

    /// Adds a text that is not there.
    fn add(&mut self, text: &[u8]) -> Mem<u32>
        requires absent { IsIn text.now self.old → ⊥ }
        requires room { length self.old < 4294967295 }
        ensures number { IfOk result (λ number. number ≡ length self.old) }
        ensures ok { OnOk result (self.new ≡ self.old ++ text.now ∷ []) }
        ensures err { OnErr result (self.new ≡ self.old) }
    {
        let number = self.texts.len() as u32;
        let key = Vec::from_slice(self.alloc, text)?;
        let copy = Text::from_slice(self.alloc, text)?;
        self.texts.push(copy)?;
        match self.numbers.insert(key, number) {
            Ok(_) => Ok(number),
            Err(_) => {
                let _last = self.texts.pop();
                Err(AllocError)
            }
        }
    }
}
