// Growing lists, and values of which equal copies can be made.
ghost use Rattle.std.specs.Prelude.{◌≡◌, [], ◌∷◌, ◌++◌, ◌<◌, ◌↔◌, length, slice_get, slice_index_or, slice_set};
ghost use Rattle.std.specs.Prelude.{replicate, remove, IsTrue, IfOk, MatchOption, OnOk, OnErr, OnSome};
ghost use Rattle.std.specs.Option.{option_copied};

use std::alloc::{AllocError, Global};
use std::marker::Model;

/// A growing list, which contracts see as the list of its items.
#[derive(Debug, Drop)]
pub struct List<T> {
    items: Vec<T>,
}

impl<T> Model for List<T> {
    ghost use Rattle.std.specs.Prelude.{List};
    ghost use Rattle.std.specs.Coded.{coded_list};

    ghost Value = { List T };

    ghost coded = { coded_list T.code };

    ghost view = { λ list. list.items.items };
}

impl<T> List<T> {
    /// The empty list, which takes no memory.
    pub fn new(alloc: Global) -> List<T>
        ensures { result ≡ [] }
    {
        List {
            items: Vec::new(alloc),
        }
    }

    /// The list of the items of a vector.
    pub fn from_vec(items: Vec<T>) -> List<T>
        ensures { result ≡ items.items }
    {
        List { items }
    }

    /// The vector of the items of the list.
    pub fn into_vec(self) -> Vec<T>
        ensures { result.items ≡ self }
    {
        let List { items } = self;
        items
    }

    /// The items, to be read.
    pub fn as_slice(&self) -> &[T]
        ensures { result.now ≡ self.now }
    {
        self.items.as_slice()
    }

    /// The number of items.
    pub fn len(&self) -> usize
        ensures { result ≡ length self.now }
    {
        self.items.len()
    }

    /// Whether there are no items.
    pub fn is_empty(&self) -> bool
        ensures { IsTrue result ↔ (self.now ≡ []) }
    {
        self.items.is_empty()
    }

    /// The item at a place, the first being at 0; None where the list ends before it.
    pub fn get(&self, at: usize) -> Option<&T>
        ensures value { option_copied result ≡ slice_get self.now at }
        ensures within { OnSome result (at < length self.now) }
    {
        self.items.get(at)
    }

    /// The item at a place that is known to be in the list.
    pub fn at(&self, at: usize) -> &T
        requires { at < length self.now }
        ensures { slice_get self.now at ≡ Some result.now }
    {
        &self.items[at]
    }

    /// The last item, taken off; None where there is none.
    pub fn pop(&mut self) -> Option<T>
        ensures { MatchOption result ((self.old ≡ []) × (self.new ≡ [])) (λ last. self.old ≡ self.new ++ last ∷ []) }
    {
        self.items.pop()
    }
}

impl<T> List<T> {
    ghost use Rattle.std.specs.Borrow.{sem};
    ghost use Rattle.fore_base.specs.Lends.{lends_at};

    /// The item at a place that is known to be in the list, to be changed there.
    pub fn at_mut(&mut self, at: usize) -> &mut T
        requires { at < length self.old }
        ensures value { slice_get self.old at ≡ Some result.now }
        ensures* lends { sem 𝓛 (lends_at T.row self.entry at result) }
    {
        &mut self.items[at]
    }
}

impl<T: Drop> List<T> {
    /// Adds an item at the end.
    ///
    /// # Errors
    ///
    /// Want of memory; the list stays as it was, and the item is let go.
    pub fn push(&mut self, item: T) -> Result<(), AllocError>
        ensures ok { OnOk result (self.new ≡ self.old ++ item ∷ []) }
        ensures err { OnErr result (self.new ≡ self.old) }
    {
        self.items.push(item)?;
        Ok(())
    }

    /// Moves the items of `more` to the end.
    ///
    /// # Errors
    ///
    /// Want of memory; the list stays as it was, and `more` is let go.
    pub fn append(&mut self, more: List<T>) -> Result<(), AllocError>
        ensures ok { OnOk result (self.new ≡ self.old ++ more) }
        ensures err { OnErr result (self.new ≡ self.old) }
    {
        let List { mut items } = more;
        self.items.append(&mut items)?;
        Ok(())
    }

    /// Writes an item at a place that is known to be in the list.
    pub fn set(&mut self, at: usize, item: T)
        requires { at < length self.old }
        ensures { self.new ≡ slice_set self.old at item }
    {
        self.items[at] = item;
    }

    /// Takes out the item at a place that is known to be in the list; those after it move up.
    pub fn remove(&mut self, at: usize) -> T
        requires { at < length self.old }
        ensures item { slice_get self.old at ≡ Some result }
        ensures rest { self.new ≡ remove self.old at }
    {
        self.items.remove(at)
    }
}

impl<T: Copy> List<T> {
    /// A list of so many copies of an item.
    ///
    /// # Errors
    ///
    /// Want of memory.
    pub fn filled(alloc: Global, item: T, count: usize) -> Result<List<T>, AllocError>
        ensures { IfOk result (λ list. list ≡ replicate count item) }
    {
        let mut list = List::new(alloc);
        for _i in 0..count {
            list.push(item)?;
        }
        Ok(list)
    }

    /// The item at a place, or `default` where the list ends before it.
    pub fn get_or(&self, at: usize, default: T) -> T
        ensures { result ≡ slice_index_or self.now at default }
    {
        if at < self.items.len() {
            self.items[at]
        } else {
            default
        }
    }

    /// Writes an item at a place; nothing where the list ends before it.
    pub fn set_within(&mut self, at: usize, item: T)
        ensures { self.new ≡ slice_set self.old at item }
    {
        if at < self.items.len() {
            self.items[at] = item;
        }
    }
}

impl<T: Copies> List<T> {
    /// A list of equal copies of the items.
    ///
    /// # Errors
    ///
    /// Want of memory.
    pub fn from_slice(alloc: Global, items: &[T]) -> Result<List<T>, AllocError>
        ensures { IfOk result (λ list. list ≡ items.now) }
    {
        let mut all = List::new(alloc);
        for item in items {
            let other = item.copy(alloc)?;
            all.push(other)?;
        }
        Ok(all)
    }
}

impl<T: PartialEq> PartialEq for List<T> {
    ghost use Rattle.std.specs.Cmp.Lexicographic.{pointwise, lists_per};

    ghost eq = { pointwise T.eq };

    ghost laws = { lists_per T.laws };

    fn eq(&self, other: &List<T>) -> bool {
        self.items.as_slice() == other.items.as_slice()
    }
}

impl<T: Eq> Eq for List<T> {
    ghost use Rattle.std.specs.Cmp.Lexicographic.{lists_equiv};

    ghost laws = { lists_equiv T.Eq.laws };
}

/// A value of which an equal one can be made, in memory of its own.
pub trait Copies: Drop {
    /// An equal value.
    ///
    /// # Errors
    ///
    /// Want of memory.
    fn copy(&self, alloc: Global) -> Result<Self, AllocError>
        ensures { IfOk result (λ other. other ≡ self.now) };
}

impl<T: Copies> Copies for List<T> {
    fn copy(&self, alloc: Global) -> Result<List<T>, AllocError> {
        List::from_slice(alloc, self.as_slice())
    }
}

impl Copies for u8 {
    fn copy(&self, _alloc: Global) -> Result<u8, AllocError> {
        Ok(*self)
    }
}

impl Copies for u32 {
    fn copy(&self, _alloc: Global) -> Result<u32, AllocError> {
        Ok(*self)
    }
}

impl Copies for bool {
    fn copy(&self, _alloc: Global) -> Result<bool, AllocError> {
        Ok(*self)
    }
}

impl Copies for u64 {
    fn copy(&self, _alloc: Global) -> Result<u64, AllocError> {
        Ok(*self)
    }
}

impl Copies for usize {
    fn copy(&self, _alloc: Global) -> Result<usize, AllocError> {
        Ok(*self)
    }
}
