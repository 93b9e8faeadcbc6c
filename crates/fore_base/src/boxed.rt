// One value in a place of its own, so that a type may hold the type that holds it.
ghost use Rattle.std.specs.Prelude.{◌≡◌, IfOk};

use crate::list::Copies;
use std::alloc::{AllocError, Global};
use std::marker::Model;

/// A value in memory of its own, which contracts see as what it holds: no address is part of it.
#[derive(Drop)]
pub struct Boxed<T> {
    inner: Box<T>,
}

impl<T> Model for Boxed<T> {
    ghost Value = { T };

    ghost coded = { T.code };

    ghost view = { λ boxed. boxed.inner.value };
}

impl<T> Boxed<T> {
    /// What it holds, to be read.
    pub fn get(&self) -> &T
        ensures { result.now ≡ self.now }
    {
        &self.inner
    }

    /// What it holds, taken out; its memory is given back.
    pub fn into_inner(self) -> T
        ensures { result ≡ self }
    {
        let Boxed { inner } = self;
        Box::into_inner(inner)
    }
}

impl<T: Drop> Boxed<T> {
    /// Puts a value into memory of its own.
    ///
    /// # Errors
    ///
    /// Want of memory; the value is let go then.
    pub fn new(alloc: Global, item: T) -> Result<Boxed<T>, AllocError>
        ensures { IfOk result (λ boxed. boxed ≡ item) }
    {
        Ok(Boxed {
            inner: Box::new(alloc, item)?,
        })
    }
}

impl<T: PartialEq> PartialEq for Boxed<T> {
    ghost eq = { T.eq };

    ghost laws = { T.laws };

    fn eq(&self, other: &Boxed<T>) -> bool {
        self.get() == other.get()
    }
}

impl<T: Eq> Eq for Boxed<T> {
    ghost laws = { T.Eq.laws };
}

impl<T: Copies> Copies for Boxed<T> {
    fn copy(&self, alloc: Global) -> Result<Boxed<T>, AllocError> {
        let item = self.get().copy(alloc)?;
        Boxed::new(alloc, item)
    }
}
