// Laws over the definitions: each is the contract of a function that does nothing.

ghost use Rattle.std.specs.Prelude.{◌≡◌, true, false};
ghost use Rattle.fore_base.specs.Heap.{Leaked, leaks};

use crate::store::Store;

/// The leak test is true exactly where some cell cannot be reached.
pub fn leak_test_decides(store: &Store)
    ensures leaked { leaks store.now ≡ true → Leaked store.now }
    ensures reached { leaks store.now ≡ false → Leaked store.now → ⊥ }
{
    let _store = store;
}
