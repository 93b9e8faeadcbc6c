// Rounds until nothing changes.

ghost use Rattle.std.specs.Prelude.{◌≡◌, ℕ, ◌<◌, IfOk, OnOk, MatchBool};
ghost use Rattle.fore_base.specs.Lists.{Every};

use fore_base::memory::Mem;

/// What changes values in rounds, each of which leaves less to change.
pub trait Rounds<T> {
    /// What holds of the value before and after each round.
    ghost keeps: { Self → T → Type 0 };

    /// A round would change nothing.
    ghost is_settled: { Self → T → Type 0 };

    /// How much can still be changed.
    ghost left: { Self → T → ℕ };

    /// Changes the value, and says whether it did. Where it did not, the value is settled.
    ///
    /// # Errors
    ///
    /// Want of memory.
    fn round(&self, value: &mut T) -> Mem<bool>
        requires { keeps self.now value.old }
        ensures keeps { OnOk result (keeps self.now value.new) }
        ensures changes { IfOk result
            (λ changed. MatchBool changed (left self.now value.new < left self.now value.old)
            (is_settled self.now value.new)) };
}

/// Takes rounds until one changes nothing.
///
/// # Errors
///
/// Want of memory.
pub fn settle<T, R: Rounds<T>>(rounds: &R, value: &mut T) -> Mem<()>
    requires { R.keeps rounds.now value.old }
    ensures keeps { OnOk result (R.keeps rounds.now value.new) }
    ensures settled { OnOk result (R.is_settled rounds.now value.new) }
{
    'rounds: while rounds.round(value)? {}
    Ok(())
}

/// What takes items into a value, one by one.
pub trait Taker<T, I> {
    /// What it may be given.
    ghost accepts: { Self → I → Type 0 };

    /// What holds of the value before and after each item.
    ghost keeps: { Self → T → Type 0 };

    /// To take the item would change nothing.
    ghost is_taken: { Self → T → I → Type 0 };

    /// How much can still be changed.
    ghost left: { Self → T → ℕ };

    /// Takes the item, and says whether that changed the value.
    ///
    /// # Errors
    ///
    /// Want of memory.
    fn take(&self, value: &mut T, item: &I) -> Mem<bool>
        requires accepts { accepts self.now item.now }
        requires keeps { keeps self.now value.old }
        ensures keeps { OnOk result (keeps self.now value.new) }
        ensures changes { IfOk result
            (λ changed. MatchBool changed (left self.now value.new < left self.now value.old)
            ((value.new ≡ value.old) × is_taken self.now value.old item.now)) };
}

/// Takes all items, in rounds, until none changes the value.
///
/// # Errors
///
/// Want of memory.
pub fn take_all<T, I, K: Taker<T, I>>(taker: &K, items: &[I], value: &mut T) -> Mem<()>
    requires accepts { Every (K.accepts taker.now) items.now }
    requires keeps { K.keeps taker.now value.old }
    ensures keeps { OnOk result (K.keeps taker.now value.new) }
    ensures taken { OnOk result (Every (K.is_taken taker.now value.new) items.now) }
{
    'rounds: while take_each(taker, items, value)? {}
    Ok(())
}

/// Takes each item once, and says whether one changed the value.
fn take_each<T, I, K: Taker<T, I>>(taker: &K, items: &[I], value: &mut T) -> Mem<bool>
    requires accepts { Every (K.accepts taker.now) items.now }
    requires keeps { K.keeps taker.now value.old }
    ensures keeps { OnOk result (K.keeps taker.now value.new) }
    ensures changes { IfOk result
        (λ changed. MatchBool changed (K.left taker.now value.new < K.left taker.now value.old)
        ((value.new ≡ value.old) × Every (K.is_taken taker.now value.new) items.now)) }
{
    let mut changed = false;
    for item in items {
        if taker.take(value, item)? {
            changed = true;
        }
    }
    Ok(changed)
}
