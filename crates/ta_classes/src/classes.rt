// Numbers put into classes, one number after another.

ghost use Rattle.std.specs.Prelude.{◌≡◌, ◌↔◌, ◌<◌, ◌+◌, ◌++◌, ◌∷◌, [], ◌^◌, ℕ, length, slice_index, IsTrue, IfOk, OnOk};
ghost use Rattle.std.specs.Prelude.{MatchOption};
ghost use Rattle.ta_classes.specs.Classes.{IsEquivalence, AreClasses};

use fore_base::list::List;
use fore_base::memory::Mem;
use std::alloc::Global;

/// Which numbers are alike.
pub trait Likeness {
    ghost alike: { Self → ℕ → ℕ → Type 0 };

    /// Whether the two numbers are alike.
    fn are_alike(&self, left: u32, right: u32) -> bool
        ensures { IsTrue result ↔ alike self.now left right };
}

/// For each number the number of its class, and for each class its first number.
#[derive(Drop)]
pub struct Classes {
    pub numbers: List<u32>,
    pub firsts: List<u32>,
}

/// The classes of the numbers below `count`. Err is want of memory.
pub fn classes_of<L: Likeness>(alloc: Global, likeness: &L, count: u32) -> Mem<Classes>
    requires { IsEquivalence count (L.alike likeness.now) }
    ensures { IfOk result (λ made. AreClasses (L.alike likeness.now) count made.numbers made.firsts) }
{
    let mut made = Classes {
        numbers: List::new(alloc),
        firsts: List::new(alloc),
    };
    for number in 0..count {
        add(likeness, &mut made, number, count)?;
    }
    Ok(made)
}

/// Puts the next number into its class, which is a new one where it is like no first number.
fn add<L: Likeness>(likeness: &L, made: &mut Classes, number: u32, _count: u32) -> Mem<()>
    requires equivalence { IsEquivalence _count (L.alike likeness.now) }
    requires within { number < _count }
    requires before { AreClasses (L.alike likeness.now) number made.old.numbers made.old.firsts }
    ensures { OnOk result (AreClasses (L.alike likeness.now) (number + 1) made.new.numbers made.new.firsts) }
{
    match class_of(likeness, made.firsts.as_slice(), number) {
        Some(class) => made.numbers.push(class),
        None => {
            begin(made, number)?;
            Ok(())
        }
    }
}

/// Puts the number into a new class.
fn begin(made: &mut Classes, number: u32) -> Mem<()>
    requires { length made.old.firsts < 2 ^ 32 }
    ensures numbers { OnOk result (made.new.numbers ≡ made.old.numbers ++ length made.old.firsts ∷ []) }
    ensures firsts { OnOk result (made.new.firsts ≡ made.old.firsts ++ number ∷ []) }
{
    made.numbers.push(made.firsts.len() as u32)?;
    made.firsts.push(number)
}

/// The class whose first number is like this one, if there is one.
fn class_of<L: Likeness>(likeness: &L, firsts: &[u32], number: u32) -> Option<u32>
    requires { length firsts.now < 2 ^ 32 }
    ensures { MatchOption result
        ((v : ℕ) → v < length firsts.now → L.alike likeness.now (slice_index firsts.now v) number → ⊥)
        (λ v. (v < length firsts.now) × L.alike likeness.now (slice_index firsts.now v) number) }
{
    for (class, first) in firsts.iter().enumerate() {
        if likeness.are_alike(*first, number) {
            return Some(class as u32);
        }
    }
    None
}
