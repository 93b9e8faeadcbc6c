// The numbers of automata: of those that a pool has, and of those that are to come behind them.

ghost use Rattle.std.specs.Prelude.{◌≡◌, ◌↔◌, ◌++◌, Some, slice_get, IsTrue, IfOk, OnOk, MatchOption};
ghost use Rattle.std.specs.Option.{option_copied};
ghost use Rattle.fore_base.specs.Lists.{IsIn, Every, IsDistinct};
ghost use Rattle.fa_pool.specs.Indexes.{IsIndexed, MoreListed};
ghost use Rattle.fa_pool.specs.Keys.{key_of};
ghost use Rattle.fa_pool.specs.Pools.{IsNumber};
ghost use Rattle.fa_pool.specs.inner.Numbered.{AreNumbered, IsPut};

use crate::indexes::{Index, add};
use crate::keys::key_of;
use fore_base::list::{Copies, List};
use fore_base::memory::Mem;
use std::alloc::Global;
use ta_core::auto::Auto;
use ta_incl::are_equal;

/// The numbers of automata, and equal ones of those that the pool does not have, in memory of their own.
#[derive(Drop)]
pub struct Numbered {
    pub numbers: List<usize>,
    pub more: List<Auto>,
}

/// Gives each of the automata its number. Err is want of memory.
pub fn number_all(alloc: Global, held: &[Auto], index: &mut Index, autos: &[Auto]) -> Mem<Numbered>
    requires distinct { IsDistinct held.now }
    requires indexed { IsIndexed index.old held.now }
    ensures listed { MoreListed index.old index.new }
    ensures numbered { IfOk result (λ made. AreNumbered index.new held.now autos.now made.numbers made.more) }
{
    let mut numbers = List::new(alloc);
    let mut more = List::new(alloc);
    for auto in autos {
        let number = number(alloc, held, index, &mut more, auto)?;
        numbers.push(number)?;
    }
    Ok(Numbered { numbers, more })
}

/// The number of the automaton, which is added to the new ones if it is in neither list. Err is want of memory.
fn number(
    alloc: Global,
    held: &[Auto],
    index: &mut Index,
    more: &mut List<Auto>,
    auto: &Auto,
) -> Mem<usize>
    requires { IsIndexed index.old (held.now ++ more.old) }
    ensures listed { MoreListed index.old index.new }
    ensures put { OnOk result (IsPut held.now auto.now more.old more.new) }
    ensures indexed { OnOk result (IsIndexed index.new (held.now ++ more.new)) }
    ensures number { IfOk result (λ number. IsNumber (held.now ++ more.new) number auto.now) }
{
    let key = key_of(auto);
    match find(held, more.as_slice(), index, key, auto) {
        Some(number) => Ok(number),
        None => {
            let number = held.len() + more.len();
            add(alloc, index, key, number)?;
            let auto = auto.copy(alloc)?;
            more.push(auto)?;
            Ok(number)
        }
    }
}

/// The number of the automaton, found by its key; None exactly where it is in neither list.
fn find(held: &[Auto], more: &[Auto], index: &Index, key: u64, auto: &Auto) -> Option<usize>
    requires key { key ≡ key_of auto.now }
    requires indexed { IsIndexed index.now (held.now ++ more.now) }
    ensures { MatchOption result (IsIn auto.now (held.now ++ more.now) → ⊥)
        (λ number. IsNumber (held.now ++ more.now) number auto.now) }
{
    match index.get(&key) {
        Some(numbers) => find_in(held, more, numbers.as_slice(), auto),
        None => None,
    }
}

/// The first of the numbers that is that of the automaton.
fn find_in(held: &[Auto], more: &[Auto], numbers: &[usize], auto: &Auto) -> Option<usize>
    ensures { MatchOption result (Every (λ number. IsNumber (held.now ++ more.now) number auto.now → ⊥) numbers.now)
        (λ number. IsNumber (held.now ++ more.now) number auto.now) }
{
    for number in numbers {
        if is_number(held, more, *number, auto) {
            return Some(*number);
        }
    }
    None
}

/// Whether the number is that of the automaton.
fn is_number(held: &[Auto], more: &[Auto], number: usize, auto: &Auto) -> bool
    ensures { IsTrue result ↔ IsNumber (held.now ++ more.now) number auto.now }
{
    match auto_at(held, more, number) {
        Some(other) => are_equal(other, auto),
        None => false,
    }
}

/// The automaton of the number, where there is one.
fn auto_at<'a>(held: &'a [Auto], more: &'a [Auto], number: usize) -> Option<&'a Auto>
    ensures { option_copied result ≡ slice_get (held.now ++ more.now) number }
{
    if number < held.len() {
        held.get(number)
    } else {
        more.get(number - held.len())
    }
}
