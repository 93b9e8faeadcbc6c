// The components of kept forests compared, with answers that are remembered.

ghost use Rattle.std.specs.Prelude.{◌≡◌, ◌↔◌, ◌<◌, List, length, IsTrue, IfOk, MatchOption};
ghost use Rattle.fore_base.specs.Lists.{IsIn, Every, Paired};
ghost use Rattle.ta_core.specs.Auto.{Automaton};
ghost use Rattle.fa_pool.specs.Pools.{IsKeptIn};
ghost use Rattle.fa_kept.specs.Memos.{IsWithinAt, IsRight, Agrees};
ghost use Rattle.fa_kept.specs.inner.Asking.{AreRight, found_is};
ghost use Rattle.fa_kept.specs.inner.Within.{CoversByNumbers};

use crate::asking::Found;
use crate::memo::Memo;
use fa_core::forest::{are_same_data, are_same_targets};
use fa_pool::{Kept, Pool};
use fore_base::list::List;
use fore_base::memory::Mem;
use std::alloc::Global;
use std::slice::from_ref;

/// Whether the one kept forest covers the other: targets, data and the number of parts are compared first, and then
/// languages, of which what the memo does not know is asked. Err is want of memory.
pub fn is_covered(
    alloc: Global,
    pool: &Pool,
    memo: &Memo,
    found: &mut List<Found>,
    wide: &Kept,
    narrow: &Kept,
) -> Mem<bool>
    requires agrees { Agrees memo.now pool.now }
    requires found { AreRight pool.now found.old }
    requires wide { IsKeptIn pool.now wide.now }
    requires narrow { IsKeptIn pool.now narrow.now }
    ensures found { AreRight pool.now found.new }
    ensures exact { IfOk result (λ yes. IsTrue yes ↔ CoversByNumbers pool.now wide.now narrow.now) }
{
    if !look_alike(wide, narrow) {
        return Ok(false);
    }
    are_within(
        alloc,
        pool,
        memo,
        found,
        narrow.parts.as_slice(),
        wide.parts.as_slice(),
    )
}

/// The same as far as it is known, and nothing is asked: None where the memo lacks the answer for a pair of parts, the
/// pairs before which are within each other.
pub fn known_cover(memo: &Memo, wide: &Kept, narrow: &Kept) -> Option<bool>
    ensures { (pool : List Automaton) → Agrees memo.now pool → IsKeptIn pool wide.now → IsKeptIn pool narrow.now
        → MatchOption result (Unit {0}) (λ yes. IsTrue yes ↔ CoversByNumbers pool wide.now narrow.now) }
{
    if look_alike(wide, narrow) {
        are_known(memo, narrow.parts.as_slice(), wide.parts.as_slice())
    } else {
        Some(false)
    }
}

/// Whether the kept forests have the same targets and data, and as many parts.
fn look_alike(wide: &Kept, narrow: &Kept) -> bool
    ensures { IsTrue result ↔ (narrow.now.vars ≡ wide.now.vars) × (narrow.now.data_vars ≡ wide.now.data_vars)
        × (length narrow.now.parts ≡ length wide.now.parts) }
{
    are_same_targets(narrow.vars.as_slice(), wide.vars.as_slice())
        && are_same_data(narrow.data_vars.as_slice(), wide.data_vars.as_slice())
        && narrow.parts.len() == wide.parts.len()
}

/// Whether the language of each automaton is within that in its place. Err is want of memory.
fn are_within(
    alloc: Global,
    pool: &Pool,
    memo: &Memo,
    found: &mut List<Found>,
    narrow: &[usize],
    wide: &[usize],
) -> Mem<bool>
    requires agrees { Agrees memo.now pool.now }
    requires found { AreRight pool.now found.old }
    requires narrow { Every (λ n. n < length pool.now) narrow.now }
    requires wide { Every (λ n. n < length pool.now) wide.now }
    requires long { length narrow.now ≡ length wide.now }
    ensures found { AreRight pool.now found.new }
    ensures exact { IfOk result (λ yes. IsTrue yes ↔ Paired (IsWithinAt pool.now) narrow.now wide.now) }
{
    for place in 0..narrow.len() {
        if !is_within(alloc, pool, memo, found, narrow[place], wide[place])? {
            return Ok(false);
        }
    }
    Ok(true)
}

/// The same as far as it is known.
fn are_known(memo: &Memo, narrow: &[usize], wide: &[usize]) -> Option<bool>
    requires { length narrow.now ≡ length wide.now }
    ensures { (pool : List Automaton) → Agrees memo.now pool
        → Every (λ n. n < length pool) narrow.now
        → MatchOption result (Unit {0}) (λ yes. IsTrue yes ↔ Paired (IsWithinAt pool) narrow.now wide.now) }
{
    for place in 0..narrow.len() {
        match known_within(memo, narrow[place], wide[place]) {
            None => return None,
            Some(false) => return Some(false),
            Some(true) => {}
        }
    }
    Some(true)
}

/// Whether the language of the one automaton is within that of the other. What is known is not asked, and what is
/// asked is found. Err is want of memory.
fn is_within(
    alloc: Global,
    pool: &Pool,
    memo: &Memo,
    found: &mut List<Found>,
    narrow: usize,
    wide: usize,
) -> Mem<bool>
    requires agrees { Agrees memo.now pool.now }
    requires found { AreRight pool.now found.old }
    requires narrow { narrow < length pool.now }
    requires wide { wide < length pool.now }
    ensures found { AreRight pool.now found.new }
    ensures right { IfOk result (IsRight pool.now narrow wide) }
{
    match known_within(memo, narrow, wide) {
        Some(yes) => Ok(yes),
        None => ask_once(alloc, pool, found, narrow, wide),
    }
}

/// The same as far as it is known: where both are one it is, and else as the memo answers.
fn known_within(memo: &Memo, narrow: usize, wide: usize) -> Option<bool>
    ensures { (pool : List Automaton) → Agrees memo.now pool → narrow < length pool
        → MatchOption result (Unit {0}) (IsRight pool narrow wide) }
{
    if narrow == wide {
        return Some(true);
    }
    memo.answer(narrow, wide)
}

/// Asks, unless it was found. Err is want of memory.
fn ask_once(
    alloc: Global,
    pool: &Pool,
    found: &mut List<Found>,
    narrow: usize,
    wide: usize,
) -> Mem<bool>
    requires found { AreRight pool.now found.old }
    requires narrow { narrow < length pool.now }
    requires wide { wide < length pool.now }
    ensures found { AreRight pool.now found.new }
    ensures right { IfOk result (IsRight pool.now narrow wide) }
{
    match found_within(found.as_slice(), narrow, wide) {
        Some(yes) => Ok(yes),
        None => ask_newly(alloc, pool, found, narrow, wide),
    }
}

/// What was found for the two numbers, if anything was.
fn found_within(found: &[Found], narrow: usize, wide: usize) -> Option<bool>
    ensures { MatchOption result (Unit {0}) (λ yes. IsIn (found_is narrow wide yes) found.now) }
{
    for one in found {
        if is_for(one, narrow, wide) {
            return Some(one.within);
        }
    }
    None
}

/// Whether it is an answer for the two numbers.
fn is_for(one: &Found, narrow: usize, wide: usize) -> bool
    ensures { IsTrue result ↔ (one.now.narrow ≡ narrow) × (one.now.wide ≡ wide) }
{
    one.narrow == narrow && one.wide == wide
}

/// Asks, and notes what was found. Err is want of memory.
fn ask_newly(
    alloc: Global,
    pool: &Pool,
    found: &mut List<Found>,
    narrow: usize,
    wide: usize,
) -> Mem<bool>
    requires found { AreRight pool.now found.old }
    requires narrow { narrow < length pool.now }
    requires wide { wide < length pool.now }
    ensures found { AreRight pool.now found.new }
    ensures right { IfOk result (IsRight pool.now narrow wide) }
{
    let within = ask_automata(alloc, pool, narrow, wide)?;
    found.push(Found {
        narrow,
        wide,
        within,
    })?;
    Ok(within)
}

/// The same, asked of the automata: the symbols at the tops of their trees are compared before their languages.
fn ask_automata(alloc: Global, pool: &Pool, narrow: usize, wide: usize) -> Mem<bool>
    requires narrow { narrow < length pool.now }
    requires wide { wide < length pool.now }
    ensures { IfOk result (IsRight pool.now narrow wide) }
{
    fa_cover::are_within(
        alloc,
        from_ref(pool.auto(narrow)),
        from_ref(pool.auto(wide)),
    )
}
