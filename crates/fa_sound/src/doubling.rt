// Whether box edges of some tree give a field to a root twice, seen while one tree of each state is learnt.

ghost use Rattle.std.specs.Prelude.{◌≡◌, ◌↔◌, ◌<◌, true, false, length, IsTrue, IfOk};
ghost use Rattle.fore_base.specs.Lists.{IsIn, Every};
ghost use Rattle.ta_core.specs.Auto.{Automaton};
ghost use Rattle.fa_sound.specs.inner.Doubled.{twice_from, has_twice, HasDoubled, GivesTwice, SpeaksOfDoubled};
ghost use Rattle.fa_sound.specs.inner.Learnt.{AreWitnessed};

use crate::entries::no_entries;
use crate::fitting::have_no_boxes;
use crate::learning::learn_rule;
use crate::signing::marks_at;
use fa_core::faces::BoxFace;
use fa_core::signature::{Below, RefMark};
use fore_base::list::List;
use fore_base::memory::Mem;
use std::alloc::Global;
use ta_core::auto::{Auto, Rule};
use ta_core::rounds::{Taker, take_all};
use ta_core::trimming::trim;

/// Whether each automaton's trees give each field to each root once, as far as is seen: false only where some tree
/// gives one twice. Err is want of memory.
pub fn give_once(alloc: Global, boxes: &[BoxFace], autos: &[Auto]) -> Mem<bool>
    ensures { IfOk result (λ once. once ≡ false → (a : Automaton)
        × IsIn a autos.now
        × GivesTwice boxes.now (length autos.now) a) }
{
    if have_no_boxes(autos) {
        return Ok(true);
    }
    for auto in autos {
        if !gives_once(alloc, boxes, autos.len(), auto)? {
            return Ok(false);
        }
    }
    Ok(true)
}

/// So for one automaton and the roots below the limit. It looks at one tree of each state that takes part in some tree,
/// and ends at the first mark that provides a field twice: what is provided may else double with each state.
fn gives_once(alloc: Global, boxes: &[BoxFace], limit: usize, auto: &Auto) -> Mem<bool>
    ensures { IfOk result (λ once. once ≡ false → GivesTwice boxes.now limit auto.now) }
{
    let part = trim(alloc, auto)?;
    part.known();
    let learnt = learn_once(alloc, boxes, limit, part.states, part.rules.as_slice())?;
    Ok(!learnt.doubled)
}

/// What is known of one tree of each state, and whether one has a mark that provides a field twice.
#[derive(Drop)]
struct Learnt {
    table: List<Option<Below>>,
    doubled: bool,
}

/// What is known of one tree of each state, up to the first that has a mark which provides a field twice.
fn learn_once(
    alloc: Global,
    boxes: &[BoxFace],
    limit: usize,
    states: u32,
    rules: &[Rule],
) -> Mem<Learnt>
    requires { Every (λ r. r.state < states) rules.now }
    ensures { IfOk result (λ learnt. (length learnt.table ≡ states) × AreWitnessed boxes.now rules.now learnt.table
        × (learnt.doubled ≡ true → SpeaksOfDoubled limit learnt.table)) }
{
    let table = no_entries(alloc, states)?;
    let mut learnt = Learnt {
        table,
        doubled: false,
    };
    let learning = LearningOnce {
        alloc,
        boxes,
        limit,
        states,
        rules,
    };
    take_all(&learning, rules, &mut learnt)?;
    Ok(learnt)
}

/// What learns of one tree of each state by the rules, up to the first mark that provides a field twice.
#[derive(Clone, Copy)]
struct LearningOnce<'a> {
    alloc: Global,
    boxes: &'a [BoxFace],
    limit: usize,
    states: u32,
    rules: &'a [Rule],
}

impl Taker<Learnt, Rule> for LearningOnce<'_> {
    ghost use Rattle.std.specs.Prelude.{◌≡◌, ◌<◌, true, length};
    ghost use Rattle.fore_base.specs.Lists.{IsIn};
    ghost use Rattle.fa_sound.specs.inner.Doubled.{SpeaksOfDoubled};
    ghost use Rattle.fa_sound.specs.inner.Learnt.{AreWitnessed, unknown};

    ghost accepts = { λ l rule. IsIn rule l.rules.now × (rule.state < l.states) };

    ghost keeps = { λ l learnt. (length learnt.table ≡ l.states)
        × AreWitnessed l.boxes.now l.rules.now learnt.table
        × (learnt.doubled ≡ true → SpeaksOfDoubled l.limit learnt.table) };

    ghost is_taken = { λ l learnt rule. Unit {0} };

    ghost left = { λ l learnt. unknown learnt.table };

    fn take(&self, learnt: &mut Learnt, rule: &Rule) -> Mem<bool> {
        if learnt.doubled {
            return Ok(false);
        }
        if !learn_rule(self.alloc, self.boxes, &mut learnt.table, rule)? {
            return Ok(false);
        }
        learnt.doubled = is_doubled_at(self.limit, learnt.table.as_slice(), rule.state);
        Ok(true)
    }
}

/// Whether the tree of which the table speaks at the state has a mark that provides a field twice.
fn is_doubled_at(limit: usize, table: &[Option<Below>], state: u32) -> bool
    ensures { IsTrue result → SpeaksOfDoubled limit table.now }
{
    has_doubled(limit, marks_at(table, state))
}

/// Whether the mark of a root below the limit provides a field twice.
fn has_doubled(limit: usize, marks: &[RefMark]) -> bool
    ensures { IsTrue result → HasDoubled limit marks.now }
{
    for mark in marks {
        if is_doubled(limit, mark) {
            return true;
        }
    }
    false
}

fn is_doubled(limit: usize, mark: &RefMark) -> bool
    ensures { IsTrue result ↔ ((mark.now.root < limit) × (has_twice mark.now.provided ≡ true)) }
{
    (mark.root as usize) < limit && has_twice(mark.provided.as_slice())
}

/// Whether some number stands twice, one next to the other.
fn has_twice(numbers: &[u32]) -> bool
    ensures { result ≡ has_twice numbers.now }
{
    match numbers.split_first() {
        Some((first, rest)) => has_twice_from(*first, rest),
        None => false,
    }
}

fn has_twice_from(first: u32, rest: &[u32]) -> bool
    ensures { result ≡ twice_from first rest.now }
{
    let mut last = first;
    for number in rest {
        if last == *number {
            return true;
        }
        last = *number;
    }
    false
}
