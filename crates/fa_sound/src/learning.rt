// For each state what is known of one tree that has a run to it: found from the leaves upward.

ghost use Rattle.std.specs.Prelude.{◌≡◌, ◌<◌, length, map, IfOk};
ghost use Rattle.std.specs.Option.{option_copied};
ghost use Rattle.fore_base.specs.Lists.{Every};
ghost use Rattle.fa_sound.specs.inner.Learnt.{below_at, marks_at, Learns, IsLearnt};
ghost use Rattle.fa_sound.specs.inner.Learnt.{with_leaf, kind, shows, flag_rule, flagged};

use crate::entries::{are_known, entry_at, is_known, no_entries};
use fa_core::cells::{is_leaf, marks_by};
use fa_core::faces::BoxFace;
use fa_core::signature::{Below, RefMark};
use fore_base::list::{Copies, List};
use fore_base::memory::Mem;
use std::alloc::{AllocError, Global};
use ta_core::auto::Rule;
use ta_core::rounds::{Taker, take_all};

/// For each state that has a tree what is known of one of them. Err is want of memory.
pub fn learn(
    alloc: Global,
    boxes: &[BoxFace],
    states: u32,
    rules: &[Rule],
) -> Mem<List<Option<Below>>>
    requires { Every (λ r. r.state < states) rules.now }
    ensures { IfOk result (IsLearnt boxes.now states rules.now) }
{
    let mut table = no_entries(alloc, states)?;
    let learning = Learning {
        alloc,
        boxes,
        states,
        rules,
    };
    take_all(&learning, rules, &mut table)?;
    Ok(table)
}

/// What learns of one tree of each state by the rules.
#[derive(Clone, Copy)]
struct Learning<'a> {
    alloc: Global,
    boxes: &'a [BoxFace],
    states: u32,
    rules: &'a [Rule],
}

impl Taker<List<Option<Below>>, Rule> for Learning<'_> {
    ghost use Rattle.std.specs.Prelude.{◌≡◌, ◌<◌, length};
    ghost use Rattle.fore_base.specs.Lists.{IsIn};
    ghost use Rattle.fa_sound.specs.Entries.{IsKnown};
    ghost use Rattle.fa_sound.specs.inner.Learnt.{AreWitnessed, unknown};

    ghost accepts = { λ l rule. IsIn rule l.rules.now × (rule.state < l.states) };

    ghost keeps = { λ l table. (length table ≡ l.states) × AreWitnessed l.boxes.now l.rules.now table };

    ghost is_taken = { λ l table rule. IsKnown table rule };

    ghost left = { λ l table. unknown table };

    fn take(&self, table: &mut List<Option<Below>>, rule: &Rule) -> Mem<bool> {
        let added = learn_rule(self.alloc, self.boxes, table, rule)?;
        Ok(added)
    }
}

/// Writes what is known of a tree by the rule, if all its children are known and its state is not, and says whether it
/// did.
pub fn learn_rule(
    alloc: Global,
    boxes: &[BoxFace],
    table: &mut List<Option<Below>>,
    rule: &Rule,
) -> Mem<bool>
    requires { rule.now.state < length table.old }
    ensures { IfOk result (λ added. Learns boxes.now rule.now table.old table.new added) }
{
    if is_known(table.as_slice(), rule.state)
        || !are_known(table.as_slice(), rule.children.as_slice())
    {
        return Ok(false);
    }
    let marks = rule_marks(alloc, boxes, table.as_slice(), rule)?;
    let leaf = is_leaf(&rule.symbol);
    table.set(rule.state as usize, Some(Below { leaf, marks }));
    Ok(true)
}

/// The signature of a tree by the rule, over trees of which the table speaks.
pub fn rule_marks(
    alloc: Global,
    boxes: &[BoxFace],
    table: &[Option<Below>],
    rule: &Rule,
) -> Mem<List<RefMark>>
    ensures { IfOk result (λ marks. marks ≡ marks_at boxes.now table.now rule.now) }
{
    let belows = belows_at(alloc, table, rule.children.as_slice())?;
    if !are_small(belows.as_slice()) {
        return Err(AllocError);
    }
    marks_by(alloc, boxes, &rule.symbol, belows.as_slice())
}

/// Whether no mark provides more fields than a struct could have: one that does is in no tree of a sound forest, and
/// those of states of no accepted tree could double with each state.
fn are_small(belows: &[Below]) -> bool {
    for below in belows {
        for mark in below.marks.as_slice() {
            if mark.provided.len() > 1024 {
                return false;
            }
        }
    }
    true
}

fn belows_at(alloc: Global, table: &[Option<Below>], states: &[u32]) -> Mem<List<Below>>
    ensures { IfOk result (λ belows. belows ≡ map (below_at table.now) states.now) }
{
    let mut belows = List::new(alloc);
    for state in states {
        let below = below_at(alloc, table, *state)?;
        belows.push(below)?;
    }
    Ok(belows)
}

fn below_at(alloc: Global, table: &[Option<Below>], state: u32) -> Mem<Below>
    ensures { IfOk result (λ below. below ≡ below_at table.now state) }
{
    match entry_at(table, state) {
        Some(below) => below.copy(alloc),
        None => Ok(Below {
            leaf: true,
            marks: List::new(alloc),
        }),
    }
}

/// The table in which each state that has a rule of a leaf, or of a cell, over children that are known, is said to have
/// that. Err is want of memory.
pub fn flagged(
    alloc: Global,
    leaf: bool,
    table: &[Option<Below>],
    rules: &[Rule],
) -> Mem<List<Option<Below>>>
    requires { Every (λ r. r.state < length table.now) rules.now }
    ensures { IfOk result (λ made. made ≡ flagged leaf rules.now table.now) }
{
    let mut made = same_entries(alloc, table)?;
    for rule in rules {
        flag_rule(alloc, leaf, &mut made, rule)?;
    }
    Ok(made)
}

fn same_entries(alloc: Global, table: &[Option<Below>]) -> Mem<List<Option<Below>>>
    ensures { IfOk result (λ made. made ≡ table.now) }
{
    let mut made = List::new(alloc);
    for found in table {
        let entry = match found {
            Some(below) => Some(below.copy(alloc)?),
            None => None,
        };
        made.push(entry)?;
    }
    Ok(made)
}

fn flag_rule(alloc: Global, leaf: bool, table: &mut List<Option<Below>>, rule: &Rule) -> Mem<()>
    requires { rule.now.state < length table.old }
    ensures { IfOk result (λ _. table.new ≡ flag_rule leaf table.old rule.now) }
{
    if shows(leaf, table.as_slice(), rule) {
        let entry = entry_with(alloc, leaf, entry_at(table.as_slice(), rule.state))?;
        table.set(rule.state as usize, entry);
    }
    Ok(())
}

/// Whether the rule has a leaf, or a cell, as wanted, and children that are known.
fn shows(wanted: bool, table: &[Option<Below>], rule: &Rule) -> bool
    ensures { result ≡ shows wanted table.now rule.now }
{
    is_kind(wanted, is_leaf(&rule.symbol)) && are_known(table, rule.children.as_slice())
}

fn is_kind(wanted: bool, leaf: bool) -> bool
    ensures { result ≡ kind wanted leaf }
{
    if wanted { leaf } else { !leaf }
}

fn entry_with(alloc: Global, leaf: bool, found: Option<&Below>) -> Mem<Option<Below>>
    ensures { IfOk result (λ made. made ≡ with_leaf leaf (option_copied found.entry)) }
{
    match found {
        Some(below) => {
            let marks = below.marks.copy(alloc)?;
            Ok(Some(Below { leaf, marks }))
        }
        None => Ok(None),
    }
}
