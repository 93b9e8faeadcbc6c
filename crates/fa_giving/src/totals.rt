// How often the trees of all components together give a field at a root: choices are independent of each other, so the
// extremes add up.

ghost use Rattle.std.specs.Prelude.{◌≡◌, IfOk};
ghost use Rattle.fore_base.specs.Lists.{Every, Paired};
ghost use Rattle.ta_core.specs.Language.{IsTrim};
ghost use Rattle.fa_core.specs.Filled.{HasSome};
ghost use Rattle.fa_giving.specs.inner.Totals.{AreExtremes, extremes_of, none_given};
ghost use Rattle.fa_giving.specs.inner.Totals.{added, total, worth_of, names_root};
ghost use Rattle.fa_giving.specs.inner.Worths.{refers, nothing};

use crate::worths::{Worth, joined, most_below, none_below, nothing, sum, worth_at, worths};
use fa_core::faces::BoxFace;
use fore_base::list::{Copies, List};
use fore_base::memory::Mem;
use std::alloc::{AllocError, Global};
use ta_core::auto::{Auto, Rule};
use ta_core::symbol::Symbol;

/// How often trees give a field at a root: at most so often, counted up to 2, and whether one never does.
#[derive(Clone, Copy)]
pub struct Extremes {
    pub most: u32,
    pub none: bool,
}

/// How often the trees of the components give a field at a root: none does, since no box gives the field, or each as
/// this list says.
#[derive(Drop)]
pub enum Given {
    Nothing,
    Each(List<Extremes>),
}

impl Copies for Extremes {
    fn copy(&self, _alloc: Global) -> Result<Extremes, AllocError> {
        Ok(*self)
    }
}

/// For each component how often its trees give the field at the root. Err is want of memory.
pub fn extremes_each(
    alloc: Global,
    boxes: &[BoxFace],
    autos: &[Auto],
    root: u32,
    field: u32,
) -> Mem<List<Extremes>>
    requires trim { Every IsTrim autos.now }
    requires full { Every HasSome autos.now }
    ensures { IfOk result (Paired (AreExtremes boxes.now root field) autos.now) }
{
    let mut all = List::new(alloc);
    for auto in autos {
        let own = own_extremes(alloc, boxes, auto, root, field)?;
        all.push(own)?;
    }
    Ok(all)
}

fn own_extremes(
    alloc: Global,
    boxes: &[BoxFace],
    auto: &Auto,
    root: u32,
    field: u32,
) -> Mem<Extremes>
    requires trim { IsTrim auto.now }
    requires full { HasSome auto.now }
    ensures { IfOk result (AreExtremes boxes.now root field auto.now) }
{
    auto.known();
    if !names_root(auto.rules.as_slice(), root) {
        return Ok(none_given());
    }
    let table = worths(alloc, boxes, auto, root, field)?;
    let worth = worth_of(table.as_slice(), auto.roots.as_slice());
    Ok(extremes_of(worth))
}

/// Whether some rule is the reference to the root.
fn names_root(rules: &[Rule], root: u32) -> bool
    ensures { result ≡ names_root root rules.now }
{
    for rule in rules {
        if refers(root, &rule.symbol) {
            return true;
        }
    }
    false
}

fn refers(root: u32, symbol: &Symbol) -> bool
    ensures { result ≡ refers root symbol.now }
{
    match symbol {
        Symbol::Ref(number) => root == *number,
        _ => false,
    }
}

/// What the trees of the states give.
fn worth_of(table: &[Worth], states: &[u32]) -> Worth
    ensures { result ≡ worth_of table.now nothing states.now }
{
    let mut worth = nothing();
    for state in states {
        worth = joined(worth, worth_at(table, *state));
    }
    worth
}

pub fn extremes_of(worth: Worth) -> Extremes
    ensures { result ≡ extremes_of worth }
{
    Extremes {
        most: most_below(0, worth),
        none: none_below(0, worth),
    }
}

pub fn none_given() -> Extremes
    ensures { result ≡ none_given }
{
    Extremes {
        most: 0,
        none: true,
    }
}

pub fn added(left: Extremes, right: Extremes) -> Extremes
    ensures { result ≡ added left right }
{
    Extremes {
        most: sum(left.most, right.most),
        none: left.none && right.none,
    }
}

/// All together.
pub fn total(all: &[Extremes]) -> Extremes
    ensures { result ≡ total none_given all.now }
{
    let mut sum = none_given();
    for own in all {
        sum = added(sum, *own);
    }
    sum
}
