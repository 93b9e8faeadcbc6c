// For each state the least number of nodes of a tree that has a run to it, as far as 64 bits count.

ghost use Rattle.std.specs.Prelude.{◌≡◌, ◌<◌, length, None, replicate, IfOk};
ghost use Rattle.fore_base.specs.Lists.{Every};
ghost use Rattle.ta_core.specs.inner.Sizes.{size_at, plus, rule_size, is_less, AreLeast, Improves};

use crate::auto::Rule;
use crate::rounds::{Taker, take_all};
use fore_base::list::List;
use fore_base::memory::Mem;
use std::alloc::Global;

/// For each state the least size of a tree with a run to it, None where there is none of fewer than 2 ^ 64 nodes.
pub fn least_sizes(alloc: Global, states: u32, rules: &[Rule]) -> Mem<List<Option<u64>>>
    requires { Every (λ r. r.state < states) rules.now }
    ensures { IfOk result (AreLeast rules.now) }
{
    let mut sizes = no_sizes(alloc, states)?;
    let improving = Improving { states, rules };
    take_all(&improving, rules, &mut sizes)?;
    Ok(sizes)
}

/// What finds smaller trees by the rules.
#[derive(Clone, Copy)]
struct Improving<'a> {
    states: u32,
    rules: &'a [Rule],
}

impl Taker<List<Option<u64>>, Rule> for Improving<'_> {
    ghost use Rattle.std.specs.Prelude.{◌≡◌, ◌<◌, length};
    ghost use Rattle.fore_base.specs.Lists.{IsIn};
    ghost use Rattle.ta_core.specs.inner.Sizes.{AreReal, IsSettled, size_sum};

    ghost accepts = { λ i r. IsIn r i.rules.now × (r.state < i.states) };

    ghost keeps = { λ i sizes. (length sizes ≡ i.states) × AreReal i.rules.now sizes };

    ghost is_taken = { λ i sizes r. IsSettled sizes r };

    ghost left = { λ i sizes. size_sum sizes };

    fn take(&self, sizes: &mut List<Option<u64>>, rule: &Rule) -> Mem<bool> {
        Ok(improve(sizes, rule))
    }
}

fn no_sizes(alloc: Global, states: u32) -> Mem<List<Option<u64>>>
    ensures { IfOk result (λ sizes. sizes ≡ replicate states None) }
{
    let sizes = vec![in alloc; None; states as usize]?;
    Ok(List::from_vec(sizes))
}

/// Writes the size of the rule's least tree at its state, if it is smaller, and says whether it is.
fn improve(sizes: &mut List<Option<u64>>, rule: &Rule) -> bool
    requires { rule.now.state < length sizes.old }
    ensures { Improves rule.now sizes.old sizes.new result }
{
    let size = size_of_rule(sizes.as_slice(), rule);
    let old = size_of(sizes.as_slice(), rule.state);
    if !less(size, old) {
        return false;
    }
    sizes.set(rule.state as usize, size);
    true
}

/// The size of the rule's least tree, by the sizes of its children.
pub fn size_of_rule(sizes: &[Option<u64>], rule: &Rule) -> Option<u64>
    ensures { result ≡ rule_size sizes.now rule.now }
{
    let mut size = Some(1);
    for child in rule.children.as_slice() {
        size = sum(size, size_of(sizes, *child));
    }
    size
}

/// The size at a state, None where the table has none.
pub fn size_of(sizes: &[Option<u64>], state: u32) -> Option<u64>
    ensures { result ≡ size_at sizes.now state }
{
    match sizes.get(state as usize) {
        Some(size) => *size,
        None => None,
    }
}

fn sum(left: Option<u64>, right: Option<u64>) -> Option<u64>
    ensures { result ≡ plus left right }
{
    match left {
        None => None,
        Some(first) => match right {
            None => None,
            Some(second) => first.checked_add(second),
        },
    }
}

/// Whether `left` is there, and `right` is not or is greater.
pub fn less(left: Option<u64>, right: Option<u64>) -> bool
    ensures { result ≡ is_less left right }
{
    match left {
        None => false,
        Some(first) => match right {
            None => true,
            Some(second) => first < second,
        },
    }
}
