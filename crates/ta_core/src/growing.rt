// The tree of the size at a state. What is still to be done for it stands in a list, so that no call goes as deep as
// the tree.

ghost use Rattle.std.specs.Prelude.{◌≡◌, ◌++◌, ◌≤◌, length, map, IfOk, IsSome, MatchOption, OnOk, IsTrue, ◌↔◌};
ghost use Rattle.fore_base.specs.Lists.{IsIn, Every};
ghost use Rattle.ta_core.specs.inner.Growing.{seen, Asks, IsTreeOf};
ghost use Rattle.ta_core.specs.inner.Sizes.{size_at, AreLeast, IsLeastRule, IsTreeAt};
ghost use Rattle.ta_core.specs.inner.Tasks.{visit, Reduces};

use crate::auto::Rule;
use crate::results::last;
use crate::sizes::{size_of, size_of_rule};
use crate::tree::Tree;
use fore_base::list::{Copies, List};
use fore_base::memory::Mem;
use std::alloc::Global;

/// What is still to be done: the tree at a state, or the tree of a rule where those of its children are made.
#[derive(Clone, Copy)]
pub enum Task<'a> {
    Visit(u32),
    Build(&'a Rule),
}

/// A tree of the size at the state, with a run to it.
pub fn tree_at(alloc: Global, rules: &[Rule], sizes: &[Option<u64>], state: u32) -> Mem<Tree>
    requires least { AreLeast rules.now sizes.now }
    requires there { IsSome (size_at sizes.now state) }
    ensures { IfOk result (IsTreeAt rules.now sizes.now state) }
{
    let mut tasks = List::new(alloc);
    tasks.push(Task::Visit(state))?;
    let mut trees = List::new(alloc);
    'tasks: while let Some(task) = tasks.pop() {
        match task {
            Task::Visit(next) => open(rules, sizes, next, &mut tasks)?,
            Task::Build(rule) => close(alloc, rule, &mut trees)?,
        }
    }
    match trees.pop() {
        Some(tree) => Ok(tree),
        None => unreachable!(),
    }
}

/// Asks for the trees of the children of the state's least rule, and then for its own.
fn open<'a>(
    rules: &'a [Rule],
    sizes: &[Option<u64>],
    state: u32,
    tasks: &mut List<Task<'a>>,
) -> Mem<()>
    requires least { AreLeast rules.now sizes.now }
    requires there { IsSome (size_at sizes.now state) }
    ensures { OnOk result (Asks rules.entry.now sizes.now state (map seen tasks.old) (map seen tasks.new)) }
{
    match least_rule(rules, sizes, state) {
        Some(rule) => {
            tasks.push(Task::Build(rule))?;
            ask(rule.children.as_slice(), tasks)
        }
        None => unreachable!(),
    }
}

/// Asks for the trees at the states.
fn ask(states: &[u32], tasks: &mut List<Task<'_>>) -> Mem<()>
    ensures { OnOk result (map seen tasks.new ≡ map seen tasks.old ++ map visit states.now) }
{
    for state in states {
        tasks.push(Task::Visit(*state))?;
    }
    Ok(())
}

/// Puts the tree of the rule in the place of those of its children, which are the last ones.
fn close(alloc: Global, rule: &Rule, trees: &mut List<Tree>) -> Mem<()>
    requires { length rule.now.children ≤ length trees.old }
    ensures { OnOk result (Reduces (length rule.now.children) (IsTreeOf rule.now) trees.old trees.new) }
{
    let children = last(alloc, trees, rule.children.len())?;
    let symbol = rule.symbol.copy(alloc)?;
    trees.push(Tree { symbol, children })
}

/// The first rule that gives a tree of the size at the state.
fn least_rule<'a>(rules: &'a [Rule], sizes: &[Option<u64>], state: u32) -> Option<&'a Rule>
    ensures { MatchOption result (Every (λ r. IsLeastRule sizes.now state r → ⊥) rules.entry.now)
        (λ r. IsIn r.now rules.entry.now × IsLeastRule sizes.now state r.now) }
{
    for rule in rules {
        if is_least(sizes, state, rule) {
            return Some(rule);
        }
    }
    None
}

fn is_least(sizes: &[Option<u64>], state: u32, rule: &Rule) -> bool
    ensures { IsTrue result ↔ IsLeastRule sizes.now state rule.now }
{
    rule.state == state && size_of_rule(sizes, rule) == size_of(sizes, state)
}
