// The states to which a tree has a run. What is still to be done for it stands in a list, so that no call goes as deep
// as the tree.

ghost use Rattle.std.specs.Prelude.{◌≡◌, ◌++◌, ◌∷◌, ◌<◌, ◌≤◌, length, map, IfOk, OnOk};
ghost use Rattle.fore_base.specs.Lists.{Every};
ghost use Rattle.ta_core.specs.Tops.{AreStatesOf};
ghost use Rattle.ta_core.specs.inner.Running.{seen, MarksTops};
ghost use Rattle.ta_core.specs.inner.Tasks.{visit, build, Reduces};
ghost use Rattle.ta_core.specs.declared.tree.Tree.{out-Tree};

use crate::accepting::top_states;
use crate::auto::Rule;
use crate::results::last;
use crate::tree::Tree;
use fore_base::list::List;
use fore_base::memory::Mem;
use std::alloc::Global;

/// What is still to be done: the states of a tree, or the same where those of its children are there.
#[derive(Clone, Copy)]
pub enum Task<'a> {
    Visit(&'a Tree),
    Build(&'a Tree),
}

/// The states to which the tree has a run.
pub fn run_states(alloc: Global, rules: &[Rule], states: u32, tree: &Tree) -> Mem<List<bool>>
    requires { Every (λ r. r.state < states) rules.now }
    ensures { IfOk result (AreStatesOf rules.now states tree.now) }
{
    let mut tasks = List::new(alloc);
    tasks.push(Task::Visit(tree))?;
    let mut sets = List::new(alloc);
    'tasks: while let Some(task) = tasks.pop() {
        match task {
            Task::Visit(node) => open(node, &mut tasks)?,
            Task::Build(node) => close(alloc, rules, states, node, &mut sets)?,
        }
    }
    match sets.pop() {
        Some(set) => Ok(set),
        None => unreachable!(),
    }
}

/// Asks for the states of the children, and then for those of the tree.
fn open<'a>(node: &'a Tree, tasks: &mut List<Task<'a>>) -> Mem<()>
    ensures { OnOk result (map seen tasks.new ≡ map seen tasks.old ++ build node.entry.now
        ∷ map visit (out-Tree node.entry.now).children) }
{
    tasks.push(Task::Build(node))?;
    ask(node.children.as_slice(), tasks)
}

/// Asks for the states of each of the trees.
fn ask<'a>(trees: &'a [Tree], tasks: &mut List<Task<'a>>) -> Mem<()>
    ensures { OnOk result (map seen tasks.new ≡ map seen tasks.old ++ map visit trees.entry.now) }
{
    for tree in trees {
        tasks.push(Task::Visit(tree))?;
    }
    Ok(())
}

/// Puts the states of the tree in the place of those of its children, which are the last ones.
fn close(
    alloc: Global,
    rules: &[Rule],
    states: u32,
    node: &Tree,
    sets: &mut List<List<bool>>,
) -> Mem<()>
    requires low { Every (λ r. r.state < states) rules.now }
    requires enough { length (out-Tree node.now).children ≤ length sets.old }
    ensures { OnOk result
        (Reduces (length (out-Tree node.now).children) (MarksTops rules.now states node.now) sets.old sets.new) }
{
    let parts = last(alloc, sets, node.children.len())?;
    let set = top_states(alloc, rules, states, &node.symbol, &parts)?;
    sets.push(set)
}
