// The tree by which a pair was found. What is still to be done for it stands in a list, so that no call goes as deep as
// the tree.

ghost use Rattle.std.specs.Prelude.{◌≡◌, ◌++◌, ◌<◌, ◌≤◌, Some, slice_get, length, map, IfOk, OnOk};
ghost use Rattle.ta_core.specs.Auto.{Automaton};
ghost use Rattle.ta_core.specs.inner.Tasks.{visit};
ghost use Rattle.ta_incl.specs.inner.Founds.{AreDerived, IsTreeAt};
ghost use Rattle.ta_incl.specs.inner.Tasks.{seen, Opens, Closes};

use crate::found::Found;
use fore_base::list::{Copies, List};
use fore_base::memory::Mem;
use std::alloc::Global;
use ta_core::auto::Rule;
use ta_core::results::last;
use ta_core::tree::Tree;

/// What is still to be done: the tree of the pair at this place, or the same where the trees of its children are made.
#[derive(Clone, Copy)]
enum Task {
    Open(usize),
    Close(usize),
}

/// The tree by which the pair at this place was found.
pub fn tree_at(alloc: Global, rules: &List<Rule>, found: &[Found], place: usize) -> Mem<Tree>
    requires there { place < length found.now }
    requires derived { (b : Automaton) × AreDerived rules.now b found.now }
    ensures { IfOk result (λ t. (b : Automaton) → AreDerived rules.now b found.now
        → IsTreeAt rules.now b found.now place t) }
{
    let mut tasks = List::new(alloc);
    tasks.push(Task::Open(place))?;
    let mut trees = List::new(alloc);
    'tasks: while let Some(task) = tasks.pop() {
        match task {
            Task::Open(next) => open(found, next, &mut tasks)?,
            Task::Close(next) => close(alloc, rules, found, next, &mut trees)?,
        }
    }
    match trees.pop() {
        Some(tree) => Ok(tree),
        None => unreachable!(),
    }
}

/// Asks for the trees of the pair's children, and then for its own.
fn open(found: &[Found], place: usize, tasks: &mut List<Task>) -> Mem<()>
    requires { place < length found.now }
    ensures { OnOk result (Opens found.now place (map seen tasks.old) (map seen tasks.new)) }
{
    tasks.push(Task::Close(place))?;
    ask(found[place].from.as_slice(), tasks)
}

/// Asks for the trees of the pairs at these places.
fn ask(places: &[usize], tasks: &mut List<Task>) -> Mem<()>
    ensures { OnOk result (map seen tasks.new ≡ map seen tasks.old ++ map visit places.now) }
{
    for place in places {
        tasks.push(Task::Open(*place))?;
    }
    Ok(())
}

/// Puts the pair's tree in the place of those of its children, which are the last ones.
fn close(
    alloc: Global,
    rules: &List<Rule>,
    found: &[Found],
    place: usize,
    trees: &mut List<Tree>,
) -> Mem<()>
    requires there { place < length found.now }
    requires rule { (f : Found) → slice_get found.now place ≡ Some f → f.rule < length rules.now }
    requires enough { (f : Found) → slice_get found.now place ≡ Some f → length f.from ≤ length trees.old }
    ensures { OnOk result (Closes rules.now found.now place trees.old trees.new) }
{
    let pair = &found[place];
    let children = last(alloc, trees, pair.from.len())?;
    let symbol = rules.at(pair.rule).symbol.copy(alloc)?;
    trees.push(Tree { symbol, children })
}
