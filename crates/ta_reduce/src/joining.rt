// States that simulate each other joined to one.

ghost use Rattle.std.specs.Prelude.{◌≡◌, ◌≤◌, length, slice_index, IfOk};
ghost use Rattle.ta_core.specs.Renumbered.{image};
ghost use Rattle.ta_classes.specs.Classes.{AreClasses};
ghost use Rattle.ta_reduce.specs.inner.Reduction.{AreMutual};

use fore_base::memory::Mem;
use std::alloc::Global;
use ta_classes::Classes;
use ta_core::auto::Auto;
use ta_core::renumbering::renumber;
use ta_sim::relation::Relation;

/// The automaton in which each class of states is one.
///
/// # Errors
///
/// Want of memory.
pub fn join(alloc: Global, auto: &Auto, _relation: &Relation, classes: &Classes) -> Mem<Auto>
    requires { AreClasses (AreMutual _relation.now) auto.now.states classes.now.numbers classes.now.firsts }
    ensures { IfOk result
        (λ made. made ≡ image (length classes.now.firsts) (λ q. slice_index classes.now.numbers q) auto.now) }
{
    let states = number_of(classes.firsts.as_slice(), auto.states);
    renumber(alloc, auto, classes.numbers.as_slice(), states)
}

/// How many classes there are, which are no more than the states.
fn number_of(firsts: &[u32], _states: u32) -> u32
    requires { length firsts.now ≤ _states }
    ensures { result ≡ length firsts.now }
{
    firsts.len() as u32
}
