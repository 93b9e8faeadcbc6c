// Whether a phase is worth threads.
ghost use Rattle.par_kit.specs.Crews.{IsJobs};

use fa_core::forest::Forest;
use par_kit::crew::Crew;
use par_kit::gate::Gate;

/// How many rules the forests of a round have at least, one with another, where threads are begun for it. What is made
/// of a forest takes some 0.02 milliseconds for each rule; a thread takes 0.03 until it runs and is waited for, on a
/// machine that has a processor for it, and many times that on one that has not, and it begins with nothing in its
/// caches. Forests of fewer rules are done sooner on one thread.
pub const NODE_RULES: usize = 12;

/// How many rules a forest has at least where threads are begun to ask several nodes at once whether they cover it.
/// Most of what is asked of two forests is known from the numbers of their components, so the limit is high; it was
/// chosen, and not measured.
pub const COVERING_RULES: usize = 1000;

/// The crew for a phase over forests of so many rules in all: one job of it where these are fewer than the least for
/// which threads are begun.
pub fn crew_for<'g, G: Gate>(crew: &Crew<'g, G>, rules: usize, least: usize) -> Crew<'g, G>
    requires { IsJobs crew.now.jobs }
    ensures { IsJobs result.jobs }
{
    let jobs = if rules < least { 1 } else { crew.jobs };
    Crew {
        jobs,
        gate: crew.gate,
    }
}

/// How many rules the forest has, or as many as can be counted.
pub fn rules_of(forest: &Forest) -> usize {
    let mut rules = 0usize;
    for auto in forest.autos.as_slice() {
        rules = rules.saturating_add(auto.rules.len());
    }
    rules
}
