// Classes of states that simulate each other, and the relation on these.

ghost use Rattle.std.specs.Prelude.{◌≡◌, ◌↔◌, slice_index, IsTrue, IfOk};
ghost use Rattle.ta_classes.specs.Classes.{AreClasses};
ghost use Rattle.ta_sim.specs.Relations.{Holds};
ghost use Rattle.ta_reduce.specs.inner.Reduction.{AreMutual, IsAmong, IsPreorder};

use fore_base::memory::Mem;
use std::alloc::Global;
use ta_classes::{Classes, Likeness, classes_of};
use ta_sim::relation::{Relation, entry_at};
use ta_sim::tabling::{Pairs, rows_of};

/// States are alike where they are related both ways.
#[derive(Clone, Copy)]
struct BothWays<'a> {
    relation: &'a Relation,
}

impl Likeness for BothWays<'_> {
    ghost use Rattle.ta_reduce.specs.inner.Reduction.{AreMutual};

    ghost alike = { λ s. AreMutual s.relation.now };

    fn are_alike(&self, left: u32, right: u32) -> bool {
        are_mutual(self.relation, left, right)
    }
}

/// The classes of states that are related both ways.
///
/// # Errors
///
/// Want of memory.
pub fn mutual_classes(alloc: Global, relation: &Relation) -> Mem<Classes>
    requires { IsPreorder relation.now }
    ensures { IfOk result
        (λ made. AreClasses (AreMutual relation.now) relation.now.size made.numbers made.firsts) }
{
    let likeness = BothWays { relation };
    classes_of(alloc, &likeness, relation.size)
}

fn are_mutual(relation: &Relation, left: u32, right: u32) -> bool
    ensures { IsTrue result ↔ AreMutual relation.now left right }
{
    let rows = relation.rows.as_slice();
    entry_at(rows, left, right) && entry_at(rows, right, left)
}

/// Numbers are related where the firsts in these places are.
#[derive(Clone, Copy)]
struct AmongFirsts<'a> {
    relation: &'a Relation,
    firsts: &'a [u32],
}

impl Pairs for AmongFirsts<'_> {
    ghost use Rattle.std.specs.Prelude.{slice_index};
    ghost use Rattle.ta_sim.specs.Relations.{Holds};

    ghost relates = { λ s v w. Holds s.relation.now (slice_index s.firsts.now v) (slice_index s.firsts.now w) };

    fn is_related(&self, left: u32, right: u32) -> bool {
        are_firsts_related(self.relation, self.firsts, left, right)
    }
}

fn are_firsts_related(relation: &Relation, firsts: &[u32], left: u32, right: u32) -> bool
    ensures { IsTrue result ↔ Holds relation.now (slice_index firsts.now left) (slice_index firsts.now right) }
{
    let rows = relation.rows.as_slice();
    entry_at(rows, first_at(firsts, left), first_at(firsts, right))
}

/// The first state of the class, 0 where there is no such class.
fn first_at(firsts: &[u32], class: u32) -> u32
    ensures { result ≡ slice_index firsts.now class }
{
    match firsts.get(class as usize) {
        Some(first) => *first,
        None => 0,
    }
}

/// The relation on the classes, of which there are so many, that there is on their first states.
///
/// # Errors
///
/// Want of memory.
pub fn among_firsts(alloc: Global, relation: &Relation, firsts: &[u32], count: u32) -> Mem<Relation>
    ensures size { IfOk result (λ made. made.size ≡ count) }
    ensures among { IfOk result (IsAmong relation.now firsts.now) }
{
    let among = AmongFirsts { relation, firsts };
    let rows = rows_of(alloc, &among, count)?;
    Ok(Relation { size: count, rows })
}
