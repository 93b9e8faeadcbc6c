// Nodes as they are held: by the numbers of the components of their forests in one pool.

ghost use Rattle.std.specs.Prelude.{◌≡◌, ◌<◌, ◌≤◌, ◌+◌, ◌^◌, [], length, IfOk, OnOk, OnErr, MatchOption};
ghost use Rattle.par_kit.specs.Crews.{IsJobs};
ghost use Rattle.fa_core.specs.declared.faces.Face.{Face};
ghost use Rattle.fa_pool.specs.Pools.{IsKeptIn};
ghost use Rattle.fix_core.specs.Reads.{read};
ghost use Rattle.fix_core.specs.Covered.{CoversOrNot, IsCovered, IsPlaced, NoneCovers};
ghost use Rattle.fix_core.specs.Held.{key_at, nodes_of, IsHeld};
ghost use Rattle.fix_core.specs.inner.Holding.{HasGrown, IsHeldAs, IsHeldWith, IsKeptAs, IsKeptIfThere};
ghost use Rattle.fix_core.specs.inner.Holding.{IsPushed, StaysHeld};

use crate::alike::{forests_of, is_covered_by};
use crate::nodes::{NodeHead, Placed};
use crate::states::State;
use fa_core::folds::FoldStep;
use fa_groups::groups::{Groups, add, numbers_of};
use fa_kept::Memo;
use fa_pool::looks::with_looks;
use fa_pool::{Kept, Pool};
use fa_sound::Sound;
use fore_base::boxed::Boxed;
use fore_base::list::List;
use fore_base::memory::Mem;
use par_kit::crew::Crew;
use par_kit::gate::Gate;
use std::alloc::Global;
use std::collections::BTreeMap;
use std::thread::Threads;

/// A node, whose forests are kept by the numbers of their components. The middle, which only nodes at loop heads
/// have, has memory of its own.
#[derive(Drop)]
pub struct HeldNode {
    pub head: NodeHead,
    pub forest: Kept,
    pub middle: Option<Boxed<Kept>>,
    pub folds: List<FoldStep>,
}

/// The nodes of an exploration, the automata of their forests, what is known of the inclusion of these, and the number
/// of each node in the group of its location and of what its forest looks like.
#[derive(Drop)]
pub struct Held {
    pub nodes: List<HeldNode>,
    pub pool: Pool,
    pub memo: Memo,
    pub groups: Groups,
}

impl Held {
    /// No nodes, which takes no memory.
    pub fn none(alloc: Global) -> Held
        ensures nodes { result.nodes ≡ [] }
        ensures held { (face : Face) → IsHeld face result }
    {
        Held {
            nodes: List::new(alloc),
            pool: Pool::new(alloc),
            memo: Memo::new(alloc),
            groups: BTreeMap::new(alloc),
        }
    }

    /// The forest, kept in the pool. Err is want of memory.
    pub fn keep(&mut self, alloc: Global, forest: &Sound) -> Mem<Kept>
        ensures grows { HasGrown self.old self.new }
        ensures kept { IfOk result (IsKeptAs self.new.pool forest.now.forest) }
    {
        self.pool.keep(alloc, forest)
    }

    /// Adds a node with this head and an equal state, whose forest is kept. Err is want of memory.
    pub fn add(&mut self, alloc: Global, head: NodeHead, state: &State, forest: Kept) -> Mem<()>
        requires kept { IsKeptAs self.old.pool state.now.forest forest }
        requires held { IsHeld state.now.face self.old }
        requires few { length self.old.nodes + 1 < 2 ^ 32 }
        ensures ok { OnOk result (IsHeldWith state.now.face self.old (record { head = head; state = state.now })
            self.new) }
        ensures err { OnErr result (StaysHeld state.now.face self.old self.new) }
    {
        state.known();
        let node = self.hold(alloc, head, state, forest)?;
        self.push(alloc, node)
    }

    /// Adds a node with this head and an equal state, unless a node of its location covers it, or the budget of nodes
    /// is full. Err is want of memory.
    pub fn place<R: Threads + Sync, G: Gate>(
        &mut self,
        rt: &R,
        alloc: Global,
        head: NodeHead,
        state: &State,
        budget: u32,
        crew: &Crew<'_, G>,
    ) -> Mem<Placed>
        requires jobs { IsJobs crew.now.jobs }
        requires held { IsHeld state.now.face self.old }
        requires within { length self.old.nodes ≤ budget }
        ensures held { IsHeld state.now.face self.new }
        ensures placed { IfOk result (IsPlaced (nodes_of state.now.face self.old)
            (record { head = head; state = state.now }) budget (nodes_of state.now.face self.new)) }
        ensures err { OnErr result (nodes_of state.now.face self.new ≡ nodes_of state.now.face self.old) }
    {
        match self.keep_uncovered(rt, alloc, head.location, state, crew)? {
            None => Ok(Placed::Covered),
            Some(forest) => self.add_within(alloc, head, state, forest, budget),
        }
    }

    /// The forest of the state, kept in the pool, unless a node of the location covers it. Err is want of memory.
    fn keep_uncovered<R: Threads + Sync, G: Gate>(
        &mut self,
        rt: &R,
        alloc: Global,
        location: u32,
        state: &State,
        crew: &Crew<'_, G>,
    ) -> Mem<Option<Kept>>
        requires jobs { IsJobs crew.now.jobs }
        requires held { IsHeld state.now.face self.old }
        ensures held { StaysHeld state.now.face self.old self.new }
        ensures kept { IfOk result (λ found. MatchOption found
            (IsCovered (nodes_of state.now.face self.old) location state.now.forest)
            (λ kept. NoneCovers (nodes_of state.now.face self.old) location state.now.forest
            × IsKeptAs self.new.pool state.now.forest kept)) }
        ensures same { self.new.nodes ≡ self.old.nodes }
    {
        let forest = self.keep(alloc, state.forest())?;
        if self.is_covered(rt, alloc, location, &forest, crew)? {
            return Ok(None);
        }
        Ok(Some(forest))
    }

    /// Whether a node of the location covers the kept forest. Only nodes of this location are asked whose targets, data
    /// and number of components are those of the forest, since no other one can cover it. Err is want of memory.
    fn is_covered<R: Threads + Sync, G: Gate>(
        &mut self,
        rt: &R,
        alloc: Global,
        location: u32,
        forest: &Kept,
        crew: &Crew<'_, G>,
    ) -> Mem<bool>
        requires jobs { IsJobs crew.now.jobs }
        requires held { (face : Face) × IsHeld face self.old }
        requires kept { IsKeptIn self.old.pool forest.now }
        ensures grows { HasGrown self.old self.new }
        ensures same { self.new.pool ≡ self.old.pool }
        ensures covers { IfOk result (λ yes. (face : Face) → IsHeld face self.old
            → CoversOrNot (nodes_of face self.old) location (read self.old.pool forest.now) yes) }
    {
        let numbers = numbers_of(&self.groups, key_at(location, forest));
        let alike = forests_of(alloc, &self.nodes, numbers)?;
        is_covered_by(
            rt,
            alloc,
            &self.pool,
            &mut self.memo,
            alike.as_slice(),
            forest,
            crew,
        )
    }

    /// Adds a node with this head and an equal state, whose forest is kept and which no node of its location covers,
    /// unless the budget of nodes is full. Err is want of memory.
    fn add_within(
        &mut self,
        alloc: Global,
        head: NodeHead,
        state: &State,
        forest: Kept,
        budget: u32,
    ) -> Mem<Placed>
        requires kept { IsKeptAs self.old.pool state.now.forest forest }
        requires held { IsHeld state.now.face self.old }
        requires within { length self.old.nodes ≤ budget }
        ensures held { IsHeld state.now.face self.new }
        ensures placed { IfOk result (λ placed.
            NoneCovers (nodes_of state.now.face self.old) head.location state.now.forest
            → IsPlaced (nodes_of state.now.face self.old) (record { head = head; state = state.now }) budget
            (nodes_of state.now.face self.new) placed) }
        ensures err { OnErr result (nodes_of state.now.face self.new ≡ nodes_of state.now.face self.old) }
    {
        if self.nodes.len() == budget as usize {
            return Ok(Placed::Full);
        }
        self.add(alloc, head, state, forest)?;
        Ok(Placed::Added)
    }

    /// The node with this head and an equal state, whose forest is kept. Err is want of memory.
    fn hold(&mut self, alloc: Global, head: NodeHead, state: &State, forest: Kept) -> Mem<HeldNode>
        requires { IsKeptAs self.old.pool state.now.forest forest }
        ensures grows { HasGrown self.old self.new }
        ensures node { IfOk result (IsHeldAs state.now.face self.new.pool (record { head = head; state = state.now })) }
    {
        let middle = self.keep_middle(alloc, state)?;
        let folds = List::from_slice(alloc, state.folds())?;
        Ok(HeldNode {
            head,
            forest,
            middle,
            folds,
        })
    }

    /// The forest of the state before it was folded, kept in the pool, if there is one. Err is want of memory.
    fn keep_middle(&mut self, alloc: Global, state: &State) -> Mem<Option<Boxed<Kept>>>
        ensures grows { HasGrown self.old self.new }
        ensures kept { IfOk result (IsKeptIfThere self.new.pool state.now.middle) }
    {
        match state.middle() {
            Some(middle) => {
                let kept = self.keep(alloc, middle)?;
                let boxed = Boxed::new(alloc, kept)?;
                Ok(Some(boxed))
            }
            None => Ok(None),
        }
    }

    /// Adds the node at the end, and its number to the group of its key. Err is want of memory.
    fn push(&mut self, alloc: Global, node: HeldNode) -> Mem<()>
        requires { length self.old.nodes < 2 ^ 32 }
        ensures ok { OnOk result (IsPushed self.old node self.new) }
        ensures err { OnErr result (HasGrown self.old self.new) }
    {
        let key = key_at(node.head.location, &node.forest);
        let number = self.nodes.len() as u32;
        self.nodes.push(node)?;
        match add(alloc, &mut self.groups, key, number) {
            Ok(()) => Ok(()),
            Err(error) => {
                let _last = self.nodes.pop();
                Err(error)
            }
        }
    }
}

/// The key of a location and of what a kept forest there looks like: its targets and data, and how many components it
/// has.
fn key_at(location: u32, forest: &Kept) -> (u32, u64)
    ensures { result ≡ key_at location forest.now }
{
    let looks = with_looks(
        0,
        forest.vars.as_slice(),
        forest.data_vars.as_slice(),
        forest.parts.len(),
    );
    (location, looks)
}
