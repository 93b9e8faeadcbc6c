// The nodes of an exploration.
ghost use Rattle.std.specs.Prelude.{◌≡◌, ◌<◌, ◌≤◌, ◌-◌, ◌^◌, ◌∷◌, [], length, min, None, Some};
ghost use Rattle.std.specs.Prelude.{IfOk, OnErr, MatchOption};
ghost use Rattle.par_kit.specs.Crews.{IsJobs};
ghost use Rattle.fore_base.specs.Lists.{IsIn};
ghost use Rattle.fa_core.specs.Filled.{IsSound};
ghost use Rattle.fa_pool.specs.Pools.{IsKeptIn};
ghost use Rattle.fix_core.specs.Reads.{read};
ghost use Rattle.fix_core.specs.Covered.{IsPlaced};
ghost use Rattle.fix_core.specs.Counted.{rules_in};
ghost use Rattle.fix_core.specs.Explorations.{IsNode};
ghost use Rattle.fix_core.specs.inner.Holding.{IsHeldAlone};
ghost use Rattle.fix_core.specs.declared.nodes.Node.{Node};

use crate::counting::count_rules;
use crate::held::Held;
use crate::states::State;
use fa_core::faces::Face;
use fa_core::folds::FoldStep;
use fa_pool::{Kept, Pool};
use fa_sound::Sound;
use fore_base::list::Copies;
use fore_base::memory::Mem;
use par_kit::crew::Crew;
use par_kit::gate::Gate;
use std::alloc::Global;
use std::marker::Model;
use std::thread::Threads;

/// Where a node stands, and how it was reached: the number of its parent and that of the edge, with the edge's choice.
/// Node 0 has only its location.
#[derive(Clone, Copy)]
pub struct NodeHead {
    pub location: u32,
    pub parent: Option<u32>,
    pub edge: Option<u32>,
    pub choice: Option<u8>,
}

/// A node: a set of stores at a location.
#[derive(Drop)]
pub struct Node {
    pub head: NodeHead,
    pub state: State,
}

/// What became of a state that is to be a node.
#[derive(Clone, Copy)]
pub enum Placed {
    /// A node of its location covers it.
    Covered,
    /// It is the last node.
    Added,
    /// No node of its location covers it, and the budget is full.
    Full,
}

/// What is to be taken up: the forest of a node, and the location at which it stands.
#[derive(Drop)]
pub struct Due {
    pub location: u32,
    pub forest: Sound,
}

/// The nodes of an exploration, one at least, seen as their list. The number of a node is its place in it, and they are
/// fewer than 2^32. Their forests stand over one face, and equal components of them are held once.
#[derive(Drop)]
pub struct Nodes {
    face: Face,
    held: Held,
}

impl Model for Nodes {
    ghost use Rattle.std.specs.Prelude.{List, ◌<◌, length};
    ghost use Rattle.fix_core.specs.declared.nodes.Node.{Node};
    ghost use Rattle.fix_core.specs.Held.{nodes_of, IsHeld};

    ghost Value = { List Node };

    ghost view = { λ nodes. nodes_of nodes.face nodes.held };

    ghost invariant = { λ nodes. (0 < length nodes.held.nodes) × IsHeld nodes.face nodes.held };
}

impl Nodes {
    /// How many nodes there are.
    pub fn len(&self) -> u32
        ensures { result ≡ length self.now }
    {
        self.held.nodes.len() as u32
    }

    /// Where the node stands, and how it was reached.
    pub fn head(&self, node: u32) -> &NodeHead
        requires { node < length self.now }
        ensures { (n : Node) → IsNode self.now node n → result.now ≡ n.head }
    {
        &self.held.nodes.at(node as usize).head
    }

    /// The forest of the node. Err is want of memory.
    pub fn forest(&self, alloc: Global, node: u32) -> Mem<Sound>
        requires { node < length self.now }
        ensures { IfOk result (λ forest. (n : Node) → IsNode self.now node n → (forest.forest ≡ n.state.forest)
            × (forest.face ≡ n.state.face)) }
    {
        let kept = &self.held.nodes.at(node as usize).forest;
        sound_of(alloc, &self.held.pool, &self.face, kept)
    }

    /// The forest of the node before it was folded and abstracted: there exactly at a loop head other than node 0. Err
    /// is want of memory.
    pub fn middle(&self, alloc: Global, node: u32) -> Mem<Option<Sound>>
        requires { node < length self.now }
        ensures { IfOk result (λ middle. (n : Node) → IsNode self.now node n
            → MatchOption middle (n.state.middle ≡ None)
            (λ forest. (n.state.middle ≡ Some forest.forest) × (forest.face ≡ n.state.face))) }
    {
        match &self.held.nodes.at(node as usize).middle {
            Some(kept) => {
                let middle = sound_of(alloc, &self.held.pool, &self.face, kept.get())?;
                Ok(Some(middle))
            }
            None => Ok(None),
        }
    }

    /// The folds of the node, in order.
    pub fn folds(&self, node: u32) -> &[FoldStep]
        requires { node < length self.now }
        ensures { (n : Node) → IsNode self.now node n → result.now ≡ n.state.folds }
    {
        self.held.nodes.at(node as usize).folds.as_slice()
    }

    /// How many rules the forest of the node has in all, or as many as can be counted, for which it is not made.
    pub fn count_rules(&self, node: u32) -> usize
        requires { node < length self.now }
        ensures { (n : Node) → IsNode self.now node n → result ≡ min (rules_in n.state.forest.autos) (2 ^ 64 - 1) }
    {
        let forest = &self.held.nodes.at(node as usize).forest;
        count_rules(&self.held.pool, forest.parts.as_slice())
    }

    /// The location and the forest of the node. Err is want of memory.
    pub fn due(&self, alloc: Global, node: u32) -> Mem<Due>
        requires { node < length self.now }
        ensures { IfOk result (λ due. (n : Node) → IsNode self.now node n → (due.location ≡ n.head.location)
            × (due.forest.forest ≡ n.state.forest) × (due.forest.face ≡ n.state.face)) }
    {
        Ok(Due {
            location: self.head(node).location,
            forest: self.forest(alloc, node)?,
        })
    }

    /// The node alone. Err is want of memory.
    pub fn one(alloc: Global, node: &Node) -> Mem<Nodes>
        ensures { IfOk result (λ nodes. nodes ≡ node.now ∷ []) }
    {
        let face = node.state.forest().face().copy(alloc)?;
        let held = hold_one(alloc, node)?;
        Ok(Nodes { face, held })
    }

    /// Adds a node with this head and an equal state, unless a node of its location covers it, or the budget of nodes
    /// is full. Only nodes of its location are asked whose targets, data and number of roots are those of the state,
    /// since no other one can cover it. The crew runs 1 to 64 jobs and has no bearing on what becomes of the state.
    ///
    /// # Errors
    ///
    /// Want of memory; the nodes stay as they were.
    pub fn add_uncovered<R: Threads + Sync, G: Gate>(
        &mut self,
        rt: &R,
        alloc: Global,
        head: NodeHead,
        state: &State,
        budget: u32,
        crew: &Crew<'_, G>,
    ) -> Mem<Placed>
        requires jobs { IsJobs crew.now.jobs }
        requires faces { (n : Node) → IsIn n self.old → n.state.face ≡ state.now.face }
        requires within { length self.old ≤ budget }
        ensures placed { IfOk result (IsPlaced self.old (record { head = head; state = state.now }) budget self.new) }
        ensures err { OnErr result (self.new ≡ self.old) }
    {
        self.held.place(rt, alloc, head, state, budget, crew)
    }
}

/// The node alone, held. Err is want of memory.
fn hold_one(alloc: Global, node: &Node) -> Mem<Held>
    ensures { IfOk result (IsHeldAlone node.now) }
{
    let mut held = Held::none(alloc);
    let forest = held.keep(alloc, node.state.forest())?;
    held.add(alloc, node.head, &node.state, forest)?;
    Ok(held)
}

/// The sound forest as which the kept one reads. Err is want of memory.
fn sound_of(alloc: Global, pool: &Pool, face: &Face, kept: &Kept) -> Mem<Sound>
    requires kept { IsKeptIn pool.now kept.now }
    requires sound { IsSound face.now (read pool.now kept.now) }
    ensures forest { IfOk result (λ made. made.forest ≡ read pool.now kept.now) }
    ensures face { IfOk result (λ made. made.face ≡ face.now) }
{
    let forest = pool.forest(alloc, kept)?;
    Sound::of(alloc, forest, face)
}
