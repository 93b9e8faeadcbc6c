// Rounds of an exploration: the images of the next nodes are made at once, and then taken up node by node.
ghost use Rattle.std.specs.Prelude.{◌≡◌, ◌<◌, ◌≤◌, ◌+◌, ◌^◌, length, IfOk};
ghost use Rattle.fix_core.specs.Explorations.{Exploration};
ghost use Rattle.fix_engine.specs.inner.Rounds.{AreImagesOf, AreNumbers, IsRound, IsTakenRound};
ghost use Rattle.fix_engine.specs.inner.Taking.{IsFront};
ghost use Rattle.par_kit.specs.Crews.{IsJobs};

use crate::crews::{NODE_RULES, crew_for};
use crate::taking::{Taken, take_node};
use fix_core::nodes::Nodes;
use fix_successors::{EdgeImage, Task, images_of};
use fore_base::list::List;
use fore_base::memory::Mem;
use par_kit::crew::Crew;
use par_kit::gate::Gate;
use par_kit::making::{Maker, make_all};
use std::alloc::Global;
use std::thread::Threads;

/// Makes what the edges of its location make of a node, by its number.
#[derive(Drop)]
struct ImageMaker<'a, R: Threads + Sync> {
    task: &'a Task<'a, R>,
    nodes: &'a Nodes,
}

impl<'a, R: Threads + Sync> Maker<u32, List<EdgeImage>> for ImageMaker<'a, R> {
    ghost use Rattle.std.specs.Prelude.{◌<◌, length};
    ghost use Rattle.std.specs.Thread.{IsSync};
    ghost use Rattle.fix_core.specs.Explorations.{Exploration};
    ghost use Rattle.fix_engine.specs.inner.Rounds.{AreImagesOf};

    ghost accepts = { λ maker node.
        IsSync R.row
        × Exploration maker.task.now.table maker.task.now.graph maker.task.now.height maker.nodes.now
        × (node < length maker.nodes.now) };

    ghost relates = { λ maker node images.
        AreImagesOf maker.task.now.table maker.task.now.graph maker.task.now.height maker.nodes.now node images };

    fn make(&self, _alloc: Global, item: &u32) -> Mem<List<EdgeImage>> {
        images_at(self.task, self.nodes, *item)
    }
}

/// What the edges of its location make of the node, whose forest is made for it. Err is want of memory.
fn images_at<R: Threads + Sync>(
    task: &Task<'_, R>,
    nodes: &Nodes,
    node: u32,
) -> Mem<List<EdgeImage>>
    requires explored { Exploration task.now.table task.now.graph task.now.height nodes.now }
    requires inside { node < length nodes.now }
    ensures { IfOk result (AreImagesOf task.now.table task.now.graph task.now.height nodes.now node) }
{
    task.known();
    let due = nodes.due(task.alloc(), node)?;
    let images = images_of(task, &due)?;
    Ok(images)
}

/// The images of the next nodes, at most one node for each job. Where their forests are small, no thread is begun. Err
/// is want of memory.
pub fn round_of<R: Threads + Sync, G: Gate>(
    task: &Task<'_, R>,
    nodes: &Nodes,
    at: u32,
    crew: &Crew<'_, G>,
) -> Mem<List<List<EdgeImage>>>
    requires inside { at < length nodes.now }
    requires jobs { IsJobs crew.now.jobs }
    requires explored { Exploration task.now.table task.now.graph task.now.height nodes.now }
    ensures made { IfOk result (IsRound task.now.table task.now.graph task.now.height nodes.now at) }
    ensures few { IfOk result (λ round. length round ≤ crew.now.jobs) }
{
    let left = nodes.len() - at;
    let many = left.min(crew.jobs as u32);
    let numbers = numbers_from(task.alloc(), at, many)?;
    let least = numbers.len().saturating_mul(NODE_RULES);
    let crew = crew_for(crew, rules_from(nodes, at, many), least);
    make_all(
        task.rt(),
        task.alloc(),
        numbers.as_slice(),
        &ImageMaker { task, nodes },
        &crew,
    )
}

/// So many numbers, from `at` on. Err is want of memory.
fn numbers_from(alloc: Global, at: u32, many: u32) -> Mem<List<u32>>
    requires { at + many < 2 ^ 32 }
    ensures { IfOk result (λ numbers. (length numbers ≡ many) × AreNumbers at numbers) }
{
    let mut numbers = List::new(alloc);
    for place in 0..many {
        numbers.push(at + place)?;
    }
    Ok(numbers)
}

/// How many rules the forests of so many nodes have in all, of which `at` is the first, or as many as can be counted.
fn rules_from(nodes: &Nodes, at: u32, many: u32) -> usize
    requires inside { at + many ≤ length nodes.now }
    requires fits { at + many < 2 ^ 32 }
{
    let mut rules = 0usize;
    for place in 0..many {
        rules = rules.saturating_add(nodes.count_rules(at + place));
    }
    rules
}

/// Takes up the images of a round, node by node, and says at which node the work ended, which is the next one where all
/// were taken up, and how. Err is want of memory.
pub fn take_round<R: Threads + Sync, G: Gate>(
    task: &Task<'_, R>,
    nodes: &mut Nodes,
    at: u32,
    round: &[List<EdgeImage>],
    crew: &Crew<'_, G>,
) -> Mem<(u32, Taken)>
    requires jobs { IsJobs crew.now.jobs }
    requires front { IsFront task.now.table task.now.graph task.now.height nodes.old at task.now.budget }
    requires round { IsRound task.now.table task.now.graph task.now.height nodes.old at round.now }
    requires fits { at + length round.now < 2 ^ 32 }
    ensures { IfOk result (λ stop.
        IsTakenRound task.now.table task.now.graph task.now.height (at + length round.now) task.now.budget
        nodes.new stop.0 stop.1) }
{
    let mut here = at;
    for images in round {
        match take_node(task, nodes, here, images.as_slice(), crew)? {
            Taken::All => here += 1,
            how => return Ok((here, how)),
        }
    }
    Ok((here, Taken::All))
}
