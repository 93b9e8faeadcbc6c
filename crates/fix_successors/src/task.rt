// What stays the same while an exploration goes on.
ghost use Rattle.std.specs.Prelude.{◌≡◌, ◌≤◌, [], length};
ghost use Rattle.fore_base.specs.Lists.{Every};
ghost use Rattle.c_cfg.specs.Ranges.{IsEdgeOf};
ghost use Rattle.fix_successors.specs.Exits.{AreExits};
ghost use Rattle.fix_successors.specs.Ready.{IsReady};

use c_cfg::graph::Graph;
use fa_core::table::BoxTable;
use fore_base::list::List;
use std::alloc::Global;
use std::marker::Model;
use std::thread::Threads;

/// What an exploration is asked to do. It keeps the conditions of `explore`.
#[derive(Drop)]
pub struct Task<'a, R: Threads + Sync> {
    rt: &'a R,
    alloc: Global,
    graph: &'a Graph,
    table: &'a BoxTable,
    // for each location the numbers of the edges that begin there
    exits: &'a [List<u32>],
    height: u32,
    budget: u32,
}

impl<'a, R: Threads + Sync> Model for Task<'a, R> {
    ghost use Rattle.fix_successors.specs.Ready.{Job, IsReady};

    ghost Value = { Job };

    ghost view = { λ t.
        record {
          table = t.table.now;
          graph = t.graph.now;
          height = t.height;
          budget = t.budget;
          exits = t.exits.now;
        } };

    ghost invariant = { λ t.
        IsReady
        (record {
          table = t.table.now;
          graph = t.graph.now;
          height = t.height;
          budget = t.budget;
          exits = t.exits.now;
        }) };
}

impl<'a, R: Threads + Sync> Task<'a, R> {
    pub fn new(
        rt: &'a R,
        alloc: Global,
        graph: &'a Graph,
        table: &'a BoxTable,
        exits: &'a [List<u32>],
        height: u32,
        budget: u32,
    ) -> Task<'a, R>
        requires { IsReady
            (record {
              table = table.now;
              graph = graph.now;
              height = height;
              budget = budget;
              exits = exits.now;
            }) }
        ensures { result
            ≡ record {
              table = table.now;
              graph = graph.now;
              height = height;
              budget = budget;
              exits = exits.now;
            } }
    {
        Task {
            rt,
            alloc,
            graph,
            table,
            exits,
            height,
            budget,
        }
    }

    /// What runs threads.
    pub fn rt(&self) -> &R {
        self.rt
    }

    pub fn alloc(&self) -> Global {
        self.alloc
    }

    pub fn graph(&self) -> &Graph
        ensures { result.now ≡ self.now.graph }
    {
        self.graph
    }

    pub fn table(&self) -> &BoxTable
        ensures { result.now ≡ self.now.table }
    {
        self.table
    }

    pub fn exits(&self) -> &[List<u32>]
        ensures { result.now ≡ self.now.exits }
    {
        self.exits
    }

    pub fn height(&self) -> u32
        ensures { result ≡ self.now.height }
    {
        self.height
    }

    pub fn budget(&self) -> u32
        ensures { result ≡ self.now.budget }
    {
        self.budget
    }

    /// Does nothing, and says what the task keeps.
    pub fn known(&self)
        ensures { IsReady self.now }
    {
        let _graph = self.graph;
    }
}
