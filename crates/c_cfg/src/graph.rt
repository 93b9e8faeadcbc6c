// The types of control graphs, and the fact that a graph keeps.

use fore_base::list::{Copies, List};
use fore_base::shape::Shapes;
use std::alloc::{AllocError, Global};
use std::marker::Model;

/// A pointer that an edge copies or compares.
#[derive(Clone, Copy)]
pub enum PtrArg {
    /// The pointer variable of this number.
    Var(u32),
    /// The null pointer.
    Null,
}

/// A datum that an edge copies or compares.
#[derive(Clone, Copy)]
pub enum DataArg {
    /// The data variable of this number.
    Var(u32),
    /// A number, at most `DATUM`.
    Known(u8),
}

/// A constant that an edge writes into a field: a pointer field takes `Null`, a data field a number.
#[derive(Clone, Copy)]
pub enum Const {
    /// The null pointer.
    Null,
    /// A number, at most `DATUM`.
    Known(u8),
}

/// What an edge does. Variables and fields are numbered by their kind, pointers and data apart.
#[derive(Drop)]
pub enum Instr {
    /// `to = from`, for pointers.
    CopyPtr {
        to: u32,
        from: PtrArg,
    },
    /// `to = from->field`, for pointers.
    LoadPtr {
        to: u32,
        from: u32,
        field: u32,
    },
    /// `to->field = from`, for pointers.
    StorePtr {
        to: u32,
        field: u32,
        from: u32,
    },
    /// `to->field = value`.
    StoreConst {
        to: u32,
        field: u32,
        value: Const,
    },
    /// `to = malloc(..)`: a new cell of the struct of this number.
    New {
        to: u32,
        shape: u32,
    },
    /// `free(from)`.
    Free {
        from: u32,
    },
    /// These variables die. Each list rises.
    Kill {
        ptrs: List<u32>,
        datums: List<u32>,
    },
    /// `to = from`, for data.
    CopyData {
        to: u32,
        from: DataArg,
    },
    /// `to = from->field`, for data.
    LoadData {
        to: u32,
        from: u32,
        field: u32,
    },
    /// `to->field = from`, for data.
    StoreData {
        to: u32,
        field: u32,
        from: u32,
    },
    /// Passes where the pointers are equal, or where they are not.
    TestPtr {
        left: PtrArg,
        right: PtrArg,
        equal: bool,
    },
    /// Passes where the data are equal, or where they are not.
    TestData {
        left: DataArg,
        right: DataArg,
        equal: bool,
    },
    /// Takes the edge's choice, and assigns it to a data variable, if there is one.
    Choose {
        to: Option<u32>,
    },
    /// The end of the run: a failed assertion, or `exit` and `abort`.
    Stop {
        error: bool,
    },
}

/// An edge: it leads from a location to a location. The line is that of the program's step.
#[derive(Drop)]
pub struct Edge {
    /// The location at which it begins.
    pub from: u32,
    /// The location to which it leads.
    pub to: u32,
    /// What it does.
    pub instr: Instr,
    /// The choice on which it is taken: there on a `Choose`, and on the two edges of a `malloc` that may fail.
    pub choice: Option<u8>,
    /// The line of its step.
    pub line: u32,
}

/// A control graph. Its locations are the numbers below `locations`, and 0 is the entry.
///
/// There is at least one location, there are fewer than 2^32 edges, `heads` has one entry for each location, and an
/// edge has a choice where its instruction wants one: a `Choose` has one, a copy of the null pointer none or 0, a `New`
/// none or 1, and no other edge has one.
#[derive(Drop)]
pub struct Graph {
    /// How many locations there are.
    pub locations: u32,
    /// How many pointer variables there are, the temporaries with them.
    pub ptrs: u32,
    /// How many data variables there are, the temporaries with them.
    pub datums: u32,
    /// The edges.
    pub edges: List<Edge>,
    /// Whether the condition of a loop is tested at a location, for each location.
    pub heads: List<bool>,
    /// The program's structs.
    pub shapes: Shapes,
}

impl Model for Graph {
    ghost use Rattle.c_cfg.specs.Graphs.{ControlGraph, IsGraph};

    ghost Value = { ControlGraph };

    ghost view = { λ g. record {
      locations = g.locations;
      ptrs = g.ptrs;
      datums = g.datums;
      edges = g.edges;
      heads = g.heads;
      shapes = g.shapes;
    } };

    ghost invariant = { λ g.
        IsGraph
        (record {
          locations = g.locations;
          ptrs = g.ptrs;
          datums = g.datums;
          edges = g.edges;
          heads = g.heads;
          shapes = g.shapes;
        }) };
}

impl Graph {
    ghost use Rattle.std.specs.Prelude.{◌≡◌, ◌<◌, not, false, slice_index_or};
    ghost use Rattle.std.specs.List.{list_all};

    /// Whether the condition of a loop is tested at a location: its entry of `heads`.
    pub fn is_loop_head(&self, location: u32) -> bool
        requires { location < self.now.locations }
        ensures { result ≡ slice_index_or self.now.heads location false }
    {
        self.heads.get_or(location as usize, false)
    }

    /// Whether no location is a loop head.
    pub fn is_loop_free(&self) -> bool
        ensures { result ≡ list_all not self.now.heads }
    {
        for is_head in self.heads.as_slice() {
            if *is_head {
                return false;
            }
        }
        true
    }
}

impl Copies for Instr {
    fn copy(&self, alloc: Global) -> Result<Instr, AllocError> {
        Ok(match self {
            Instr::CopyPtr { to, from } => Instr::CopyPtr {
                to: *to,
                from: *from,
            },
            Instr::LoadPtr { to, from, field } => Instr::LoadPtr {
                to: *to,
                from: *from,
                field: *field,
            },
            Instr::StorePtr { to, field, from } => Instr::StorePtr {
                to: *to,
                field: *field,
                from: *from,
            },
            Instr::StoreConst { to, field, value } => Instr::StoreConst {
                to: *to,
                field: *field,
                value: *value,
            },
            Instr::New { to, shape } => Instr::New {
                to: *to,
                shape: *shape,
            },
            Instr::Free { from } => Instr::Free { from: *from },
            Instr::Kill { ptrs, datums } => Instr::Kill {
                ptrs: ptrs.copy(alloc)?,
                datums: datums.copy(alloc)?,
            },
            Instr::CopyData { to, from } => Instr::CopyData {
                to: *to,
                from: *from,
            },
            Instr::LoadData { to, from, field } => Instr::LoadData {
                to: *to,
                from: *from,
                field: *field,
            },
            Instr::StoreData { to, field, from } => Instr::StoreData {
                to: *to,
                field: *field,
                from: *from,
            },
            Instr::TestPtr { left, right, equal } => Instr::TestPtr {
                left: *left,
                right: *right,
                equal: *equal,
            },
            Instr::TestData { left, right, equal } => Instr::TestData {
                left: *left,
                right: *right,
                equal: *equal,
            },
            Instr::Choose { to } => Instr::Choose { to: *to },
            Instr::Stop { error } => Instr::Stop { error: *error },
        })
    }
}
