// Laws of prefixes, each the contract of a function that does nothing.

ghost use Rattle.std.specs.Prelude.{◌≡◌, ℕ, true, Some};
ghost use Rattle.c_cfg.specs.Graphs.{ControlGraph};
ghost use Rattle.c_cfg.specs.LoopFree.{has_no_loop};
ghost use Rattle.c_cfg.specs.Lowering.{LowerOf};
ghost use Rattle.c_prefixes.specs.Prefixes.{AtLeast, AtMost, paths_from};
ghost use Rattle.c_types.specs.Program.{Program};
ghost use Rattle.c_types.specs.declared.mode.MallocMode.{MallocMode};
ghost use Rattle.fore_base.specs.Lists.{IsDistinct};

/// Where no list of edges from the entry has more than n edges, the number that is counted is that of the prefixes:
/// different ones are no more, and, where no edge is listed twice, there are as many.
pub fn prefixes_are_counted()
    ensures most { (g : ControlGraph) (n b : ℕ) → paths_from g.edges n 0 ≡ Some b → AtMost b g }
    ensures least { (g : ControlGraph) (n b : ℕ) → IsDistinct g.edges → paths_from g.edges n 0 ≡ Some b → AtLeast b g }
{}

/// The graph of a program without loops has a number of prefixes, whether `malloc` may fail or not.
pub fn loop_free_graphs_are_counted()
    ensures { (p : Program) (mode : MallocMode) (g : ControlGraph) → LowerOf p mode g → has_no_loop p ≡ true
        → (n : ℕ) × (b : ℕ) × (paths_from g.edges n 0 ≡ Some b) }
{}

/// Each two graphs of a program without loops, for one mode of `malloc`, have as many prefixes: so the number of one of
/// them is that of the program.
pub fn graphs_have_one_number()
    ensures { (p : Program) (mode : MallocMode) (g h : ControlGraph) (n b : ℕ) → LowerOf p mode g → LowerOf p mode h
        → has_no_loop p ≡ true → paths_from g.edges n 0 ≡ Some b → (m : ℕ) × (paths_from h.edges m 0 ≡ Some b) }
{}
