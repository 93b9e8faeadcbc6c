// Laws of explorations of graphs without loop heads, each the contract of a function that does nothing.

ghost use Rattle.std.specs.Prelude.{◌≡◌, ◌≤◌, ℕ, List, length, true, not};
ghost use Rattle.std.specs.List.{list_all};
ghost use Rattle.c_cfg.specs.Graphs.{ControlGraph};
ghost use Rattle.c_prefixes.specs.Prefixes.{AtMost};
ghost use Rattle.fa_core.specs.Boxes.{Boxes, IsBoxTable};
ghost use Rattle.fix_core.specs.Explorations.{Exploration, IsExplored};
ghost use Rattle.fix_core.specs.declared.explored.Explored.{Explored};
ghost use Rattle.fix_core.specs.declared.nodes.Node.{Node};
ghost use Rattle.fix_decided.specs.Bare.{AreBare};
ghost use Rattle.fix_decided.specs.Decided.{IsDecided};

/// An exploration of a graph without loop heads has no more nodes than the graph has prefixes, where no node has a box
/// edge and each rule has as many children as its symbol. This holds by any table.
pub fn nodes_are_at_most_prefixes()
    ensures { (T : Boxes) (g : ControlGraph) (k b : ℕ) (nodes : List Node) → IsBoxTable T
        → list_all not g.heads ≡ true → Exploration T g k nodes → AreBare nodes → AtMost b g → length nodes ≤ b }
{}

/// Whatever the table, no node of an exploration of a graph without loop heads has a box edge, since nothing is folded
/// but at loop heads, and each rule has as many children as its symbol. So where the budget is as large as the number
/// of prefixes it is never full.
pub fn enough_nodes_decide()
    ensures bare { (T : Boxes) (g : ControlGraph) (k : ℕ) (nodes : List Node)
        → list_all not g.heads ≡ true → Exploration T g k nodes → AreBare nodes }
    ensures decides { (T : Boxes) (g : ControlGraph) (k budget : ℕ) (found : Explored) → IsBoxTable T
        → list_all not g.heads ≡ true → AtMost budget g → IsExplored T g k budget found
        → IsDecided found }
{}
