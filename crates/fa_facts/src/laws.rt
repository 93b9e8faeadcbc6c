// Laws of facts, each the contract of a function that does nothing.

ghost use Rattle.std.specs.Prelude.{ℕ};
ghost use Rattle.fa_core.specs.Boxes.{Boxes, IsBoxTable, heads};
ghost use Rattle.fa_core.specs.Dressed.{Nodes, facts};
ghost use Rattle.fa_core.specs.Filled.{IsFilled};
ghost use Rattle.fa_core.specs.Member.{OfForest};
ghost use Rattle.fa_core.specs.Rearranged.{Rearranged};
ghost use Rattle.fa_core.specs.declared.forest.Forest.{Forest};
ghost use Rattle.fa_facts.specs.Fields.{fields_at, fields_owed, FactNamed};
ghost use Rattle.fore_base.specs.Lists.{Every};

/// In the facts of a dressed forest of a filled forest, those of the insides of its box edges with them, each cell is
/// given the pointer fields of its struct, each once.
pub fn cells_have_their_fields()
    ensures { (t : Boxes) (F : Forest) (d : Nodes) → IsBoxTable t → IsFilled t.face F → OfForest t.defs F d → (c : ℕ)
        → Rearranged (fields_owed t.face.shapes.structs c (facts d)) (fields_at c (facts d)) }
{}

/// Each cell that a fact of a dressed forest names is one of its cells.
pub fn named_cells_are_there()
    ensures { (d : Nodes) → Every (FactNamed (heads (facts d))) (facts d) }
{}
