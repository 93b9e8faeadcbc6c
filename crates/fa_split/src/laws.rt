// Laws of splitting, each the contract of a function that does nothing. They hold with box edges, for every table of
// boxes.

ghost use Rattle.std.specs.Prelude.{◌<◌, ℕ, List, length};
ghost use Rattle.fore_base.specs.Lists.{IsIn, Every};
ghost use Rattle.ta_core.specs.Auto.{Automaton, IsRanked};
ghost use Rattle.ta_core.specs.declared.auto.Rule.{Rule};
ghost use Rattle.fa_core.specs.Boxless.{HasNoBoxes};
ghost use Rattle.fa_core.specs.Dressed.{Nodes};
ghost use Rattle.fa_core.specs.Faces.{IsGiving};
ghost use Rattle.fa_core.specs.Filled.{IsSound};
ghost use Rattle.fa_core.specs.Member.{OfForest, Regroups, Regrouping};
ghost use Rattle.fa_core.specs.declared.boxes.BoxDef.{BoxDef};
ghost use Rattle.fa_core.specs.declared.faces.BoxFace.{BoxFace};
ghost use Rattle.fa_core.specs.declared.faces.Face.{Face};
ghost use Rattle.fa_core.specs.declared.forest.Forest.{Forest};
ghost use Rattle.fa_core.specs.declared.forest.Target.{Target};
ghost use Rattle.fa_sound.specs.Components.{component_at};
ghost use Rattle.fa_split.specs.Chosen.{IsChosenBy, chosen_at};
ghost use Rattle.fa_split.specs.Giving.{RulesGive};
ghost use Rattle.fa_split.specs.Split.{CanSplit, IsFixedAt, IsSplitCells, IsSplitLeaf, IsSplitOf, IsTakenOut};
ghost use Rattle.fa_split.specs.Split.{MayBeLeaf, split_cells, split_leaf};

/// Where a rule of a root state stands alone at the root, the dressed forests are those whose tree there has a run that
/// ends with the rule.
pub fn choosing_narrows()
    ensures { (T : List BoxDef) (F : Forest) (r : ℕ) (x : Rule) → Every IsRanked F.autos → r < length F.autos
        → IsIn x (component_at F.autos r).rules → IsIn x.state (component_at F.autos r).roots
        → IsChosenBy T F r x (chosen_at F r x) }
{}

/// Where the child is a leaf that it may be, the dressed forests are those whose child is that leaf.
pub fn leaves_narrow()
    ensures { (T : List BoxDef) (F : Forest) (r p : ℕ) (y : Target) → Every IsRanked F.autos → CanSplit F r p
        → MayBeLeaf F r p y → IsSplitLeaf T F r p y (split_leaf F r p y) }
{}

/// Where the child's cells are a new last root, the dressed forests are those with the child taken out; in a sound
/// forest this regroups the cells.
pub fn cells_are_taken_out()
    ensures dressed { (T : List BoxDef) (F : Forest) (r p : ℕ) → Every IsRanked F.autos → CanSplit F r p
        → IsSplitCells T F r p (split_cells F r p) }
    ensures regroups { (T : List BoxDef) (face : Face) (F : Forest) (r p : ℕ) (d e : Nodes) → Every IsRanked F.autos
        → CanSplit F r p
        → IsSound face F → OfForest T F d → IsTakenOut r p d e → Regrouping T (split_cells F r p) F d e }
    ensures back { (T : List BoxDef) (face : Face) (F : Forest) (r p : ℕ) → Every IsRanked F.autos → CanSplit F r p
        → IsSound face F → Regroups T F (split_cells F r p) }
{}

/// In each forest into which a sound forest is split, the child is one leaf alone, and the rule at the top is the same
/// but for it.
pub fn split_children_are_leaves()
    ensures { (T : List BoxDef) (face : Face) (F : Forest) (r p : ℕ) (G : Forest) → Every IsRanked F.autos
        → CanSplit F r p → IsSound face F → IsSplitOf T F r p G → (y : Target) × IsFixedAt F r p y G }
{}

/// Box edges that lead back give something where the boxes do, as those of each table, and where there is no box edge.
pub fn edges_give()
    ensures faces { (bs : List BoxFace) (autos : List Automaton) → Every IsGiving bs → Every (RulesGive bs) autos }
    ensures plain { (bs : List BoxFace) (autos : List Automaton) → Every HasNoBoxes autos → Every (RulesGive bs) autos }
{}
