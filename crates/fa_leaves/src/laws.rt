// Laws of other leaves, each the contract of a function that does nothing.

ghost use Rattle.std.specs.Prelude.{◌≡◌, ℕ, List};
ghost use Rattle.fore_base.specs.Lists.{Every, IsDistinct};
ghost use Rattle.ta_core.specs.Auto.{Automaton, IsRanked};
ghost use Rattle.ta_core.specs.declared.tree.Tree.{Tree};
ghost use Rattle.fa_core.specs.Choices.{all_numbers, bares};
ghost use Rattle.fa_core.specs.Dressed.{Node, Nodes, refs};
ghost use Rattle.fa_core.specs.Filled.{Choice, HasSignatures, IsFilled, RulesFit};
ghost use Rattle.fa_core.specs.Member.{OfForest, bare};
ghost use Rattle.fa_core.specs.Placed.{placed_auto};
ghost use Rattle.fa_core.specs.References.{IsNever, IsOnce};
ghost use Rattle.fa_core.specs.Ways.{signature};
ghost use Rattle.fa_core.specs.declared.boxes.BoxDef.{BoxDef};
ghost use Rattle.fa_core.specs.declared.faces.BoxFace.{BoxFace};
ghost use Rattle.fa_core.specs.declared.faces.Face.{Face};
ghost use Rattle.fa_core.specs.declared.forest.Forest.{Forest};
ghost use Rattle.fa_core.specs.declared.forest.Target.{Target};
ghost use Rattle.fa_leaves.specs.Grafting.{plug};
ghost use Rattle.fa_leaves.specs.Leaves.{AreApart};

/// Each choice of trees of a filled forest is that of a dressed forest without a number twice, by some list of boxes:
/// one whose insides are empty.
pub fn choices_are_dressed()
    ensures { (face : Face) (F : Forest) (ts : List Tree) → IsFilled face F → Every IsRanked F.autos
        → Choice F.autos ts
        → (T : List BoxDef) × (d : Nodes) × OfForest T F d × (bares d ≡ ts) × IsDistinct (all_numbers d) }
{}

/// Where no two roots become one, an automaton with other leaves in the place of references keeps that the trees of
/// each state, and all that are accepted, have one signature.
pub fn other_leaves_keep_signatures()
    ensures { (face : Face) (f : ℕ → Target) (a : Automaton) → AreApart f → IsRanked a → RulesFit face a
        → HasSignatures face.boxes a → HasSignatures face.boxes (placed_auto f a) }
{}

/// Where a tree has one reference to a root, and another tree none, the signature of the one with the other in the
/// place of that reference follows from the signatures of both.
pub fn grafts_follow_signatures()
    ensures { (bs : List BoxFace) (r : ℕ) (m n l k : Node) → IsOnce r (refs n) → IsNever r (refs m)
        → IsOnce r (refs k) → IsNever r (refs l) → signature bs (bare n) ≡ signature bs (bare k)
        → signature bs (bare m) ≡ signature bs (bare l)
        → signature bs (bare (plug r m n)) ≡ signature bs (bare (plug r l k)) }
{}
