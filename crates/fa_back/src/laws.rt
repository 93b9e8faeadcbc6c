// Laws of ways back and reached roots, each the contract of a function that does nothing.

ghost use Rattle.std.specs.Prelude.{◌≡◌, ◌↔◌, ◌<◌, ℕ, List, length, Some};
ghost use Rattle.fore_base.specs.Heap.{Leaked};
ghost use Rattle.fore_base.specs.Lists.{IsIn, Every, IsDistinct, Paired};
ghost use Rattle.fore_base.specs.declared.store.Store.{Store};
ghost use Rattle.ta_core.specs.Auto.{Automaton, IsRanked};
ghost use Rattle.ta_core.specs.declared.tree.Tree.{Tree};
ghost use Rattle.fa_core.specs.declared.faces.BoxFace.{BoxFace};
ghost use Rattle.fa_core.specs.declared.faces.Face.{Face};
ghost use Rattle.fa_core.specs.declared.forest.Forest.{Forest};
ghost use Rattle.fa_core.specs.declared.forest.Target.{Target};
ghost use Rattle.fa_core.specs.declared.signature.Signature.{Signature};
ghost use Rattle.fa_core.specs.Boxes.{Boxes, IsBoxTable, IsReached, LeadsUp, LeadsNowhere, heads};
ghost use Rattle.fa_core.specs.Canonical.{RefersTo, var_roots};
ghost use Rattle.fa_core.specs.Choices.{bares};
ghost use Rattle.fa_core.specs.Dressed.{Node, Nodes, facts, number, roots_of, tree_facts};
ghost use Rattle.fa_core.specs.Filled.{IsFilled};
ghost use Rattle.fa_core.specs.Member.{StandsBy};
ghost use Rattle.fa_back.specs.Insides.{IsInside, AreRankedInsides, ReachesAll, AlwaysReaches, NeverReaches};
ghost use Rattle.fa_back.specs.Reached.{RootReached, SignReached, IsSignedBy, AllNameBelow, IsDressedBy, CellReached};
ghost use Rattle.fa_back.specs.Reached.{node_at, AreSignaturesOf};

/// Which roots are reached follows from the signatures of the trees alone. Signatures of trees that refer to roots that
/// are there name these alone, as `reached` asks; so do those of the components of an inside.
pub fn roots_follow_signatures()
    ensures same { (bs : List BoxFace) (vars : List Target) (ts : List Tree) (ss : List Signature)
        → Paired (IsSignedBy bs) ts ss → (r : ℕ)
        → (RootReached bs vars ts r ↔ SignReached ss (var_roots vars) r) }
    ensures within { (bs : List BoxFace) (n : ℕ) (ts : List Tree) (ss : List Signature) → Paired (IsSignedBy bs) ts ss
        → ((t : Tree) (k : ℕ) → IsIn t ts → RefersTo t k → k < n) → AllNameBelow n ss }
    ensures inside { (face : Face) (x : BoxFace) (autos : List Automaton) (ss : List Signature)
        → IsInside face x autos → AreSignaturesOf face.boxes autos ss
        → (length ss ≡ length autos) × AllNameBelow (length ss) ss }
{}

/// Which cells of a dressed forest are reached, by which of its roots are, through boxes of any level. Where a root is
/// reached, each cell of its tree is, those of the insides of its box edges with the others; and where all cells
/// differ, the cell of a root is reached only if the root is. A cell in the middle of a tree may be reached by a way
/// back alone, where the root of the tree is not.
pub fn cells_follow_roots()
    ensures tree { (t : Boxes) (F : Forest) (d : Nodes) → IsDressedBy t F d → (r : ℕ) (x : Node)
        → node_at d r ≡ Some x → RootReached t.face.boxes F.vars (bares d) r → (n : ℕ)
        → IsIn n (heads (tree_facts (roots_of d) x)) → CellReached F d n }
    ensures all { (t : Boxes) (F : Forest) (d : Nodes) → IsDressedBy t F d
        → ((r : ℕ) (x : Node) → node_at d r ≡ Some x → RootReached t.face.boxes F.vars (bares d) r) → (n : ℕ)
        → IsIn n (heads (facts d)) → CellReached F d n }
    ensures root { (t : Boxes) (F : Forest) (d : Nodes) → IsDressedBy t F d → IsDistinct (heads (facts d)) → (r : ℕ)
        (x : Node) → node_at d r ≡ Some x → CellReached F d (number x)
        → RootReached t.face.boxes F.vars (bares d) r }
{}

/// A member of a filled forest, by a table of sound boxes, has leaked exactly where some root of its dressed forest is
/// not reached.
pub fn leaks_follow_roots()
    ensures leaked { (t : Boxes) (F : Forest) (d : Nodes) (s : Store) → IsBoxTable t → IsFilled t.face F
        → StandsBy t.face.shapes.structs t.defs F d s → (r : ℕ) (x : Node) → node_at d r ≡ Some x
        → (RootReached t.face.boxes F.vars (bares d) r → ⊥) → Leaked s }
    ensures kept { (t : Boxes) (F : Forest) (d : Nodes) (s : Store) → IsBoxTable t → IsFilled t.face F
        → StandsBy t.face.shapes.structs t.defs F d s
        → ((r : ℕ) (x : Node) → node_at d r ≡ Some x → RootReached t.face.boxes F.vars (bares d) r)
        → Leaked s → ⊥ }
{}

/// From the input of a box all of each inside is reached exactly where, for each choice of signatures of the
/// components, the closure of the input holds every component. That the closure is enough asks nothing of the number of
/// children of rules; `ranked_insides` says of a table what the other way asks.
pub fn insides_follow_signatures()
    ensures reached { (t : Boxes) (x : BoxFace) (autos : List Automaton) → IsBoxTable t → IsInside t.face x autos
        → ReachesAll t.face.boxes autos 0 → IsReached t.defs x autos }
    ensures closed { (t : Boxes) (x : BoxFace) (autos : List Automaton) → IsBoxTable t → IsInside t.face x autos
        → AreRankedInsides t.defs → Every IsRanked autos → IsReached t.defs x autos
        → ReachesAll t.face.boxes autos 0 }
{}

/// From the output of a box the input is reached in each inside exactly where, for each choice of signatures of the
/// components, the closure of the output holds the input; and in no inside whose cells differ exactly where it never
/// does.
pub fn back_follows_signatures()
    ensures up { (t : Boxes) (x : BoxFace) (out : ℕ) (autos : List Automaton) → IsBoxTable t → IsInside t.face x autos
        → x.output ≡ Some out → AlwaysReaches t.face.boxes autos 1 0 → LeadsUp t.defs autos }
    ensures nowhere { (t : Boxes) (x : BoxFace) (out : ℕ) (autos : List Automaton) → IsBoxTable t
        → IsInside t.face x autos → x.output ≡ Some out → NeverReaches t.face.boxes autos 1 0
        → LeadsNowhere t.defs autos }
    ensures always { (t : Boxes) (x : BoxFace) (out : ℕ) (autos : List Automaton) → IsBoxTable t
        → IsInside t.face x autos → AreRankedInsides t.defs → Every IsRanked autos → x.output ≡ Some out
        → LeadsUp t.defs autos → AlwaysReaches t.face.boxes autos 1 0 }
    ensures never { (t : Boxes) (x : BoxFace) (out : ℕ) (autos : List Automaton) → IsBoxTable t
        → IsInside t.face x autos → AreRankedInsides t.defs → Every IsRanked autos → x.output ≡ Some out
        → LeadsNowhere t.defs autos → NeverReaches t.face.boxes autos 1 0 }
{}
