// Laws of forests, each the contract of a function that does nothing.

ghost use Rattle.std.specs.Prelude.{◌≡◌, ◌↔◌, ℕ, [], List, map, flat_map};
ghost use Rattle.fa_core.specs.Boxes.{Boxes, IsBoxTable};
ghost use Rattle.fa_core.specs.Boxless.{IsPlain, HasNoBoxes};
ghost use Rattle.fa_core.specs.Cells.{below_of, marks_by};
ghost use Rattle.fa_core.specs.Choices.{bares, all_numbers, IsNumbered, HasInsides};
ghost use Rattle.fa_core.specs.Covering.{Covers};
ghost use Rattle.fa_core.specs.Dressed.{Node, Nodes, refs, leaf_refs};
ghost use Rattle.fa_core.specs.Faces.{IsGiving, IsSortedFace};
ghost use Rattle.fa_core.specs.Filled.{Choice, TopsAre, HasSignatures, IsFilled, IsSound};
ghost use Rattle.fa_core.specs.Formed.{IsFormed};
ghost use Rattle.fa_core.specs.Member.{bare, InsidesOf, OfForest, Stands, Regroups, RegroupsInto};
ghost use Rattle.fa_core.specs.Placed.{placed, placed_auto};
ghost use Rattle.fa_core.specs.References.{tree_refs, plain_marks, RefersAlike};
ghost use Rattle.fa_core.specs.Ways.{signature};
ghost use Rattle.fa_core.specs.declared.boxes.BoxDef.{BoxDef};
ghost use Rattle.fa_core.specs.declared.faces.BoxFace.{BoxFace};
ghost use Rattle.fa_core.specs.declared.faces.Face.{Face};
ghost use Rattle.fa_core.specs.declared.forest.Forest.{Forest};
ghost use Rattle.fa_core.specs.declared.forest.Target.{Target};
ghost use Rattle.fore_base.specs.Heap.{IsAlike, IsProper};
ghost use Rattle.fore_base.specs.Lists.{IsIn, Every};
ghost use Rattle.fore_base.specs.declared.shape.Shape.{Shape};
ghost use Rattle.fore_base.specs.declared.store.Store.{Store};
ghost use Rattle.ta_core.specs.Auto.{Automaton, IsRanked};
ghost use Rattle.ta_core.specs.Language.{InLanguage, RunOf};
ghost use Rattle.ta_core.specs.declared.auto.Rule.{Rule};
ghost use Rattle.ta_core.specs.declared.tree.Tree.{Tree, out-Tree};

/// The law of regrouping: where each dressed forest of G can be regrouped into one of F, each member of G is one of F.
pub fn regrouped_members()
    ensures { (hs : List Shape) (T : List BoxDef) (F G : Forest) (s : Store) → Regroups T F G → Stands hs T G s
        → Stands hs T F s }
{}

/// Where each dressed forest of F can be regrouped into one of some forest of a list, each member of F is one of some
/// forest of the list.
pub fn split_members()
    ensures { (hs : List Shape) (T : List BoxDef) (F : Forest) (Gs : List Forest) (s : Store) → RegroupsInto T F Gs
        → Stands hs T F s → (G : Forest) × IsIn G Gs × Stands hs T G s }
{}

/// Regroupings compose, and each forest regroups itself.
pub fn regroupings_compose()
    ensures same { (T : List BoxDef) (F : Forest) → Regroups T F F }
    ensures composed { (T : List BoxDef) (F G H : Forest) → Regroups T F G → Regroups T G H → Regroups T F H }
{}

/// Where each forest of a list is itself regrouped into the forests of another, the first forest is regrouped into
/// those.
pub fn regroupings_pass_lists()
    ensures { (T : List BoxDef) (F : Forest) (Gs Hs : List Forest) → RegroupsInto T F Gs
        → ((G : Forest) → IsIn G Gs → RegroupsInto T G Hs) → RegroupsInto T F Hs }
{}

/// Each member of a forest is one of every forest that covers it.
pub fn covered_members()
    ensures { (hs : List Shape) (T : List BoxDef) (F G : Forest) (s : Store) → Covers F G
        → Stands hs T G s → Stands hs T F s }
{}

/// A store that is alike to a member is a member.
pub fn members_are_closed()
    ensures { (hs : List Shape) (T : List BoxDef) (F : Forest) (s t : Store) → Stands hs T F s → IsAlike s t
        → IsProper t
        → Stands hs T F t }
{}

/// The signature of a tree follows from its symbol, the signatures of its children, and which of these are leaves.
pub fn signatures_compose()
    ensures { (bs : List BoxFace) (t : Tree)
        → signature bs t ≡ marks_by bs (out-Tree t).symbol (map (below_of bs) (out-Tree t).children) }
{}

/// A sound forest whose face has no boxes has no Link and no Hook.
pub fn no_boxes_no_edges()
    ensures { (face : Face) (F : Forest) → IsSound face F → face.boxes ≡ [] → Every HasNoBoxes F.autos }
{}

/// In a table a box that leads back gives its output something, and the fields that a box gives at its ports rise.
pub fn tables_give()
    ensures gives { (t : Boxes) → IsBoxTable t → Every IsGiving t.face.boxes }
    ensures rises { (t : Boxes) → IsBoxTable t → Every IsSortedFace t.face.boxes }
{}

/// A forest is filled if a filled one regroups it, for every box table, and it has the form that an operation owes. Box
/// edges are no exception.
pub fn regroupings_keep_filled()
    ensures { (face : Face) (F G : Forest) → IsFilled face F → ((T : List BoxDef) → Regroups T F G) → IsFormed face G
        → IsFilled face G }
{}

/// Each choice of trees whose tops are cells is that of a dressed forest whose cells have the numbers 0, 1 and so on.
pub fn choices_are_dressed()
    ensures { (T : List BoxDef) (F : Forest) (ts : List Tree) (structs : List ℕ) → Every IsRanked F.autos
        → Every (HasInsides T) F.autos → Choice F.autos ts → TopsAre ts structs → (d : Nodes) × (bares d ≡ ts)
        × OfForest T F d × IsNumbered 0 (all_numbers d) }
{}

/// Where no rule has a box edge, the signature of a tree is read off the roots to which it refers.
pub fn signatures_without_boxes()
    ensures { (bs : List BoxFace) (rules : List Rule) (q : ℕ) (t : Tree) → Every (λ r. IsPlain r.symbol) rules
        → RunOf rules q t → signature bs t ≡ plain_marks (tree_refs t) }
{}

/// Where no rule has a box edge, signatures are uniform exactly where references are alike.
pub fn uniform_without_boxes()
    ensures { (bs : List BoxFace) (a : Automaton) → HasNoBoxes a → (HasSignatures bs a ↔ RefersAlike a) }
{}

/// The automaton with other leaves in the place of references accepts the trees with these leaves, and no others.
/// Insides stay, and the references are those of the leaves. Where no rule has a box edge, signatures stay uniform.
pub fn leaves_are_placed()
    ensures trees { (f : ℕ → Target) (a : Automaton) (n : Node) → InLanguage a (bare n)
        → InLanguage (placed_auto f a) (bare (placed f n)) }
    ensures alone { (f : ℕ → Target) (T : List BoxDef) (a : Automaton) (n : Node)
        → InLanguage (placed_auto f a) (bare n)
        → InsidesOf T n → (m : Node) × (placed f m ≡ n) × InLanguage a (bare m) × InsidesOf T m }
    ensures references { (f : ℕ → Target) (n : Node) → refs (placed f n) ≡ flat_map (λ k. leaf_refs (f k)) (refs n) }
    ensures signatures { (f : ℕ → Target) (bs : List BoxFace) (a : Automaton) → IsRanked a → HasNoBoxes a
        → HasSignatures bs a
        → HasSignatures bs (placed_auto f a) }
{}
