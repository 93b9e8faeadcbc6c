// Laws on forests, each the contract of a function that does nothing.

ghost use Rattle.std.specs.Prelude.{◌≡◌, ◌⊎◌, ◌<◌, ℕ, List, Some, length, slice_get};
ghost use Rattle.fore_base.specs.Lists.{Every, Paired};
ghost use Rattle.ta_core.specs.Auto.{Automaton, IsRanked};
ghost use Rattle.ta_core.specs.Language.{InLanguage};
ghost use Rattle.ta_core.specs.declared.tree.Tree.{Tree};
ghost use Rattle.fa_core.specs.Boxes.{IsTableOf};
ghost use Rattle.fa_core.specs.Boxless.{HasNoBoxes};
ghost use Rattle.fa_core.specs.Faces.{IsGiving};
ghost use Rattle.fa_core.specs.Filled.{IsFilled, IsSound};
ghost use Rattle.fa_core.specs.Member.{Regroups, bare};
ghost use Rattle.fa_core.specs.Ways.{signature};
ghost use Rattle.fa_core.specs.declared.boxes.BoxDef.{BoxDef};
ghost use Rattle.fa_core.specs.declared.faces.BoxFace.{BoxFace};
ghost use Rattle.fa_core.specs.declared.faces.Face.{Face};
ghost use Rattle.fa_core.specs.declared.forest.Forest.{Forest};
ghost use Rattle.fa_core.specs.declared.forest.Target.{Target};
ghost use Rattle.fa_core.specs.Dressed.{Node};
ghost use Rattle.fa_back.specs.Insides.{AreRankedInsides};
ghost use Rattle.fa_back.specs.Reached.{RootReached};
ghost use Rattle.fa_merge.specs.Dropped.{CanDrop, IsCut, IsFlat, IsIdle, Removes, Restores, dropped_forest};
ghost use Rattle.fa_merge.specs.Merged.{CanMerge, Refers, merged_at};
ghost use Rattle.fa_merge.specs.Reached.{AlwaysLeaks, AreAllReached, DoAllLeak, DoesNoneLeak, HasMembers};
ghost use Rattle.fa_merge.specs.Reached.{IsLeastUnreached, IsUnreached, NeverLeaks};
ghost use Rattle.fa_merge.specs.Reordered.{IsOrderOf, reordered};

/// Which roots are reached follows from the targets and the signatures alone.
pub fn reaching_follows_signatures()
    ensures { (bs : List BoxFace) (vs : List Target) (ts us : List Tree) (r : ℕ)
        → Paired (λ t u. signature bs t ≡ signature bs u) ts us → RootReached bs vs ts r → RootReached bs vs us r }
{}

/// In a sound forest each root is reached whichever trees are taken, or there is a least root that is not, whichever
/// trees are taken.
pub fn reaching_is_decided()
    ensures { (face : Face) (F : Forest) → IsSound face F → AreAllReached face F
        ⊎ ((r : ℕ) × IsLeastUnreached face F r) }
{}

/// Where each root of a forest is reached, so is each root of a forest that is regrouped into it for every box table,
/// if each face that leads back gives its output something, or the forest has no box edge. So where two sound forests
/// regroup each other and a root of the one is not reached, a least root of the other is not.
pub fn regrouping_keeps_reached()
    ensures kept { (face : Face) (F G : Forest) → Every IsGiving face.boxes ⊎ Every HasNoBoxes F.autos
        → IsFilled face F → IsFilled face G → Every IsRanked G.autos → ((T : List BoxDef) → Regroups T F G)
        → AreAllReached face F → AreAllReached face G }
    ensures unreached { (face : Face) (F G : Forest) (r : ℕ) → Every IsGiving face.boxes ⊎ Every HasNoBoxes G.autos
        → IsSound face F → IsSound face G → Every IsRanked F.autos → ((T : List BoxDef) → Regroups T G F)
        → IsLeastUnreached face F r → (k : ℕ) × IsLeastUnreached face G k }
{}

/// No member of a filled forest leaks where each root is reached, and every member leaks where some root is not.
pub fn leaks_follow_roots()
    ensures never { (face : Face) (F : Forest) → IsFilled face F → AreAllReached face F → NeverLeaks face F }
    ensures always { (face : Face) (F : Forest) (r : ℕ) → IsFilled face F → r < length F.autos → IsUnreached face F r
        → AlwaysLeaks face F }
    ensures never_plain { (face : Face) (F : Forest) → Every HasNoBoxes F.autos → AreAllReached face F
        → NeverLeaks face F }
    ensures always_plain { (face : Face) (F : Forest) (r : ℕ) → Every HasNoBoxes F.autos → r < length F.autos
        → IsUnreached face F r → AlwaysLeaks face F }
{}

/// No member of a sound forest leaks, or every member does.
pub fn all_leak_or_none()
    ensures { (face : Face) (F : Forest) → IsSound face F → NeverLeaks face F ⊎ AlwaysLeaks face F }
{}

/// Each sound forest has a member, by each table over its face whose insides have rules with as many children as their
/// symbols. So not all of its members by such a table leak where none does.
pub fn sound_forests_have_members()
    ensures members { (face : Face) (F : Forest) → IsSound face F → Every IsRanked F.autos → HasMembers face F }
    ensures one { (face : Face) (T : List BoxDef) (F : Forest) → IsTableOf face T → AreRankedInsides T → IsSound face F
        → Every IsRanked F.autos → DoAllLeak face T F → DoesNoneLeak face T F → ⊥ }
{}

/// The law of other orders: a forest and the one whose roots stand in another order regroup each other, for every box
/// table.
pub fn orders_regroup()
    ensures whole { (T : List BoxDef) (F : Forest) (order : List ℕ) → IsOrderOf F order
        → Regroups T (reordered order F) F }
    ensures regroups { (T : List BoxDef) (F : Forest) (order : List ℕ) → IsOrderOf F order
        → Regroups T F (reordered order F) }
{}

/// The law of merging: where a root that can be merged is merged into the root whose trees refer to it, the forest and
/// the result regroup each other, for every box table.
pub fn merging_regroups()
    ensures whole { (T : List BoxDef) (face : Face) (F : Forest) (r i : ℕ) → IsSound face F → Every IsRanked F.autos
        → CanMerge F r
        → Refers F i r → Regroups T (merged_at r i F) F }
    ensures regroups { (T : List BoxDef) (face : Face) (F : Forest) (r i : ℕ) → IsSound face F → Every IsRanked F.autos
        → CanMerge F r
        → Refers F i r → Regroups T F (merged_at r i F) }
{}

/// The law of dropping: where a root that can be dropped has a dressed tree, the forest without it is the forest cut,
/// on dressed forests and for every box table.
pub fn dropping_cuts()
    ensures { (T : List BoxDef) (bs : List BoxFace) (F : Forest) (r : ℕ) (n : Node) → CanDrop bs F r → IsFlat (bare n)
        → ((a : Automaton) × (slice_get F.autos r ≡ Some a) × InLanguage a (bare n))
        → IsCut T F (dropped_forest r F) r }
{}

/// The law of dropping on stores, for each table over the face: where the root is idle, the members of a forest that is
/// cut are those of the forest with the root's cell removed and each value that named it Dangling, up to alike.
pub fn dropping_removes()
    ensures removes { (face : Face) (T : List BoxDef) (F G : Forest) (r : ℕ) → IsTableOf face T → IsFilled face F
        → IsIdle face.boxes F r → IsCut T F G r → Removes face.shapes.structs T F G r }
    ensures restores { (face : Face) (T : List BoxDef) (F G : Forest) (r : ℕ) → IsTableOf face T → IsFilled face F
        → IsIdle face.boxes F r → IsCut T F G r → Restores face.shapes.structs T F G r }
{}

/// The root of a forest without box edges is idle, and so is one that can be dropped.
pub fn roots_are_idle()
    ensures plain { (bs : List BoxFace) (F : Forest) (r : ℕ) → Every HasNoBoxes F.autos → IsIdle bs F r }
    ensures dropped { (face : Face) (F : Forest) (r : ℕ) → IsSound face F → Every IsRanked F.autos
        → CanDrop face.boxes F r → IsIdle face.boxes F r }
{}
