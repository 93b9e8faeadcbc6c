// Laws of folding, each the contract of a function that does nothing.

ghost use Rattle.std.specs.Prelude.{◌≡◌, ℕ, List, length, Option, Some, slice_get};
ghost use Rattle.fore_base.specs.declared.shape.Shape.{Shape};
ghost use Rattle.fore_base.specs.declared.store.Store.{Store};
ghost use Rattle.ta_core.specs.declared.tree.Tree.{Tree};
ghost use Rattle.fa_core.specs.Boxes.{Boxes};
ghost use Rattle.fa_core.specs.Filled.{Choice, ChoiceFilled, IsSound};
ghost use Rattle.fa_core.specs.Folding.{FoldOf, IsPart, IsPartWithin};
ghost use Rattle.fa_core.specs.Member.{Stands};
ghost use Rattle.fa_core.specs.declared.boxes.BoxDef.{BoxDef};
ghost use Rattle.fa_core.specs.declared.forest.Forest.{Forest};
ghost use Rattle.fa_folding.specs.Folds.{FoldsInto};
ghost use Rattle.fa_folding.specs.Made.{IsFoldOf, folded_forest, kept_first, kept_of, new_output};
ghost use Rattle.fa_merge.specs.Reordered.{counted, reordered};
ghost use Rattle.fa_unfold.specs.Sites.{IsOver};

/// Each dressed forest is, with the part of the fold put inside a box edge, one of the forest after the fold: that edge
/// opens into the part, so the facts stay; and so does each other cell and slot. This is so over the boxes of the
/// table:
/// over other boxes of the same faces an edge has other insides.
pub fn folds_keep_forests()
    ensures { (t : Boxes) (F G : Forest) (n i : ℕ) (out : Option ℕ) (g : BoxDef) → IsOver t F
        → FoldOf t.face.boxes t.defs F G n i out g → FoldsInto t.defs F G }
{}

/// So each member of the forest before the fold is one of the forest after it.
pub fn folds_keep_members()
    ensures { (hs : List Shape) (T : List BoxDef) (F G : Forest) (s : Store) → FoldsInto T F G → Stands hs T F s
        → Stands hs T G s }
{}

/// The forest after a fold is filled: whichever trees are taken, each has a cell at its top, each target names a root
/// that is there, and each field of each cell is given once.
pub fn folded_trees_are_filled()
    ensures { (t : Boxes) (F G : Forest) (n i : ℕ) (out : Option ℕ) (g : BoxDef) → IsOver t F
        → FoldOf t.face.boxes t.defs F G n i out g → (us : List Tree) → Choice G.autos us
        → ChoiceFilled t.face G us }
{}

/// The forest that is made of a forest with its roots in the order of those that are kept, and the inner roots of the
/// part behind them, is the one after the fold.
pub fn folds_are_made()
    ensures { (t : Boxes) (F : Forest) (n i : ℕ) (out : Option ℕ) (def g : BoxDef) → IsOver t F
        → slice_get t.defs n ≡ Some def → (p : IsPart t.face.boxes F def i out g) → IsPartWithin g def
        → IsFoldOf t.face.boxes t.defs F n i out g p.ports p.inner }
{}

/// It is sound, where the forest with its roots in that order is.
pub fn folds_are_sound()
    ensures { (t : Boxes) (F : Forest) (n i : ℕ) (out : Option ℕ) (def g : BoxDef) → IsOver t F
        → slice_get t.defs n ≡ Some def → (p : IsPart t.face.boxes F def i out g) → IsPartWithin g def
        → IsSound t.face (reordered (kept_first F p.inner) F)
        → IsSound t.face (folded_forest t.face.boxes p.ports n i (new_output p.inner out)
        (kept_of p.inner (counted 0 (length F.autos))) (reordered (kept_first F p.inner) F)) }
{}
