// Laws of forests that are cut by signature, each the contract of a function that does nothing. Box edges are no
// exception.

ghost use Rattle.std.specs.Prelude.{List};
ghost use Rattle.fore_base.specs.Lists.{Every};
ghost use Rattle.fa_core.specs.Filled.{DatumFits, IsFilled, IsSound, RulesFit};
ghost use Rattle.fa_core.specs.Member.{Regroups, RegroupsInto};
ghost use Rattle.fa_core.specs.declared.boxes.BoxDef.{BoxDef};
ghost use Rattle.fa_core.specs.declared.faces.BoxFace.{BoxFace};
ghost use Rattle.fa_core.specs.declared.faces.Face.{Face};
ghost use Rattle.fa_core.specs.declared.forest.Forest.{Forest};
ghost use Rattle.fa_sound.specs.Unions.{IsUnionOf};
ghost use Rattle.fa_signatures.specs.CutForests.{IsCutForest, AreCutForests};

/// A forest regroups each of its parts, none of its dressed forests is lost in them, and together they have its
/// members.
pub fn parts_regroup()
    ensures regroups { (bs : List BoxFace) (F G : Forest) (T : List BoxDef) → IsCutForest bs F G → Regroups T F G }
    ensures lost { (bs : List BoxFace) (F : Forest) (Gs : List Forest) (T : List BoxDef) → AreCutForests bs F Gs
        → RegroupsInto T F Gs }
    ensures members { (bs : List BoxFace) (F : Forest) (Gs : List Forest) → AreCutForests bs F Gs → IsUnionOf F Gs }
{}

/// Each part is sound where each field of each cell is given exactly once; and this is so where the parts are sound,
/// and rules and data fit the face.
pub fn parts_are_sound()
    ensures parts { (face : Face) (F G : Forest) → IsCutForest face.boxes F G → IsFilled face F → IsSound face G }
    ensures whole { (face : Face) (F : Forest) (Gs : List Forest) → AreCutForests face.boxes F Gs
        → Every (IsSound face) Gs
        → Every (RulesFit face) F.autos → Every DatumFits F.data_vars → IsFilled face F }
{}
