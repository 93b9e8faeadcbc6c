// Laws of boxes that are learnt, each the contract of a function that does nothing.

ghost use Rattle.std.specs.Prelude.{◌≡◌, ℕ};
ghost use Rattle.fore_base.specs.Lists.{IsIn};
ghost use Rattle.fa_core.specs.Boxes.{Boxes, HasNoVariables, IsBoxTable, SoundBox, names_of};
ghost use Rattle.fa_core.specs.Words.{IsWord};
ghost use Rattle.fa_core.specs.declared.boxes.BoxDef.{BoxDef};
ghost use Rattle.fa_core.specs.declared.faces.BoxFace.{BoxFace};
ghost use Rattle.fa_sound.specs.Soundness.{IsSigned, SoundForest};
ghost use Rattle.fa_back.specs.Insides.{AreRankedInsides};
ghost use Rattle.fa_box_rules.specs.Rules.{IsFaceOf, inside_of};
ghost use Rattle.fa_learn.specs.Learning.{IsBoxBetween, IsCandidate, IsSameBox};

/// Over a table, each candidate of a sound forest over its face is a sound box. Its name is a word that no box of the
/// table has, and its inside has no variables. So it can be put into the table.
pub fn candidates_are_sound()
    ensures sound { (t : Boxes) (s : SoundForest) (i j : ℕ) (g : BoxDef) → IsBoxTable t → IsSigned s → s.face ≡ t.face
        → IsCandidate t s.forest i j g → SoundBox t.face t.defs g }
    ensures word { (t : Boxes) (s : SoundForest) (i j : ℕ) (g : BoxDef) → IsBoxTable t
        → IsCandidate t s.forest i j g → IsWord g.name }
    ensures new { (t : Boxes) (s : SoundForest) (i j : ℕ) (g : BoxDef)
        → IsCandidate t s.forest i j g → IsIn g.name (names_of t.defs) → ⊥ }
    ensures inside { (t : Boxes) (s : SoundForest) (i j : ℕ) (g : BoxDef)
        → IsCandidate t s.forest i j g → HasNoVariables g }
{}

/// Of one pair of roots all candidates have one name, one face and the same trees.
pub fn one_candidate()
    ensures { (t : Boxes) (s : SoundForest) (i j : ℕ) (g h : BoxDef) → IsBoxTable t → AreRankedInsides t.defs
        → IsSigned s → s.face ≡ t.face → IsCandidate t s.forest i j g → IsCandidate t s.forest i j h
        → (g.name ≡ h.name) × IsSameBox g h }
{}

/// Each box of what stands between two roots of a sound forest has a face that its trees show.
pub fn boxes_have_faces()
    ensures { (t : Boxes) (s : SoundForest) (i j : ℕ) (g : BoxDef) → IsBoxTable t → IsSigned s → s.face ≡ t.face
        → IsBoxBetween s.forest i j g → (x : BoxFace) × IsFaceOf t.face t.defs (inside_of g) x }
{}
