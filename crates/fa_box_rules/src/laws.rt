// Laws of the rules of boxes, each the contract of a function that does nothing.

ghost use Rattle.std.specs.Prelude.{◌≡◌, ℕ, List};
ghost use Rattle.fore_base.specs.Lists.{Every};
ghost use Rattle.ta_core.specs.Auto.{IsRanked};
ghost use Rattle.fa_core.specs.Boxes.{Boxes, IsBoxTable, SoundBox, InsideRulesFit, port_fields};
ghost use Rattle.fa_core.specs.declared.boxes.BoxDef.{BoxDef};
ghost use Rattle.fa_core.specs.declared.faces.BoxFace.{BoxFace};
ghost use Rattle.fa_core.specs.declared.faces.Face.{Face};
ghost use Rattle.fa_core.specs.declared.forest.Forest.{Forest};
ghost use Rattle.fa_back.specs.Insides.{AreRankedInsides};
ghost use Rattle.fa_box_rules.specs.declared.rule.BoxRule.{BoxRule};
ghost use Rattle.fa_box_rules.specs.Rules.{Breaks, IsFaceOf, AreRefsThere, IsUnbroken, inside_of};

/// A sound box breaks none of the rules, and its face is the face of the box.
pub fn sound_boxes_break_none()
    ensures none { (face : Face) (T : List BoxDef) (b : BoxDef) → SoundBox face T b → (r : BoxRule)
        → Breaks face T (inside_of b) r → ⊥ }
    ensures face { (face : Face) (T : List BoxDef) (b : BoxDef) → SoundBox face T b
        → IsFaceOf face T (inside_of b) b.face }
{}

/// A box whose rules fit and whose references are to components is sound exactly where it meets what the rules ask.
pub fn unbroken_boxes_are_sound()
    ensures sound { (face : Face) (T : List BoxDef) (b : BoxDef)
        → InsideRulesFit face (port_fields b.face b.face.output) b.inside.autos → AreRefsThere b.inside.autos
        → IsUnbroken face T (inside_of b) b.face → SoundBox face T b }
    ensures unbroken { (face : Face) (T : List BoxDef) (b : BoxDef) → SoundBox face T b
        → IsUnbroken face T (inside_of b) b.face }
    ensures refs { (face : Face) (T : List BoxDef) (b : BoxDef) → SoundBox face T b → AreRefsThere b.inside.autos }
{}

/// An inside, with an output or without one, has at most one face by which it is a sound box over a table.
pub fn faces_are_one()
    ensures { (t : Boxes) (n m : List ℕ) (x y : BoxFace) (inside : Forest) → IsBoxTable t → AreRankedInsides t.defs
        → Every IsRanked inside.autos → x.output ≡ y.output
        → SoundBox t.face t.defs (record { name = n; face = x; inside = inside })
        → SoundBox t.face t.defs (record { name = m; face = y; inside = inside }) → x ≡ y }
{}
