// Laws of the face of a box, each the contract of a function that does nothing.

ghost use Rattle.std.specs.Prelude.{◌≡◌, ℕ, List, Option};
ghost use Rattle.fa_back.specs.Insides.{AreRankedInsides};
ghost use Rattle.fa_box_rules.specs.Rules.{IsWellNamed, IsUnbroken};
ghost use Rattle.fa_core.specs.Boxes.{Boxes, IsBoxTable, SoundBox};
ghost use Rattle.fa_core.specs.declared.faces.BoxFace.{BoxFace};
ghost use Rattle.fa_core.specs.declared.forest.Forest.{Forest};
ghost use Rattle.fa_faces.specs.Faults.{box_inside, IsFaultOf};
ghost use Rattle.fa_faces.specs.declared.fault.FaceFault.{FaceFault};
ghost use Rattle.fa_faces.specs.declared.fault.FaceFault.TheVariants.{Memory};

/// A well named box that is unbroken with a face is sound with it, under any name. A sound one is unbroken with no
/// other face, and breaks no rule.
pub fn faces_are_exact()
    ensures sound { (t : Boxes) (input : ℕ) (output : Option ℕ) (inside : Forest)
        → IsWellNamed t.face (box_inside input output inside.autos) → (x : BoxFace)
        → IsUnbroken t.face t.defs (box_inside input output inside.autos) x → (n : List ℕ)
        → SoundBox t.face t.defs (record { name = n; face = x; inside = inside }) }
    ensures one { (t : Boxes) (input : ℕ) (output : Option ℕ) (inside : Forest)
        → IsWellNamed t.face (box_inside input output inside.autos) → IsBoxTable t → AreRankedInsides t.defs
        → (n : List ℕ) (x : BoxFace) → x.input ≡ input → x.output ≡ output
        → SoundBox t.face t.defs (record { name = n; face = x; inside = inside }) → (y : BoxFace)
        → IsUnbroken t.face t.defs (box_inside input output inside.autos) y → y ≡ x }
    ensures none { (t : Boxes) (input : ℕ) (output : Option ℕ) (inside : Forest)
        → IsWellNamed t.face (box_inside input output inside.autos) → IsBoxTable t → AreRankedInsides t.defs
        → (n : List ℕ) (x : BoxFace) → x.input ≡ input → x.output ≡ output
        → SoundBox t.face t.defs (record { name = n; face = x; inside = inside }) → (e : FaceFault)
        → IsFaultOf t.face t.defs (box_inside input output inside.autos) e → e ≡ Memory }
{}
