// Laws of lifting, each the contract of a function that does nothing. They hold for every table of boxes.

ghost use Rattle.std.specs.Prelude.{◌<◌, ℕ, List, length};
ghost use Rattle.fore_base.specs.Lists.{IsIn, Every};
ghost use Rattle.ta_core.specs.Auto.{Automaton, IsRanked};
ghost use Rattle.ta_core.specs.declared.auto.Rule.{Rule};
ghost use Rattle.fa_core.specs.Filled.{HasSome, IsSound};
ghost use Rattle.fa_core.specs.Member.{Regroups, RegroupsInto};
ghost use Rattle.fa_core.specs.declared.boxes.BoxDef.{BoxDef};
ghost use Rattle.fa_core.specs.declared.faces.Face.{Face};
ghost use Rattle.fa_core.specs.declared.forest.Forest.{Forest};
ghost use Rattle.fa_sound.specs.Components.{component_at};
ghost use Rattle.fa_signatures.specs.CutPieces.{IsPiece};
ghost use Rattle.fa_lift.specs.Lift.{HaveLifts, IsLiftOf, IsProvider, Owns, hatted, lift_in, lift_top, owner};

/// Where a rule owns the edge, the forest in which it stands at the top of its component regroups the first, is sound,
/// and has the cell of the edge as a root with one rule.
pub fn cells_are_lifted_at_the_top()
    ensures { (T : List BoxDef) (face : Face) (F : Forest) (r f t : ℕ) (x : Rule) (p : ℕ)
        → Every IsRanked F.autos → t < length F.autos → IsSound face F
        → Owns face.boxes r f (component_at F.autos t) x p → IsIn x.state (component_at F.autos t).roots
        → HasSome (owner (component_at F.autos t) x p r)
        → Regroups T F (lift_top F r t x p) × IsSound face (lift_top F r t x p)
        × IsLiftOf face.boxes F r f t (lift_top F r t x p) }
{}

/// So does each in which the cell is a new last root, for each piece by signature of what is left of the component.
pub fn cells_are_lifted_inside()
    ensures { (T : List BoxDef) (face : Face) (F : Forest) (r f t : ℕ) (x : Rule) (p : ℕ) (c : Automaton)
        → Every IsRanked F.autos → t < length F.autos → IsSound face F
        → Owns face.boxes r f (component_at F.autos t) x p → HasSome (owner (component_at F.autos t) x p r)
        → IsRanked c → IsPiece face.boxes (hatted (component_at F.autos t) x.state (length F.autos)) c
        → Regroups T F (lift_in F r t x p c) × IsSound face (lift_in F r t x p c)
        × IsLiftOf face.boxes F r f t (lift_in F r t x p c) }
{}

/// Where an edge of the component gives the field to the root, none of the dressed forests is lost in a list that has
/// the forests of each owner.
pub fn lifting_loses_nothing()
    ensures { (T : List BoxDef) (face : Face) (F : Forest) (r f t : ℕ) (Gs : List Forest)
        → Every IsRanked F.autos → IsSound face F → IsProvider face.boxes F r f t → HaveLifts face.boxes F r f t Gs
        → RegroupsInto T F Gs }
{}
