// Laws of canonical forests without box edges, each the contract of a function that does nothing.

ghost use Rattle.std.specs.Prelude.{◌≡◌, ◌↔◌, List};
ghost use Rattle.fa_core.specs.Boxes.{IsTableOf};
ghost use Rattle.fa_core.specs.Covering.{Covers};
ghost use Rattle.fa_core.specs.Dressed.{Nodes};
ghost use Rattle.fa_core.specs.Filled.{HasSome};
ghost use Rattle.fa_core.specs.Member.{Stands, StandsBy};
ghost use Rattle.fa_core.specs.declared.boxes.BoxDef.{BoxDef};
ghost use Rattle.fa_core.specs.declared.faces.Face.{Face};
ghost use Rattle.fa_core.specs.declared.forest.Forest.{Forest};
ghost use Rattle.fa_unique.specs.Presented.{IsPlainCanonical, PresentAlike};
ghost use Rattle.fore_base.specs.Heap.{IsAlike};
ghost use Rattle.fore_base.specs.Lists.{Every};
ghost use Rattle.fore_base.specs.declared.store.Store.{Store};
ghost use Rattle.ta_core.specs.Auto.{IsRanked};

/// Two canonical forests without box edges over one face that have a member in common have for it one dressed forest,
/// the same targets and the same data. Where the one has a member and the other one that is alike to it, their dressed
/// forests are equal up to the numbers of cells. Each may have a box table of its own, since no box is looked into.
pub fn one_canonical_form()
    ensures same { (face : Face) (F G : Forest) (T U : List BoxDef) (d e : Nodes) (s : Store) → IsPlainCanonical face F
        → IsPlainCanonical face G → StandsBy face.shapes.structs T F d s → StandsBy face.shapes.structs U G e s
        → (d ≡ e) × (F.vars ≡ G.vars) × (F.data_vars ≡ G.data_vars) }
    ensures alike { (face : Face) (F G : Forest) (T U : List BoxDef) (d e : Nodes) (s t : Store)
        → IsPlainCanonical face F → IsPlainCanonical face G → StandsBy face.shapes.structs T F d s
        → StandsBy face.shapes.structs U G e t → IsAlike s t → PresentAlike F G d e }
{}

/// Of two canonical forests without box edges over one face the one covers the other exactly where each member of the
/// other, by one table over the face, is one of it. Of the other no component is empty, and its rules have as many
/// children as their symbols: so each tree of each component is part of a member.
pub fn members_tell_covering()
    ensures { (face : Face) (T : List BoxDef) (F G : Forest) → IsTableOf face T → IsPlainCanonical face F
        → IsPlainCanonical face G → Every HasSome G.autos → Every IsRanked G.autos
        → (Covers F G ↔ ((s : Store) → Stands face.shapes.structs T G s → Stands face.shapes.structs T F s)) }
{}
