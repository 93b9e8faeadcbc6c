// Laws of members, each the contract of a function that does nothing.

ghost use Rattle.std.specs.Prelude.{List};
ghost use Rattle.fa_back.specs.Insides.{AreRankedInsides};
ghost use Rattle.fa_core.specs.Boxes.{IsTableOf};
ghost use Rattle.fa_core.specs.Filled.{IsSound};
ghost use Rattle.fa_core.specs.Member.{Stands};
ghost use Rattle.fa_core.specs.declared.boxes.BoxDef.{BoxDef};
ghost use Rattle.fa_core.specs.declared.faces.Face.{Face};
ghost use Rattle.fa_core.specs.declared.forest.Forest.{Forest};
ghost use Rattle.fore_base.specs.Lists.{Every};
ghost use Rattle.fore_base.specs.declared.store.Store.{Store};
ghost use Rattle.ta_core.specs.Auto.{IsRanked};

/// Every sound forest has a member, by each table over its face whose insides have rules with as many children as their
/// symbols.
pub fn sound_forests_have_members()
    ensures { (face : Face) (T : List BoxDef) (F : Forest) → IsTableOf face T → AreRankedInsides T → IsSound face F
        → Every IsRanked F.autos → (s : Store) × Stands face.shapes.structs T F s }
{}
