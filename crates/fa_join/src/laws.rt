// Laws of joining, each the contract of a function that does nothing.

ghost use Rattle.std.specs.Prelude.{List};
ghost use Rattle.fore_base.specs.Lists.{Every};
ghost use Rattle.ta_core.specs.Auto.{IsRanked};
ghost use Rattle.fa_core.specs.Canonical.{IsCanonical};
ghost use Rattle.fa_core.specs.Faces.{IsGiving};
ghost use Rattle.fa_core.specs.Filled.{IsSound};
ghost use Rattle.fa_core.specs.declared.faces.BoxFace.{BoxFace};
ghost use Rattle.fa_core.specs.declared.faces.Face.{Face};
ghost use Rattle.fa_core.specs.declared.forest.Forest.{Forest};
ghost use Rattle.fa_join.specs.Joinable.{Joinable};
ghost use Rattle.fa_join.specs.Joined.{Joins};

/// Which of two forests comes first has no bearing on whether they can be joined.
pub fn joinable_back()
    ensures { (bs : List BoxFace) (F G : Forest) → Joinable bs F G → Joinable bs G F }
{}

/// Two canonical forests that can be joined have a canonical forest with the dressed forests of both, where boxes that
/// lead back give their output something, as those of each table do.
pub fn joinable_forests_have_one()
    ensures { (face : Face) (F G : Forest) → Every IsRanked F.autos → Every IsRanked G.autos
        → Every IsGiving face.boxes → IsSound face F → IsSound face G → IsCanonical face F → IsCanonical face G
        → Joinable face.boxes F G → (J : Forest) × IsSound face J × IsCanonical face J × Joins F G J }
{}
