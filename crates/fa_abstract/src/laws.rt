// The law of abstraction, the contract of a function that does nothing.

ghost use Rattle.std.specs.Prelude.{◌≤◌, ℕ};
ghost use Rattle.fore_base.specs.Lists.{Every};
ghost use Rattle.ta_core.specs.Auto.{IsRanked};
ghost use Rattle.ta_core.specs.Language.{IsTrim};
ghost use Rattle.fa_core.specs.Canonical.{IsCanonical};
ghost use Rattle.fa_core.specs.declared.faces.Face.{Face};
ghost use Rattle.fa_core.specs.declared.forest.Forest.{Forest};
ghost use Rattle.fa_height.specs.Quotients.{Quotient};

/// The quotient, by a height of at least 1, of a canonical forest each of whose states takes part in an accepted tree
/// of its component is canonical.
pub fn quotients_keep_canonical()
    ensures { (face : Face) (F G : Forest) (k : ℕ) → IsCanonical face F → Every IsRanked F.autos
        → Every IsTrim F.autos → 1 ≤ k → Quotient face.boxes F k G → IsCanonical face G }
{}
