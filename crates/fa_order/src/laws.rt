// Laws of canonical forests, each the contract of a function that does nothing.

ghost use Rattle.std.specs.Prelude.{◌≡◌, List, map};
ghost use Rattle.fore_base.specs.Lists.{Every, Paired};
ghost use Rattle.ta_core.specs.Language.{IsWithin};
ghost use Rattle.ta_core.specs.Single.{HasOneTop};
ghost use Rattle.ta_core.specs.declared.tree.Tree.{Tree};
ghost use Rattle.fa_core.specs.Canonical.{IsCanonical};
ghost use Rattle.fa_core.specs.Filled.{Choice, IsWellFormed};
ghost use Rattle.fa_core.specs.declared.faces.Face.{Face};
ghost use Rattle.fa_core.specs.declared.forest.Forest.{Forest};
ghost use Rattle.fa_merge.specs.Reached.{AreAllReached};
ghost use Rattle.fa_order.specs.Kinds.{HasRootKinds};
ghost use Rattle.fa_order.specs.Outlines.{outline};

/// The law on outlines: a well-formed forest is canonical if each component has one root state with one rule, and each
/// choice of trees has the outlines of a choice of a canonical forest with the same targets. Box edges are no
/// exception.
pub fn outlines_keep_canonical()
    ensures { (face : Face) (F G : Forest) → IsCanonical face F → IsWellFormed face G → Every HasOneTop G.autos
        → G.vars ≡ F.vars
        → ((ts : List Tree) → Choice G.autos ts → (us : List Tree) × Choice F.autos us
        × (map (outline face.boxes) ts ≡ map (outline face.boxes) us)) → IsCanonical face G }
{}

/// Where each tree of a component is one of a canonical forest's in its place, with the same targets, uniform
/// signatures and one top keep the forest canonical. Box edges are no exception.
pub fn smaller_languages_keep_canonical()
    ensures { (face : Face) (F G : Forest) → IsCanonical face F → IsWellFormed face G → Every HasOneTop G.autos
        → G.vars ≡ F.vars → Paired IsWithin G.autos F.autos → IsCanonical face G }
{}

/// A canonical forest has the roots of one.
pub fn canonical_forests_have_root_kinds()
    ensures { (face : Face) (F : Forest) → IsCanonical face F → HasRootKinds face F }
{}

/// Each root of a canonical forest is reached.
pub fn canonical_forests_are_reached()
    ensures { (face : Face) (F : Forest) → IsCanonical face F → AreAllReached face F }
{}
