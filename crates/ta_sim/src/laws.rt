// Laws of simulations, each stated once for the crates above.

ghost use Rattle.std.specs.Prelude.{◌<◌, ℕ, List};
ghost use Rattle.fore_base.specs.Lists.{Every};
ghost use Rattle.ta_core.specs.Auto.{IsRankedRule};
ghost use Rattle.ta_core.specs.Language.{RunOf};
ghost use Rattle.ta_core.specs.Simulations.{IsDownward, IsSimulated};
ghost use Rattle.ta_core.specs.declared.auto.Rule.{Rule};
ghost use Rattle.ta_core.specs.declared.tree.Tree.{Tree};

/// What some downward simulation relates is itself a downward simulation, the greatest one.
pub fn simulated_is_simulation()
    ensures { (rules : List Rule) → IsDownward rules (IsSimulated rules) }
{}

/// A state that simulates another has all its trees.
pub fn simulated_has_trees()
    ensures { (rules : List Rule) (p q : ℕ) (t : Tree) → IsSimulated rules p q → RunOf rules p t → RunOf rules q t }
{}

/// Each state simulates itself.
pub fn simulated_is_reflexive()
    ensures { (rules : List Rule) (q : ℕ) → IsSimulated rules q q }
{}

/// What simulates a state also simulates those that it simulates.
pub fn simulated_is_transitive()
    ensures { (n : ℕ) (rules : List Rule) → Every (IsRankedRule n) rules → (p q r : ℕ) → q < n → IsSimulated rules p q
        → IsSimulated rules q r → IsSimulated rules p r }
{}
