// Laws of runs and languages, each stated once for the crates above.

ghost use Rattle.std.specs.Prelude.{ℕ, List};
ghost use Rattle.fore_base.specs.Lists.{IsIn};
ghost use Rattle.ta_core.specs.Auto.{Automaton, IsRanked};
ghost use Rattle.ta_core.specs.Joined.{shifted, united, IsUnion};
ghost use Rattle.ta_core.specs.States.{SameRootRuns};
ghost use Rattle.ta_core.specs.Language.{RunOf, HasSameLanguage};
ghost use Rattle.ta_core.specs.Renumbered.{StandsFor};
ghost use Rattle.ta_core.specs.declared.auto.Rule.{Rule};
ghost use Rattle.ta_core.specs.declared.tree.Tree.{Tree};

/// Renaming keeps the language.
pub fn renaming_keeps()
    ensures { (n : ℕ) (a : Automaton) → HasSameLanguage a (shifted n a) }
{}

/// Two automata side by side accept the trees of either.
pub fn union_joins()
    ensures { (a b : Automaton) → IsRanked a → IsUnion a b (united a b) }
{}

/// What has a run has one where there are more rules.
pub fn runs_grow()
    ensures { (few many : List Rule) → ((r : Rule) → IsIn r few → IsIn r many) → (q : ℕ) (t : Tree) → RunOf few q t
        → RunOf many q t }
{}

/// The root states of a trimmed automaton have the runs of the root states of the whole one.
pub fn trimming_keeps_roots()
    ensures { (a b : Automaton) → IsRanked b → StandsFor a b → SameRootRuns a b }
{}
