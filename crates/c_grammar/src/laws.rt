// What holds of the grammar: each text has at most one tree or one refusal, and levels are depth.
ghost use Rattle.std.specs.Prelude.{◌≡◌, ◌≤◌, ◌↔◌, ℕ, List};
ghost use Rattle.fore_base.specs.declared.place.Place.{Place};
ghost use Rattle.c_ast.specs.Depths.{depth_of_items};
ghost use Rattle.c_ast.specs.declared.items.Item.{Item};
ghost use Rattle.c_lexer.specs.declared.token.Token.{Token};
ghost use Rattle.c_grammar.specs.Hopeless.{IsSyntaxAt, IsDeepAt};
ghost use Rattle.c_grammar.specs.Items.{unit};
ghost use Rattle.c_grammar.specs.Units.{IsUnit, IsUnitWithin};

/// A list of tokens has at most one tree.
pub fn trees_are_unique()
    ensures { (ts : List Token) (u v : List Item) → IsUnit ts u → IsUnit ts v → u ≡ v }
{}

/// A text has a tree with n levels exactly where it has one that is no deeper than n.
pub fn levels_are_depth()
    ensures { (n : ℕ) (ts : List Token) (u : List Item) → IsUnitWithin n ts u ↔ (IsUnit ts u × (depth_of_items u ≤ n)) }
{}

/// There is at most one hopeless token, and at most one that opens a level too many.
pub fn refusals_are_unique()
    ensures hopeless { (n : ℕ) (end : Place) (ts : List Token) (here there : Place) → IsSyntaxAt unit n end ts here
        → IsSyntaxAt unit n end ts there → here ≡ there }
    ensures deep { (n : ℕ) (ts : List Token) (here there : Place) → IsDeepAt unit n ts here → IsDeepAt unit n ts there
        → here ≡ there }
{}

/// A text has a tree with n levels, or a hopeless token first, or a level too many first: no two of these.
pub fn answers_exclude_each_other()
    ensures hopeless { (n : ℕ) (end : Place) (ts : List Token) (at : Place) (u : List Item)
        → IsSyntaxAt unit n end ts at → IsUnit ts u → ⊥ }
    ensures deep { (n : ℕ) (ts : List Token) (at : Place) (u : List Item)
        → IsDeepAt unit n ts at → IsUnitWithin n ts u → ⊥ }
    ensures apart { (n : ℕ) (end : Place) (ts : List Token) (here there : Place) → IsSyntaxAt unit n end ts here
        → IsDeepAt unit n ts there → ⊥ }
{}
