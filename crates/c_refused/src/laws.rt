// What holds of the definition of refused tokens: a list of tokens has one first refused token, or none.
ghost use Rattle.std.specs.Prelude.{◌≡◌, List};
ghost use Rattle.c_lexer.specs.declared.token.Token.{Token};
ghost use Rattle.c_refused.specs.declared.refused.Refusal.{Refusal};
ghost use Rattle.c_refused.specs.Refused.{NoneRefused, IsFirstRefused};

/// A list of tokens has at most one first refused token, and none where no token is refused.
pub fn first_refused_is_unique()
    ensures unique { (ts : List Token) (one other : Refusal) → IsFirstRefused ts one
        → IsFirstRefused ts other → one ≡ other }
    ensures apart { (ts : List Token) (one : Refusal) → NoneRefused ts → IsFirstRefused ts one → ⊥ }
{}
