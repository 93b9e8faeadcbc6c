// What holds of the definition of tokens: each text has one reading.
ghost use Rattle.std.specs.Prelude.{◌≡◌, ◌⊎◌, ℕ, List};
ghost use Rattle.fore_base.specs.declared.place.Place.{Place};
ghost use Rattle.c_lexer.specs.declared.token.Token.{Token};
ghost use Rattle.c_lexer.specs.Tokens.{Tokens, LacksToken, LacksClose};

/// A text has its tokens, or a byte at which no token begins, or a comment that is not closed.
pub fn each_text_is_read()
    ensures { (text : List ℕ) → ((ts : List Token) × Tokens text ts)
        ⊎ (((place : Place) × LacksToken text place) ⊎ ((place : Place) × LacksClose text place)) }
{}

/// A text has at most one list of tokens.
pub fn tokens_are_unique()
    ensures { (text : List ℕ) (ts us : List Token) → Tokens text ts → Tokens text us → ts ≡ us }
{}

/// A text that has tokens has no refusal.
pub fn tokens_exclude_refusals()
    ensures token { (text : List ℕ) (ts : List Token) (place : Place) → Tokens text ts → LacksToken text place → ⊥ }
    ensures close { (text : List ℕ) (ts : List Token) (place : Place) → Tokens text ts → LacksClose text place → ⊥ }
{}

/// A text has at most one refusal, at one place.
pub fn refusals_are_unique()
    ensures token { (text : List ℕ) (here there : Place) → LacksToken text here → LacksToken text there → here ≡ there }
    ensures close { (text : List ℕ) (here there : Place) → LacksClose text here → LacksClose text there → here ≡ there }
    ensures apart { (text : List ℕ) (here there : Place) → LacksToken text here → LacksClose text there → ⊥ }
{}
