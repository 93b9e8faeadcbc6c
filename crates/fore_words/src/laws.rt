//! What holds of words.
ghost use Rattle.std.specs.Prelude.{◌≡◌, List};
ghost use Rattle.clap.specs.Words.{Text};
ghost use Rattle.fore_words.specs.Words.{IsAsked};
ghost use Rattle.fore_words.specs.declared.asked.Asked.{Asked as What};

/// Words ask one thing at most.
pub fn words_ask_one_thing()
    ensures { (words : List Text) (one other : What) → IsAsked words one → IsAsked words other → one ≡ other }
{}
