// Laws of calls and weights, each stated once for the crates above.

ghost use Rattle.std.specs.Prelude.{◌≡◌, ◌↔◌, ℕ, List, length, true};
ghost use Rattle.c_calls.specs.Calls.{Leads, leads_within, NoneRecurs, none_recurs};
ghost use Rattle.c_calls.specs.Weights.{Weighs, weight_of};

/// A function that leads to another does so by at most as many calls as there are functions.
pub fn few_calls_lead()
    ensures { (calls : List (List ℕ)) (f g : ℕ) → Leads calls f g ↔ (leads_within calls (length calls) f g ≡ true) }
{}

/// The test whether no function leads to itself is exact.
pub fn recursion_is_decided()
    ensures { (calls : List (List ℕ)) → (none_recurs calls ≡ true) ↔ NoneRecurs calls }
{}

/// A function has one weight at most.
pub fn weights_are_unique()
    ensures { (statements : List ℕ) (calls : List (List ℕ)) (f v w : ℕ) → Weighs statements calls f v
        → Weighs statements calls f w → v ≡ w }
{}

/// Where no function leads to itself, each has a weight, which is that of calls followed as deep as there are
/// functions.
pub fn functions_weigh()
    ensures { (statements : List ℕ) (calls : List (List ℕ)) → NoneRecurs calls → (f : ℕ)
        → Weighs statements calls f (weight_of statements calls f) }
{}
