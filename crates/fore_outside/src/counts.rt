// Calls that are to fail, by their numbers.
ghost use Rattle.std.specs.Prelude.{◌≡◌};
ghost use Rattle.fore_outside.specs.Counts.{is_listed as is_among};

use fore_base::list::List;

/// The call of this number is one of these.
#[tactic(auto, unfolding(crate::specs::Counts::is_listed))]
pub fn is_listed(calls: &List<u64>, call: u64) -> bool
    ensures { result ≡ is_among calls.now call }
{
    calls.as_slice().contains(&call)
}
