// The choices of a run.
ghost use Rattle.std.specs.Prelude.{◌≡◌, ◌<◌, ◌≤◌, ℕ, List, drop, length, IfOk, IfSome, MatchResult, Some};
ghost use Rattle.c_types.specs.declared.outcome.Outcome.{Outcome as Out};
ghost use Rattle.c_types.specs.Runs.{supply};
ghost use Rattle.c_acts.specs.Choices.{chosen, or_none};

use c_types::outcome::Outcome;

/// The choice of a step, where it needs one, or how the run comes out for want of one. `used` counts the choices.
pub fn supply(
    needed: bool,
    choices: &[u8],
    used: &mut usize,
    step: u64,
) -> Result<Option<u8>, Outcome>
    requires used { used.old ≤ length choices.now }
    ensures given { MatchResult result (λ choice. (next : ℕ → List ℕ → ℕ → Out)
        → supply needed (drop used.old choices.now) step used.old next
        ≡ next (or_none choice) (drop used.new choices.now) used.new)
        (λ outcome. (next : ℕ → List ℕ → ℕ → Out) → supply needed (drop used.old choices.now) step used.old next
        ≡ outcome) }
    ensures choice { IfOk result (λ choice. (chosen needed choice ≡ Some (or_none choice))
        × IfSome choice (λ x. x < 2)) }
    ensures used { used.new ≤ length choices.now }
{
    if !needed {
        return Ok(None);
    }
    match choices.get(*used) {
        None => Err(Outcome::Starved { step }),
        Some(choice) => if *choice < 2 {
            *used += 1;
            Ok(Some(*choice))
        } else {
            Err(Outcome::BadChoice {
                index: *used as u64,
            })
        },
    }
}
