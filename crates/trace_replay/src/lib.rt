//! Whether the fault in which an abstract trace ends is one of the program: the program is run on the trace's choices.
#![tactic(auto)]

ghost use Rattle.std.specs.Prelude.{◌≡◌, ◌<◌, ◌-◌, ◌^◌, IfOk};
ghost use Rattle.c_types.specs.Runs.{run};
ghost use Rattle.trace_replay.specs.Replays.{replay_of};

pub mod verdict;

pub use crate::verdict::Replay;
use c_machine::run::run;
use c_types::mode::MallocMode;
use c_types::outcome::Outcome;
use c_types::program::Typed;
use fore_base::memory::Mem;
use std::alloc::Global;

/// Runs a program, whose `malloc` answers by the mode, on the choices of a trace, for at most `steps` steps.
///
/// # Errors
///
/// Want of memory.
pub fn replay(
    alloc: Global,
    program: &Typed,
    mode: MallocMode,
    choices: &[u8],
    steps: u64,
) -> Mem<Replay>
    requires below { steps < 2 ^ 64 - 1 }
    ensures { IfOk result (λ found. found ≡ replay_of (run program.now mode choices.now steps)) }
{
    let outcome = run(alloc, program, mode, choices, steps)?;
    Ok(found_in(outcome))
}

fn found_in(outcome: Outcome) -> Replay
    ensures { result ≡ replay_of outcome }
{
    match outcome {
        Outcome::Fault { kind, line, step } => Replay::Real { kind, line, step },
        _ => Replay::Spurious,
    }
}
