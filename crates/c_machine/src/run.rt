//! Runs of a program on a list of choices.

ghost use Rattle.std.specs.Prelude.{◌≡◌, ◌<◌, ◌≤◌, ◌+◌, ◌-◌, ◌^◌, ℕ, suc, List, drop, length, IfOk, IfSome};
ghost use Rattle.std.specs.Prelude.{MatchResult, Some, None};
ghost use Rattle.c_types.specs.declared.outcome.Outcome.{Outcome as Out};
ghost use Rattle.c_types.specs.Steps.{takes};
ghost use Rattle.c_types.specs.Runs.{supply, run};
ghost use Rattle.c_machine.specs.Machines.{todo, store_of, over_of, spare_of, program_of, mode_of};
ghost use Rattle.c_acts.specs.Choices.{chosen};
ghost use Rattle.c_machine.specs.inner.Going.{going};
ghost use Rattle.c_acts.specs.Choices.{or_none};

use crate::state::{Machine, Turn};
use c_acts::choices::supply;
use c_types::mode::MallocMode;
use c_types::outcome::Outcome;
use c_types::program::Typed;
use fore_base::memory::Mem;
use std::alloc::Global;

/// The run of a program, whose `malloc` answers by the mode, on these choices, of at most `limit` steps.
///
/// # Errors
///
/// Want of memory.
pub fn run(
    alloc: Global,
    program: &Typed,
    mode: MallocMode,
    choices: &[u8],
    limit: u64,
) -> Mem<Outcome>
    requires below { limit < 2 ^ 64 - 1 }
    ensures { IfOk result (λ outcome. outcome ≡ run program.now mode choices.now limit) }
{
    let mut machine = Machine::new(alloc, program, mode)?;
    run_on(&mut machine, choices, limit)
}

/// The run of a machine from its first step on.
fn run_on(machine: &mut Machine, choices: &[u8], limit: u64) -> Mem<Outcome>
    requires below { limit < 2 ^ 64 - 1 }
    requires over { over_of machine.old ≡ None }
    requires next { (store_of machine.old).next ≡ 1 }
    ensures { IfOk result (λ outcome. outcome
        ≡ going (program_of machine.old).shapes.structs (mode_of machine.old) limit 0 (todo machine.old)
        (store_of machine.old) choices.now 0) }
{
    let mut used = 0;
    for step in 0..limit {
        machine.reserve()?;
        match take_one(machine, choices, &mut used, step) {
            Ok(()) => {}
            Err(outcome) => return Ok(outcome),
        }
    }
    machine.reserve()?;
    if machine.is_done() {
        return Ok(Outcome::Ended { step: limit });
    }
    Ok(Outcome::StillRunning)
}

/// Takes one step of a run, or says how the run comes out.
fn take_one(
    machine: &mut Machine,
    choices: &[u8],
    used: &mut usize,
    step: u64,
) -> Result<(), Outcome>
    requires spare { 0 < spare_of machine.old }
    requires over { over_of machine.old ≡ None }
    requires below { (store_of machine.old).next + 1 < 2 ^ 64 }
    requires step { step + 1 < 2 ^ 64 }
    requires used { used.old ≤ length choices.now }
    ensures goes { MatchResult result (λ _. (left : ℕ)
        → going (program_of machine.old).shapes.structs (mode_of machine.old) (suc left) step (todo machine.old)
        (store_of machine.old) (drop used.old choices.now) used.old
        ≡ going (program_of machine.old).shapes.structs (mode_of machine.old) left (step + 1) (todo machine.new)
        (store_of machine.new) (drop used.new choices.now) used.new)
        (λ outcome. (left : ℕ) → going (program_of machine.old).shapes.structs (mode_of machine.old) (suc left) step
        (todo machine.old) (store_of machine.old) (drop used.old choices.now) used.old ≡ outcome) }
    ensures over { IfOk result (λ _. over_of machine.new ≡ None) }
    ensures program { program_of machine.new ≡ program_of machine.old }
    ensures mode { mode_of machine.new ≡ mode_of machine.old }
    ensures next { (store_of machine.new).next ≤ (store_of machine.old).next + 1 }
    ensures used { used.new ≤ length choices.now }
{
    if machine.is_done() {
        return Err(Outcome::Ended { step });
    }
    let choice = supply(machine.needs_choice(), choices, used, step + 1)?;
    match machine.step(choice) {
        Turn::Next => Ok(()),
        Turn::Fault { kind, line } => Err(Outcome::Fault {
            kind,
            line,
            step: step + 1,
        }),
        Turn::Ended => Err(Outcome::Ended { step: step + 1 }),
        Turn::NeedsChoice => unreachable!(),
    }
}
