// How runs and steps come out, as texts.

use c_machine::Turn;
use c_types::outcome::Outcome;
use fore_base::fault::Fault;
use fore_base::memory::Mem;
use fore_base::text::Text;
use trace_replay::Replay;

/// Puts how a run comes out: `ended` with the number of steps; a fault with its line and step; `starved` with the
/// step; `bad` with the index of the choice; or `running`.
pub fn put_outcome(out: &mut Text, outcome: Outcome) -> Mem<()> {
    match outcome {
        Outcome::Ended { step } => put_word(out, b"ended ", step),
        Outcome::Fault { kind, line, step } => {
            put_met(out, kind, line)?;
            put_word(out, b" step ", step)
        }
        Outcome::Starved { step } => put_word(out, b"starved ", step),
        Outcome::BadChoice { index } => put_word(out, b"bad ", index),
        Outcome::StillRunning => out.put(b"running"),
    }
}

/// Puts what a replay finds: the fault with its line and step, or `spurious`.
pub fn put_found(out: &mut Text, found: Replay) -> Mem<()> {
    match found {
        Replay::Real { kind, line, step } => put_outcome(out, Outcome::Fault { kind, line, step }),
        Replay::Spurious => out.put(b"spurious"),
    }
}

/// Puts what a step answers: `next`; a fault with its line; `ended`; or `needs a choice`.
pub fn put_turn(out: &mut Text, turn: Turn) -> Mem<()> {
    match turn {
        Turn::Next => out.put(b"next"),
        Turn::Fault { kind, line } => put_met(out, kind, line),
        Turn::Ended => out.put(b"ended"),
        Turn::NeedsChoice => out.put(b"needs a choice"),
    }
}

fn put_met(out: &mut Text, kind: Fault, line: u32) -> Mem<()> {
    out.put(name_of(kind))?;
    put_word(out, b" line ", u64::from(line))
}

fn put_word(out: &mut Text, word: &[u8], number: u64) -> Mem<()> {
    out.put(word)?;
    out.put_number(number)
}

fn name_of(kind: Fault) -> &'static [u8] {
    match kind {
        Fault::NullDeref => b"null",
        Fault::UninitDeref => b"uninit",
        Fault::DanglingDeref => b"dangling",
        Fault::InvalidFree => b"invalid free",
        Fault::DoubleFree => b"double free",
        Fault::Leak => b"leak",
        Fault::Assertion => b"assertion",
        Fault::IndetTest => b"indeterminate",
    }
}
