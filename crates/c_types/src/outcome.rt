// How a run comes out.

use fore_base::fault::Fault;

/// How a run of at most some number of steps comes out. Steps are counted from 1.
#[derive(Clone, Copy)]
pub enum Outcome {
    /// The run has ended after this number of steps.
    Ended { step: u64 },
    /// This step, which has this line, meets this fault.
    Fault { kind: Fault, line: u32, step: u64 },
    /// This step needs a choice, and no choice is left.
    Starved { step: u64 },
    /// The choice at this index is needed, and is neither 0 nor 1.
    BadChoice { index: u64 },
    /// All steps were taken, and items are left.
    StillRunning,
}
