//! What a replay says.

use fore_base::fault::Fault;

/// What a run on the choices of a trace comes to.
#[derive(Clone, Copy)]
pub enum Replay {
    /// This step, which has this line, meets this fault, whatever fault the trace ends in.
    Real { kind: Fault, line: u32, step: u64 },
    /// The run meets no fault.
    Spurious,
}
