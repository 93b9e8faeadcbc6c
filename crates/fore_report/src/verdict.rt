//! Verdicts.

/// What verification says of a program.
#[derive(Clone, Copy)]
pub enum Verdict {
    /// No run meets a fault.
    Safe,
    /// The run on the printed choices meets the printed fault.
    Unsafe,
    /// Neither was found.
    Unknown,
}
