//! The statuses with which the program ends.

/// No run of the program meets a fault; or the run has ended.
pub const NO_FAULT: u8 = 0;

/// The printed choices lead the program to the printed fault; or the run met it.
pub const FAULT: u8 = 1;

/// The words ask nothing.
pub const USAGE: u8 = 2;

/// Neither was found; or the run has too few choices, or a wrong one, or still runs.
pub const UNKNOWN: u8 = 3;

/// What the words ask is refused.
pub const REFUSED: u8 = 4;

/// A file was not read.
pub const NOT_READ: u8 = 5;

/// A sink failed.
pub const NOT_WRITTEN: u8 = 6;

/// Want of memory, and nothing was written.
pub const NO_MEMORY: u8 = 7;
