// What `malloc` may answer.

/// Whether `malloc` may give the null pointer (ISO/IEC 9899:2011, 7.22.3.4).
#[derive(Clone, Copy, PartialEq, Eq)]
pub enum MallocMode {
    /// Each `malloc` gives a cell.
    Always,
    /// Each `malloc` takes one choice: 1 gives a cell, 0 gives the null pointer and makes none.
    MayFail,
}
