// The number that is a rule here.

/// How many bytes a text of boxes may have: 16 MiB.
pub const TEXT_BYTES: usize = 16777216;
