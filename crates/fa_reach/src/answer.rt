// Whether one component leads to another.

/// Whether one component leads to another: for each choice of signatures, for none, or for some alone.
#[derive(Clone, Copy, PartialEq, Eq)]
pub enum Lead {
    Always,
    Never,
    Sometimes,
}
