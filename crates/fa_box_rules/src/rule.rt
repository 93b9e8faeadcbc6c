// The rules that one box may break.

/// A rule of boxes that is about what their trees are.
#[derive(Clone, Copy, PartialEq, Eq, Debug, Drop)]
pub enum BoxRule {
    /// An inner cell has not each field once, a port has a field twice, slots do not stand in order, or an edge ends
    /// where it may not.
    B4,
    /// A component accepts a leaf, a port is of another struct, or the trees of the box differ in what they show
    /// outside: the fields that ports cover and are given, the signatures of states, whether the box leads back.
    B5,
    /// An inner cell or the output is not reached from the input.
    B6,
    /// A component has no tree.
    B7,
}
