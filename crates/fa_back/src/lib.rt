// Ways back and reached roots: which roots of a forest, or of the inside of a box, are reached from some of them by
// references and by ways back, and what that says of cells. A way back leads from the end of a box edge up to the cell
// above, where the box leads back. `reached` computes it by the signatures of the trees alone.
#![tactic(auto)]

pub mod closure;
mod hops;
pub mod laws;
pub mod ranked;
#[cfg(test)]
mod tests;

pub use closure::reached;
pub use hops::{Hop, push_backs};
pub use ranked::ranked_insides;
