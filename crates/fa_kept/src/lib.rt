//! Whether one kept forest covers another, and the first of several that does: `fa_cover` over forests that a pool
//! holds, with answers that are remembered.
//!
//! - `Memo` holds answers of inclusion by the numbers of two automata; contracts see the list of them. It agrees with a
//! pool where each is right for it, and `grown_agrees` is the law that it still does when the pool has grown.
//! - `covers_kept` decides the definition `Covers` of `fa_core` of the forests as which two kept ones read, and asks
//! nothing that the memo knows; `first_kept` is the least index of a list whose kept forest covers another.
#![tactic(auto)]

mod asking;
pub mod covering;
pub mod crossing;
pub mod laws;
pub mod memo;
mod portions;
mod within;

pub use covering::{covers_kept, first_kept};
pub use memo::Memo;
