//! What joins the parts of a condition, and where a part's outcomes lead.
//!
//! A part of `&&` that is true leads on to the next part, and one that is false to where the whole is false; with `||`
//! it is the other way round. So a part is evaluated only where the parts before it have not decided.
#![tactic(auto)]

pub mod sides;

pub use crate::sides::Joint;
