//! What one edge of a control graph does to a forest in which what it needs is explicit, before the leak test.
//!
//! `edited` looks at the targets of the variables, which say for all members alike whether the edge meets a fault or
//! goes on, and changes the
//! forest as the edge changes its members: what the variables are, one leaf or datum of one root, a root more or less.
//! `specs/Edited.antt` says
//! what it gives, over `Carries` of `sym_core`; `specs/inner/Targets.antt` what targets and data say.
#![tactic(auto)]

mod creating;
mod editing;
mod freeing;
mod loading;
mod outcome;
mod storing;
mod targets;
mod testing;
mod variables;

pub use editing::edited;
pub use outcome::{Edited, edited_crosses};
