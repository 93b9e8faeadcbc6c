//! Files of boxes as they are written.
//!
//! `read_drafts` gives the boxes of a text with the numbers of their lines, or the first line that is in the way. What
//! the names mean, and which boxes are sound, is decided above.
#![tactic(auto)]

pub mod crossing;
pub mod draft;
pub mod fault;
pub mod laws;
pub mod limits;
mod moves;
mod reader;
mod references;
mod splitting;
mod unfit;

pub use draft::{BoxDraft, Head, PartDraft, RuleDraft};
pub use fault::DraftFault;
pub use reader::read_drafts;
