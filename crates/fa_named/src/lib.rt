//! Names of files of boxes, and what they stand for.
//!
//! `name_boxes` gives the boxes of a file over the structs of a program, exactly as they are written, or the first
//! line with a name that stands for nothing. Which boxes are sound is decided above.
#![tactic(auto)]

mod boxes;
mod breaks;
pub mod crossing;
pub mod fault;
mod insides;
mod known;
pub mod named;
mod naming;
mod places;
mod slots;
mod states;

pub use fault::NameFault;
pub use named::NamedBox;
pub use naming::name_boxes;
