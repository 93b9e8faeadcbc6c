//! The face of one box, or the least of the rules B4 to B7 that it breaks.
#![tactic(auto)]

pub mod crossing;
mod face;
pub mod fault;
pub mod laws;
mod ports;
mod shown;
mod trimming;

pub use face::box_face;
pub use fault::FaceFault;
