//! A store for which a sound forest stands, through boxes of any level.
#![tactic(auto)]

mod drafts;
pub mod laws;
mod picking;
mod sampling;
mod walking;

pub use sampling::sample;
