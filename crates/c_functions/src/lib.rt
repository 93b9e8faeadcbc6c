//! What is asked of the functions of a file where they are called and declared.
//!
//! `given` has the functions that a program has besides its own, and `profile` the heads that these and `main` may
//! have. `called` tells which function a call calls, and whether the call is right; `recursion` whether it leads back
//! to the function around; `prototypes` whether a prototype agrees with its definition.
#![tactic(auto)]

pub mod called;
pub mod given;
pub mod profile;
pub mod prototypes;
pub mod recursion;
