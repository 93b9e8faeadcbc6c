//! The program of a file: its functions, and the body of its first `main`.
//!
//! `declares` goes through statements for the variables that their groups declare. `functions` makes one function of
//! the program, and `programs` goes through the items, each in the scope that those before it leave. Nothing that is
//! broken is looked for.
#![tactic(auto)]

mod declares;
mod functions;
mod programs;

pub use programs::program_in;
