//! Typed programs, and what they mean.
//!
//! `program` has the types of programs: what the front end gives, and the machine and the control graph read. `Typed`
//! keeps that its program is well typed. `outcome` says how a run comes out, `mode` whether `malloc` may fail. The
//! definitions of control, steps and runs stand in `specs/`, for the whole language; `laws` says what holds of every
//! run, each law being the contract of a function that does nothing.
#![tactic(auto)]

pub mod crossing;
pub mod laws;
pub mod mode;
pub mod outcome;
pub mod program;

pub use crate::mode::MallocMode;
pub use crate::outcome::Outcome;
pub use crate::program::{
    Act, Arg, Atom, Cond, DataOp, DataPath, DataRhs, Dest, Func, Path, PtrOp, PtrRhs, Stmt, Typed,
    VarDef, VarRef,
};
