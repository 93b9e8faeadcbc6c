//! When a syntax tree is a program: names, types and limits, and the program that a tree is, apart from any checker.
//!
//! `specs/Sites.antt` has the places of a tree where a rule may be broken, `specs/Rules.antt` one definition for each
//! rule, and `specs/Programs.antt` the program of a tree. `specs/Typing.antt` has what a checker promises: the first
//! broken rule, or the program.
#![tactic(auto)]

pub mod crossing;
pub mod fault;
pub mod laws;
pub mod limits;
pub mod meaning;

pub use fault::TypeFault;
pub use meaning::{
    Enumerator, Family, FieldUse, FunctionDef, Kind, Meaning, Member, Spot, StructDef, Want,
};
