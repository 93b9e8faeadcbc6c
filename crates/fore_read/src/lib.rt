//! Reading the files that words name: the program of a C file, and the table of a file of boxes.
//!
//! `read_program` and `read_table` read one file each, once, from any shelf. Where they do not take it, they say why: a
//! rule that it breaks, a reading that failed, or want of memory (`fault`). `program_of` and `table_of` do so of bytes.
//! `empty_table` is the table where no file of boxes is named.
#![tactic(auto)]

mod boxes;
pub mod crossing;
pub mod fault;
mod program;

pub use boxes::{empty_table, read_table, table_of};
pub use fault::{ReadFault, Refusal};
pub use program::{program_of, read_program};
