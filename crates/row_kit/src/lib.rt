//! Cases as data: a program of rows reads files of rows, answers each row, and prints a line a row.
//!
//! A row is a line that is neither empty nor a comment, which begins with `#`. It is a head (its kind, and what the
//! kind wants to know) and texts, with a bar between two spaces before each. Its line of the answer repeats the head
//! and the first text, so that a line that differs names its row. The folder of its file is its room: what its kind is
//! of.
#![tactic(auto)]

mod rows;
mod words;

pub use rows::{Answers, answer_files};
pub use words::{number_at, said, word_at, yes_or_no};
