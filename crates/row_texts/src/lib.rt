//! Texts of C, as they stand in rows on one line, for programs of rows.
#![tactic(auto)]

mod texts;

pub use texts::{put_between, read_text, shown};
