//! All that the program does but `main`: from the words of the command line and the bytes of its files to the report
//! and the status.
//!
//! `forester` does it over any shelf and any two sinks, and its contract is what is proved of the program. It works out
//! the answer to the words (`judge`, with `exploring`, and `summing` for the programs of `fore_generated`), by what
//! `fore_words`, `fore_read` and `fore_report` give, and lets `fore_answer` deliver it.
#![tactic(auto)]

mod exploring;
mod judge;
mod summing;
pub mod top;

pub use top::forester;
