//! The reports on a program: what an exploration found of it, or how its run came out.
//!
//! `report` draws the verdict from what one exploration found, and makes its report, whole: the lines of `texts`, and
//! with SAFE and UNKNOWN the exploration (`explored`). `summary` does so of a generated program, in four lines.
//! `run_report` is the report on a run.
#![tactic(auto)]

pub mod crossing;
mod explored;
mod reports;
pub mod summaries;
pub mod texts;
pub mod verdict;

pub use reports::report;
pub use summaries::summary;
pub use texts::run_report;
pub use verdict::Verdict;
