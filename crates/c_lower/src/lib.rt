//! The control graph of a program.
//!
//! `lower` goes over the statements once, and adds the edges of each (`statements`, `conditions`) with what is around
//! it (`around`). Locations are numbered in order of the text, so that how many a part takes (`rooms`, `sizes`) says
//! where the next one begins; `heads` finds the loop heads.
#![tactic(auto)]

mod around;
mod calls;
mod conditions;
mod heads;
pub mod lower;
mod rooms;
mod site;
mod sizes;
mod statements;
