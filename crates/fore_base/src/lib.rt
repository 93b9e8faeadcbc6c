//! What every other crate stands on.
//!
//! - `List`, `Text` and `Boxed` hold values in memory that may be wanting; contracts see the lists, texts and values
//! themselves.
//! - `Place`, `Value`, `Datum`, `CellRec`, `Store`, `Shape` and `Fault` are the words of the programs that are
//! verified.
//! - `Names` numbers texts; `marks` are sets of numbers; `limits` are the numbers that are rules.
//! - `crossing::crosses` shows that a value may be shared between threads.
#![tactic(auto)]

pub mod boxed;
pub mod crossing;
pub mod fault;
pub mod laws;
pub mod limits;
pub mod list;
pub mod marks;
pub mod memory;
pub mod names;
pub mod place;
pub mod shape;
pub mod store;
pub mod text;

pub use boxed::Boxed;
pub use fault::Fault;
pub use list::{Copies, List};
pub use memory::{Mem, beside};
pub use names::Names;
pub use place::Place;
pub use shape::{FieldDef, FieldKind, Shape, Shapes};
pub use store::{CellRec, Datum, Store, Value};
pub use text::Text;
