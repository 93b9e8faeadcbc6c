// Forests of tree automata (CAV 2011): what they are, which stores they stand for, and the laws that every operation on
// them rests on. A forest has a component, which is a tree automaton over cells, for each of its roots. A box is a
// forest that stands for an edge. The definitions lie in specs/, boxes included; each law is the contract of a function
// in `laws`.
#![tactic(auto)]

pub mod boxes;
pub mod cells;
pub mod crossing;
pub mod faces;
pub mod folds;
pub mod forest;
pub mod laws;
pub mod ordering;
pub mod signature;
pub mod table;

pub use boxes::BoxDef;
pub use faces::{BoxFace, Face};
pub use folds::FoldStep;
pub use forest::{Forest, Target};
pub use signature::{RefMark, Signature};
pub use table::BoxTable;
