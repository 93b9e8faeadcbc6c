//! Whether each field of each cell of a forest is given exactly once, decided from the rules of its components, box
//! edges with them. What box edges give to the roots is told by the caller, who knows the signatures. The fields of
//! structs by number, and components cut into parts by the structs at the tops of their trees, stand here too.
#![tactic(auto)]

mod choosing;
pub mod covering;
mod ends;
pub mod fields;
pub mod filling;
pub mod giving;
pub mod parts;

pub use choosing::is_filled;
pub use covering::{covered, has_field};
pub use giving::are_rearranged;
pub use parts::is_one_of;
