//! The part of a forest that an edge of a box can take the place of. The definitions are those of `fa_core`.
#![tactic(auto)]

mod components;
mod edges;
mod fields;
mod finding;
mod making;
mod parts;
mod ports;
mod referring;
mod sites;
mod visiting;

pub use finding::lone_roots;
pub use parts::{made_part, part, part_by};
pub use ports::{Port, PortFields, box_fields, ports_at, table_fields, taken_at};
pub use sites::is_site;
