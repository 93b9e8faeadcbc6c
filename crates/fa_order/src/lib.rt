// Which cells of a forest are its roots, and in which order they stand: roots put into the order of the walk, whether a
// forest is canonical, and canonical forests with their components reduced. The definitions are those of `fa_core` and
// specs/.
#![tactic(auto)]

pub mod deciding;
pub mod laws;
pub mod reducing;
mod referring;
pub mod roots;
pub mod sharing;
mod showing;
mod walking;
mod ways_back;

pub use deciding::{has_root_kinds, is_canonical};
pub use reducing::reduce_forest;
pub use referring::{marked_roots, references, root_signatures};
pub use roots::place_roots;
pub use sharing::is_shared_root;
pub use walking::{push_all, visit};
