//! Texts of forests, for programs of rows: one reader, one printer, and which of the wanted forests came out.
//!
//! - Automata and symbols are the texts of `row_automata`.
//! - A forest is parts with ` / ` between: its variables, and then its components. A pointer variable is the number
//!   of its root, or n for null, u for uninitialised, d for dangling; - stands where there is none. The data
//!   variables, if there are any, are a second word: a digit, a letter a to f for 10 to 15, or u for undefined. So
//!   `0n 3u / 20 0n1 1a`.
//! - Struct 0, `node`, has one pointer to itself, struct 1, `pair`, two, struct 2, `item`, a datum and one pointer,
//!   struct 3, `tree`, a pointer to itself, a datum, and a pointer to struct 0, and struct 4, `trio`, three pointers to
//!   itself (`face`). Their fields are `a`, `b` and `c`. With them stand eight boxes, where box edges are wanted
//!   (`face_with_boxes`).
#![tactic(auto)]

mod boxes;
mod comparing;
mod forests;
mod printing;

pub use boxes::{boxed, boxed_from, boxed_over, face_with_boxes};
pub use comparing::{auto_letters, have_same_trees, is_like, letter, letters, letters_in_order};
pub use forests::{face, face_of, forest_of, sound, sound_from, sound_over, sounds_over};
pub use printing::{put_data, put_forest, put_targets};
pub use row_automata::{
    auto_of, datums, digit, numbers, parts_of, put_auto, put_datums, put_number, put_numbers,
    put_symbol, symbol_of,
};
