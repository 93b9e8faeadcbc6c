//! Texts of tree automata and of trees, for programs of rows: one reader and one printer.
//!
//! - An automaton is words with a blank between: how many states there are, with the root states behind it, and then
//!   the rules, each as its state, its symbol and its children. So `20 0n1 1n1 1a` has two states, the root state 0,
//!   and 0 = n(1), 1 = n(1), 1 = a. Each number is a digit; one above 9 is printed between brackets.
//! - A tree is each node before what is below it, as its symbol and the number of its children. So `f2n1a0a0` is
//!   f(n(a), a).
//! - A symbol is a letter: a for Null, u for Uninit, d for Dangling, A to Z for references to the roots 0 to 25, n
//!   for a cell of struct 0, f for one of struct 1, and x, y and z for one of struct 2 whose datum is undefined, 1
//!   and 2. Further letters are in `symbols`. A cell without a letter stands between brackets, as its struct, its data
//!   and its slots: `0[3:f:01]12` is a rule of state 0 for a cell of struct 3 with the datum 15, and `0[1::l0h1]1` one
//!   for a cell of struct 1 with a link of box 0 and a hook of box 1.
#![tactic(auto)]

mod automata;
mod digits;
mod printing;
mod symbols;
mod trees;

pub use automata::{auto_of, parts_of};
pub use digits::{datums, digit, numbers, put_datums, put_number, put_numbers};
pub use printing::{put_auto, text_of_auto};
pub use symbols::{put_symbol, symbol_of};
pub use trees::{text_of_tree, tree_of};
