// The limits on functions, which no crate below asks for.

/// How many functions a program may have, `main` counted.
pub const FUNCTIONS: usize = 64;

/// What `main` may weigh: the statements of its body, and for each call in it what the called function weighs.
pub const WEIGHT: usize = 16384;
