// The numbers that are rules: what is longer, deeper or greater is refused.

/// How many bytes a file may have: 1 MiB.
pub const FILE_BYTES: usize = 1048576;

/// How many bytes a file of boxes may have: 64 KiB.
pub const BOX_FILE_BYTES: usize = 65536;

/// How many tokens a C file may have.
pub const TOKENS: usize = 65535;

/// How many structs a program may have.
pub const STRUCTS: usize = 32;

/// How many fields a struct may have.
pub const FIELDS: usize = 16;

/// How many variables a program may have, pointers and data together.
pub const VARIABLES: usize = 64;

/// How many enumerators an enumeration may have.
pub const ENUMERATORS: usize = 16;

/// How many boxes there may be.
pub const BOXES: usize = 32;

/// How many statements and declarations the body of `main` may have.
pub const STATEMENTS: usize = 4096;

/// How deeply statements, conditions and brackets may be nested.
pub const DEPTH: usize = 64;

/// The greatest datum: data are the numbers from 0 to this one.
pub const DATUM: u8 = 15;
