// What names mean: the structs, fields, enumerators and functions of a file, and what an operand is.

use c_types::{DataPath, Path};
use fore_base::list::List;
use fore_base::text::Text;

/// What a variable or a field holds.
#[derive(Clone, Copy)]
pub enum Kind {
    /// A pointer to the struct of this number, or to one that is not defined.
    Points(Option<u32>),
    /// A datum.
    Datum,
}

/// A field of a struct.
#[derive(Drop)]
pub struct Member {
    pub name: Text,
    pub kind: Kind,
}

/// A struct. Its number is its position among those of its file.
#[derive(Drop)]
pub struct StructDef {
    pub name: Text,
    /// In order of declaration.
    pub fields: List<Member>,
}

/// An enumerator.
#[derive(Drop)]
pub struct Enumerator {
    pub name: Text,
    /// Its place in its enumeration, from 0. It is 0 where that is greater than a datum, which breaks a limit.
    pub value: u8,
}

/// A function besides `main`, as its head tells it. Its number is its position among those of its file.
#[derive(Drop)]
pub struct FunctionDef {
    pub name: Text,
    /// What it returns, if anything.
    pub result: Option<Kind>,
    /// What its parameters hold, in order.
    pub params: List<Kind>,
}

/// A field of a struct as it is used: its number among the fields of its kind, and the struct to which it points.
#[derive(Clone, Copy)]
pub enum FieldUse {
    Pointer { number: u32, to: Option<u32> },
    Datum { number: u32 },
}

/// What an operand is.
#[derive(Drop)]
pub enum Meaning {
    /// The pointer that stands there, to the struct of this number, or to one that is not defined.
    Pointer { path: Path, to: Option<u32> },
    /// The datum that stands there.
    Datum(DataPath),
    /// A constant datum: a number other than 0, `true`, `false` or an enumerator.
    Known(u8),
    /// The number 0, a datum and a null pointer.
    Zero,
    /// `NULL`.
    Null,
    /// A call.
    Call,
    /// A path that breaks a rule. It breaks nothing more.
    Broken,
}

/// What is defined under a name. Each family is looked up by itself.
#[derive(Clone, Copy)]
pub enum Family {
    Struct,
    Enum,
    /// An enumerator.
    Value,
    /// A field of a struct.
    Member,
    Variable,
    Function,
    /// A parameter of a prototype, which is no variable.
    Parameter,
}

/// What is wanted where an operand stands.
#[derive(Clone, Copy)]
pub enum Want {
    /// A pointer to the struct of this number, or to one that is not known.
    Pointer(Option<u32>),
    /// A datum.
    Datum,
    /// A pointer or a datum.
    Either,
}

/// Where a call stands.
#[derive(Clone, Copy)]
pub enum Spot {
    /// As a statement.
    Statement,
    /// Alone as a condition, or as an operand of `!`, `&&` or `||`.
    Condition,
    /// As the right side of an assignment or an initialiser.
    Right,
    /// As an operand elsewhere.
    Elsewhere,
}
