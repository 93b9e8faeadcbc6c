// Boxes over the structs of a program, and the names that stand for numbers.

use fa_core::forest::Forest;
use fore_base::list::List;
use fore_base::text::Text;

/// A box over the structs of a program, exactly as it is written.
#[derive(Drop)]
pub struct NamedBox {
    pub name: Text,
    /// The number of the struct of its input.
    pub input: u32,
    /// The number of the struct of its output, where it has one.
    pub output: Option<u32>,
    /// Its components: the root states and the rules of its lines in their order.
    pub inside: Forest,
}

/// The names of a struct's fields, pointers and data apart, in order of declaration.
#[derive(Drop)]
pub struct Fields {
    pub pointers: List<Text>,
    pub datums: List<Text>,
}

/// The structs of a program: their names, and the names of their fields.
#[derive(Drop)]
pub struct Known {
    pub names: List<Text>,
    pub fields: List<Fields>,
}

/// The boxes that stand before a line: their names, and which of them have an output.
#[derive(Drop)]
pub struct Boxes {
    pub names: List<Text>,
    pub outputs: List<bool>,
}
