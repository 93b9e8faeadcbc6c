// Items, and whole texts.

use crate::operands::Name;
use crate::statements::{Block, Data, Declare};
use fore_base::list::List;
use fore_base::place::Place;

/// `field = "struct" id "*" id { "," "*" id } ";" | data id { "," id } ";"`
#[derive(Drop)]
pub enum Field {
    Pointers {
        at: Place,
        name: Name,
        fields: List<Name>,
    },
    Datums {
        data: Data,
        fields: List<Name>,
    },
}

/// `rtype = "void" | data | "struct" id "*"`
#[derive(Drop)]
pub enum ReturnType {
    Void { at: Place },
    Data(Data),
    Pointer { at: Place, name: Name },
}

/// `param = "struct" id "*" id | data id`
#[derive(Drop)]
pub enum Param {
    Pointer { at: Place, shape: Name, name: Name },
    Datum { data: Data, name: Name },
}

/// `params = "void" | param { "," param }`
#[derive(Drop)]
pub enum Params {
    Void { at: Place },
    List(List<Param>),
}

/// What a prototype and a function begin with: `rtype id "(" [ params ] ")"`.
#[derive(Drop)]
pub struct Head {
    pub gives: ReturnType,
    pub name: Name,
    pub params: Option<Params>,
}

/// `item = structdef | enumdef | proto | function | declare`
#[derive(Drop)]
pub enum Item {
    /// Without fields where the struct is only named.
    Struct {
        at: Place,
        name: Name,
        fields: Option<List<Field>>,
    },
    Enum {
        at: Place,
        name: Name,
        values: List<Name>,
    },
    /// With the place of `extern`, where it stands.
    Proto {
        outer: Option<Place>,
        head: Head,
    },
    Function {
        head: Head,
        body: Block,
    },
    Declare(Declare),
}

/// A whole text: `unit = { item }`.
#[derive(Drop)]
pub struct Unit {
    pub items: List<Item>,
    /// The place of token 65,536, if there is one.
    pub over: Option<Place>,
    /// The place after the last byte.
    pub end: Place,
}
