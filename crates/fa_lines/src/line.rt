// The lines of files of boxes.

use fore_base::list::List;
use fore_base::store::Datum;
use fore_base::text::Text;

/// A datum of a cell, with the name of its field: `name=3`.
#[derive(Drop)]
pub struct DatumText {
    pub name: Text,
    pub datum: Datum,
}

/// A slot of a cell.
#[derive(Drop)]
pub enum SlotText {
    /// The field of this name, and the state below it: `next=s1`.
    Field(Text, u32),
    /// The box of this name, which has an output, and the state below it: `@dll=s1`.
    Link(Text, u32),
    /// The box of this name, which has no output: `@ring`.
    Hook(Text),
}

/// What a rule makes.
#[derive(Drop)]
pub enum Term {
    Null,
    Uninit,
    Dangling,
    /// The root of the component of this number: `ref 1`.
    Ref(u32),
    /// A cell of the struct of this name: `node[data=0](next=s1)`. No data stand for brackets that are left out.
    Cell {
        shape: Text,
        data: List<DatumText>,
        slots: List<SlotText>,
    },
}

/// A line.
#[derive(Drop)]
pub enum Line {
    /// A line that is passed over: it is empty, or begins with `#`.
    Skipped,
    /// A box begins: `box NAME in STRUCT`, or `box NAME in STRUCT out STRUCT`.
    Opens {
        name: Text,
        input: Text,
        output: Option<Text>,
    },
    /// A component begins, with its number and its root states: `root 0 s0`.
    Root(u32, List<u32>),
    /// A rule of a state: `s1 = ref 1`.
    Rule(u32, Term),
    /// The box ends: `end`.
    Ends,
}
