// Symbols: what stands at the nodes of trees.

ghost use Rattle.std.specs.Prelude.{◌≡◌, ◌↔◌, IsTrue};
ghost use Rattle.ta_core.specs.Arity.{arity, child_slots};

use fore_base::list::{Copies, List};
use fore_base::store::Datum;
use std::alloc::{AllocError, Global};

/// One way in which a cell gets fields.
#[derive(Clone, Copy, PartialEq, Eq, Debug)]
pub enum Slot {
    /// The pointer field of this number: the child is what it points to.
    Field(u32),
    /// A box with an output, by the box's number: the child stands at the output.
    Link(u32),
    /// A box without an output, by the box's number. It has no child.
    Hook(u32),
}

/// What stands at a node of a tree: a leaf, which is a value of a pointer, or a cell.
#[derive(PartialEq, Eq, Debug, Drop)]
pub enum Symbol {
    Null,
    Uninit,
    Dangling,
    /// The cell of the root of this number.
    Ref(u32),
    /// A cell: the number of its struct, its data in order of declaration, and its slots.
    Cell {
        shape: u32,
        datums: List<Datum>,
        slots: List<Slot>,
    },
}

impl Symbol {
    /// Whether both are one symbol. Takes no memory.
    pub fn is_same(&self, other: &Symbol) -> bool
        ensures { IsTrue result ↔ (self.now ≡ other.now) }
    {
        match (self, other) {
            (Symbol::Null, Symbol::Null) => true,
            (Symbol::Uninit, Symbol::Uninit) => true,
            (Symbol::Dangling, Symbol::Dangling) => true,
            (Symbol::Ref(left), Symbol::Ref(right)) => left == right,
            (
                Symbol::Cell {
                    shape,
                    datums,
                    slots,
                },
                Symbol::Cell {
                    shape: other_shape,
                    datums: other_datums,
                    slots: other_slots,
                },
            ) => {
                shape == other_shape
                    && same_datums(datums.as_slice(), other_datums.as_slice())
                    && same_slots(slots.as_slice(), other_slots.as_slice())
            }
            _ => false,
        }
    }

    /// How many children stand below this symbol: one for each `Field` and each `Link` of a cell.
    pub fn arity(&self) -> usize
        ensures { result ≡ arity self.now }
    {
        match self {
            Symbol::Cell { slots, .. } => count_children(slots.as_slice()),
            _ => 0,
        }
    }
}

fn same_datums(left: &[Datum], right: &[Datum]) -> bool
    ensures { IsTrue result ↔ (left.now ≡ right.now) }
{
    left == right
}

fn same_slots(left: &[Slot], right: &[Slot]) -> bool
    ensures { IsTrue result ↔ (left.now ≡ right.now) }
{
    left == right
}

fn count_children(slots: &[Slot]) -> usize
    ensures { result ≡ child_slots slots.now }
{
    let mut count = 0;
    for slot in slots {
        match slot {
            Slot::Field(_) | Slot::Link(_) => count += 1,
            Slot::Hook(_) => {}
        }
    }
    count
}

impl Copies for Slot {
    fn copy(&self, _alloc: Global) -> Result<Slot, AllocError> {
        Ok(*self)
    }
}

impl Copies for Symbol {
    fn copy(&self, alloc: Global) -> Result<Symbol, AllocError> {
        match self {
            Symbol::Null => Ok(Symbol::Null),
            Symbol::Uninit => Ok(Symbol::Uninit),
            Symbol::Dangling => Ok(Symbol::Dangling),
            Symbol::Ref(root) => Ok(Symbol::Ref(*root)),
            Symbol::Cell {
                shape,
                datums,
                slots,
            } => Ok(Symbol::Cell {
                shape: *shape,
                datums: datums.copy(alloc)?,
                slots: slots.copy(alloc)?,
            }),
        }
    }
}
