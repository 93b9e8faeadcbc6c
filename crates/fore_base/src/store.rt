// Values, cells and stores of a program that runs.
use crate::list::{Copies, List};
use std::alloc::{AllocError, Global};

/// The value of a pointer.
#[derive(Clone, Copy, PartialEq, Eq)]
pub enum Value {
    /// To no object (6.3.2.3).
    Null,
    /// Never set: indeterminate (ISO/IEC 9899:2011, 6.7.9).
    Uninit,
    /// To an object whose lifetime has ended: indeterminate (6.2.4).
    Dangling,
    /// To the cell of this number.
    Cell(u64),
}

/// The value of a datum: an `int` or an enumeration.
#[derive(Clone, Copy, PartialEq, Eq, Debug)]
pub enum Datum {
    /// Never set: indeterminate.
    Undefined,
    /// A number from 0 to 15.
    Known(u8),
}

/// An allocated object: its number, which no other cell ever has, its struct, and its data and pointer fields, each
/// kind in order of declaration.
#[derive(PartialEq, Eq, Drop)]
pub struct CellRec {
    /// Cells are numbered in the order in which they are made, from 0.
    pub number: u64,
    /// The number of its struct.
    pub shape: u32,
    /// The values of its data fields.
    pub datums: List<Datum>,
    /// The values of its pointer fields.
    pub fields: List<Value>,
}

/// The variables, pointers and data apart, the cells, and the number of the next cell to be made.
#[derive(PartialEq, Eq, Drop)]
pub struct Store {
    /// The values of the pointer variables, by number.
    pub vars: List<Value>,
    /// The values of the data variables, by number.
    pub data_vars: List<Datum>,
    /// The cells that are alive.
    pub cells: List<CellRec>,
    /// The number of the next cell.
    pub next: u64,
}

impl Copies for Value {
    fn copy(&self, _alloc: Global) -> Result<Value, AllocError> {
        Ok(*self)
    }
}

impl Copies for Datum {
    fn copy(&self, _alloc: Global) -> Result<Datum, AllocError> {
        Ok(*self)
    }
}

impl Copies for CellRec {
    fn copy(&self, alloc: Global) -> Result<CellRec, AllocError> {
        Ok(CellRec {
            number: self.number,
            shape: self.shape,
            datums: self.datums.copy(alloc)?,
            fields: self.fields.copy(alloc)?,
        })
    }
}

impl Copies for Store {
    fn copy(&self, alloc: Global) -> Result<Store, AllocError> {
        Ok(Store {
            vars: self.vars.copy(alloc)?,
            data_vars: self.data_vars.copy(alloc)?,
            cells: self.cells.copy(alloc)?,
            next: self.next,
        })
    }
}
