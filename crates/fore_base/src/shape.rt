// Structs and their fields.
use crate::list::{Copies, List};
use crate::text::Text;
use std::alloc::{AllocError, Global};

/// What a field holds.
#[derive(Clone, Copy, PartialEq, Eq)]
pub enum FieldKind {
    /// A pointer to the struct of this number.
    Pointer(u32),
    /// A datum.
    Datum,
}

/// A field of a struct.
#[derive(PartialEq, Eq, Drop)]
pub struct FieldDef {
    /// Its name, as it is spelled.
    pub name: Text,
    /// What it holds.
    pub kind: FieldKind,
}

/// A struct: its fields in order of declaration.
#[derive(PartialEq, Eq, Drop)]
pub struct Shape {
    /// Its tag, as it is spelled.
    pub name: Text,
    /// Pointers and data, in order of declaration.
    pub fields: List<FieldDef>,
}

/// The structs of a program. The number of a struct is its position here.
#[derive(PartialEq, Eq, Drop)]
pub struct Shapes {
    /// In order of declaration.
    pub structs: List<Shape>,
}

impl Copies for FieldKind {
    fn copy(&self, _alloc: Global) -> Result<FieldKind, AllocError> {
        Ok(*self)
    }
}

impl Copies for FieldDef {
    fn copy(&self, alloc: Global) -> Result<FieldDef, AllocError> {
        Ok(FieldDef {
            name: self.name.copy(alloc)?,
            kind: self.kind,
        })
    }
}

impl Copies for Shape {
    fn copy(&self, alloc: Global) -> Result<Shape, AllocError> {
        Ok(Shape {
            name: self.name.copy(alloc)?,
            fields: self.fields.copy(alloc)?,
        })
    }
}

impl Copies for Shapes {
    fn copy(&self, alloc: Global) -> Result<Shapes, AllocError> {
        Ok(Shapes {
            structs: self.structs.copy(alloc)?,
        })
    }
}
