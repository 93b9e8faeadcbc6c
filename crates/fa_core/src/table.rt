// Tables of sound boxes.

ghost use Rattle.std.specs.Prelude.{◌≡◌, ◌<◌, [], ◌∷◌, ◌++◌, length, Some, slice_get, IfOk, OnOk, OnErr};
ghost use Rattle.fore_base.specs.Lists.{IsIn};
ghost use Rattle.fa_core.specs.Boxes.{IsBoxTable, SoundBox, HasNoVariables, names_of};
ghost use Rattle.fa_core.specs.Words.{IsWord};

use crate::boxes::BoxDef;
use crate::faces::Face;
use fore_base::list::{Copies, List};
use fore_base::memory::Mem;
use fore_base::shape::Shapes;
use std::alloc::Global;
use std::marker::Model;

/// Boxes over structs, seen as a face and a list of boxes. It keeps that the face has the faces of the boxes, that each
/// box is sound over those before it, and that there are at most 32, with different names, and without variables
/// inside.
#[derive(Drop)]
pub struct BoxTable {
    face: Face,
    defs: List<BoxDef>,
}

impl Model for BoxTable {
    ghost use Rattle.fa_core.specs.Boxes.{Boxes, IsBoxTable};

    ghost Value = { Boxes };

    ghost view = { λ t. record { face = t.face; defs = t.defs } };

    ghost invariant = { λ t. IsBoxTable (record { face = t.face; defs = t.defs }) };
}

impl BoxTable {
    /// The table without boxes over these structs. Err is want of memory.
    pub fn empty(alloc: Global, shapes: &Shapes) -> Mem<BoxTable>
        ensures shapes { IfOk result (λ table. table.face.shapes ≡ shapes.now) }
        ensures faces { IfOk result (λ table. table.face.boxes ≡ []) }
        ensures defs { IfOk result (λ table. table.defs ≡ []) }
    {
        let shapes = shapes.copy(alloc)?;
        Ok(BoxTable {
            face: Face {
                shapes,
                boxes: List::new(alloc),
            },
            defs: List::new(alloc),
        })
    }

    /// Puts a copy of the box last, and leaves the rest. The box is sound over those of the table, whose name it has
    /// not, and so names no struct, no field and no box that is not there. Err is want of memory, and leaves the table.
    pub fn add(&mut self, alloc: Global, def: &BoxDef) -> Mem<()>
        requires room { length self.old.defs < 32 }
        requires word { IsWord def.now.name }
        requires new { IsIn def.now.name (names_of self.old.defs) → ⊥ }
        requires inside { HasNoVariables def.now }
        requires sound { SoundBox self.old.face self.old.defs def.now }
        ensures defs { OnOk result (self.new.defs ≡ self.old.defs ++ def.now ∷ []) }
        ensures faces { OnOk result (self.new.face.boxes ≡ self.old.face.boxes ++ def.now.face ∷ []) }
        ensures shapes { self.new.face.shapes ≡ self.old.face.shapes }
        ensures err { OnErr result (self.new ≡ self.old) }
    {
        let mut defs = self.defs.copy(alloc)?;
        defs.push(def.copy(alloc)?)?;
        let mut boxes = self.face.boxes.copy(alloc)?;
        boxes.push(def.face.copy(alloc)?)?;
        self.defs = defs;
        self.face.boxes = boxes;
        Ok(())
    }

    /// The structs and the faces of the boxes.
    pub fn face(&self) -> &Face
        ensures { result.now ≡ self.now.face }
    {
        &self.face
    }

    /// How many boxes it has: at most 32.
    pub fn len(&self) -> u32
        ensures { result ≡ length self.now.defs }
    {
        self.defs.len() as u32
    }

    /// The box of this number.
    pub fn box_def(&self, box_no: u32) -> &BoxDef
        requires { box_no < length self.now.defs }
        ensures { slice_get self.now.defs box_no ≡ Some result.now }
    {
        self.defs.at(box_no as usize)
    }

    /// Does nothing, and says what the table keeps.
    pub fn known(&self)
        ensures { IsBoxTable self.now }
    {
        let _defs = &self.defs;
    }
}
