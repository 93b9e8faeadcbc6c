// Files of boxes, and boxes that stand in those of more than one room.

ghost use Rattle.std.specs.Prelude.{◌≡◌, IfOk};

use anyhow::{Result, bail};
use fa_core::table::BoxTable;
use fa_text::read_boxes;
use fa_written::limits::TEXT_BYTES;
use fore_base::shape::Shapes;
use row_forests::face;
use std::alloc::Global;

/// The box that leads from a pair to the next by a, and back by b.
pub const DLL: &str = "box dll in pair out pair\nroot 0 s0\ns0 = pair(a=s1)\ns1 = ref 1\n\
    root 1 s0\ns0 = pair(b=s1)\ns1 = ref 0\nend\n";

/// The box of both fields of a pair, which goes past a list of any length.
pub const SEG: &str = "box seg in pair out pair\nroot 0 s0\ns0 = pair(a=s1,b=s2)\ns1 = ref 1\n\
    s1 = pair(a=s1,b=s3)\ns2 = ref 1\ns3 = null\nroot 1 s0\ns0 = pair()\nend\n";

/// The box of the pointer of a node to another.
pub const TO: &str = "box to in node out node\nroot 0 s0\ns0 = node(a=s1)\ns1 = ref 1\n\
    root 1 s0\ns0 = node()\nend\n";

/// The box of the pointer of a node to itself.
pub const RING: &str = "box ring in node\nroot 0 s0\ns0 = node(a=s1)\ns1 = ref 0\nend\n";

/// The table of the boxes of a file, over the structs of rows.
///
/// # Errors
///
/// A file that cannot be read, and want of memory.
pub fn table_from(alloc: Global, file: &[u8]) -> Result<BoxTable> {
    let face = face(alloc)?;
    table_over(alloc, file, &face.shapes)
}

/// The table of the boxes of a file, over these structs.
///
/// # Errors
///
/// A file that cannot be read, and want of memory.
pub fn table_over(alloc: Global, file: &[u8], shapes: &Shapes) -> Result<BoxTable>
    ensures { IfOk result (λ table. table.face.shapes ≡ shapes.now) }
{
    if file.len() > TEXT_BYTES {
        bail!("a long file");
    }
    match read_boxes(alloc, file, shapes) {
        Ok(table) => Ok(table),
        Err(_) => bail!("no file of boxes"),
    }
}
