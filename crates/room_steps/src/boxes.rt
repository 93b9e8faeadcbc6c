// The boxes by which a step is taken.
//
// They stand in files over the structs of rows. dll leads from a pair to the next by a, and back by b, and trios does
// so from a trio to the next. seg is one of both fields of a pair and goes past a list of any length. ring is the
// pointer of a node to itself. tower has two: the pointer of a node to another, and two such edges with a node between.
// twice has dll, and two edges of it with a pair between. items has the pointer of an item to another, and to itself.

ghost use Rattle.std.specs.Prelude.{◌≡◌, IfOk};

use anyhow::{Result, bail};
use fa_core::table::BoxTable;
use fore_base::shape::Shapes;
use row_boxes::{DLL, RING, SEG, table_from, table_over};
use row_forests::face;
use std::alloc::Global;

const TRIOS: &str = "box dll in trio out trio\nroot 0 s0\ns0 = trio(a=s1)\ns1 = ref 1\n\
    root 1 s0\ns0 = trio(b=s1)\ns1 = ref 0\nend\n";

const TOWER: &str = "box to in node out node\nroot 0 s0\ns0 = node(a=s1)\ns1 = ref 1\n\
    root 1 s0\ns0 = node()\nend\n\
    box two in node out node\nroot 0 s0\ns0 = node(@to=s1)\ns1 = node(@to=s2)\ns2 = ref 1\n\
    root 1 s0\ns0 = node()\nend\n";

const TWICE: &str = "box dll in pair out pair\nroot 0 s0\ns0 = pair(a=s1)\ns1 = ref 1\n\
    root 1 s0\ns0 = pair(b=s1)\ns1 = ref 0\nend\n\
    box two in pair out pair\nroot 0 s0\ns0 = pair(@dll=s1)\ns1 = pair(@dll=s2)\ns2 = ref 1\n\
    root 1 s0\ns0 = pair()\nend\n";

const ITEMS: &str = "box to in item out item\nroot 0 s0\ns0 = item(b=s1)\ns1 = ref 1\n\
    root 1 s0\ns0 = item()\nend\n\
    box own in item\nroot 0 s0\ns0 = item(b=s1)\ns1 = ref 0\nend\n";

// No boxes, over the structs of rows.
pub fn no_boxes(alloc: Global) -> Result<BoxTable> {
    let face = face(alloc)?;
    Ok(BoxTable::empty(alloc, &face.shapes)?)
}

// The boxes of the file of this name, over the structs of rows.
pub fn table_named(alloc: Global, name: &str) -> Result<BoxTable> {
    table_from(alloc, file_of(name)?.as_bytes())
}

// The boxes of the file of this name, over the structs.
pub fn table_of(alloc: Global, name: &str, shapes: &Shapes) -> Result<BoxTable>
    ensures { IfOk result (λ table. table.face.shapes ≡ shapes.now) }
{
    table_over(alloc, file_of(name)?.as_bytes(), shapes)
}

fn file_of(name: &str) -> Result<&'static str> {
    match name {
        "dll" => Ok(DLL),
        "trios" => Ok(TRIOS),
        "ring" => Ok(RING),
        "seg" => Ok(SEG),
        "tower" => Ok(TOWER),
        "twice" => Ok(TWICE),
        "items" => Ok(ITEMS),
        _ => bail!("no such file"),
    }
}
