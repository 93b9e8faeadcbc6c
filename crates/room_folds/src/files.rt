// Boxes over the structs of rows, by their names.
//
// Each word of a text is a box. Of nodes: `to` leads along one pointer, `far` along an edge of `to`, `hop` along two
// pointers through a node between, `ring` is a pointer back to its own cell, and `pair` two nodes that point to each
// other. Of pairs: `dll` leads to the next and back, `step` along the first pointer, and `seg` has both pointers of a
// cell and a list of any length between; `turn` is a second pointer back to its own cell, and `halt` leads to a pair
// with such an edge that points to the output; `fork` has one pointer to the output and the other to a pair of null
// pointers, in either order; `both` has two pairs between, one behind each pointer, and `crossed` has them too, but
// numbers the one behind the second pointer first. Of items: `item` leads along the pointer, and `items` along two,
// through an item with 2 between.

use anyhow::{Result, bail};
use fa_core::table::BoxTable;
use fore_base::text::Text;
use row_boxes::{DLL, RING, SEG, TO, table_from};
use std::alloc::Global;

const FAR: &str = "box far in node out node\nroot 0 s0\ns0 = node(@to=s1)\ns1 = ref 1\n\
    root 1 s0\ns0 = node()\nend\n";

const HOP: &str = "box hop in node out node\nroot 0 s0\ns0 = node(a=s1)\ns1 = ref 2\n\
    root 1 s0\ns0 = node()\nroot 2 s0\ns0 = node(a=s1)\ns1 = ref 1\nend\n";

const PAIR: &str = "box pair in node out node\nroot 0 s0\ns0 = node(a=s1)\ns1 = ref 1\n\
    root 1 s0\ns0 = node(a=s1)\ns1 = ref 0\nend\n";

const STEP: &str = "box step in pair out pair\nroot 0 s0\ns0 = pair(a=s1)\ns1 = ref 1\n\
    root 1 s0\ns0 = pair()\nend\n";

const TURN: &str = "box turn in pair\nroot 0 s0\ns0 = pair(b=s1)\ns1 = ref 0\nend\n";

const HALT: &str = "box halt in pair out pair\nroot 0 s0\ns0 = pair(a=s1)\ns1 = ref 2\n\
    root 1 s0\ns0 = pair()\nroot 2 s0\ns0 = pair(a=s1,@turn)\ns1 = ref 1\nend\n";

const FORK: &str =
    "box fork in pair out pair\nroot 0 s0 s3\ns0 = pair(a=s1,b=s2)\ns1 = ref 1\ns2 = ref 2\n\
    s3 = pair(a=s2,b=s1)\nroot 1 s0\ns0 = pair()\nroot 2 s0\ns0 = pair(a=s1,b=s1)\ns1 = null\nend\n";

const BOTH: &str =
    "box both in pair out pair\nroot 0 s0\ns0 = pair(a=s1,b=s2)\ns1 = ref 2\ns2 = ref 3\n\
    root 1 s0\ns0 = pair()\nroot 2 s0\ns0 = pair(a=s1,b=s2)\ns1 = ref 1\ns2 = null\n\
    root 3 s0\ns0 = pair(a=s1,b=s2)\ns1 = ref 1\ns2 = uninit\nend\n";

const CROSSED: &str =
    "box crossed in pair out pair\nroot 0 s0\ns0 = pair(a=s1,b=s2)\ns1 = ref 3\ns2 = ref 2\n\
    root 1 s0\ns0 = pair()\nroot 2 s0\ns0 = pair(a=s1,b=s2)\ns1 = ref 1\ns2 = uninit\n\
    root 3 s0\ns0 = pair(a=s1,b=s2)\ns1 = ref 1\ns2 = null\nend\n";

const ITEM: &str = "box item in item out item\nroot 0 s0\ns0 = item(b=s1)\ns1 = ref 1\n\
    root 1 s0\ns0 = item()\nend\n";

const ITEMS: &str = "box items in item out item\nroot 0 s0\ns0 = item(b=s1)\ns1 = ref 2\n\
    root 1 s0\ns0 = item()\nroot 2 s0\ns0 = item[a=2](b=s1)\ns1 = ref 1\nend\n";

/// The table of these boxes.
pub fn table_of(alloc: Global, names: &str) -> Result<BoxTable> {
    let mut text = Text::new(alloc);
    for name in names.split(' ') {
        text.put(box_of(name)?.as_bytes())?;
    }
    table_from(alloc, text.as_slice())
}

fn box_of(name: &str) -> Result<&'static str> {
    match name {
        "to" => Ok(TO),
        "far" => Ok(FAR),
        "hop" => Ok(HOP),
        "ring" => Ok(RING),
        "pair" => Ok(PAIR),
        "dll" => Ok(DLL),
        "step" => Ok(STEP),
        "seg" => Ok(SEG),
        "turn" => Ok(TURN),
        "halt" => Ok(HALT),
        "fork" => Ok(FORK),
        "both" => Ok(BOTH),
        "crossed" => Ok(CROSSED),
        "item" => Ok(ITEM),
        "items" => Ok(ITEMS),
        _ => bail!("no such box"),
    }
}
