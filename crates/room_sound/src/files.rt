// Files of boxes over the structs of rows, by their names.
//
// Each word of a text is a box: dll leads from a pair to the next and back, seg is one of both fields of a pair and
// goes past a list of any length, chain past one pair, to is a pointer from one node to another, off one of a pair to
// another whose b is null, ring the pointer of a node to itself, and trio a dll of trios. turn is the pointer a of a
// trio to itself, and step the pointer b of one to another. past, mixed and some lead from both fields of a pair to
// another: past by an inner root that refers to it twice, mixed by one that does once or twice, and some straight,
// where b may be null. tower-N has N and one more boxes, each but the first of two edges of the one before.

use anyhow::{Result, bail};
use fore_base::text::Text;
use row_boxes::{DLL, RING, SEG, TO};
use std::alloc::Global;

const CHAIN: &str = "box chain in pair out pair\nroot 0 s0\ns0 = pair(a=s1,b=s2)\n\
    s1 = pair(a=s2,b=s3)\ns2 = ref 1\ns3 = null\nroot 1 s0\ns0 = pair()\nend\n";

const OFF: &str = "box off in pair out pair\nroot 0 s0\ns0 = pair(a=s1)\ns1 = ref 1\n\
    root 1 s0\ns0 = pair(b=s1)\ns1 = null\nend\n";

const TRIO: &str = "box trio in trio out trio\nroot 0 s0\ns0 = trio(a=s1)\ns1 = ref 1\n\
    root 1 s0\ns0 = trio(b=s1)\ns1 = ref 0\nend\n";

const TURN: &str = "box turn in trio\nroot 0 s0\ns0 = trio(a=s1)\ns1 = ref 0\nend\n";

const STEP: &str = "box step in trio out trio\nroot 0 s0\ns0 = trio(b=s1)\ns1 = ref 1\n\
    root 1 s0\ns0 = trio()\nend\n";

const PAST: &str = "box past in pair out pair\nroot 0 s0\ns0 = pair(a=s1,b=s1)\ns1 = ref 2\n\
    root 1 s0\ns0 = pair()\nroot 2 s0\ns0 = pair(a=s1,b=s1)\ns1 = ref 1\nend\n";

const MIXED: &str = "box mixed in pair out pair\nroot 0 s0\ns0 = pair(a=s1,b=s1)\ns1 = ref 2\n\
    root 1 s0\ns0 = pair()\nroot 2 s0 s1\ns0 = pair(a=s2,b=s3)\ns1 = pair(a=s2,b=s2)\n\
    s2 = ref 1\ns3 = null\nend\n";

const SOME: &str = "box some in pair out pair\nroot 0 s0 s1\ns0 = pair(a=s2,b=s3)\n\
    s1 = pair(a=s2,b=s2)\ns2 = ref 1\ns3 = null\nroot 1 s0\ns0 = pair()\nend\n";

/// The file of these boxes.
pub fn file_of(alloc: Global, names: &str) -> Result<Text> {
    let mut text = Text::new(alloc);
    for name in names.split(' ') {
        match name.split_once('-') {
            Some((_, top)) => put_tower(alloc, &mut text, top.parse::<u32>()?)?,
            None => text.put(box_of(name)?.as_bytes())?,
        }
    }
    Ok(text)
}

fn box_of(name: &str) -> Result<&'static str> {
    match name {
        "dll" => Ok(DLL),
        "seg" => Ok(SEG),
        "chain" => Ok(CHAIN),
        "to" => Ok(TO),
        "off" => Ok(OFF),
        "ring" => Ok(RING),
        "trio" => Ok(TRIO),
        "turn" => Ok(TURN),
        "step" => Ok(STEP),
        "past" => Ok(PAST),
        "mixed" => Ok(MIXED),
        "some" => Ok(SOME),
        _ => bail!("no such box"),
    }
}

// The boxes d0 to that of this number.
fn put_tower(alloc: Global, text: &mut Text, top: u32) -> Result<()> {
    text.put(b"box d0 in node out node\nroot 0 s0\ns0 = node(a=s1)\ns1 = ref 1\n")?;
    text.put(b"root 1 s0\ns0 = node()\nend\n")?;
    for below in 0..top {
        put_level(alloc, text, below)?;
    }
    Ok(())
}

// The box of two edges of the one below.
fn put_level(alloc: Global, text: &mut Text, below: u32) -> Result<()> {
    let own = below.saturating_add(1);
    let head = format!(in alloc;
        "box d{own} in node out node\nroot 0 s0\ns0 = node(@d{below}=s1)\n"
    )?;
    text.put(head.as_bytes())?;
    let next = format!(in alloc;
        "s1 = node(@d{below}=s2)\ns2 = ref 1\nroot 1 s0\ns0 = node()\nend\n"
    )?;
    text.put(next.as_bytes())?;
    Ok(())
}
