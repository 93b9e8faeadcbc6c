// The table of boxes of a text.
ghost use Rattle.std.specs.Prelude.{◌≡◌, ◌≤◌, ◌⊎◌, length, IfOk, IfErr, Ok, Err};
ghost use Rattle.fa_core.specs.Boxes.{Boxes};
ghost use Rattle.fa_written.specs.Drafts.{IsText};
ghost use Rattle.fa_named.specs.Named.{AreNamed};
ghost use Rattle.fa_text.specs.Files.{fault_of, IsBoxFile, IsFirst, IsFault, Answers};
ghost use Rattle.fa_text.specs.declared.fault.BoxFault.{BoxFault};
ghost use Rattle.fa_text.specs.inner.Next.{fault_by};

use crate::fault::BoxFault;
use crate::tables::table_of;
use fa_core::table::BoxTable;
use fa_named::{NameFault, NamedBox, name_boxes};
use fa_written::laws::{no_line_is_in_the_way, one_line_is_first, texts_write_one_list};
use fa_written::limits::TEXT_BYTES;
use fa_written::{BoxDraft, DraftFault, read_drafts};
use fore_base::shape::Shapes;
use std::alloc::Global;

fn line_fault(fault: DraftFault) -> BoxFault
    ensures { result ≡ fault_by fault }
{
    match fault {
        DraftFault::B1 { line } => BoxFault::Rule { rule: 1, line },
        DraftFault::Memory => BoxFault::Memory,
    }
}

fn named_fault(fault: NameFault) -> BoxFault
    ensures { result ≡ fault_of fault }
{
    match fault {
        NameFault::K6 { line } => BoxFault::Limit { line },
        NameFault::B2 { line } => BoxFault::Rule { rule: 2, line },
        NameFault::B3 { line } => BoxFault::Rule { rule: 3, line },
        NameFault::Memory => BoxFault::Memory,
    }
}

/// The table of the boxes of a text, as they are named.
fn named_table(
    alloc: Global,
    text: &[u8],
    shapes: &Shapes,
    drafts: &[BoxDraft],
    named: &[NamedBox],
) -> Result<BoxTable, BoxFault>
    requires size { length text.now ≤ TEXT_BYTES }
    requires written { IsText text.now drafts.now }
    requires named { AreNamed shapes.now drafts.now named.now }
    ensures ok { IfOk result (IsBoxFile text.now shapes.now) }
    ensures err { IfErr result (IsFault text.now shapes.now) }
{
    let _text = text;
    table_of(alloc, shapes, drafts, named)
}

/// The table of the boxes of a text, as they are written.
fn written_table(
    alloc: Global,
    text: &[u8],
    shapes: &Shapes,
    drafts: &[BoxDraft],
) -> Result<BoxTable, BoxFault>
    requires size { length text.now ≤ TEXT_BYTES }
    requires written { IsText text.now drafts.now }
    ensures ok { IfOk result (IsBoxFile text.now shapes.now) }
    ensures err { IfErr result (IsFault text.now shapes.now) }
{
    match name_boxes(alloc, shapes, drafts) {
        Ok(named) => named_table(alloc, text, shapes, drafts, named.as_slice()),
        Err(fault) => Err(named_fault(fault)),
    }
}

/// As `read_boxes`.
fn read_table(alloc: Global, text: &[u8], shapes: &Shapes) -> Result<BoxTable, BoxFault>
    requires { length text.now ≤ TEXT_BYTES }
    ensures ok { IfOk result (IsBoxFile text.now shapes.now) }
    ensures err { IfErr result (IsFault text.now shapes.now) }
{
    match read_drafts(alloc, text) {
        Ok(drafts) => written_table(alloc, text, shapes, drafts.as_slice()),
        Err(fault) => Err(line_fault(fault)),
    }
}

/// The table of boxes that a text of at most 16,777,216 bytes writes over the structs of a program.
///
/// # Errors
///
/// `BoxFault::Rule` with the number of the first rule that the text breaks, and its line; `BoxFault::Limit` at the 33rd
/// box. B1 is looked for in the whole text first, then the 33rd box, then B2 and B3 line by line, on one line the least
/// of the two, then B4 to B7 box by box, in each the least, at its first line. `BoxFault::Memory` for want of memory.
pub fn read_boxes(alloc: Global, text: &[u8], shapes: &Shapes) -> Result<BoxTable, BoxFault>
    requires { length text.now ≤ TEXT_BYTES }
    ensures ok { IfOk result (IsBoxFile text.now shapes.now) }
    ensures err { IfErr result (IsFault text.now shapes.now) }
    ensures table { (table : Boxes) → IsBoxFile text.now shapes.now table → Answers result (Ok table) }
    ensures first { (fault : BoxFault) → IsFirst text.now shapes.now fault → Answers result (Err fault) }
{
    texts_write_one_list();
    one_line_is_first();
    no_line_is_in_the_way();
    read_table(alloc, text, shapes)
}
