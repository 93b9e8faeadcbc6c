// The answers to texts of boxes.
ghost use Rattle.std.specs.Prelude.{◌≤◌, length};

use crate::printing::put_box;
use fa_core::table::BoxTable;
use fa_text::{BoxFault, read_boxes};
use fa_written::limits::TEXT_BYTES;
use fore_base::memory::Mem;
use fore_base::shape::Shapes;
use fore_base::text::Text;
use std::alloc::{AllocError, Global};

/// The boxes of the table, or the first rule that the text breaks, with its line.
pub fn put_table(alloc: Global, out: &mut Text, text: &[u8], shapes: &Shapes) -> Mem<()>
    requires { length text.now ≤ TEXT_BYTES }
{
    match read_boxes(alloc, text, shapes) {
        Ok(table) => put_boxes(out, &table),
        Err(BoxFault::Rule { rule, line }) => put_rule(out, b"B", rule, line),
        Err(BoxFault::Limit { line }) => put_rule(out, b"K", 6, line),
        Err(BoxFault::Memory) => Err(AllocError),
    }
}

/// Puts a rule and its line.
fn put_rule(out: &mut Text, letter: &[u8], rule: u8, line: u32) -> Mem<()> {
    out.put(letter)?;
    out.put_number(u64::from(rule))?;
    out.put(b" ")?;
    out.put_number(u64::from(line))
}

fn put_boxes(out: &mut Text, table: &BoxTable) -> Mem<()> {
    out.put(b"ok")?;
    for i in 0..table.len() {
        out.put(b" ")?;
        put_box(out, table.box_def(i))?;
    }
    Ok(())
}
