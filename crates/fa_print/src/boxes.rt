// The texts of boxes.
ghost use Rattle.std.specs.Prelude.{◌≡◌, ◌++◌, ◌<◌, codes, flat_map, length, slice_get, IfOk, IfSome, OnOk};
ghost use Rattle.fa_lines.specs.Spelling.{output_pieces};
ghost use Rattle.fa_lines.specs.declared.line.Line.{Line};
ghost use Rattle.fa_print.specs.Lines.{line_text};
ghost use Rattle.fa_print.specs.Names as names;
ghost use Rattle.fa_print.specs.Texts as spec;

use crate::components::put_components;
use crate::names::struct_name;
use fa_core::boxes::BoxDef;
use fa_core::table::BoxTable;
use fore_base::memory::Mem;
use fore_base::shape::Shape;
use fore_base::text::Text;
use std::alloc::Global;

/// The output of a box, where it has one.
fn put_output(text: &mut Text, structs: &[Shape], output: Option<u32>) -> Mem<()>
    ensures { OnOk result (text.new ≡ text.old
        ++ flat_map (λ w. codes " " ++ w) (output_pieces (spec.output_name structs.now output))) }
{
    if let Some(shape) = output {
        text.put(b" out ")?;
        text.put(struct_name(structs, shape))?;
    }
    Ok(())
}

/// The line that begins a box.
fn put_head(text: &mut Text, structs: &[Shape], def: &BoxDef) -> Mem<()>
    ensures { OnOk result (text.new ≡ text.old ++ line_text
        (Line.Opens def.now.name (names.struct_name structs.now def.now.face.input)
        (spec.output_name structs.now def.now.face.output))) }
{
    text.put(b"box ")?;
    text.put(def.name.as_slice())?;
    text.put(b" in ")?;
    text.put(struct_name(structs, def.face.input))?;
    put_output(text, structs, def.face.output)?;
    text.put(b"\n")?;
    Ok(())
}

fn put_box(alloc: Global, text: &mut Text, table: &BoxTable, def: &BoxDef) -> Mem<()>
    ensures { OnOk result (text.new ≡ text.old ++ spec.box_text table.now def.now) }
{
    put_head(text, table.face().shapes.structs.as_slice(), def)?;
    put_components(alloc, text, table, def.inside.autos.as_slice())?;
    Ok(())
}

/// The text of the box of this number, as it is written in a file of boxes: its ports, its components with their rules
/// in order of state, and its end. Err is want of memory.
pub fn print_box(alloc: Global, table: &BoxTable, box_no: u32) -> Mem<Text>
    requires { box_no < length table.now.defs }
    ensures { IfOk result (λ text.
        IfSome (slice_get table.now.defs box_no) (λ def. text ≡ spec.box_text table.now def)) }
{
    let mut text = Text::new(alloc);
    put_box(alloc, &mut text, table, table.box_def(box_no))?;
    Ok(text)
}
