// Tables of the boxes that are written.
ghost use Rattle.std.specs.Prelude.{◌≡◌, [], ◌∷◌, ◌++◌, length, IfOk, IfErr, OnOk};
ghost use Rattle.fore_base.specs.Lists.{Every};
ghost use Rattle.fa_core.specs.Boxes.{SoundBox};
ghost use Rattle.fa_core.specs.declared.boxes.BoxDef.{BoxDef};
ghost use Rattle.fa_text.specs.Files as spec;
ghost use Rattle.fa_text.specs.Files.{HasFace, AreBoxes, face_over};
ghost use Rattle.fa_text.specs.inner.Next.{IsNext, AreNext, HasFew, IsRefused, IsBroken};

use crate::fault::BoxFault;
use fa_box_rules::BoxRule;
use fa_core::boxes::BoxDef;
use fa_core::faces::BoxFace;
use fa_core::table::BoxTable;
use fa_faces::{FaceFault, box_face};
use fa_named::NamedBox;
use fa_written::BoxDraft;
use fore_base::list::Copies;
use fore_base::memory::Mem;
use fore_base::shape::Shapes;
use std::alloc::Global;

fn rule_number(rule: BoxRule) -> u8
    ensures { result ≡ spec.rule_number rule }
{
    match rule {
        BoxRule::B4 => 4,
        BoxRule::B5 => 5,
        BoxRule::B6 => 6,
        BoxRule::B7 => 7,
    }
}

/// The box that is written, with its face.
fn def_of(alloc: Global, named: &NamedBox, face: BoxFace) -> Mem<BoxDef>
    ensures { IfOk result (λ b. b ≡ record { name = named.now.name; face = face; inside = named.now.inside }) }
{
    let name = named.name.copy(alloc)?;
    let inside = named.inside.copy(alloc)?;
    Ok(BoxDef { name, face, inside })
}

/// The face of a box, or why it has none.
fn face_of(
    alloc: Global,
    table: &BoxTable,
    line: u32,
    named: &NamedBox,
) -> Result<BoxFace, BoxFault>
    requires next { IsNext table.now.face.shapes table.now.defs named.now }
    requires few { HasFew named.now }
    ensures sound { IfOk result (λ face. SoundBox table.now.face table.now.defs
        (record { name = named.now.name; face = face; inside = named.now.inside })) }
    ensures face { IfOk result (λ face.
        HasFace named.now (record { name = named.now.name; face = face; inside = named.now.inside })) }
    ensures err { IfErr result (IsRefused table.now named.now line) }
{
    table.known();
    match box_face(alloc, table, named.input, named.output, &named.inside) {
        Ok(face) => Ok(face),
        Err(FaceFault::Breaks(rule)) => Err(BoxFault::Rule {
            rule: rule_number(rule),
            line,
        }),
        Err(FaceFault::Memory) => Err(BoxFault::Memory),
    }
}

/// Puts the box that begins on this line last, with its face.
fn add_box(alloc: Global, table: &mut BoxTable, line: u32, named: &NamedBox) -> Result<(), BoxFault>
    requires next { IsNext table.old.face.shapes table.old.defs named.now }
    requires few { HasFew named.now }
    ensures ok { OnOk result ((b : BoxDef) × HasFace named.now b × (table.new.defs ≡ table.old.defs ++ b ∷ [])) }
    ensures shapes { table.new.face.shapes ≡ table.old.face.shapes }
    ensures err { IfErr result (IsRefused table.old named.now line) }
{
    let face = face_of(alloc, table, line, named)?;
    let def = def_of(alloc, named, face)?;
    table.add(alloc, &def)?;
    Ok(())
}

/// The table of the boxes, or the first that breaks a rule.
pub fn table_of(
    alloc: Global,
    shapes: &Shapes,
    drafts: &[BoxDraft],
    named: &[NamedBox],
) -> Result<BoxTable, BoxFault>
    requires next { AreNext shapes.now [] named.now }
    requires few { Every HasFew named.now }
    requires long { length named.now ≡ length drafts.now }
    ensures boxes { IfOk result (λ table. AreBoxes shapes.now named.now table.defs) }
    ensures face { IfOk result (λ table. table.face ≡ face_over shapes.now table.defs) }
    ensures err { IfErr result (IsBroken shapes.now drafts.now named.now) }
{
    let mut table = BoxTable::empty(alloc, shapes)?;
    for i in 0..named.len() {
        table.known();
        add_box(alloc, &mut table, drafts[i].head.line, &named[i])?;
    }
    table.known();
    Ok(table)
}
