// The slots of cells.
ghost use Rattle.std.specs.Prelude.{◌≡◌, ◌++◌, false, codes, map, OnOk};
ghost use Rattle.std.specs.List.{concat};
ghost use Rattle.fa_lines.specs.Spelling as spelling;
ghost use Rattle.fa_named.specs.Structs.{field_names};
ghost use Rattle.fa_print.specs.Lines as spec;
ghost use Rattle.fa_print.specs.inner.Putting.{comma_before};

use crate::names::{box_name, field_name};
use fa_core::table::BoxTable;
use fore_base::memory::Mem;
use fore_base::shape::FieldDef;
use fore_base::text::Text;
use ta_core::symbol::Slot;

/// A comma in front of an item, but for the first.
pub fn put_comma(text: &mut Text, item: usize) -> Mem<()>
    ensures { OnOk result (text.new ≡ text.old ++ comma_before item) }
{
    if item > 0 {
        text.put(b",")?;
    }
    Ok(())
}

/// A state.
pub fn put_state(text: &mut Text, state: u32) -> Mem<()>
    ensures { OnOk result (text.new ≡ text.old ++ spelling.state_text state) }
{
    text.put(b"s")?;
    text.put_number(state as u64)?;
    Ok(())
}

fn first_state(states: &[u32]) -> u32
    ensures { result ≡ spec.first_state states.now }
{
    match states.first() {
        Some(state) => *state,
        None => 0,
    }
}

/// The states below the slots behind this one.
fn states_behind<'a>(slot: Slot, states: &'a [u32]) -> &'a [u32]
    ensures { result.now ≡ spec.states_behind slot states.entry.now }
{
    match slot {
        Slot::Field(_) | Slot::Link(_) => match states.split_first() {
            Some((_, rest)) => rest,
            None => states,
        },
        Slot::Hook(_) => states,
    }
}

/// A name, and the first of the states.
fn put_below(text: &mut Text, name: &[u8], states: &[u32]) -> Mem<()>
    ensures { OnOk result
        (text.new ≡ text.old ++ (name.now ++ (codes "=" ++ spelling.state_text (spec.first_state states.now)))) }
{
    text.put(name)?;
    text.put(b"=")?;
    put_state(text, first_state(states))?;
    Ok(())
}

/// The name of a box, behind the sign of boxes.
fn put_box(text: &mut Text, name: &[u8]) -> Mem<()>
    ensures { OnOk result (text.new ≡ text.old ++ (codes "@" ++ name.now)) }
{
    text.put(b"@")?;
    text.put(name)?;
    Ok(())
}

/// The edge of a box, and the first of the states.
fn put_link(text: &mut Text, name: &[u8], states: &[u32]) -> Mem<()>
    ensures { OnOk result (text.new ≡ text.old
        ++ (codes "@" ++ (name.now ++ (codes "=" ++ spelling.state_text (spec.first_state states.now))))) }
{
    text.put(b"@")?;
    put_below(text, name, states)?;
    Ok(())
}

/// A slot, with the first of the states.
fn put_slot(
    text: &mut Text,
    table: &BoxTable,
    fields: &[FieldDef],
    slot: Slot,
    states: &[u32],
) -> Mem<()>
    ensures { OnOk result (text.new ≡ text.old ++ concat
        (spelling.slot_pieces (spec.named_slot table.now (field_names false fields.now) slot states.now))) }
{
    match slot {
        Slot::Field(field) => put_below(text, field_name(fields, false, field as usize), states),
        Slot::Link(number) => put_link(text, box_name(table, number), states),
        Slot::Hook(number) => put_box(text, box_name(table, number)),
    }
}

/// The slots of a cell with the states below them, and a comma between two.
pub fn put_slots(
    text: &mut Text,
    table: &BoxTable,
    fields: &[FieldDef],
    slots: &[Slot],
    states: &[u32],
) -> Mem<()>
    ensures { OnOk result (text.new ≡ text.old ++ concat (spelling.series (map spelling.slot_pieces
        (spec.named_slots table.now (field_names false fields.now) slots.now states.now)))) }
{
    let mut left = states;
    for (i, slot) in slots.iter().enumerate() {
        put_comma(text, i)?;
        put_slot(text, table, fields, *slot, left)?;
        left = states_behind(*slot, left);
    }
    Ok(())
}
