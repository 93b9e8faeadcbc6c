// The fields that the slots at the tops of an automaton's trees cover.

ghost use Rattle.std.specs.Prelude.{[], ◌∷◌, flat_map, IfOk, OnOk};
ghost use Rattle.fa_core.specs.Filled.{covers};
ghost use Rattle.fa_core.specs.Folding.{ArePortFields, symbol_slots};
ghost use Rattle.fa_part.specs.inner.Added.{Adds};

use fa_core::cells::has;
use fa_core::faces::BoxFace;
use fa_core::ordering::in_order;
use fa_filling::covered;
use fa_split::{rules_of, slots_of, stands_at_top};
use fore_base::list::List;
use fore_base::memory::Mem;
use std::alloc::Global;
use ta_core::auto::Auto;
use ta_core::inhabited::inhabited;
use ta_core::symbol::Symbol;

/// The fields that some slot at the top of one of the automaton's trees covers, in rising order. Err is want of memory.
pub fn port_fields(alloc: Global, boxes: &[BoxFace], auto: &Auto) -> Mem<List<u32>>
    ensures { IfOk result (ArePortFields boxes.now auto.now) }
{
    auto.known();
    let marks = inhabited(alloc, auto)?;
    let mut fields = List::new(alloc);
    for rule in rules_of(auto) {
        if stands_at_top(auto, marks.as_slice(), rule) {
            add_covered(alloc, &mut fields, boxes, &rule.symbol)?;
        }
    }
    in_order(alloc, fields.as_slice())
}

/// Adds the fields that the slots of the symbol cover.
fn add_covered(alloc: Global, fields: &mut List<u32>, boxes: &[BoxFace], symbol: &Symbol) -> Mem<()>
    ensures { OnOk result (Adds fields.old (flat_map (covers boxes.now) (symbol_slots symbol.now)) fields.new) }
{
    let more = covered(alloc, boxes, slots_of(symbol))?;
    add_each(fields, more.as_slice())?;
    Ok(())
}

fn add_each(fields: &mut List<u32>, more: &[u32]) -> Mem<()>
    ensures { OnOk result (Adds fields.old more.now fields.new) }
{
    for field in more {
        add(fields, *field)?;
    }
    Ok(())
}

/// Adds the field where it is not there yet.
fn add(fields: &mut List<u32>, field: u32) -> Mem<()>
    ensures { OnOk result (Adds fields.old (field ∷ []) fields.new) }
{
    if !has(field, fields.as_slice()) {
        fields.push(field)?;
    }
    Ok(())
}
