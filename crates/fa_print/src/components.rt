// The lines of components.
ghost use Rattle.std.specs.Prelude.{◌≡◌, ◌++◌, ◌∷◌, [], codes, decimal, flat_map, map, slice_get, OnOk};
ghost use Rattle.fa_lines.specs.Spelling.{state_text};
ghost use Rattle.fa_lines.specs.declared.line.Line.{Line};
ghost use Rattle.fa_print.specs.Lines as spec;
ghost use Rattle.fa_print.specs.inner.Putting.{rule_text, rules_text_at};

use crate::cells::put_term;
use crate::order::places_by_state;
use crate::slots::put_state;
use fa_core::table::BoxTable;
use fore_base::list::List;
use fore_base::memory::Mem;
use fore_base::text::Text;
use std::alloc::Global;
use ta_core::auto::{Auto, Rule};

/// States, with a space before each.
fn put_states(text: &mut Text, states: &[u32]) -> Mem<()>
    ensures { OnOk result (text.new ≡ text.old ++ flat_map (λ w. codes " " ++ w) (map state_text states.now)) }
{
    for state in states {
        text.put(b" ")?;
        put_state(text, *state)?;
    }
    Ok(())
}

/// The line that begins a component.
fn put_root_line(text: &mut Text, component: usize, roots: &[u32]) -> Mem<()>
    ensures { OnOk result (text.new ≡ text.old ++ spec.line_text (Line.Root component roots.now)) }
{
    text.put(b"root ")?;
    text.put_number(component as u64)?;
    put_states(text, roots)?;
    text.put(b"\n")?;
    Ok(())
}

fn put_rule(text: &mut Text, table: &BoxTable, rule: &Rule) -> Mem<()>
    ensures { OnOk result (text.new ≡ text.old ++ spec.line_text (spec.rule_line table.now rule.now)) }
{
    put_state(text, rule.state)?;
    text.put(b" = ")?;
    put_term(text, table, &rule.symbol, rule.children.as_slice())?;
    text.put(b"\n")?;
    Ok(())
}

/// The line of the rule at this place.
fn put_rule_at(text: &mut Text, table: &BoxTable, rules: &[Rule], place: usize) -> Mem<()>
    ensures { OnOk result (text.new ≡ text.old ++ rule_text table.now (slice_get rules.now place)) }
{
    match rules.get(place) {
        Some(rule) => put_rule(text, table, rule),
        None => Ok(()),
    }
}

/// The lines of the rules at these places.
fn put_rules_at(text: &mut Text, table: &BoxTable, rules: &[Rule], places: &[usize]) -> Mem<()>
    ensures { OnOk result (text.new ≡ text.old ++ rules_text_at table.now rules.now places.now) }
{
    for place in places {
        put_rule_at(text, table, rules, *place)?;
    }
    Ok(())
}

/// The lines of the rules at the places of each list.
fn put_rules(text: &mut Text, table: &BoxTable, rules: &[Rule], places: &[List<usize>]) -> Mem<()>
    ensures { OnOk result (text.new ≡ text.old ++ flat_map (rules_text_at table.now rules.now) places.now) }
{
    for own in places {
        put_rules_at(text, table, rules, own.as_slice())?;
    }
    Ok(())
}

/// The rules of an automaton in order of state, and those of a state in the order kept.
fn put_in_order(alloc: Global, text: &mut Text, table: &BoxTable, auto: &Auto) -> Mem<()>
    ensures { OnOk result (text.new ≡ text.old
        ++ spec.lines_text (map (spec.rule_line table.now) (spec.by_state auto.now.rules 0 auto.now.states))) }
{
    let rules = auto.rules.as_slice();
    let places = places_by_state(alloc, rules, auto.states)?;
    put_rules(text, table, rules, places.as_slice())?;
    Ok(())
}

/// A component of this number.
fn put_component(
    alloc: Global,
    text: &mut Text,
    table: &BoxTable,
    component: usize,
    auto: &Auto,
) -> Mem<()>
    ensures { OnOk result (text.new ≡ text.old ++ spec.lines_text (spec.part_lines table.now component auto.now)) }
{
    put_root_line(text, component, auto.roots.as_slice())?;
    put_in_order(alloc, text, table, auto)?;
    Ok(())
}

/// Components, and the line that ends them.
pub fn put_components(alloc: Global, text: &mut Text, table: &BoxTable, autos: &[Auto]) -> Mem<()>
    ensures { OnOk result (text.new ≡ text.old
        ++ spec.lines_text (spec.parts_lines table.now 0 autos.now ++ Line.Ends ∷ [])) }
{
    for (i, auto) in autos.iter().enumerate() {
        put_component(alloc, text, table, i, auto)?;
    }
    text.put(b"end\n")?;
    Ok(())
}
