// Components with a cell that gains the slots of a port.

ghost use Rattle.std.specs.Prelude.{◌≡◌, flat_map, map, IfOk};
ghost use Rattle.ta_core.specs.Auto.{IsRanked};
ghost use Rattle.fa_unfold.specs.Slots.{joined, moved_place, place_key, rule_places, with_places, with_slots};
ghost use Rattle.fa_unfold.specs.Unfolding.{below_tops, child_states, grown, rules_below};

use crate::slots::{joined, moved_places, rule_places};
use fa_core::cells::has;
use fa_core::faces::BoxFace;
use fa_split::{alone, roots_of, rules_of, states_of};
use fore_base::list::{Copies, List};
use fore_base::memory::Mem;
use std::alloc::Global;
use ta_core::auto::{Auto, Rule};
use ta_core::joining::{room, union};
use ta_core::symbol::{Slot, Symbol};

/// What stands below the tops of a port's trees. Err is want of memory.
pub fn below_tops(alloc: Global, port: &Auto) -> Mem<Auto>
    ensures { IfOk result (λ made. made ≡ below_tops port.now) }
{
    port.known();
    let roots = List::from_slice(alloc, roots_of(port))?;
    let rules = rules_under(alloc, port)?;
    Ok(Auto {
        states: states_of(port),
        roots,
        rules,
    })
}

fn rules_under(alloc: Global, port: &Auto) -> Mem<List<Rule>>
    ensures { IfOk result (λ made. made ≡ (below_tops port.now).rules) }
{
    let children = child_states(alloc, rules_of(port))?;
    rules_below(alloc, roots_of(port), children.as_slice(), rules_of(port))
}

/// The states of the children of the rules.
fn child_states(alloc: Global, rules: &[Rule]) -> Mem<List<u32>>
    ensures { IfOk result (λ made. made ≡ child_states rules.now) }
{
    let mut made = List::new(alloc);
    for rule in rules {
        let children = rule.children.copy(alloc)?;
        made.append(children)?;
    }
    Ok(made)
}

/// The rules, but those of root states that are no children.
fn rules_below(alloc: Global, roots: &[u32], children: &[u32], rules: &[Rule]) -> Mem<List<Rule>>
    ensures { IfOk result (λ made. made ≡ rules_below roots.now children.now rules.now) }
{
    let mut made = List::new(alloc);
    for rule in rules {
        if !(has(rule.state, roots) && !has(rule.state, children)) {
            made.push(rule.copy(alloc)?)?;
        }
    }
    Ok(made)
}

/// The component with the cell of the rule at its top, whose slots are these and those of a rule of the port. Err is
/// want of memory, also where states do not fit 32 bits.
pub fn grown(
    alloc: Global,
    boxes: &[BoxFace],
    auto: &Auto,
    rule: &Rule,
    base: &[(Slot, List<u32>)],
    port: &Auto,
    from: &Rule,
) -> Mem<Auto>
    requires { IsRanked (grown boxes.now auto.now rule.now base.now port.now from.now) }
    ensures { IfOk result (λ made. made ≡ grown boxes.now auto.now rule.now base.now port.now from.now) }
{
    let below = below_tops(alloc, port)?;
    let _states = room(auto, states_of(&below))?;
    let both = union(alloc, auto, &below)?;
    let top = grown_rule(alloc, boxes, auto, rule, base, from)?;
    alone(alloc, &both, &top)
}

/// The rule of the cell, with these slots and those of the other rule.
fn grown_rule(
    alloc: Global,
    boxes: &[BoxFace],
    auto: &Auto,
    rule: &Rule,
    base: &[(Slot, List<u32>)],
    from: &Rule,
) -> Mem<Rule>
    ensures { IfOk result (λ made. made ≡ with_places rule.now
        (joined (place_key boxes.now) base.now (map (moved_place auto.now.states) (rule_places from.now)))) }
{
    let own = rule_places(alloc, from)?;
    let more = moved_places(alloc, own.as_slice(), states_of(auto))?;
    let all = joined(alloc, boxes, base, more.as_slice())?;
    with_places(alloc, rule, all.as_slice())
}

/// The rule with other slots and children. Err is want of memory.
pub fn with_places(alloc: Global, rule: &Rule, places: &[(Slot, List<u32>)]) -> Mem<Rule>
    ensures { IfOk result (λ made. made ≡ with_places rule.now places.now) }
{
    let symbol = with_slots(alloc, &rule.symbol, places)?;
    let children = states_in(alloc, places)?;
    Ok(Rule {
        state: rule.state,
        symbol,
        children,
    })
}

/// A cell with the slots of the places; a leaf stays.
fn with_slots(alloc: Global, symbol: &Symbol, places: &[(Slot, List<u32>)]) -> Mem<Symbol>
    ensures { IfOk result (λ made. made ≡ with_slots symbol.now (map (λ p. p.0) places.now)) }
{
    match symbol {
        Symbol::Cell { shape, datums, .. } => {
            let datums = datums.copy(alloc)?;
            let slots = slots_in(alloc, places)?;
            Ok(Symbol::Cell {
                shape: *shape,
                datums,
                slots,
            })
        }
        _ => symbol.copy(alloc),
    }
}

fn slots_in(alloc: Global, places: &[(Slot, List<u32>)]) -> Mem<List<Slot>>
    ensures { IfOk result (λ made. made ≡ map (λ p. p.0) places.now) }
{
    let mut made = List::new(alloc);
    for place in places {
        made.push(place.0)?;
    }
    Ok(made)
}

fn states_in(alloc: Global, places: &[(Slot, List<u32>)]) -> Mem<List<u32>>
    ensures { IfOk result (λ made. made ≡ flat_map (λ p. p.1) places.now) }
{
    let mut made = List::new(alloc);
    for place in places {
        let states = place.1.copy(alloc)?;
        made.append(states)?;
    }
    Ok(made)
}
