// Components of ports after a fold.

ghost use Rattle.std.specs.Prelude.{◌≡◌, [], ◌∷◌, not, filter, IfOk};
ghost use Rattle.ta_core.specs.Auto.{IsRanked};
ghost use Rattle.ta_core.specs.Single.{HasOneTop};
ghost use Rattle.fa_core.specs.Folding.{is_one_of};
ghost use Rattle.fa_folding.specs.Gaining.{edge_place, edge_rules, gained_auto, input_auto, left_places, output_auto};
ghost use Rattle.fa_folding.specs.Gaining.{with_rules};

use fa_core::cells::has;
use fa_core::faces::BoxFace;
use fa_split::{alone, copied_rules, rule_at_top, states_of};
use fa_unfold::growing::with_places;
use fa_unfold::slots::{joined, rule_places};
use fore_base::list::{Copies, List};
use fore_base::memory::Mem;
use std::alloc::Global;
use ta_core::auto::{Auto, Rule};
use ta_core::joining::room;
use ta_core::symbol::{Slot, Symbol};

/// The component of an input after the fold: without the fields, and with the slot of the box, which ends at the
/// output's root, where the box has an output. Err is want of memory.
pub fn input_auto(
    alloc: Global,
    boxes: &[BoxFace],
    auto: &Auto,
    fields: &[u32],
    box_no: u32,
    output: Option<u32>,
) -> Mem<Auto>
    requires top { HasOneTop auto.now }
    requires ranked { IsRanked (input_auto boxes.now fields.now box_no output auto.now) }
    ensures { IfOk result (λ made. made ≡ input_auto boxes.now fields.now box_no output auto.now) }
{
    auto.known();
    let state = states_of(auto);
    let rules = edge_rules(alloc, state, output)?;
    let mut gain = List::new(alloc);
    gain.push(edge_place(alloc, box_no, state, output)?)?;
    gained_auto(alloc, boxes, auto, fields, rules, gain.as_slice())
}

/// The component of another port: without the fields. Err is want of memory.
pub fn output_auto(alloc: Global, boxes: &[BoxFace], auto: &Auto, fields: &[u32]) -> Mem<Auto>
    requires top { HasOneTop auto.now }
    requires ranked { IsRanked (output_auto boxes.now fields.now auto.now) }
    ensures { IfOk result (λ made. made ≡ output_auto boxes.now fields.now auto.now) }
{
    auto.known();
    let gain = List::new(alloc);
    gained_auto(
        alloc,
        boxes,
        auto,
        fields,
        List::new(alloc),
        gain.as_slice(),
    )
}

/// The slot of the box, over a leaf at the state, where the box has an output. Err is want of memory.
fn edge_place(alloc: Global, box_no: u32, state: u32, output: Option<u32>) -> Mem<(Slot, List<u32>)>
    ensures { IfOk result (λ made. made ≡ edge_place box_no state output) }
{
    let mut states = List::new(alloc);
    match output {
        None => Ok((Slot::Hook(box_no), states)),
        Some(_) => {
            states.push(state)?;
            Ok((Slot::Link(box_no), states))
        }
    }
}

/// The rule of the leaf that refers to the output's root. Err is want of memory.
fn edge_rules(alloc: Global, state: u32, output: Option<u32>) -> Mem<List<Rule>>
    ensures { IfOk result (λ made. made ≡ edge_rules state output) }
{
    let mut rules = List::new(alloc);
    if let Some(root) = output {
        rules.push(Rule {
            state,
            symbol: Symbol::Ref(root),
            children: List::new(alloc),
        })?;
    }
    Ok(rules)
}

fn gained_auto(
    alloc: Global,
    boxes: &[BoxFace],
    auto: &Auto,
    fields: &[u32],
    rules: List<Rule>,
    gain: &[(Slot, List<u32>)],
) -> Mem<Auto>
    requires top { HasOneTop auto.now }
    requires base { IsRanked (with_rules auto.now rules) }
    requires ranked { IsRanked (gained_auto boxes.now fields.now rules gain.now auto.now) }
    ensures { IfOk result (λ made. made ≡ gained_auto boxes.now fields.now rules gain.now auto.now) }
{
    let top = rule_at_top(auto);
    let left = left_places(alloc, auto, fields)?;
    let all = joined(alloc, boxes, left.as_slice(), gain)?;
    let rule = with_places(alloc, top, all.as_slice())?;
    let base = with_rules(alloc, auto, rules)?;
    alone(alloc, &base, &rule)
}

/// The automaton with these rules at a state of their own. Err is want of memory, also where states do not fit 32 bits.
fn with_rules(alloc: Global, auto: &Auto, rules: List<Rule>) -> Mem<Auto>
    requires { IsRanked (with_rules auto.now rules) }
    ensures { IfOk result (λ made. made ≡ with_rules auto.now rules) }
{
    let states = room(auto, 1)?;
    let roots = auto.roots.copy(alloc)?;
    let mut all = copied_rules(alloc, auto)?;
    all.append(rules)?;
    Ok(Auto {
        states,
        roots,
        rules: all,
    })
}

/// Whether the slot is one of the fields.
pub fn is_one_of(fields: &[u32], slot: Slot) -> bool
    ensures { result ≡ is_one_of fields.now slot }
{
    match slot {
        Slot::Field(field) => has(field, fields),
        Slot::Link(_) | Slot::Hook(_) => false,
    }
}

/// The slots at the top that are none of the fields, each with the state of its child. Err is want of memory.
fn left_places(alloc: Global, auto: &Auto, fields: &[u32]) -> Mem<List<(Slot, List<u32>)>>
    requires { HasOneTop auto.now }
    ensures { IfOk result (λ made. made ≡ left_places fields.now auto.now) }
{
    let own = rule_places(alloc, rule_at_top(auto))?;
    let mut left = List::new(alloc);
    for place in own.as_slice() {
        if !is_one_of(fields, place.0) {
            left.push((place.0, place.1.copy(alloc)?))?;
        }
    }
    Ok(left)
}
