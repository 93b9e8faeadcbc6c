// Automata with other numbers in their references.

ghost use Rattle.std.specs.Prelude.{◌≡◌, ◌<◌, ◌^◌, length, IfOk};
ghost use Rattle.fa_core.specs.Folding.{position};
ghost use Rattle.ta_core.specs.Single.{HasOneTop};
ghost use Rattle.fa_part.specs.inner.Automata.{moved_auto, port_auto, port_rule};

use crate::edges::{children_of, picked_edges, slots_in};
use fa_core::forest::Target;
use fa_merge::placing::{Leaves, place_auto, place_rules};
use fa_split::{one_root, states_of};
use fore_base::list::List;
use fore_base::memory::Mem;
use std::alloc::Global;
use ta_core::auto::{Auto, Rule};
use ta_core::joining::room;
use ta_core::symbol::Symbol;

/// The place of the root in the order; where it is not there, the length.
fn position(order: &[u32], root: u32) -> u32
    requires { length order.now < 2 ^ 32 }
    ensures { result ≡ position order.now root }
{
    let mut place: u32 = 0;
    for other in order {
        if root == *other {
            return place;
        }
        place += 1;
    }
    place
}

/// For each root its place in an order.
#[derive(Drop)]
struct Positions<'a> {
    order: &'a [u32],
    ghost few: { length order.now < 2 ^ 32 },
}

impl Leaves for Positions<'_> {
    ghost use Rattle.fa_core.specs.Folding.{position};
    ghost use Rattle.fa_core.specs.declared.forest.Target.TheVariants.{At};

    ghost leaf_of = { λ positions k. At (position positions.order.now k) };

    fn leaf(&self, root: u32) -> Mem<Target> {
        Ok(Target::At(position(self.order, root)))
    }
}

/// The automaton of the trees whose references are the places of their roots in the order. Err is want of memory.
pub fn moved(alloc: Global, auto: &Auto, order: &[u32]) -> Mem<Auto>
    requires { length order.now < 2 ^ 32 }
    ensures { IfOk result (λ made. made ≡ moved_auto (position order.now) auto.now) }
{
    let positions = Positions { order };
    place_auto(alloc, auto, &positions)
}

/// The automaton of a port of this struct with these fields: the trees of this automaton with the slots of the fields
/// alone, without data, and with the places in the order in the place of roots. Its root state is its own. Err is want
/// of memory.
pub fn ported(alloc: Global, auto: &Auto, shape: u32, fields: &[u32], order: &[u32]) -> Mem<Auto>
    requires top { HasOneTop auto.now }
    requires order { length order.now < 2 ^ 32 }
    ensures { IfOk result (λ made. made ≡ port_auto (position order.now) shape fields.now auto.now) }
{
    auto.known();
    let states = room(auto, 1)?;
    let roots = one_root(alloc, states_of(auto))?;
    let positions = Positions { order };
    let mut rules = place_rules(alloc, auto.rules.as_slice(), &positions)?;
    rules.push(port_rule(alloc, auto, shape, fields)?)?;
    Ok(Auto {
        states,
        roots,
        rules,
    })
}

/// The rule of a port, at the next state. Err is want of memory.
fn port_rule(alloc: Global, auto: &Auto, shape: u32, fields: &[u32]) -> Mem<Rule>
    requires { HasOneTop auto.now }
    ensures { IfOk result (λ made. made ≡ port_rule shape fields.now auto.now) }
{
    let edges = picked_edges(alloc, auto, true, fields)?;
    let slots = slots_in(alloc, edges.as_slice())?;
    let children = children_of(alloc, edges.as_slice())?;
    Ok(Rule {
        state: states_of(auto),
        symbol: Symbol::Cell {
            shape,
            datums: List::new(alloc),
            slots,
        },
        children,
    })
}
