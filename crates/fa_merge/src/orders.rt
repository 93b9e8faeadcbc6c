// The roots of a forest in another order.

ghost use Rattle.std.specs.Prelude.{◌≡◌, ◌<◌, ◌^◌, length, IfOk, map};
ghost use Rattle.fore_base.specs.Lists.{Every};
ghost use Rattle.fa_core.specs.Placed.{placed_auto};
ghost use Rattle.fa_merge.specs.Reordered.{IsOrderOf, place_of, renumber, reordered};
ghost use Rattle.fa_sound.specs.Components.{component_at};

use crate::placing::{Leaves, place_auto, place_targets};
use fa_core::forest::{Forest, Target};
use fore_base::list::{Copies, List};
use fore_base::memory::Mem;
use std::alloc::Global;
use ta_core::auto::Auto;

/// The new number of each root: its place in the order.
#[derive(Drop)]
struct Places<'a> {
    order: &'a [u32],
    ghost few: { length order.now < 2 ^ 32 },
}

impl Leaves for Places<'_> {
    ghost use Rattle.fa_merge.specs.Reordered.{place_of, renumber};

    ghost leaf_of = { λ places. renumber (place_of places.order.now) };

    fn leaf(&self, root: u32) -> Mem<Target> {
        Ok(Target::At(place_in(self.order, root)))
    }
}

/// The place of the root in the order; where it is not there, its own number.
pub fn place_in(order: &[u32], root: u32) -> u32
    requires { length order.now < 2 ^ 32 }
    ensures { result ≡ place_of order.now root }
{
    let mut place: u32 = 0;
    for other in order {
        if *other == root {
            return place;
        }
        place += 1;
    }
    root
}

/// The component of the root.
pub fn component(autos: &List<Auto>, root: u32) -> &Auto
    requires { root < length autos.now }
    ensures { result.now ≡ component_at autos.now root }
{
    autos.at(root as usize)
}

/// The forest with its roots in this order. Err is want of memory.
pub fn reorder_forest(alloc: Global, forest: &Forest, order: &[u32]) -> Mem<Forest>
    requires few { length order.now < 2 ^ 32 }
    requires all { IsOrderOf forest.now order.now }
    ensures { IfOk result (λ made. made ≡ reordered order.now forest.now) }
{
    let places = Places { order };
    let autos = ordered_autos(alloc, &forest.autos, order, &places)?;
    let vars = place_targets(alloc, forest.vars.as_slice(), &places)?;
    let data_vars = forest.data_vars.copy(alloc)?;
    Ok(Forest {
        autos,
        vars,
        data_vars,
    })
}

fn ordered_autos(
    alloc: Global,
    autos: &List<Auto>,
    order: &[u32],
    places: &Places<'_>,
) -> Mem<List<Auto>>
    requires below { Every (λ k. k < length autos.now) order.now }
    requires same { places.now.order.now ≡ order.now }
    ensures { IfOk result (λ made. made
        ≡ map (λ k. placed_auto (renumber (place_of order.now)) (component_at autos.now k)) order.now) }
{
    let mut made = List::new(alloc);
    for root in order {
        let auto = place_auto(alloc, component(autos, *root), places)?;
        made.push(auto)?;
    }
    Ok(made)
}
