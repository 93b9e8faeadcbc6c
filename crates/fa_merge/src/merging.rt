// A root merged into the one whose trees refer to it, on forests.

ghost use Rattle.std.specs.Prelude.{◌≡◌, ◌<◌, ◌+◌, ◌++◌, ◌∷◌, [], ◌^◌, List, length, IfOk, OnOk, slice_set};
ghost use Rattle.ta_core.specs.Auto.{Automaton};
ghost use Rattle.fa_merge.specs.Merged.{last_order, merged, merged_at, others};
ghost use Rattle.fa_sound.specs.Components.{component_at};
ghost use Rattle.fa_merge.specs.inner.Lone.{IsLone};

use crate::joins::merge_auto;
use crate::orders::{component, place_in, reorder_forest};
use fa_core::forest::Forest;
use fore_base::list::List;
use fore_base::memory::Mem;
use std::alloc::Global;
use ta_core::auto::Auto;

/// The component of the root merged into the one that refers to it; later roots move down by one. Err is want of
/// memory.
pub fn merge_into(alloc: Global, forest: &Forest, root: u32, into: u32, count: u32) -> Mem<Forest>
    requires count { count ≡ length forest.now.autos }
    requires lone { IsLone forest.now root into }
    ensures { IfOk result (λ made. made ≡ merged_at root into forest.now) }
{
    let order = order_with_last(alloc, count, root)?;
    let Forest {
        autos,
        vars,
        data_vars,
    } = reorder_forest(alloc, forest, order.as_slice())?;
    let place = place_in(order.as_slice(), into);
    let autos = merge_last(alloc, autos, place)?;
    Ok(Forest {
        autos,
        vars,
        data_vars,
    })
}

/// The roots below `count` with this one as the last.
fn order_with_last(alloc: Global, count: u32, root: u32) -> Mem<List<u32>>
    ensures { IfOk result (λ made. made ≡ last_order count root) }
{
    let mut order = List::new(alloc);
    for other in 0..count {
        push_other(&mut order, other, root)?;
    }
    order.push(root)?;
    Ok(order)
}

fn push_other(order: &mut List<u32>, other: u32, root: u32) -> Mem<()>
    ensures { OnOk result (order.new ≡ order.old ++ others root (other ∷ [])) }
{
    if other != root {
        order.push(other)?;
    }
    Ok(())
}

/// The last component merged into the one at this place.
fn merge_last(alloc: Global, autos: List<Auto>, into: u32) -> Mem<List<Auto>>
    requires few { length autos < 2 ^ 32 }
    requires into { into + 1 < length autos }
    ensures { (cs : List Automaton) (l : Automaton) → autos ≡ cs ++ (l ∷ [])
        → IfOk result (λ made. made ≡ slice_set cs into (merged (length cs) (component_at cs into) l)) }
{
    let mut autos = autos;
    match autos.pop() {
        Some(last) => {
            let root = autos.len() as u32;
            let joined = merge_auto(alloc, component(&autos, into), &last, root)?;
            autos.set(into as usize, joined);
            Ok(autos)
        }
        None => Ok(autos),
    }
}
