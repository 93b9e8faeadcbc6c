// Slots at the top of a root's one rule.

ghost use Rattle.std.specs.Prelude.{◌≡◌, IfOk, map};
ghost use Rattle.ta_core.specs.Single.{HasOneTop};
ghost use Rattle.fa_part.specs.inner.Edges.{all_edges, is_picked, top_edges};

use fa_core::cells::edges;
use fa_folding::gaining::is_one_of;
use fa_split::{rule_at_top, slots_of};
use fore_base::list::List;
use fore_base::memory::Mem;
use std::alloc::Global;
use ta_core::auto::Auto;
use ta_core::symbol::Slot;

/// The slots with a child at the top, each with the state of the child.
fn all_edges(alloc: Global, auto: &Auto) -> Mem<List<(Slot, u32)>>
    requires { HasOneTop auto.now }
    ensures { IfOk result (λ made. made ≡ all_edges auto.now) }
{
    let rule = rule_at_top(auto);
    edges(alloc, slots_of(&rule.symbol), rule.children.as_slice())
}

/// Whether the slot is one of the fields, where these are taken, and else whether it is none of them.
fn is_picked(taken: bool, fields: &[u32], slot: Slot) -> bool
    ensures { result ≡ is_picked taken fields.now slot }
{
    if taken {
        is_one_of(fields, slot)
    } else {
        !is_one_of(fields, slot)
    }
}

/// The slots at the top that are one of the fields, where these are taken, and else the others, each with the state of
/// its child. Err is want of memory.
pub fn picked_edges(
    alloc: Global,
    auto: &Auto,
    taken: bool,
    fields: &[u32],
) -> Mem<List<(Slot, u32)>>
    requires { HasOneTop auto.now }
    ensures { IfOk result (λ made. made ≡ top_edges (is_picked taken fields.now) auto.now) }
{
    let all = all_edges(alloc, auto)?;
    let mut made = List::new(alloc);
    for edge in all.as_slice() {
        if is_picked(taken, fields, edge.0) {
            made.push((edge.0, edge.1))?;
        }
    }
    Ok(made)
}

/// The states of their children. Err is want of memory.
pub fn children_of(alloc: Global, edges: &[(Slot, u32)]) -> Mem<List<u32>>
    ensures { IfOk result (λ made. made ≡ map (λ e. e.1) edges.now) }
{
    let mut made = List::new(alloc);
    for edge in edges {
        made.push(edge.1)?;
    }
    Ok(made)
}

/// The slots alone. Err is want of memory.
pub fn slots_in(alloc: Global, edges: &[(Slot, u32)]) -> Mem<List<Slot>>
    ensures { IfOk result (λ made. made ≡ map (λ e. e.0) edges.now) }
{
    let mut made = List::new(alloc);
    for edge in edges {
        made.push(edge.0)?;
    }
    Ok(made)
}
