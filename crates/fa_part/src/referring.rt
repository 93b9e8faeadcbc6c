// The roots to which the trees of roots, and those below their slots, refer.

ghost use Rattle.std.specs.Prelude.{◌≡◌, ◌<◌, length, Some, slice_get, IfOk};
ghost use Rattle.fore_base.specs.Lists.{Every, Paired};
ghost use Rattle.ta_core.specs.Auto.{Automaton};
ghost use Rattle.ta_core.specs.Single.{HasOneTop};
ghost use Rattle.fa_sound.specs.Components.{component_at};
ghost use Rattle.fa_sound.specs.Soundness.{IsStateOf};
ghost use Rattle.fa_part.specs.inner.Referring.{AreEdgeRefs, ArePickedRefs, AreRootRefs, AreStateRefs};

use crate::edges::{children_of, picked_edges};
use fa_merge::component_signature;
use fa_order::{marked_roots, references, root_signatures};
use fa_sound::{Sound, component};
use fore_base::list::List;
use fore_base::memory::Mem;
use std::alloc::Global;

/// The roots to which each tree of the state of the root's component refers. Err is want of memory.
fn state_refs(alloc: Global, forest: &Sound, root: u32, state: u32) -> Mem<List<u32>>
    requires { IsStateOf (slice_get forest.now.forest.autos root) state }
    ensures { IfOk result (AreStateRefs (slice_get forest.now.forest.autos root) state) }
{
    marked_roots(alloc, forest.signature(root, state).refs.as_slice())
}

/// The roots to which each tree of the root refers. Err is want of memory.
pub fn component_refs(alloc: Global, forest: &Sound, root: u32) -> Mem<List<u32>>
    requires { root < length forest.now.forest.autos }
    ensures { IfOk result (λ made. (a : Automaton) → slice_get forest.now.forest.autos root ≡ Some a
        → AreRootRefs a made) }
{
    let signature = component_signature(alloc, forest, root)?;
    marked_roots(alloc, signature.refs.as_slice())
}

/// The roots to which the trees of each root refer, root by root. Err is want of memory.
pub fn root_refs(alloc: Global, forest: &Sound) -> Mem<List<List<u32>>>
    ensures { IfOk result (Paired AreRootRefs forest.now.forest.autos) }
{
    let signatures = root_signatures(alloc, forest)?;
    references(alloc, signatures.as_slice())
}

/// The roots to which the trees below those slots at the top of a root refer that are one of the fields, where these
/// are taken, and else those below the other slots. Err is want of memory.
pub fn picked_refs(
    alloc: Global,
    forest: &Sound,
    root: u32,
    taken: bool,
    fields: &[u32],
) -> Mem<List<u32>>
    requires top { HasOneTop (component_at forest.now.forest.autos root) }
    requires root { root < length forest.now.forest.autos }
    ensures { IfOk result (ArePickedRefs taken (slice_get forest.now.forest.autos root) fields.now) }
{
    forest.known();
    let auto = component(forest.forest(), root);
    auto.known();
    let edges = picked_edges(alloc, auto, taken, fields)?;
    let states = children_of(alloc, edges.as_slice())?;
    states_refs(alloc, forest, root, states.as_slice())
}

/// The roots to which the trees of these states refer, state by state, in one list. Err is want of memory.
fn states_refs(alloc: Global, forest: &Sound, root: u32, states: &[u32]) -> Mem<List<u32>>
    requires { Every (IsStateOf (slice_get forest.now.forest.autos root)) states.now }
    ensures { IfOk result (AreEdgeRefs (slice_get forest.now.forest.autos root) states.now) }
{
    let mut made = List::new(alloc);
    for state in states {
        made.append(state_refs(alloc, forest, root, *state)?)?;
    }
    Ok(made)
}
