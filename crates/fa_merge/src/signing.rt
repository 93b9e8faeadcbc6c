// The signatures of a forest's components.

ghost use Rattle.std.specs.Prelude.{◌≡◌, ◌<◌, length, Some, slice_get, IfOk, MatchBool, MatchOption};
ghost use Rattle.fore_base.specs.Lists.{IsIn, Every, Paired};
ghost use Rattle.ta_core.specs.Auto.{Automaton};
ghost use Rattle.fa_sound.specs.Soundness.{IsStateOf};
ghost use Rattle.fa_merge.specs.Signed.{IsSignatureOf};
ghost use Rattle.fa_merge.specs.inner.Signed.{IsLiveOf, IsSilentOf};

use fa_core::signature::Signature;
use fa_sound::Sound;
use fore_base::list::{Copies, List};
use fore_base::memory::Mem;
use std::alloc::Global;

/// The signature of each component: that of all its trees. Err is want of memory.
pub fn component_signatures(alloc: Global, forest: &Sound, count: u32) -> Mem<List<Signature>>
    requires { count ≡ length forest.now.forest.autos }
    ensures { IfOk result (λ all. Paired (IsSignatureOf forest.now.face.boxes) forest.now.forest.autos all) }
{
    let mut all = List::new(alloc);
    for root in 0..count {
        let signature = component_signature(alloc, forest, root)?;
        all.push(signature)?;
    }
    Ok(all)
}

/// The signature of all trees of the root: that of a root state whose trees refer to some root, if there is one. Err is
/// want of memory.
pub fn component_signature(alloc: Global, forest: &Sound, root: u32) -> Mem<Signature>
    requires { root < length forest.now.forest.autos }
    ensures { IfOk result (λ s. (a : Automaton) → slice_get forest.now.forest.autos root ≡ Some a
        → IsSignatureOf forest.now.face.boxes a s) }
{
    forest.known();
    let auto = forest.forest().autos.at(root as usize);
    auto.known();
    match referring_state(forest, root, auto.roots.as_slice()) {
        Some(state) => forest.signature(root, state).copy(alloc),
        None => Ok(Signature {
            refs: List::new(alloc),
        }),
    }
}

/// The first of the states of the root's component whose trees refer to some root.
fn referring_state(forest: &Sound, root: u32, states: &[u32]) -> Option<u32>
    requires { Every (IsStateOf (slice_get forest.now.forest.autos root)) states.now }
    ensures { MatchOption result
        (Every (IsSilentOf forest.now.face.boxes (slice_get forest.now.forest.autos root)) states.now)
        (λ q. IsIn q states.now × IsLiveOf (slice_get forest.now.forest.autos root) q) }
{
    for state in states {
        if do_refer(forest, root, *state) {
            return Some(*state);
        }
    }
    None
}

/// Whether the trees of the state refer to some root.
fn do_refer(forest: &Sound, root: u32, state: u32) -> bool
    requires { IsStateOf (slice_get forest.now.forest.autos root) state }
    ensures { MatchBool result
        (IsLiveOf (slice_get forest.now.forest.autos root) state)
        (IsSilentOf forest.now.face.boxes (slice_get forest.now.forest.autos root) state) }
{
    !forest.signature(root, state).refs.is_empty()
}
