// Whether a way back leads to a root from another.

ghost use Rattle.std.specs.Prelude.{◌≡◌, ◌<◌, false, length, slice_get};
ghost use Rattle.fore_base.specs.Lists.{Every};
ghost use Rattle.fa_sound.specs.Soundness.{IsStateOf};
ghost use Rattle.sym_step.specs.Freed.{NeverLeadsBack};
ghost use Rattle.sym_step.specs.inner.Leading.{IsForwardAt};

use fa_core::signature::RefMark;
use fa_sound::Sound;

/// Whether some whole way of a tree of the root leads back. If not, no way back leads to the root.
pub fn leads_back(forest: &Sound, root: u32) -> bool
    requires { root < length forest.now.forest.autos }
    ensures { result ≡ false → NeverLeadsBack forest.now.face.boxes forest.now.forest root }
{
    forest.known();
    let auto = forest.forest().autos.at(root as usize);
    auto.known();
    do_lead_back(forest, root, auto.roots.as_slice())
}

/// So for the trees of these states of the root.
fn do_lead_back(forest: &Sound, root: u32, states: &[u32]) -> bool
    requires { Every (IsStateOf (slice_get forest.now.forest.autos root)) states.now }
    ensures { result ≡ false → Every (IsForwardAt forest.now.face.boxes (slice_get forest.now.forest.autos root))
        states.now }
{
    for state in states {
        if has_back(forest.signature(root, *state).refs.as_slice()) {
            return true;
        }
    }
    false
}

fn has_back(marks: &[RefMark]) -> bool
    ensures { result ≡ false → Every (λ m. m.back ≡ false) marks.now }
{
    for mark in marks {
        if mark.back {
            return true;
        }
    }
    false
}
