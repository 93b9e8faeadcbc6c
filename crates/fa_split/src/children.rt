// The signature of the child at a place below a root.

ghost use Rattle.std.specs.Prelude.{◌≡◌, ◌<◌};
ghost use Rattle.fa_sound.specs.Components.{component_at};
ghost use Rattle.fa_split.specs.Marks.{HasMarks};
ghost use Rattle.fa_split.specs.Split.{CanSplit, child_state};

use crate::topping::state_at;
use fa_core::forest::Forest;
use fa_core::signature::RefMark;
use fa_sound::{Sound, component};

/// The signature of the trees that stand at the place below the root, of which there are some.
pub fn child_marks(forest: &Sound, root: u32, place: usize) -> &[RefMark]
    requires { CanSplit forest.now.forest root place }
    ensures { HasMarks forest.now.face.boxes (component_at forest.now.forest.autos root)
        (child_state (component_at forest.now.forest.autos root) place) result.now }
{
    forest.known();
    let state = child_of(forest.forest(), root, place);
    forest.signature(root, state).refs.as_slice()
}

/// The state of the child at the place below the root.
fn child_of(forest: &Forest, root: u32, place: usize) -> u32
    requires { CanSplit forest.now root place }
    ensures state { result ≡ child_state (component_at forest.now.autos root) place }
    ensures below { result < (component_at forest.now.autos root).states }
{
    let auto = component(forest, root);
    auto.known();
    state_at(auto, place)
}
