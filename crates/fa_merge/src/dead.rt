// Cells that are dropped.

ghost use Rattle.std.specs.Prelude.{◌≡◌, ◌<◌, List, length, IfOk};
ghost use Rattle.fore_base.specs.Lists.{Every};
ghost use Rattle.fa_core.specs.Boxes.{IsTableOf};
ghost use Rattle.fa_core.specs.Boxless.{HasNoBoxes};
ghost use Rattle.fa_core.specs.declared.boxes.BoxDef.{BoxDef};
ghost use Rattle.fa_merge.specs.Dropped.{CanDrop, IsCut, IsIdle, Removes, Restores, dropped_forest};

use crate::placing::{Leaves, place_autos, place_targets};
use fa_core::forest::{Forest, Target};
use fa_sound::Sound;
use fore_base::list::Copies;
use fore_base::memory::Mem;
use std::alloc::Global;

/// The forest without the root: each reference to it is Dangling, and later roots move down by one. No box edge gives a
/// field there, and none of the root's own gives one to a root. So a Link that ended there ends in Dangling; its inside
/// stays. Where each tree of the root is a cell whose fields end at leaves, the dressed forests are those of the forest
/// without the root, and the members, up to alike, those of the forest with the root's cell removed and each value that
/// named it Dangling, by each table over the face. Err is want of memory.
pub fn drop_dead(alloc: Global, forest: &Sound, root: u32) -> Mem<Sound>
    requires root { root < length forest.now.forest.autos }
    requires idle { IsIdle forest.now.face.boxes forest.now.forest root }
    ensures value { IfOk result (λ made. made.forest ≡ dropped_forest root forest.now.forest) }
    ensures face { IfOk result (λ made. made.face ≡ forest.now.face) }
    ensures plain { Every HasNoBoxes forest.now.forest.autos
        → IfOk result (λ made. Every HasNoBoxes made.forest.autos) }
    ensures cut { CanDrop forest.now.face.boxes forest.now.forest root
        → IfOk result (λ made. (T : List BoxDef) → IsCut T forest.now.forest made.forest root) }
    ensures removes { CanDrop forest.now.face.boxes forest.now.forest root
        → IfOk result (λ made. (T : List BoxDef) → IsTableOf forest.now.face T
        → Removes forest.now.face.shapes.structs T forest.now.forest made.forest root) }
    ensures restores { CanDrop forest.now.face.boxes forest.now.forest root
        → IfOk result (λ made. (T : List BoxDef) → IsTableOf forest.now.face T
        → Restores forest.now.face.shapes.structs T forest.now.forest made.forest root) }
{
    forest.known();
    let made = drop_root(alloc, forest.forest(), root)?;
    Sound::of(alloc, made, forest.face())
}

/// Dangling for the root, and the numbers of the others without it.
#[derive(Drop)]
struct Without {
    root: u32,
}

impl Leaves for Without {
    ghost use Rattle.fa_merge.specs.Dropped.{drop_leaf};

    ghost leaf_of = { λ without. drop_leaf without.root };

    fn leaf(&self, root: u32) -> Mem<Target> {
        if self.root == root {
            Ok(Target::Dangling)
        } else if self.root < root {
            Ok(Target::At(root - 1))
        } else {
            Ok(Target::At(root))
        }
    }
}

fn drop_root(alloc: Global, forest: &Forest, root: u32) -> Mem<Forest>
    requires { root < length forest.now.autos }
    ensures { IfOk result (λ made. made ≡ dropped_forest root forest.now) }
{
    let leaves = Without { root };
    let mut autos = place_autos(alloc, forest.autos.as_slice(), &leaves)?;
    let _own = autos.remove(root as usize);
    let vars = place_targets(alloc, forest.vars.as_slice(), &leaves)?;
    let data_vars = forest.data_vars.copy(alloc)?;
    Ok(Forest {
        autos,
        vars,
        data_vars,
    })
}
