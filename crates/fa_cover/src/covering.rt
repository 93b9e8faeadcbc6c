// Whether one forest covers another, and the first of several that does.

ghost use Rattle.std.specs.Prelude.{◌≡◌, ◌↔◌, List, IsTrue, IfOk};
ghost use Rattle.fore_base.specs.Lists.{Every};
ghost use Rattle.fore_base.specs.declared.shape.Shape.{Shape};
ghost use Rattle.fore_base.specs.declared.store.Store.{Store};
ghost use Rattle.par_kit.specs.Crews.{IsJobs};
ghost use Rattle.fa_core.specs.Boxes.{IsTableOf};
ghost use Rattle.fa_core.specs.Covering.{Covers};
ghost use Rattle.fa_core.specs.Member.{Stands};
ghost use Rattle.fa_core.specs.declared.boxes.BoxDef.{BoxDef};
ghost use Rattle.fa_cover.specs.Firsts.{FirstCover};
ghost use Rattle.fa_unique.specs.Presented.{IsPlainCanonical};

use crate::forests::is_covered;
use fa_core::laws::covered_members;
use fa_sound::Sound;
use fa_unique::laws::members_tell_covering;
use fore_base::memory::Mem;
use par_kit::crew::Crew;
use par_kit::finding::{Test, first_index};
use par_kit::gate::Gate;
use std::alloc::Global;
use std::thread::Threads;

/// Whether the one forest covers the other: equal targets and data, as many roots, and each component's language within
/// that in its place. Where it does, each member of the other is one of it. Of canonical forests without box edges it
/// does exactly where each member of the other, by one table over the face, is one of it. Both stand over one face;
/// boxes are symbols.
///
/// # Errors
///
/// Want of memory.
pub fn covers(alloc: Global, wide: &Sound, narrow: &Sound) -> Mem<bool>
    requires { wide.now.face ≡ narrow.now.face }
    ensures exact { IfOk result (λ yes. IsTrue yes ↔ Covers wide.now.forest narrow.now.forest) }
    ensures members { IfOk result (λ yes. IsTrue yes → (hs : List Shape) (T : List BoxDef) (s : Store)
        → Stands hs T narrow.now.forest s → Stands hs T wide.now.forest s) }
    ensures exact_on_members { IfOk result (λ yes. (T : List BoxDef) → IsTableOf wide.now.face T
        → IsPlainCanonical wide.now.face wide.now.forest → IsPlainCanonical wide.now.face narrow.now.forest
        → (IsTrue yes ↔ ((s : Store) → Stands wide.now.face.shapes.structs T narrow.now.forest s
        → Stands wide.now.face.shapes.structs T wide.now.forest s))) }
{
    covered_members();
    members_tell_covering();
    narrow.known();
    is_covered(alloc, wide.forest(), narrow.forest())
}

/// Tests whether a node covers the forest.
#[derive(Drop)]
struct CoverTest<'a> {
    forest: &'a Sound,
}

impl<'a> Test<Sound> for CoverTest<'a> {
    ghost use Rattle.std.specs.Prelude.{◌≡◌};
    ghost use Rattle.fa_core.specs.Covering.{Covers};

    ghost accepts = { λ test node. node.face ≡ test.forest.now.face };

    ghost meets = { λ test node. Covers node.forest test.forest.now.forest };

    fn test(&self, alloc: Global, item: &Sound) -> Mem<bool> {
        covers(alloc, item, self.forest)
    }
}

/// The least index whose node covers the forest, None exactly where no node does. All stand over one face. The crew
/// runs 1 to 64 jobs, which ask pieces of the list at once, and has no bearing on the answer.
///
/// # Errors
///
/// Want of memory.
pub fn first_cover<R: Threads + Sync, G: Gate>(
    rt: &R,
    alloc: Global,
    nodes: &[Sound],
    forest: &Sound,
    crew: &Crew<'_, G>,
) -> Mem<Option<usize>>
    requires jobs { IsJobs crew.now.jobs }
    requires faces { Every (λ node. node.face ≡ forest.now.face) nodes.now }
    ensures { IfOk result (FirstCover nodes.now forest.now.forest) }
{
    first_index(rt, alloc, nodes, &CoverTest { forest }, crew)
}
