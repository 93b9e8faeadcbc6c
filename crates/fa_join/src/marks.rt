// The signatures of the children below the roots of two forests.

ghost use Rattle.std.specs.Prelude.{◌≡◌, ◌↔◌, IsTrue};
ghost use Rattle.fa_split.specs.Split.{CanSplit};
ghost use Rattle.fa_join.specs.inner.Differing.{AreMarkedAlike};

use fa_sound::{Sound, are_same};
use fa_split::child_marks;

/// Whether the trees of the child below the root have one signature in both forests.
pub fn have_same_marks(left: &Sound, right: &Sound, root: u32, child: usize) -> bool
    requires face { left.now.face ≡ right.now.face }
    requires left { CanSplit left.now.forest root child }
    requires right { CanSplit right.now.forest root child }
    ensures { IsTrue result ↔ AreMarkedAlike left.now.face.boxes left.now.forest right.now.forest root child }
{
    let first = child_marks(left, root, child);
    let second = child_marks(right, root, child);
    are_same(first, second)
}
