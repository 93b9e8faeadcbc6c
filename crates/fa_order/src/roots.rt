// Roots in the order of the walk.

ghost use Rattle.std.specs.Prelude.{◌≡◌, List, length, IfOk};
ghost use Rattle.fore_base.specs.Lists.{Every};
ghost use Rattle.ta_core.specs.Single.{HasOneTop};
ghost use Rattle.fa_core.specs.Boxless.{HasNoBoxes};
ghost use Rattle.fa_core.specs.Canonical.{IsCanonical};
ghost use Rattle.fa_core.specs.Member.{Regroups};
ghost use Rattle.fa_core.specs.declared.boxes.BoxDef.{BoxDef};
ghost use Rattle.fa_merge.specs.Reached.{AreAllReached};
ghost use Rattle.fa_order.specs.Kinds.{HasRootKinds};
ghost use Rattle.fa_order.specs.Placing.{DoEdgesGive, IsPlaced, IsWalkOrder};

use crate::referring::{references, root_signatures};
use crate::walking::walk;
use fa_merge::leaking::var_roots;
use fa_merge::reorder;
use fa_sound::Sound;
use fore_base::list::List;
use fore_base::memory::Mem;
use std::alloc::Global;

/// The forest with its roots in the order of the walk: depth first from the variables in order of number, through the
/// slots of each cell in order, each root placed at its first visit; where nothing is left to visit, on along the ways
/// back. Each root is reached, and box edges that lead back give something. Err is want of memory.
pub fn place_roots(alloc: Global, forest: &Sound) -> Mem<Sound>
    requires giving { DoEdgesGive forest.now.face forest.now.forest }
    requires kinds { HasRootKinds forest.now.face forest.now.forest }
    requires reached { AreAllReached forest.now.face forest.now.forest }
    ensures canonical { IfOk result (λ made. IsCanonical made.face made.forest) }
    ensures value { IfOk result (λ made. IsPlaced forest.now.face forest.now.forest made.forest) }
    ensures face { IfOk result (λ made. made.face ≡ forest.now.face) }
    ensures whole { IfOk result (λ made. (T : List BoxDef) → Regroups T made.forest forest.now.forest) }
    ensures regroups { IfOk result (λ made. (T : List BoxDef) → Regroups T forest.now.forest made.forest) }
    ensures vars { IfOk result (λ made. length made.forest.vars ≡ length forest.now.forest.vars) }
    ensures data { IfOk result (λ made. made.forest.data_vars ≡ forest.now.forest.data_vars) }
    ensures plain { Every HasNoBoxes forest.now.forest.autos
        → IfOk result (λ made. Every HasNoBoxes made.forest.autos) }
    ensures same { IfOk result (λ made. IsCanonical forest.now.face forest.now.forest
        → made.forest ≡ forest.now.forest) }
{
    forest.known();
    let order = walk_order(alloc, forest)?;
    reorder(alloc, forest, order.as_slice())
}

/// The roots in the order of the walk, which goes on along ways back where nothing is left to visit. Err is want of
/// memory.
pub fn walk_order(alloc: Global, forest: &Sound) -> Mem<List<u32>>
    requires { Every HasOneTop forest.now.forest.autos }
    ensures { IfOk result (IsWalkOrder forest.now.face forest.now.forest) }
{
    forest.known();
    let signatures = root_signatures(alloc, forest)?;
    let refers = references(alloc, signatures.as_slice())?;
    let from = var_roots(alloc, forest.forest().vars.as_slice())?;
    walk(alloc, from.as_slice(), &refers, signatures.as_slice())
}
