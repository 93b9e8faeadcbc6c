// The cell of a root freed (`free`, ISO/IEC 9899:2011, 7.22.3.3).

ghost use Rattle.std.specs.Prelude.{◌≡◌, ◌<◌, List, ℕ, length, IfOk};
ghost use Rattle.fore_base.specs.Lists.{Every};
ghost use Rattle.fa_core.specs.Boxes.{IsTableOf};
ghost use Rattle.fa_core.specs.Boxless.{HasNoBoxes};
ghost use Rattle.fa_core.specs.declared.boxes.BoxDef.{BoxDef};
ghost use Rattle.fa_core.specs.declared.forest.Target.TheVariants.{At};
ghost use Rattle.c_cfg.specs.declared.graph.Instr.TheVariants.{Free};
ghost use Rattle.sym_core.specs.Carried.{Carries};
ghost use Rattle.sym_core.specs.Explicit.{IsExplicit, target_at};

use fa_merge::drop_dead;
use fa_sound::Sound;
use fore_base::memory::Mem;
use std::alloc::Global;

/// The forest after `free(base)`, where `base` is at the root and each pointer field of the root's cell ends at one
/// leaf: the root is gone, and what named it is Dangling. Err is want of memory.
pub fn freed(alloc: Global, forest: &Sound, base: u32, root: u32) -> Mem<Sound>
    requires at { target_at forest.now.forest base ≡ At root }
    requires explicit { IsExplicit forest.now.face.shapes.structs forest.now.forest (Free base) }
    ensures carries { IfOk result (λ made. (T : List BoxDef) → IsTableOf forest.now.face T → (x : ℕ)
        → Carries forest.now.face T forest.now.forest made.forest (Free base) x) }
    ensures face { IfOk result (λ made. made.face ≡ forest.now.face) }
    ensures plain { Every HasNoBoxes forest.now.forest.autos
        → IfOk result (λ made. Every HasNoBoxes made.forest.autos) }
    ensures vars { IfOk result (λ made. length made.forest.vars ≡ length forest.now.forest.vars) }
    ensures data_vars { IfOk result (λ made. made.forest.data_vars ≡ forest.now.forest.data_vars) }
{
    forest.known();
    let made = drop_dead(alloc, forest, root)?;
    Ok(made)
}
