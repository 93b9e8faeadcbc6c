// A new cell (`malloc`, ISO/IEC 9899:2011, 7.22.3.4).

ghost use Rattle.std.specs.Prelude.{◌≡◌, ◌<◌, List, ℕ, length, IfOk};
ghost use Rattle.fore_base.specs.Lists.{Every};
ghost use Rattle.fa_core.specs.Boxes.{IsTableOf};
ghost use Rattle.fa_core.specs.Boxless.{HasNoBoxes};
ghost use Rattle.fa_core.specs.declared.boxes.BoxDef.{BoxDef};
ghost use Rattle.c_cfg.specs.declared.graph.Instr.TheVariants.{New};
ghost use Rattle.sym_core.specs.Carried.{Carries};

use fa_edit::with_cell;
use fa_sound::Sound;
use fore_base::memory::Mem;
use std::alloc::Global;

/// The forest after `to = malloc(..)` of a struct: it has a new cell as a further root, at which `to` is. Err is want
/// of memory.
pub fn created(alloc: Global, forest: &Sound, to: u32, shape: u32) -> Mem<Sound>
    requires to { to < length forest.now.forest.vars }
    requires shape { shape < length forest.now.face.shapes.structs }
    ensures carries { IfOk result (λ made. (T : List BoxDef) → IsTableOf forest.now.face T → (x : ℕ)
        → Carries forest.now.face T forest.now.forest made.forest (New to shape) x) }
    ensures face { IfOk result (λ made. made.face ≡ forest.now.face) }
    ensures plain { Every HasNoBoxes forest.now.forest.autos
        → IfOk result (λ made. Every HasNoBoxes made.forest.autos) }
    ensures vars { IfOk result (λ made. length made.forest.vars ≡ length forest.now.forest.vars) }
    ensures data_vars { IfOk result (λ made. made.forest.data_vars ≡ forest.now.forest.data_vars) }
{
    forest.known();
    let made = with_cell(alloc, forest, to, shape)?;
    Ok(made)
}
