// Forests cut by signatures.

ghost use Rattle.std.specs.Prelude.{◌≡◌, IfOk};
ghost use Rattle.fore_base.specs.Lists.{IsIn, Every};
ghost use Rattle.fa_core.specs.declared.forest.Forest.{Forest};
ghost use Rattle.fa_core.specs.Filled.{IsFilled};
ghost use Rattle.fa_unfold.specs.inner.Cuts.{HasCuts, IsCutOf};

use fa_core::faces::Face;
use fa_core::forest::Forest;
use fa_signatures::split_signatures;
use fa_sound::Sound;
use fore_base::list::List;
use fore_base::memory::Mem;
use std::alloc::Global;

/// The sound forests into which the forests are cut by the signatures of their components. Err is want of memory, also
/// where numbers of states do not fit 32 bits.
pub fn cut_all(alloc: Global, wholes: &[Forest], face: &Face) -> Mem<List<Sound>>
    requires { Every (IsFilled face.now) wholes.now }
    ensures each { IfOk result (Every (IsCutOf face.now wholes.now)) }
    ensures whole { IfOk result (λ made. (G : Forest) → IsIn G wholes.now → HasCuts G made) }
{
    let mut made = List::new(alloc);
    for whole in wholes {
        let more = split_signatures(alloc, whole, face)?;
        made.append(more)?;
    }
    Ok(made)
}
