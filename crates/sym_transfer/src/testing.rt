// Edges that test, and those that end a run.

ghost use Rattle.std.specs.Prelude.{◌≡◌, List, ℕ, IfOk};
ghost use Rattle.fa_core.specs.Canonical.{IsCanonical};
ghost use Rattle.fa_core.specs.declared.boxes.BoxDef.{BoxDef};
ghost use Rattle.fa_core.specs.declared.faces.Face.{Face as FaceOf};
ghost use Rattle.fa_core.specs.declared.forest.Forest.{Forest as ForestOf};
ghost use Rattle.fa_sound.specs.Soundness.{SoundForest};
ghost use Rattle.c_cfg.specs.declared.graph.Instr.TheVariants.{TestPtr, TestData, Stop};
ghost use Rattle.sym_transfer.specs.Edited.{Becomes, GoesCanonical, HasForm, IfGoes};
ghost use Rattle.sym_transfer.specs.inner.Parts.{IsMadeBy, IsTested};

use crate::outcome::Edited;
use crate::targets::{datum_of_arg, same_datums, same_targets, target_of_arg};
use c_cfg::graph::{DataArg, PtrArg};
use fa_sound::Sound;
use fore_base::fault::Fault;
use fore_base::memory::Mem;
use std::alloc::Global;

/// The edge of a test for equal, or for not equal, of which this is the outcome. Err is want of memory.
fn tested(alloc: Global, forest: &Sound, same: Result<bool, Fault>, equal: bool) -> Mem<Edited>
    ensures { IfOk result (IsTested forest.now same equal) }
{
    match same {
        Err(fault) => Ok(Edited::Fault(fault)),
        Ok(same) => if same == equal {
            let made = forest.copy(alloc)?;
            Ok(Edited::Goes(made))
        } else {
            Ok(Edited::Stays)
        }
    }
}

/// A test of two pointers. Err is want of memory.
pub fn tested_ptrs(
    alloc: Global,
    forest: &Sound,
    left: PtrArg,
    right: PtrArg,
    equal: bool,
) -> Mem<Edited>
    ensures edited { IfOk result (IsMadeBy forest.now (TestPtr left right equal)) }
    ensures form { IfOk result (IfGoes (HasForm forest.now)) }
    ensures quiet { IsCanonical forest.now.face forest.now.forest → IfOk result GoesCanonical }
{
    forest.known();
    let same = same_targets(target_of_arg(forest, left), target_of_arg(forest, right));
    let made = tested(alloc, forest, same, equal)?;
    Ok(made)
}

/// A test of two data. Err is want of memory.
pub fn tested_data(
    alloc: Global,
    forest: &Sound,
    left: DataArg,
    right: DataArg,
    equal: bool,
) -> Mem<Edited>
    ensures edited { IfOk result (IsMadeBy forest.now (TestData left right equal)) }
    ensures form { IfOk result (IfGoes (HasForm forest.now)) }
    ensures quiet { IsCanonical forest.now.face forest.now.forest → IfOk result GoesCanonical }
{
    let same = same_datums(datum_of_arg(forest, left), datum_of_arg(forest, right));
    let made = tested(alloc, forest, same, equal)?;
    Ok(made)
}

/// The end of the run: a failed assertion, or without a fault.
pub fn stopped(error: bool) -> Edited
    ensures edited { (face : FaceOf) (T : List BoxDef) (F : ForestOf) (x : ℕ) → Becomes face T F (Stop error) x result }
    ensures form { (F : SoundForest) → IfGoes (HasForm F) result }
{
    if error {
        Edited::Fault(Fault::Assertion)
    } else {
        Edited::Stays
    }
}
