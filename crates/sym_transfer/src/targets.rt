// What the targets and data of a forest say of an edge, for all members alike.

ghost use Rattle.std.specs.Prelude.{◌≡◌, Ok, Err, IfOk, IfErr};
ghost use Rattle.fa_core.specs.declared.forest.Target.TheVariants.{At};
ghost use Rattle.c_types.specs.Steps.{same_datums as sameness_of_data};
ghost use Rattle.sym_core.specs.Explicit.{target_at};
ghost use Rattle.sym_transfer.specs.inner.Targets.{datum_at, target_of_arg, datum_of_arg, root_of, freed_root};
ghost use Rattle.sym_transfer.specs.inner.Targets.{same_targets};
ghost use Rattle.sym_transfer.specs.inner.Tops.{AreTopped, HasTop};

use c_cfg::graph::{DataArg, PtrArg};
use fa_core::forest::Target;
use fa_sound::Sound;
use fore_base::fault::Fault;
use fore_base::store::Datum;

/// What the pointer variable is.
pub fn target_of(forest: &Sound, var: u32) -> Target
    ensures { result ≡ target_at forest.now.forest var }
{
    forest.forest().vars.get_or(var as usize, Target::Uninit)
}

/// What the data variable is.
pub fn datum_of(forest: &Sound, var: u32) -> Datum
    ensures { result ≡ datum_at forest.now.forest var }
{
    forest
        .forest()
        .data_vars
        .get_or(var as usize, Datum::Undefined)
}

pub fn target_of_arg(forest: &Sound, arg: PtrArg) -> Target
    ensures { result ≡ target_of_arg forest.now.forest arg }
{
    match arg {
        PtrArg::Var(var) => target_of(forest, var),
        PtrArg::Null => Target::Null,
    }
}

pub fn datum_of_arg(forest: &Sound, arg: DataArg) -> Datum
    ensures { result ≡ datum_of_arg forest.now.forest arg }
{
    match arg {
        DataArg::Var(var) => datum_of(forest, var),
        DataArg::Known(number) => Datum::Known(number),
    }
}

/// The root to which a pointer leads, or the fault of following it.
pub fn root_of(target: Target) -> Result<u32, Fault>
    ensures { result ≡ root_of target }
{
    match target {
        Target::Null => Err(Fault::NullDeref),
        Target::Uninit => Err(Fault::UninitDeref),
        Target::Dangling => Err(Fault::DanglingDeref),
        Target::At(root) => Ok(root),
    }
}

/// The root to which the pointer variable leads, which has one rule, or the fault of following it.
pub fn followed(forest: &Sound, base: u32) -> Result<u32, Fault>
    requires tops { AreTopped forest.now.forest }
    ensures fault { IfErr result (λ fault. root_of (target_at forest.now.forest base) ≡ Err fault) }
    ensures root { IfOk result (λ root. target_at forest.now.forest base ≡ At root) }
    ensures top { IfOk result (λ root. HasTop forest.now.forest root) }
{
    forest.known();
    root_of(target_of(forest, base))
}

/// The root that `free` of the target frees, None for a null pointer, or the fault.
pub fn freed_root(target: Target) -> Result<Option<u32>, Fault>
    ensures { result ≡ freed_root target }
{
    match target {
        Target::Null => Ok(None),
        Target::Uninit => Err(Fault::InvalidFree),
        Target::Dangling => Err(Fault::DoubleFree),
        Target::At(root) => Ok(Some(root)),
    }
}

/// Whether two targets are one value in each member, or the fault of the test.
pub fn same_targets(left: Target, right: Target) -> Result<bool, Fault>
    ensures { result ≡ same_targets left right }
{
    match (left, right) {
        (Target::Uninit, _) | (Target::Dangling, _) => Err(Fault::IndetTest),
        (_, Target::Uninit) | (_, Target::Dangling) => Err(Fault::IndetTest),
        (Target::Null, Target::Null) => Ok(true),
        (Target::Null, Target::At(_)) | (Target::At(_), Target::Null) => Ok(false),
        (Target::At(one), Target::At(other)) => Ok(one == other),
    }
}

/// Whether two data are equal, or the fault of the test.
pub fn same_datums(left: Datum, right: Datum) -> Result<bool, Fault>
    ensures { result ≡ sameness_of_data left right }
{
    match (left, right) {
        (Datum::Known(one), Datum::Known(other)) => Ok(one == other),
        _ => Err(Fault::IndetTest),
    }
}
