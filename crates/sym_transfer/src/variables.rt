// Edges that change variables alone.

ghost use Rattle.std.specs.Prelude.{◌≡◌, ◌<◌, ◌≤◌, List, [], length, slice_set, IfOk, ℕ};
ghost use Rattle.fore_base.specs.Stores.{set_each};
ghost use Rattle.fore_base.specs.declared.store.Datum.TheVariants.{Undefined};
ghost use Rattle.fa_core.specs.Boxes.{IsTableOf};
ghost use Rattle.fa_core.specs.Canonical.{IsCanonical};
ghost use Rattle.fa_core.specs.Filled.{DatumFits, IsRoot};
ghost use Rattle.fa_core.specs.declared.boxes.BoxDef.{BoxDef};
ghost use Rattle.fa_core.specs.declared.forest.Target.TheVariants.{Uninit};
ghost use Rattle.c_cfg.specs.Edges.{choice_of};
ghost use Rattle.c_cfg.specs.Ranges.{ChoiceFits, DataArgFits};
ghost use Rattle.c_cfg.specs.declared.graph.Instr.TheVariants.{CopyPtr, Kill, CopyData, Choose};
ghost use Rattle.sym_transfer.specs.Edited.{Becomes, GoesCanonical, HasForm, IfGoes};
ghost use Rattle.sym_transfer.specs.inner.Parts.{IsMadeBy};
ghost use Rattle.sym_transfer.specs.inner.Targets.{with_vars};

use crate::outcome::Edited;
use crate::targets::{datum_of_arg, target_of_arg};
use c_cfg::graph::{DataArg, PtrArg};
use fa_core::forest::Target;
use fa_edit::with_vars;
use fa_sound::Sound;
use fore_base::list::{Copies, List};
use fore_base::memory::Mem;
use fore_base::store::Datum;
use std::alloc::Global;

/// The forest with another target in a pointer variable. Err is want of memory.
pub fn with_target(alloc: Global, forest: &Sound, to: u32, target: Target) -> Mem<Sound>
    requires root { IsRoot (length forest.now.forest.autos) target }
    ensures value { IfOk result (λ made. made.forest
        ≡ with_vars forest.now.forest (slice_set forest.now.forest.vars to target) forest.now.forest.data_vars) }
    ensures form { IfOk result (HasForm forest.now) }
{
    forest.known();
    let mut vars = forest.forest().vars.copy(alloc)?;
    vars.set_within(to as usize, target);
    let data_vars = forest.forest().data_vars.copy(alloc)?;
    let made = with_vars(alloc, forest, vars, data_vars)?;
    Ok(made)
}

/// The forest with another datum in a data variable. Err is want of memory.
pub fn with_known(alloc: Global, forest: &Sound, to: u32, datum: Datum) -> Mem<Sound>
    requires fits { DatumFits datum }
    ensures value { IfOk result (λ made. made.forest
        ≡ with_vars forest.now.forest forest.now.forest.vars (slice_set forest.now.forest.data_vars to datum)) }
    ensures form { IfOk result (HasForm forest.now) }
    ensures canonical { IsCanonical forest.now.face forest.now.forest
        → IfOk result (λ made. IsCanonical made.face made.forest) }
{
    forest.known();
    let vars = forest.forest().vars.copy(alloc)?;
    let mut data_vars = forest.forest().data_vars.copy(alloc)?;
    data_vars.set_within(to as usize, datum);
    let made = with_vars(alloc, forest, vars, data_vars)?;
    Ok(made)
}

/// `to = from`, for pointers. Err is want of memory.
pub fn copied_ptr(alloc: Global, forest: &Sound, to: u32, from: PtrArg) -> Mem<Edited>
    ensures edited { IfOk result (IsMadeBy forest.now (CopyPtr to from)) }
    ensures form { IfOk result (IfGoes (HasForm forest.now)) }
{
    forest.known();
    let target = target_of_arg(forest, from);
    let made = with_target(alloc, forest, to, target)?;
    Ok(Edited::Goes(made))
}

/// `to = from`, for data. Err is want of memory.
pub fn copied_datum(alloc: Global, forest: &Sound, to: u32, from: DataArg) -> Mem<Edited>
    requires from { DataArgFits 0 (length forest.now.forest.data_vars) [] from }
    ensures edited { IfOk result (IsMadeBy forest.now (CopyData to from)) }
    ensures form { IfOk result (IfGoes (HasForm forest.now)) }
    ensures quiet { IsCanonical forest.now.face forest.now.forest → IfOk result GoesCanonical }
{
    forest.known();
    let datum = datum_of_arg(forest, from);
    let made = with_known(alloc, forest, to, datum)?;
    Ok(Edited::Goes(made))
}

/// The choice of an edge; 0 where it has none.
fn choice_of(choice: Option<u8>) -> u8
    requires { ChoiceFits choice }
    ensures value { result ≡ choice_of choice }
    ensures fits { result < 2 }
{
    match choice {
        Some(choice) => choice,
        None => 0,
    }
}

/// The choice, which is assigned to a data variable, if there is one. Err is want of memory.
pub fn chosen(alloc: Global, forest: &Sound, to: Option<u32>, choice: Option<u8>) -> Mem<Edited>
    requires choice { ChoiceFits choice }
    ensures edited { IfOk result (λ made. (T : List BoxDef) → IsTableOf forest.now.face T
        → Becomes forest.now.face T forest.now.forest (Choose to) (choice_of choice) made) }
    ensures form { IfOk result (IfGoes (HasForm forest.now)) }
    ensures quiet { IsCanonical forest.now.face forest.now.forest → IfOk result GoesCanonical }
{
    match to {
        Some(to) => {
            let choice = choice_of(choice);
            let made = with_known(alloc, forest, to, Datum::Known(choice))?;
            Ok(Edited::Goes(made))
        }
        None => {
            let made = forest.copy(alloc)?;
            Ok(Edited::Goes(made))
        }
    }
}

/// The list with the item at each of these places; nothing is done at one past the end.
fn set_these<T: Copy>(list: List<T>, places: &[u32], item: T) -> List<T>
    ensures { result ≡ set_each list places.now item }
{
    let mut list = list;
    for place in places {
        list.set_within(*place as usize, item);
    }
    list
}

/// Variables that die. Err is want of memory.
pub fn killed(alloc: Global, forest: &Sound, ptrs: &[u32], datums: &[u32]) -> Mem<Edited>
    ensures edited { IfOk result (IsMadeBy forest.now (Kill ptrs.now datums.now)) }
    ensures form { IfOk result (IfGoes (HasForm forest.now)) }
    ensures quiet { ptrs.now ≡ [] → IsCanonical forest.now.face forest.now.forest → IfOk result GoesCanonical }
{
    let made = without_these(alloc, forest, ptrs, datums)?;
    Ok(Edited::Goes(made))
}

/// The forest in which these variables are dead. Err is want of memory.
fn without_these(alloc: Global, forest: &Sound, ptrs: &[u32], datums: &[u32]) -> Mem<Sound>
    ensures value { IfOk result (λ made. made.forest
        ≡ with_vars forest.now.forest (set_each forest.now.forest.vars ptrs.now Uninit)
        (set_each forest.now.forest.data_vars datums.now Undefined)) }
    ensures form { IfOk result (HasForm forest.now) }
    ensures canonical { ptrs.now ≡ [] → IsCanonical forest.now.face forest.now.forest
        → IfOk result (λ made. IsCanonical made.face made.forest) }
{
    forest.known();
    let vars = forest.forest().vars.copy(alloc)?;
    let vars = set_these(vars, ptrs, Target::Uninit);
    let data_vars = forest.forest().data_vars.copy(alloc)?;
    let data_vars = set_these(data_vars, datums, Datum::Undefined);
    let made = with_vars(alloc, forest, vars, data_vars)?;
    Ok(made)
}
