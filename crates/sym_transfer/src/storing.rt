// Edges that store into a field.

ghost use Rattle.std.specs.Prelude.{◌≡◌, ◌≤◌, true, List, [], ℕ, length, IfOk};
ghost use Rattle.fore_base.specs.Lists.{Every};
ghost use Rattle.fa_core.specs.Canonical.{IsCanonical};
ghost use Rattle.fa_core.specs.Filled.{DatumFits};
ghost use Rattle.fa_edit.specs.Plain.{IsPlainAt};
ghost use Rattle.fa_split.specs.Giving.{RulesGive};
ghost use Rattle.c_cfg.specs.Ranges.{ConstFits};
ghost use Rattle.c_cfg.specs.declared.graph.Instr.TheVariants.{StorePtr, StoreConst, StoreData};
ghost use Rattle.sym_core.specs.Explicit.{IsExplicit};
ghost use Rattle.sym_core.specs.Quiet.{is_quiet};
ghost use Rattle.sym_transfer.specs.Edited.{GoesCanonical, HasForm, IfGoes};
ghost use Rattle.sym_transfer.specs.inner.Parts.{IsDatumStored, IsLeafStored, IsMadeBy};
ghost use Rattle.sym_transfer.specs.inner.Tops.{AreTopped, HasTop};

use crate::outcome::Edited;
use crate::targets::{datum_of as datum_in, followed, target_of};
use c_cfg::graph::Const;
use fa_core::forest::Target;
use fa_edit::{datum_of, leaf_fits, leaf_of, with_datum, with_leaf};
use fa_sound::Sound;
use fore_base::memory::Mem;
use fore_base::store::Datum;
use std::alloc::Global;

/// The leaf in a pointer field of a root. Nothing goes on where the root has no such field, or the leaf may not stand
/// there. Err is want of memory.
fn stored_leaf(alloc: Global, forest: &Sound, root: u32, field: u32, leaf: Target) -> Mem<Edited>
    requires gives { Every (RulesGive forest.now.face.boxes) forest.now.forest.autos }
    requires at { IsPlainAt forest.now.face.shapes.structs forest.now.forest root field }
    ensures stored { IfOk result (IsLeafStored forest.now root field leaf) }
    ensures form { IfOk result (IfGoes (HasForm forest.now)) }
{
    if leaf_of(forest, root, field).is_none() || !leaf_fits(forest, root, field, leaf) {
        return Ok(Edited::Stays);
    }
    let made = with_leaf(alloc, forest, root, field, leaf)?;
    Ok(Edited::Goes(made))
}

/// The datum in a data field of a root. Nothing goes on where the root has no such field. Err is want of memory.
fn stored_datum(alloc: Global, forest: &Sound, root: u32, field: u32, datum: Datum) -> Mem<Edited>
    requires top { HasTop forest.now.forest root }
    requires fits { DatumFits datum }
    ensures stored { IfOk result (IsDatumStored forest.now root field datum) }
    ensures form { IfOk result (IfGoes (HasForm forest.now)) }
    ensures quiet { IsCanonical forest.now.face forest.now.forest → IfOk result GoesCanonical }
{
    if datum_of(forest, root, field).is_none() {
        return Ok(Edited::Stays);
    }
    let made = with_datum(alloc, forest, root, field, datum)?;
    Ok(Edited::Goes(made))
}

/// `to->field = from`, for pointers. Err is want of memory.
pub fn stored_ptr(alloc: Global, forest: &Sound, to: u32, field: u32, from: u32) -> Mem<Edited>
    requires gives { Every (RulesGive forest.now.face.boxes) forest.now.forest.autos }
    requires explicit { IsExplicit forest.now.face.shapes.structs forest.now.forest (StorePtr to field from) }
    ensures edited { IfOk result (IsMadeBy forest.now (StorePtr to field from)) }
    ensures form { IfOk result (IfGoes (HasForm forest.now)) }
{
    forest.known();
    match followed(forest, to) {
        Ok(root) => {
            let leaf = target_of(forest, from);
            let made = stored_leaf(alloc, forest, root, field, leaf)?;
            Ok(made)
        }
        Err(fault) => Ok(Edited::Fault(fault)),
    }
}

/// `to->field = value`. A number leaves a canonical forest canonical. Err is want of memory.
pub fn stored_const(alloc: Global, forest: &Sound, to: u32, field: u32, value: Const) -> Mem<Edited>
    requires gives { Every (RulesGive forest.now.face.boxes) forest.now.forest.autos }
    requires explicit { IsExplicit forest.now.face.shapes.structs forest.now.forest (StoreConst to field value) }
    requires value { ConstFits (length forest.now.forest.vars) (length forest.now.forest.data_vars)
        forest.now.face.shapes.structs
        field value }
    ensures edited { IfOk result (IsMadeBy forest.now (StoreConst to field value)) }
    ensures form { IfOk result (IfGoes (HasForm forest.now)) }
    ensures quiet { is_quiet (StoreConst to field value) ≡ true → IsCanonical forest.now.face forest.now.forest →
        IfOk result GoesCanonical }
{
    match followed(forest, to) {
        Ok(root) => match value {
            Const::Null => {
                let made = stored_leaf(alloc, forest, root, field, Target::Null)?;
                Ok(made)
            }
            Const::Known(number) => {
                let made = stored_datum(alloc, forest, root, field, Datum::Known(number))?;
                Ok(made)
            }
        },
        Err(fault) => Ok(Edited::Fault(fault)),
    }
}

/// `to->field = from`, for data. Err is want of memory.
pub fn stored_data(alloc: Global, forest: &Sound, to: u32, field: u32, from: u32) -> Mem<Edited>
    requires tops { AreTopped forest.now.forest }
    ensures edited { IfOk result (IsMadeBy forest.now (StoreData to field from)) }
    ensures form { IfOk result (IfGoes (HasForm forest.now)) }
    ensures quiet { IsCanonical forest.now.face forest.now.forest → IfOk result GoesCanonical }
{
    forest.known();
    match followed(forest, to) {
        Ok(root) => {
            let datum = datum_in(forest, from);
            let made = stored_datum(alloc, forest, root, field, datum)?;
            Ok(made)
        }
        Err(fault) => Ok(Edited::Fault(fault)),
    }
}
