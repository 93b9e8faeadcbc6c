// Edges that load a field.

ghost use Rattle.std.specs.Prelude.{◌≡◌, List, ℕ, IfOk};
ghost use Rattle.fa_core.specs.Canonical.{IsCanonical};
ghost use Rattle.fa_core.specs.declared.forest.Target.TheVariants.{At};
ghost use Rattle.c_cfg.specs.declared.graph.Instr.TheVariants.{LoadPtr, LoadData};
ghost use Rattle.sym_core.specs.Explicit.{IsExplicit, target_at};
ghost use Rattle.sym_transfer.specs.Edited.{GoesCanonical, HasForm, IfGoes};
ghost use Rattle.sym_transfer.specs.inner.Parts.{IsMadeBy};
ghost use Rattle.sym_transfer.specs.inner.Tops.{AreTopped, HasTop};

use crate::outcome::Edited;
use crate::targets::followed;
use crate::variables::{with_known, with_target};
use fa_edit::{datum_of, leaf_of};
use fa_sound::Sound;
use fore_base::memory::Mem;
use std::alloc::Global;

/// `to = from->field`, for pointers. Err is want of memory.
pub fn loaded_ptr(alloc: Global, forest: &Sound, to: u32, from: u32, field: u32) -> Mem<Edited>
    requires explicit { IsExplicit forest.now.face.shapes.structs forest.now.forest (LoadPtr to from field) }
    ensures edited { IfOk result (IsMadeBy forest.now (LoadPtr to from field)) }
    ensures form { IfOk result (IfGoes (HasForm forest.now)) }
{
    match followed(forest, from) {
        Ok(root) => loaded_leaf(alloc, forest, to, from, root, field),
        Err(fault) => Ok(Edited::Fault(fault)),
    }
}

/// The same where `from` is at a root. Err is want of memory.
fn loaded_leaf(
    alloc: Global,
    forest: &Sound,
    to: u32,
    from: u32,
    root: u32,
    field: u32,
) -> Mem<Edited>
    requires explicit { IsExplicit forest.now.face.shapes.structs forest.now.forest (LoadPtr to from field) }
    requires at { target_at forest.now.forest from ≡ At root }
    ensures edited { IfOk result (IsMadeBy forest.now (LoadPtr to from field)) }
    ensures form { IfOk result (IfGoes (HasForm forest.now)) }
{
    forest.known();
    match leaf_of(forest, root, field) {
        Some(leaf) => {
            let made = with_target(alloc, forest, to, leaf)?;
            Ok(Edited::Goes(made))
        }
        None => Ok(Edited::Stays),
    }
}

/// `to = from->field`, for data. Err is want of memory.
pub fn loaded_datum(alloc: Global, forest: &Sound, to: u32, from: u32, field: u32) -> Mem<Edited>
    requires tops { AreTopped forest.now.forest }
    ensures edited { IfOk result (IsMadeBy forest.now (LoadData to from field)) }
    ensures form { IfOk result (IfGoes (HasForm forest.now)) }
    ensures quiet { IsCanonical forest.now.face forest.now.forest → IfOk result GoesCanonical }
{
    match followed(forest, from) {
        Ok(root) => loaded_known(alloc, forest, to, from, root, field),
        Err(fault) => Ok(Edited::Fault(fault)),
    }
}

/// The same where `from` is at a root. Err is want of memory.
fn loaded_known(
    alloc: Global,
    forest: &Sound,
    to: u32,
    from: u32,
    root: u32,
    field: u32,
) -> Mem<Edited>
    requires top { HasTop forest.now.forest root }
    requires at { target_at forest.now.forest from ≡ At root }
    ensures edited { IfOk result (IsMadeBy forest.now (LoadData to from field)) }
    ensures form { IfOk result (IfGoes (HasForm forest.now)) }
    ensures quiet { IsCanonical forest.now.face forest.now.forest → IfOk result GoesCanonical }
{
    forest.known();
    match datum_of(forest, root, field) {
        Some(datum) => {
            let made = with_known(alloc, forest, to, datum)?;
            Ok(Edited::Goes(made))
        }
        None => Ok(Edited::Stays),
    }
}
