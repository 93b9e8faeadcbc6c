// One edge on a forest, kind by kind.

ghost use Rattle.std.specs.Prelude.{◌≡◌, ◌<◌, true, List, ℕ, length, IfOk};
ghost use Rattle.fore_base.specs.Lists.{Every};
ghost use Rattle.fa_core.specs.Boxes.{IsTableOf};
ghost use Rattle.fa_core.specs.Canonical.{IsCanonical};
ghost use Rattle.fa_core.specs.declared.boxes.BoxDef.{BoxDef};
ghost use Rattle.fa_split.specs.Giving.{RulesGive};
ghost use Rattle.c_cfg.specs.Ranges.{EdgeFits};
ghost use Rattle.c_cfg.specs.declared.graph.Instr.TheVariants.{New, Free};
ghost use Rattle.sym_core.specs.Explicit.{IsExplicit};
ghost use Rattle.sym_core.specs.Quiet.{is_quiet};
ghost use Rattle.sym_transfer.specs.Edited.{GoesCanonical, HasForm, IfGoes, IsEdited};
ghost use Rattle.sym_transfer.specs.inner.Parts.{IsMadeBy};

use crate::creating::created;
use crate::freeing::freed;
use crate::loading::{loaded_datum, loaded_ptr};
use crate::outcome::Edited;
use crate::storing::{stored_const, stored_data, stored_ptr};
use crate::targets::{freed_root, target_of};
use crate::testing::{stopped, tested_data, tested_ptrs};
use crate::variables::{chosen, copied_datum, copied_ptr, killed};
use c_cfg::graph::{Edge, Instr};
use fa_sound::Sound;
use fore_base::memory::Mem;
use std::alloc::Global;

/// `to = malloc(..)`. Err is want of memory.
fn allocated(alloc: Global, forest: &Sound, to: u32, shape: u32) -> Mem<Edited>
    requires to { to < length forest.now.forest.vars }
    requires shape { shape < length forest.now.face.shapes.structs }
    ensures edited { IfOk result (IsMadeBy forest.now (New to shape)) }
    ensures form { IfOk result (IfGoes (HasForm forest.now)) }
{
    let made = created(alloc, forest, to, shape)?;
    Ok(Edited::Goes(made))
}

/// `free(from)`. Err is want of memory.
fn released(alloc: Global, forest: &Sound, from: u32) -> Mem<Edited>
    requires explicit { IsExplicit forest.now.face.shapes.structs forest.now.forest (Free from) }
    ensures edited { IfOk result (IsMadeBy forest.now (Free from)) }
    ensures form { IfOk result (IfGoes (HasForm forest.now)) }
{
    match freed_root(target_of(forest, from)) {
        Err(fault) => Ok(Edited::Fault(fault)),
        Ok(None) => {
            let made = forest.copy(alloc)?;
            Ok(Edited::Goes(made))
        }
        Ok(Some(root)) => {
            let made = freed(alloc, forest, from, root)?;
            Ok(Edited::Goes(made))
        }
    }
}

/// What the edge makes of the forest, before the leak test: the fault that all members meet, the forest of what they
/// become, or nothing. A forest that was canonical stays so where the edge is quiet. A box edge that leads back gives
/// its end something, as each box of a table does. Err is want of memory.
pub fn edited(alloc: Global, forest: &Sound, edge: &Edge) -> Mem<Edited>
    requires gives { Every (RulesGive forest.now.face.boxes) forest.now.forest.autos }
    requires fits { EdgeFits (length forest.now.forest.vars) (length forest.now.forest.data_vars)
        forest.now.face.shapes.structs
        edge.now }
    requires explicit { IsExplicit forest.now.face.shapes.structs forest.now.forest edge.now.instr }
    ensures edited { IfOk result (λ made. (T : List BoxDef) → IsTableOf forest.now.face T
        → IsEdited forest.now.face T forest.now.forest edge.now made) }
    ensures form { IfOk result (IfGoes (HasForm forest.now)) }
    ensures quiet { is_quiet edge.now.instr ≡ true
        → IsCanonical forest.now.face forest.now.forest
        → IfOk result GoesCanonical }
{
    match &edge.instr {
        Instr::CopyPtr { to, from } => copied_ptr(alloc, forest, *to, *from),
        Instr::LoadPtr { to, from, field } => loaded_ptr(alloc, forest, *to, *from, *field),
        Instr::StorePtr { to, field, from } => stored_ptr(alloc, forest, *to, *field, *from),
        Instr::StoreConst { to, field, value } => stored_const(alloc, forest, *to, *field, *value),
        Instr::New { to, shape } => allocated(alloc, forest, *to, *shape),
        Instr::Free { from } => released(alloc, forest, *from),
        Instr::Kill { ptrs, datums } => killed(alloc, forest, ptrs.as_slice(), datums.as_slice()),
        Instr::CopyData { to, from } => copied_datum(alloc, forest, *to, *from),
        Instr::LoadData { to, from, field } => loaded_datum(alloc, forest, *to, *from, *field),
        Instr::StoreData { to, field, from } => stored_data(alloc, forest, *to, *field, *from),
        Instr::TestPtr { left, right, equal } => tested_ptrs(alloc, forest, *left, *right, *equal),
        Instr::TestData { left, right, equal } => tested_data(alloc, forest, *left, *right, *equal),
        Instr::Choose { to } => chosen(alloc, forest, *to, edge.choice),
        Instr::Stop { error } => Ok(stopped(*error)),
    }
}
