// Tables with a box more.

ghost use Rattle.std.specs.Prelude.{◌≡◌, ◌<◌, ◌+◌, ℕ, length, IfOk, OnOk};
ghost use Rattle.fa_sound.specs.Soundness.{IsSigned, SoundForest};
ghost use Rattle.fa_learn.specs.Learning.{IsCandidate, with_box};
ghost use Rattle.fa_learn.specs.inner.Copied.{HasFirst};

use fa_core::boxes::BoxDef;
use fa_core::table::BoxTable;
use fore_base::memory::Mem;
use std::alloc::Global;

/// The table with this box last: a candidate of some sound forest over the table's face.
///
/// # Errors
///
/// Want of memory.
pub fn extend_table(alloc: Global, table: &BoxTable, def: &BoxDef) -> Mem<BoxTable>
    requires room { length table.now.defs < 32 }
    requires learnt { (s : SoundForest) × (i : ℕ) × (j : ℕ) × IsSigned s × (s.face ≡ table.now.face)
        × IsCandidate table.now s.forest i j def.now }
    ensures { IfOk result (λ made. made ≡ with_box table.now def.now) }
{
    table.known();
    let mut made = copy_table(alloc, table)?;
    made.add(alloc, def)?;
    Ok(made)
}

/// An equal table, in memory of its own.
///
/// # Errors
///
/// Want of memory.
#[tactic(auto, using(crate::proofs::Copies::beginning, crate::proofs::Copies::whole))]
pub fn copy_table(alloc: Global, table: &BoxTable) -> Mem<BoxTable>
    ensures { IfOk result (λ made. made ≡ table.now) }
{
    table.known();
    let mut made = BoxTable::empty(alloc, &table.face().shapes)?;
    for box_no in 0..table.len() {
        add_next(alloc, &mut made, table, box_no)?;
    }
    Ok(made)
}

/// Puts the box of this number behind those that come before it. Err is want of memory.
fn add_next(alloc: Global, made: &mut BoxTable, table: &BoxTable, box_no: u32) -> Mem<()>
    requires low { box_no < length table.now.defs }
    requires first { HasFirst table.now box_no made.old }
    ensures { OnOk result (HasFirst table.now (box_no + 1) made.new) }
{
    table.known();
    made.add(alloc, table.box_def(box_no))?;
    Ok(())
}
