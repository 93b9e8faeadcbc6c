// The least place at which something can be folded.

ghost use Rattle.std.specs.Prelude.{◌<◌, length, slice_get, IfOk, MatchOption};
ghost use Rattle.fa_core.specs.LeastFolds.{IsFolded};
ghost use Rattle.fore_base.specs.Lists.{Paired};
ghost use Rattle.fa_fold.specs.Least.{IsLeastSite};
ghost use Rattle.fa_fold.specs.inner.Fields.{AreBoxFields};
ghost use Rattle.fa_fold.specs.inner.Seeking.{CanNotFold, CanNotFoldAt, HasNoEnd, HasOutput, IsLeastAt, IsLeastEnd};
ghost use Rattle.fa_fold.specs.inner.Seeking.{IsLeastOf};
ghost use Rattle.fa_part.specs.Ports.{AreFieldsOf};

use crate::within::is_within_by;
use fa_core::table::BoxTable;
use fa_part::{PortFields, table_fields};
use fa_sound::{Sound, count_roots};
use fore_base::list::List;
use fore_base::memory::Mem;
use std::alloc::Global;

/// A place at which a box can be folded.
#[derive(Drop)]
pub struct FoldSite {
    /// The box, by its number.
    pub box_no: u32,
    /// The root at the input.
    pub input: u32,
    /// The root at the output, where the box has one.
    pub output: Option<u32>,
}

/// The least box, input and output that can be folded: boxes by their numbers, then inputs, then outputs. None where
/// nothing can be folded.
///
/// # Errors
///
/// Want of memory, also where the number of roots does not fit 32 bits.
pub fn least_fold(alloc: Global, forest: &Sound, table: &BoxTable) -> Mem<Option<FoldSite>>
    ensures { IfOk result (λ found. MatchOption found
        (IsFolded table.now forest.now.forest)
        (IsLeastSite table.now forest.now.forest)) }
{
    let fields = table_fields(alloc, table)?;
    least_by(alloc, forest, table, &fields)
}

/// The least place, where it is known which fields the ports of the boxes cover. Err is want of memory, also where the
/// number of roots does not fit 32 bits.
pub(crate) fn least_by(
    alloc: Global,
    forest: &Sound,
    table: &BoxTable,
    fields: &List<PortFields>,
) -> Mem<Option<FoldSite>>
    requires { Paired (AreFieldsOf table.now.face.boxes) table.now.defs fields.now }
    ensures { IfOk result (λ found. MatchOption found
        (IsFolded table.now forest.now.forest)
        (IsLeastSite table.now forest.now.forest)) }
{
    for box_no in 0..table.len() {
        let own = fields.at(box_no as usize);
        if let Some(site) = least_of(alloc, forest, table, own, box_no)? {
            return Ok(Some(site));
        }
    }
    Ok(None)
}

/// The least place of one box. Err is want of memory, also where the number of roots does not fit 32 bits.
fn least_of(
    alloc: Global,
    forest: &Sound,
    table: &BoxTable,
    fields: &PortFields,
    box_no: u32,
) -> Mem<Option<FoldSite>>
    requires there { box_no < length table.now.defs }
    requires fields { AreBoxFields table.now box_no fields.now }
    ensures { IfOk result (λ found. MatchOption found
        (CanNotFold table.now forest.now.forest box_no)
        (IsLeastOf table.now forest.now.forest box_no)) }
{
    let count = count_roots(forest.forest())?;
    for input in 0..count {
        if let Some(site) = least_at(alloc, forest, table, fields, box_no, input)? {
            return Ok(Some(site));
        }
    }
    Ok(None)
}

/// The least place of one box at one root. Err is want of memory, also where the number of roots does not fit 32 bits.
fn least_at(
    alloc: Global,
    forest: &Sound,
    table: &BoxTable,
    fields: &PortFields,
    box_no: u32,
    input: u32,
) -> Mem<Option<FoldSite>>
    requires there { box_no < length table.now.defs }
    requires fields { AreBoxFields table.now box_no fields.now }
    requires input { input < length forest.now.forest.autos }
    ensures { IfOk result (λ found. MatchOption found
        (CanNotFoldAt table.now forest.now.forest box_no input)
        (IsLeastAt table.now forest.now.forest box_no input)) }
{
    match table.box_def(box_no).face.output {
        None => {
            if is_within_by(alloc, forest, table, fields, box_no, input, None)? {
                return Ok(Some(FoldSite {
                    box_no,
                    input,
                    output: None,
                }));
            }
            Ok(None)
        }
        Some(_) => match least_end(alloc, forest, table, fields, box_no, input)? {
            None => Ok(None),
            Some(end) => Ok(Some(FoldSite {
                box_no,
                input,
                output: Some(end),
            })),
        },
    }
}

/// The least output of one box at one root. Err is want of memory, also where the number of roots does not fit 32 bits.
fn least_end(
    alloc: Global,
    forest: &Sound,
    table: &BoxTable,
    fields: &PortFields,
    box_no: u32,
    input: u32,
) -> Mem<Option<u32>>
    requires there { HasOutput (slice_get table.now.defs box_no) }
    requires fields { AreBoxFields table.now box_no fields.now }
    requires input { input < length forest.now.forest.autos }
    ensures { IfOk result (λ found. MatchOption found
        (HasNoEnd table.now forest.now.forest box_no input)
        (IsLeastEnd table.now forest.now.forest box_no input)) }
{
    let count = count_roots(forest.forest())?;
    for end in 0..count {
        if is_within_by(alloc, forest, table, fields, box_no, input, Some(end))? {
            return Ok(Some(end));
        }
    }
    Ok(None)
}
