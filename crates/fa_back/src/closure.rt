// The roots that are reached from some of them.

ghost use Rattle.std.specs.Prelude.{◌<◌, ◌^◌, length, IfOk};
ghost use Rattle.fore_base.specs.Marks.{MarksOf};
ghost use Rattle.fa_core.specs.References.{AllBelow};
ghost use Rattle.fa_back.specs.Reached.{AllNameBelow, SignReached};

use crate::hops::hop_table;
use fa_core::signature::Signature;
use fore_base::list::List;
use fore_base::memory::Mem;
use fore_search::search;
use std::alloc::Global;

/// A mark for each root that is reached from those of `from`, by references and by ways back, where the trees of the
/// roots have these signatures. It takes a step for each mark of a signature and each root of a reach.
///
/// # Errors
///
/// Want of memory.
pub fn reached(alloc: Global, signatures: &[Signature], from: &[u32]) -> Mem<List<bool>>
    requires count { length signatures.now < 2 ^ 32 }
    requires within { AllNameBelow (length signatures.now) signatures.now }
    requires from { AllBelow (length signatures.now) from.now }
    ensures { IfOk result (MarksOf (length signatures.now) (SignReached signatures.now from.now)) }
{
    let table = hop_table(alloc, signatures)?;
    search(alloc, &table, from)
}
