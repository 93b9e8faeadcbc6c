// The components of an inside without the states that take no part.

ghost use Rattle.std.specs.Prelude.{IfOk};
ghost use Rattle.fa_faces.specs.inner.Trimmed.{IsTrimOf, AreTrimOf};

use fore_base::list::List;
use fore_base::memory::Mem;
use std::alloc::Global;
use ta_core::auto::Auto;
use ta_core::trim;

/// Each of the components without the states that take no part.
///
/// # Errors
///
/// Want of memory.
pub fn trim_each(alloc: Global, autos: &[Auto]) -> Mem<List<Auto>>
    ensures { IfOk result (λ made. AreTrimOf autos.now made) }
{
    let mut all = List::new(alloc);
    for auto in autos {
        all.push(trim_one(alloc, auto)?)?;
    }
    Ok(all)
}

fn trim_one(alloc: Global, auto: &Auto) -> Mem<Auto>
    ensures { IfOk result (λ made. IsTrimOf auto.now made) }
{
    let made = trim(alloc, auto)?;
    made.known();
    Ok(made)
}
