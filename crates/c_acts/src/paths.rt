ghost use Rattle.std.specs.Prelude.{◌≡◌, MatchResult};
ghost use Rattle.fore_base.specs.Stores.{var_of, write_from};
ghost use Rattle.c_types.specs.Steps.{read, write_path};
ghost use Rattle.c_heap.specs.Sizes.{IsNoLarger};

use c_heap::heap::Heap;
use c_types::program::Path;
use fore_base::fault::Fault;
use fore_base::store::Value;

/// The value at the end of a path, one arrow after the other.
pub fn read(heap: &Heap, path: &Path) -> Result<Value, Fault>
    ensures { result ≡ read heap.now path.now }
{
    let mut value = heap.var(path.var);
    for field in path.fields.as_slice() {
        value = heap.load(value, *field)?;
    }
    Ok(value)
}

/// Writes at the end of a path: the arrows before the last one are followed, then the last arrow and the write.
pub fn write(heap: &mut Heap, path: &Path, value: Value) -> Result<(), Fault>
    ensures result { MatchResult result (λ _. write_path heap.old path.now.var path.now.fields value ≡ Ok heap.new)
        (λ fault. write_path heap.old path.now.var path.now.fields value ≡ Err fault) }
    ensures keeps { IsNoLarger heap.old heap.new }
{
    match path.fields.as_slice().split_first() {
        Some((first, others)) => write_from(heap, path.var, *first, others, value),
        None => {
            heap.set_var(path.var, value);
            Ok(())
        }
    }
}

fn write_from(
    heap: &mut Heap,
    var: u32,
    first: u32,
    others: &[u32],
    value: Value,
) -> Result<(), Fault>
    ensures result { MatchResult result
        (λ _. write_from heap.old (var_of heap.old var) first others.now value ≡ Ok heap.new)
        (λ fault. write_from heap.old (var_of heap.old var) first others.now value ≡ Err fault) }
    ensures keeps { IsNoLarger heap.old heap.new }
{
    let mut base = heap.var(var);
    let mut field = first;
    for other in others {
        base = heap.load(base, field)?;
        field = *other;
    }
    heap.store_at(base, field, value)
}
