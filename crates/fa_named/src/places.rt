// Places of names in lists.
ghost use Rattle.std.specs.Prelude.{◌≡◌, ◌≤◌, IfOk, length};
ghost use Rattle.fa_named.specs.Places as spec;

use fore_base::memory::Mem;
use fore_base::text::Text;
use std::alloc::AllocError;

/// The first place of the name in the list, the length of the list where it is not there.
pub fn first_place(names: &[Text], name: &Text) -> usize
    ensures value { result ≡ spec.place name.now names.now }
    ensures within { result ≤ length names.now }
{
    for (i, other) in names.iter().enumerate() {
        if name == other {
            return i;
        }
    }
    names.len()
}

/// The first place of the name in the list, the length of the list where it is not there.
pub fn place(names: &[Text], name: &Text) -> Mem<u32>
    ensures { IfOk result (λ n. n ≡ spec.place name.now names.now) }
{
    if names.len() > 4294967295 {
        return Err(AllocError);
    }
    Ok(first_place(names, name) as u32)
}

/// Whether the name is in the list.
pub fn is_there(names: &[Text], name: &Text) -> bool
    ensures { result ≡ spec.is_there name.now names.now }
{
    first_place(names, name) < names.len()
}
