// Names with their numbers.
ghost use Rattle.std.specs.Prelude.{◌≡◌, ◌+◌, ◌∷◌, ◌++◌, [], Bool, true, false, not, Some, slice_get, cond, IfOk, OnOk};
ghost use Rattle.std.specs.Prelude.{OnErr};
ghost use Rattle.c_typing.specs.Texts.{has, number_of};

use fore_base::memory::Mem;
use fore_base::names::Names;
use std::alloc::AllocError;

/// The number of a text.
pub fn find(names: &Names, text: &[u8]) -> Option<u32>
    ensures { result ≡ number_of text.now names.now }
{
    names.known_distinct();
    match names.find(text) {
        Some(number) => Some(number),
        None => None,
    }
}

/// Whether the text is there.
pub fn is_there(names: &Names, text: &[u8]) -> bool
    ensures { result ≡ has text.now names.now }
{
    match names.find(text) {
        Some(_) => true,
        None => false,
    }
}

/// Adds a text, if it is not there, and tells whether it was new. Past 32 bits it is want of memory.
pub fn add(names: &mut Names, text: &[u8]) -> Mem<bool>
    ensures new { IfOk result (λ new. new ≡ not (has text.now names.old)) }
    ensures names { OnOk result (names.new ≡ cond (has text.now names.old) names.old (names.old ++ text.now ∷ [])) }
    ensures err { OnErr result (names.new ≡ names.old) }
{
    if is_there(names, text) {
        return Ok(false);
    }
    add_new(names, text)?;
    Ok(true)
}

fn add_new(names: &mut Names, text: &[u8]) -> Mem<()>
    requires { has text.now names.old ≡ false }
    ensures ok { OnOk result (names.new ≡ names.old ++ text.now ∷ []) }
    ensures err { OnErr result (names.new ≡ names.old) }
{
    if names.len() >= 4294967295 {
        return Err(AllocError);
    }
    let _number = names.number(text)?;
    Ok(())
}

/// One more; want of memory past the end of the type.
pub fn one_more(count: usize) -> Mem<usize>
    ensures { IfOk result (λ more. more ≡ count + 1) }
{
    match count.checked_add(1) {
        Some(more) => Ok(more),
        None => Err(AllocError),
    }
}
