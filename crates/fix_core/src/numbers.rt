// Lists of numbers, one for each place.
ghost use Rattle.std.specs.Prelude.{◌≡◌, ◌<◌, ◌++◌, ◌∷◌, [], length, slice_set, OnOk, OnErr};
ghost use Rattle.fix_core.specs.Listed.{numbers_at};

use fore_base::list::List;
use fore_base::memory::Mem;

/// Adds a number to the list at a place. Err is want of memory.
pub fn push_at(lists: &mut List<List<u32>>, at: usize, number: u32) -> Mem<()>
    requires { at < length lists.old }
    ensures ok { OnOk result (lists.new ≡ slice_set lists.old at (numbers_at lists.old at ++ number ∷ [])) }
    ensures err { OnErr result (lists.new ≡ slice_set lists.old at (numbers_at lists.old at)) }
{
    let own = lists.at_mut(at);
    own.push(number)?;
    Ok(())
}
