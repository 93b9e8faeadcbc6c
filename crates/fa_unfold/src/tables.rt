// Box edges of sound forests replaced by the insides that a table of boxes has, and cut by signatures.

ghost use Rattle.std.specs.Prelude.{◌≡◌, IfOk};
ghost use Rattle.fore_base.specs.Lists.{Every};
ghost use Rattle.fa_sound.specs.Unions.{forests};
ghost use Rattle.fa_unfold.specs.Sites.{IsHookAt, IsLinkAt};
ghost use Rattle.fa_unfold.specs.Unfolded.{UnfoldsInto};
ghost use Rattle.fa_unfold.specs.inner.Cuts.{IsUnfoldedHook, IsUnfoldedLink};

use crate::cuts::cut_all;
use crate::replacing::{inside, unfold_hook, unfold_link};
use fa_back::ranked_insides;
use fa_core::forest::Target;
use fa_core::table::BoxTable;
use fa_sound::Sound;
use fore_base::list::List;
use fore_base::memory::Mem;
use std::alloc::Global;

/// The sound forests in which the Link at the place of the root, whose end is the leaf alone, is replaced. Err is want
/// of memory, also where numbers of states and roots do not fit 32 bits.
pub fn replace_link(
    alloc: Global,
    forest: &Sound,
    table: &BoxTable,
    root: u32,
    place: usize,
    number: u32,
    end: Target,
) -> Mem<List<Sound>>
    requires face { table.now.face ≡ forest.now.face }
    requires at { IsLinkAt forest.now.forest root place number end }
    ensures each { IfOk result (Every (IsUnfoldedLink table.now forest.now.forest root place)) }
    ensures whole { IfOk result (λ made. UnfoldsInto table.now.defs forest.now.forest root place (forests made)) }
{
    forest.known();
    table.known();
    ranked_insides(table);
    let whole = forest.forest();
    match inside(table, number) {
        [input, output, inner @ ..] => {
            let wholes = unfold_link(
                alloc, table, whole, root, place, number, end, input, output, inner,
            )?;
            let made = cut_all(alloc, wholes.as_slice(), table.face())?;
            Ok(made)
        }
        _ => unreachable!(),
    }
}

/// The sound forests in which the Hook at the place of the root is replaced. Err is want of memory, also where numbers
/// of states and roots do not fit 32 bits.
pub fn replace_hook(
    alloc: Global,
    forest: &Sound,
    table: &BoxTable,
    root: u32,
    place: usize,
    number: u32,
) -> Mem<List<Sound>>
    requires face { table.now.face ≡ forest.now.face }
    requires at { IsHookAt forest.now.forest root place number }
    ensures each { IfOk result (Every (IsUnfoldedHook table.now forest.now.forest root place)) }
    ensures whole { IfOk result (λ made. UnfoldsInto table.now.defs forest.now.forest root place (forests made)) }
{
    forest.known();
    table.known();
    ranked_insides(table);
    let whole = forest.forest();
    match inside(table, number) {
        [input, inner @ ..] => {
            let wholes = unfold_hook(alloc, table, whole, root, place, number, input, inner)?;
            let made = cut_all(alloc, wholes.as_slice(), table.face())?;
            Ok(made)
        }
        _ => unreachable!(),
    }
}
