// Rules chosen at a root, children split off, and the cells of box edges lifted out of their components.

ghost use Rattle.std.specs.Prelude.{◌<◌, length};
ghost use Rattle.fa_order.specs.Placing.{DoEdgesGive};

use crate::roots::refused;
use anyhow::Result;
use fa_lift::{can_lift, lift_parent};
use fa_sound::Sound;
use fa_split::{can_split, choose_rule, split_child};
use row_forests::{letters, letters_in_order};
use std::alloc::Global;

// chosen ROOT: which of the wanted forests those with one rule of the root are, in their order.
pub fn chosen_letters(alloc: Global, forest: &Sound, root: u32, wanted: &[&str]) -> Result<String>
    requires { root < length forest.now.forest.autos }
{
    let made = choose_rule(alloc, forest, root)?;
    letters_in_order(alloc, made.as_slice(), wanted)
}

// split ROOT PLACE: which of the wanted forests those are whose child at the place is a leaf or a root, in their order.
pub fn split_letters(
    alloc: Global,
    forest: &Sound,
    root: u32,
    place: u32,
    wanted: &[&str],
) -> Result<String>
    requires { DoEdgesGive forest.now.face forest.now.forest }
{
    let place = place as usize;
    if can_split(forest, root, place) {
        let made = split_child(alloc, forest, root, place)?;
        letters_in_order(alloc, made.as_slice(), wanted)
    } else {
        refused(alloc)
    }
}

// lifted ROOT FIELD: which of the wanted forests those are in which the cell whose edge gives the field to the root is
// a root, in the order of the wanted ones.
pub fn lifted_letters(
    alloc: Global,
    forest: &Sound,
    root: u32,
    field: u32,
    wanted: &[&str],
) -> Result<String> {
    if can_lift(forest, root, field)? {
        let made = lift_parent(alloc, forest, root, field)?;
        letters(alloc, made.as_slice(), wanted)
    } else {
        refused(alloc)
    }
}
