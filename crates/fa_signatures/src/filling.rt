// Whether each field of each cell of a forest is given exactly once, found by its parts.

ghost use Rattle.std.specs.Prelude.{◌↔◌, IsTrue, IfOk};
ghost use Rattle.fore_base.specs.Lists.{Every};
ghost use Rattle.fa_core.specs.Filled.{IsFilled, IsSound};
ghost use Rattle.fa_signatures.specs.inner.CutProducts.{with_autos};

use crate::parts::{forest_with, pieces_each};
use crate::products::product;
use fa_core::faces::Face;
use fa_core::forest::Forest;
use fa_sound::{Sound, are_data_right, are_rules_right};
use fore_base::list::List;
use fore_base::memory::Mem;
use std::alloc::Global;
use ta_core::auto::Auto;

/// Whether each field of each cell is given exactly once: the data and the rules fit the face, and each choice of
/// pieces gives a sound forest. It is no part of cutting: it tells whether `split_signatures` may be asked. Err is want
/// of memory.
pub fn is_filled(alloc: Global, forest: &Forest, face: &Face) -> Mem<bool>
    ensures { IfOk result (λ yes. IsTrue yes ↔ IsFilled face.now forest.now) }
{
    if !are_data_right(forest.data_vars.as_slice()) {
        return Ok(false);
    }
    if !are_rules_right(face, forest.autos.as_slice()) {
        return Ok(false);
    }
    let pieces = pieces_each(alloc, face.boxes.as_slice(), forest.autos.as_slice())?;
    let choices = product(alloc, pieces.as_slice())?;
    are_sound(alloc, forest, face, choices.as_slice())
}

fn are_sound(alloc: Global, forest: &Forest, face: &Face, choices: &[List<Auto>]) -> Mem<bool>
    ensures { IfOk result (λ yes. IsTrue yes
        ↔ Every (λ autos. IsSound face.now (with_autos forest.now autos))
        choices.now) }
{
    for autos in choices {
        if !is_sound(alloc, forest, face, autos)? {
            return Ok(false);
        }
    }
    Ok(true)
}

fn is_sound(alloc: Global, forest: &Forest, face: &Face, autos: &List<Auto>) -> Mem<bool>
    ensures { IfOk result (λ yes. IsTrue yes ↔ IsSound face.now (with_autos forest.now autos.now)) }
{
    let made = forest_with(alloc, forest, autos)?;
    match Sound::make(alloc, &made, face)? {
        Some(_) => Ok(true),
        None => Ok(false),
    }
}
