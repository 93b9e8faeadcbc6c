// One thing changed in a forest: a leaf, a datum, or a cell more.

ghost use Rattle.std.specs.Prelude.{◌<◌, length};
ghost use Rattle.fa_order.specs.Placing.{DoEdgesGive};
ghost use Rattle.fa_edit.specs.Plain.{HasPlace, IsPlainAt};

use crate::roots::{letter_of, refused};
use anyhow::{Context, Result, bail};
use fa_core::forest::Target;
use fa_edit::{datum_of, is_plain_at, leaf_fits, leaf_of, with_cell, with_datum, with_leaf};
use fa_sound::{Sound, component};
use fore_base::store::Datum;
use row_forests::{forest_of, put_targets};
use row_kit::{number_at, word_at};
use std::alloc::Global;
use ta_core::single::has_one_top;

// boxed-leaf ROOT FIELD: the leaf in the field, or that it is not one leaf that is shown there.
pub fn leaf_text(alloc: Global, forest: &Sound, root: u32, field: u32) -> Result<String> {
    if !is_plain_at(forest, root, field) {
        return refused(alloc);
    }
    put_leaf(alloc, leaf_of(forest, root, field))
}

fn put_leaf(alloc: Global, leaf: Option<Target>) -> Result<String> {
    let mut text = String::new(alloc);
    match leaf {
        Some(leaf) => put_targets(&mut text, &[leaf])?,
        None => put_targets(&mut text, &[])?,
    }
    Ok(text)
}

// boxed-set ROOT FIELD LEAF: which of the wanted forests that with the leaf in the field is.
pub fn set_letter(
    alloc: Global,
    forest: &Sound,
    root: u32,
    field: u32,
    leaf: &str,
    wanted: &[&str],
) -> Result<String>
    requires giving { DoEdgesGive forest.now.face forest.now.forest }
{
    let leaf = leaf_from(alloc, leaf)?;
    if !is_plain_at(forest, root, field) {
        return refused(alloc);
    }
    match leaf_of(forest, root, field) {
        Some(_) => put_at(alloc, forest, root, field, leaf, wanted),
        None => bail!("no such field"),
    }
}

// A leaf is written as a variable.
fn leaf_from(alloc: Global, text: &str) -> Result<Target> {
    let forest = forest_of(alloc, text)?;
    let leaf = forest.vars.as_slice().first().context("no leaf")?;
    Ok(*leaf)
}

fn put_at(
    alloc: Global,
    forest: &Sound,
    root: u32,
    field: u32,
    leaf: Target,
    wanted: &[&str],
) -> Result<String>
    requires giving { DoEdgesGive forest.now.face forest.now.forest }
    requires at { IsPlainAt forest.now.face.shapes.structs forest.now.forest root field }
    requires has { HasPlace forest.now.forest root field }
{
    if !leaf_fits(forest, root, field, leaf) {
        return refused(alloc);
    }
    letter_of(alloc, with_leaf(alloc, forest, root, field, leaf)?, wanted)
}

// boxed-dated ROOT FIELD DATUM: which of the wanted forests that with the datum in the field is.
pub fn dated_letter(
    alloc: Global,
    forest: &Sound,
    root: u32,
    head: &str,
    wanted: &[&str],
) -> Result<String>
    requires { root < length forest.now.forest.autos }
{
    let field = number_at(head, 2)?;
    let number = word_at(head, 3)?.parse::<u8>()?;
    if !has_one_top(component(forest.forest(), root)) {
        return refused(alloc);
    }
    if number > 15 {
        bail!("no datum");
    }
    match datum_of(forest, root, field) {
        Some(_) => {
            let made = with_datum(alloc, forest, root, field, Datum::Known(number))?;
            letter_of(alloc, made, wanted)
        }
        None => bail!("no such field"),
    }
}

// boxed-added VARIABLE STRUCT: which of the wanted forests that with a new cell, at which the variable is, is.
pub fn added_letter(
    alloc: Global,
    forest: &Sound,
    to: u32,
    shape: u32,
    wanted: &[&str],
) -> Result<String> {
    if (to as usize) >= forest.forest().vars.len() {
        bail!("no such variable");
    }
    if (shape as usize) >= forest.face().shapes.structs.len() {
        bail!("no such struct");
    }
    letter_of(alloc, with_cell(alloc, forest, to, shape)?, wanted)
}
