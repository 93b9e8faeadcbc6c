// edit: a forest without cells and with two null variables, changed step by step.
//
// The changes stand with `, ` between. Struct 0 has a pointer to itself, two data and a pointer to struct 1, which
// has no fields.

ghost use Rattle.fore_base.specs.Lists.{Every};
ghost use Rattle.fa_core.specs.Boxless.{HasNoBoxes};
ghost use Rattle.fa_edit.specs.Plain.{HasPlace, IsPlainAt};

use crate::changes::{Change, change_of};
use crate::showing::shown;
use anyhow::{Context, Result, bail};
use fa_core::forest::{Forest, Target};
use fa_edit::{
    datum_of, is_plain_at, leaf_fits, leaf_of, with_cell, with_datum, with_leaf, with_vars,
};
use fa_sound::{Sound, component, have_no_boxes};
use fore_base::list::List;
use fore_base::shape::FieldKind;
use fore_base::store::Datum;
use row_forests::{face_of, sound_from};
use std::alloc::Global;
use ta_core::single::has_one_top;

const STRUCTS: &[&[FieldKind]] = &[
    &[
        FieldKind::Pointer(0),
        FieldKind::Datum,
        FieldKind::Datum,
        FieldKind::Pointer(1),
    ],
    &[],
];

// The forest after the changes, or that one of them does not fit.
pub fn edit(alloc: Global, texts: &[&str]) -> Result<String> {
    let changes = texts.first().context("no changes")?;
    match edited(alloc, changes)? {
        Some(forest) => shown(alloc, &forest),
        None => Ok(String::from_str(alloc, "does not fit")?),
    }
}

// The forest after the changes, None where a leaf does not fit.
fn edited(alloc: Global, changes: &str) -> Result<Option<Sound>> {
    let mut forest = Some(empty(alloc)?);
    for text in changes.split(", ") {
        forest = next(alloc, forest, text)?;
    }
    Ok(forest)
}

fn next(alloc: Global, forest: Option<Sound>, text: &str) -> Result<Option<Sound>> {
    match forest {
        Some(forest) => changed_by(alloc, &forest, text),
        None => Ok(None),
    }
}

fn changed_by(alloc: Global, forest: &Sound, text: &str) -> Result<Option<Sound>> {
    let change = change_of(text)?;
    changed(alloc, forest, change)
}

fn empty(alloc: Global) -> Result<Sound> {
    let vars = List::filled(alloc, Target::Null, 2)?;
    let forest = Forest {
        autos: List::new(alloc),
        vars,
        data_vars: List::new(alloc),
    };
    over_structs(alloc, &forest)
}

fn over_structs(alloc: Global, forest: &Forest) -> Result<Sound> {
    let face = face_of(alloc, STRUCTS)?;
    sound_from(alloc, &face, forest)
}

// The forest after the change, None where a leaf does not fit.
fn changed(alloc: Global, forest: &Sound, change: Change) -> Result<Option<Sound>> {
    if !have_no_boxes(forest.forest().autos.as_slice()) {
        bail!("a box edge");
    }
    match change {
        Change::Cell(to, shape) => Ok(Some(celled(alloc, forest, to, shape)?)),
        Change::Leaf(root, field, leaf) => leafed(alloc, forest, root, field, leaf),
        Change::Datum(root, field, number) => Ok(Some(dated(alloc, forest, root, field, number)?)),
        Change::Bare => Ok(Some(bare(alloc, forest)?)),
    }
}

fn celled(alloc: Global, forest: &Sound, to: u32, shape: u32) -> Result<Sound>
    requires plain { Every HasNoBoxes forest.now.forest.autos }
{
    if (to as usize) >= forest.forest().vars.len() {
        bail!("no such variable");
    }
    if (shape as usize) >= forest.face().shapes.structs.len() {
        bail!("no such struct");
    }
    Ok(with_cell(alloc, forest, to, shape)?)
}

fn leafed(
    alloc: Global,
    forest: &Sound,
    root: u32,
    field: u32,
    leaf: Target,
) -> Result<Option<Sound>>
    requires plain { Every HasNoBoxes forest.now.forest.autos }
{
    if !is_plain_at(forest, root, field) {
        bail!("no one leaf");
    }
    match leaf_of(forest, root, field) {
        Some(_) => fitted(alloc, forest, root, field, leaf),
        None => bail!("no such field"),
    }
}

fn fitted(
    alloc: Global,
    forest: &Sound,
    root: u32,
    field: u32,
    leaf: Target,
) -> Result<Option<Sound>>
    requires plain { Every HasNoBoxes forest.now.forest.autos }
    requires at { IsPlainAt forest.now.face.shapes.structs forest.now.forest root field }
    requires has { HasPlace forest.now.forest root field }
{
    if !leaf_fits(forest, root, field, leaf) {
        return Ok(None);
    }
    Ok(Some(with_leaf(alloc, forest, root, field, leaf)?))
}

fn dated(alloc: Global, forest: &Sound, root: u32, field: u32, number: u8) -> Result<Sound>
    requires plain { Every HasNoBoxes forest.now.forest.autos }
{
    if (root as usize) >= forest.forest().autos.len() {
        bail!("no such root");
    }
    if !has_one_top(component(forest.forest(), root)) {
        bail!("no one rule");
    }
    if number > 15 {
        bail!("no datum");
    }
    match datum_of(forest, root, field) {
        Some(_) => Ok(with_datum(alloc, forest, root, field, Datum::Known(number))?),
        None => bail!("no such field"),
    }
}

fn bare(alloc: Global, forest: &Sound) -> Result<Sound>
    requires plain { Every HasNoBoxes forest.now.forest.autos }
{
    let vars = List::new(alloc);
    let data_vars = List::new(alloc);
    Ok(with_vars(alloc, forest, vars, data_vars)?)
}
