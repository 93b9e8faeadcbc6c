// A forest shown by its variables, and by what stands in the fields of its roots.
//
// For each root, behind a slash, the leaves of its first three pointer fields, and then its first three data; a full
// stop is a field that is not there.

ghost use Rattle.fore_base.specs.Lists.{Every};
ghost use Rattle.fa_core.specs.Boxless.{HasNoBoxes};

use anyhow::{Result, bail};
use fa_core::forest::Target;
use fa_edit::{datum_of, is_plain_at, leaf_of};
use fa_sound::{Sound, component, have_no_boxes};
use fore_base::store::Datum;
use row_forests::put_targets;
use std::alloc::Global;
use ta_core::single::has_one_top;

// The text of the forest.
pub fn shown(alloc: Global, forest: &Sound) -> Result<String> {
    let mut text = String::new(alloc);
    put_targets(&mut text, forest.forest().vars.as_slice())?;
    if !have_no_boxes(forest.forest().autos.as_slice()) {
        bail!("a box edge");
    }
    for (root, _) in (0..u32::MAX).zip(forest.forest().autos.as_slice()) {
        text.push_str(" / ")?;
        put_root(&mut text, forest, root)?;
    }
    Ok(text)
}

fn put_root(text: &mut String, forest: &Sound, root: u32) -> Result<()>
    requires plain { Every HasNoBoxes forest.now.forest.autos }
{
    for field in 0..3 {
        put_leaf(text, forest, root, field)?;
    }
    text.push(' ')?;
    for field in 0..3 {
        put_datum(text, forest, root, field)?;
    }
    Ok(())
}

fn put_leaf(text: &mut String, forest: &Sound, root: u32, field: u32) -> Result<()>
    requires plain { Every HasNoBoxes forest.now.forest.autos }
{
    if !is_plain_at(forest, root, field) {
        bail!("no one leaf");
    }
    match leaf_of(forest, root, field) {
        Some(Target::Null) => text.push('n')?,
        Some(Target::Uninit) => text.push('u')?,
        Some(Target::Dangling) => text.push('d')?,
        Some(Target::At(root)) => write!(text, "{root}")?,
        None => text.push('.')?,
    }
    Ok(())
}

fn put_datum(text: &mut String, forest: &Sound, root: u32, field: u32) -> Result<()>
    requires plain { Every HasNoBoxes forest.now.forest.autos }
{
    if (root as usize) >= forest.forest().autos.len() {
        bail!("no such root");
    }
    if !has_one_top(component(forest.forest(), root)) {
        bail!("no one rule");
    }
    match datum_of(forest, root, field) {
        Some(Datum::Undefined) => text.push('u')?,
        Some(Datum::Known(number)) => write!(text, "{number:x}")?,
        None => text.push('.')?,
    }
    Ok(())
}
