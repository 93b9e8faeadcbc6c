// Forests as texts, as they are read.

use anyhow::Result;
use fa_core::forest::{Forest, Target};
use fore_base::store::Datum;
use row_automata::{put_auto, put_datums, put_number};
use std::alloc::Global;

/// Adds the text of the forest.
///
/// # Errors
///
/// Want of memory.
pub fn put_forest(alloc: Global, text: &mut String, forest: &Forest) -> Result<()> {
    put_targets(text, forest.vars.as_slice())?;
    put_data(text, forest.data_vars.as_slice())?;
    for auto in forest.autos.as_slice() {
        text.push_str(" / ")?;
        put_auto(alloc, text, auto)?;
    }
    Ok(())
}

/// Adds the pointer variables.
///
/// # Errors
///
/// Want of memory.
pub fn put_targets(text: &mut String, targets: &[Target]) -> Result<()> {
    if targets.is_empty() {
        text.push('-')?;
    }
    for target in targets {
        put_target(text, *target)?;
    }
    Ok(())
}

fn put_target(text: &mut String, target: Target) -> Result<()> {
    match target {
        Target::Null => text.push('n')?,
        Target::Uninit => text.push('u')?,
        Target::Dangling => text.push('d')?,
        Target::At(root) => put_number(text, root)?,
    }
    Ok(())
}

/// Adds the data variables, where there are any, behind a blank.
///
/// # Errors
///
/// Want of memory.
pub fn put_data(text: &mut String, datums: &[Datum]) -> Result<()> {
    if !datums.is_empty() {
        text.push(' ')?;
    }
    put_datums(text, datums)
}
