// All folds of a forest.

ghost use Rattle.std.specs.Prelude.{◌≡◌};

use anyhow::Result;
use fa_core::folds::FoldStep;
use fa_core::table::BoxTable;
use fa_fold::fold_all;
use fa_sound::Sound;
use row_forests::{letter, put_number};
use std::alloc::Global;

// fold: the folds in their order, each with its box, input and output, and the letter of the first wanted forest that
// the forest after them is like.
pub fn folds_answer(
    alloc: Global,
    forest: &Sound,
    table: &BoxTable,
    wanted: &[&str],
) -> Result<String>
    requires { table.now.face ≡ forest.now.face }
{
    let (folded, steps) = fold_all(alloc, forest, table)?;
    let mut text = String::new(alloc);
    for step in steps.as_slice() {
        put_step(&mut text, step)?;
    }
    text.push(letter(alloc, folded.forest(), wanted)?)?;
    Ok(text)
}

fn put_step(text: &mut String, step: &FoldStep) -> Result<()> {
    put_number(text, step.box_no)?;
    text.push(' ')?;
    put_number(text, step.input)?;
    text.push(' ')?;
    match step.output {
        None => text.push('-')?,
        Some(root) => put_number(text, root)?,
    }
    text.push_str(", ")?;
    Ok(())
}
