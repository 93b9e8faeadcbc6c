// Rows whose second text names the boxes, which `files` has, over whose faces the forest is.

ghost use Rattle.std.specs.Prelude.{◌≡◌};

use crate::files::file_of;
use crate::judging::word_on;
use crate::opening::opened;
use crate::parting::letters_over;
use crate::sampling::member_text;
use crate::signing::signatures_text;
use anyhow::{Context, Result, bail};
use fa_core::table::BoxTable;
use fa_order::{has_root_kinds, is_canonical};
use fa_sample::sample;
use fa_sound::Sound;
use row_boxes::{table_from, unfolded_letters};
use row_forests::{boxed_over, forest_of};
use row_kit::{number_at, word_at, yes_or_no};
use std::alloc::Global;

// The answer to a row of this head. The first of the texts names the boxes.
pub fn boxed_answer(alloc: Global, head: &str, forest: &str, texts: &[&str]) -> Result<String> {
    let (boxes, wanted) = texts.split_first().context("no boxes")?;
    let table = table_of(alloc, boxes)?;
    answer_over(alloc, head, forest, &table, wanted)
}

fn answer_over(
    alloc: Global,
    head: &str,
    text: &str,
    table: &BoxTable,
    wanted: &[&str],
) -> Result<String> {
    match head {
        "boxed?" => judged(alloc, text, table),
        "boxed-parts" => letters_over(alloc, text, table.face(), wanted),
        _ => answer_sound(alloc, head, text, table, wanted),
    }
}

// boxed?: whether the forest is sound.
fn judged(alloc: Global, text: &str, table: &BoxTable) -> Result<String> {
    let forest = forest_of(alloc, text)?;
    word_on(alloc, &forest, table.face())
}

fn answer_sound(
    alloc: Global,
    head: &str,
    text: &str,
    table: &BoxTable,
    wanted: &[&str],
) -> Result<String> {
    let forest = boxed_over(alloc, table.face(), text)?;
    answer_on(alloc, head, &forest, table, wanted)
}

// The kinds on a sound forest.
fn answer_on(
    alloc: Global,
    head: &str,
    forest: &Sound,
    table: &BoxTable,
    wanted: &[&str],
) -> Result<String>
    requires { table.now.face ≡ forest.now.face }
{
    match head {
        "member" => member_text(alloc, forest, table),
        "cells" => count(alloc, forest, table),
        "boxed-signatures" => signatures_text(alloc, forest),
        "boxed-canonical?" => canonical(alloc, forest),
        _ => answer_at(alloc, head, forest, table, wanted),
    }
}

// The kinds that have a root and a second number.
fn answer_at(
    alloc: Global,
    head: &str,
    forest: &Sound,
    table: &BoxTable,
    wanted: &[&str],
) -> Result<String>
    requires { table.now.face ≡ forest.now.face }
{
    let root = number_at(head, 1)?;
    let number = number_at(head, 2)?;
    match word_at(head, 0)? {
        "unfolded" => unfolded_letters(alloc, forest, table, root, number, wanted),
        "opened" => opened(alloc, forest, table, root, number, wanted),
        _ => bail!("no such kind"),
    }
}

// cells: how many cells a member of the forest has.
fn count(alloc: Global, forest: &Sound, table: &BoxTable) -> Result<String>
    requires { table.now.face ≡ forest.now.face }
{
    let cells = cells_of(alloc, forest, table)?;
    Ok(format!(in alloc; "{cells}")?)
}

fn cells_of(alloc: Global, forest: &Sound, table: &BoxTable) -> Result<usize>
    requires { table.now.face ≡ forest.now.face }
{
    let store = sample(alloc, forest, table)?;
    Ok(store.cells.len())
}

// boxed-canonical?: whether the roots are those of a canonical forest, and whether the forest is canonical.
fn canonical(alloc: Global, forest: &Sound) -> Result<String> {
    let is_rooted = yes_or_no(has_root_kinds(alloc, forest)?);
    let is_canonical = yes_or_no(is_canonical(alloc, forest)?);
    Ok(format!(in alloc; "{is_rooted} {is_canonical}")?)
}

// The table of the boxes of these names.
fn table_of(alloc: Global, names: &str) -> Result<BoxTable> {
    let text = file_of(alloc, names)?;
    table_from(alloc, text.as_slice())
}
