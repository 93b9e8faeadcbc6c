//! Rows of folding: the part of a forest that an edge of a box can take the place of, whether it is within the box, all
//! folds of a forest, the canonical forms of the forest after them, and what an edge of these is unfolded into.
//!
//! Each row has a forest, the names of boxes (`files`), over whose faces it is, and wanted forests.
#![tactic(auto)]

ghost use Rattle.std.specs.Prelude.{◌≡◌};

mod canonizing;
mod files;
mod folding;
mod parts;

use crate::canonizing::{canonical_letters, unfolded_answer};
use crate::files::table_of;
use crate::folding::folds_answer;
use crate::parts::{part_letter, site_of, within_answer};
use anyhow::{Context, Result, bail};
use fa_core::table::BoxTable;
use fa_sound::Sound;
use row_forests::boxed_over;
use row_kit::{number_at, word_at};
use std::alloc::Global;
use std::thread::Threads;

/// The answer to a row of this head and these texts.
pub fn answer<R: Threads + Sync>(
    rt: &R,
    alloc: Global,
    head: &str,
    texts: &[&str],
) -> Result<String> {
    let (forest, rest) = texts.split_first().context("no forest")?;
    let (boxes, wanted) = rest.split_first().context("no boxes")?;
    let table = table_of(alloc, boxes)?;
    answer_over(rt, alloc, head, forest, &table, wanted)
}

fn answer_over<R: Threads + Sync>(
    rt: &R,
    alloc: Global,
    head: &str,
    text: &str,
    table: &BoxTable,
    wanted: &[&str],
) -> Result<String> {
    let forest = boxed_over(alloc, table.face(), text)?;
    answer_on(rt, alloc, head, &forest, table, wanted)
}

fn answer_on<R: Threads + Sync>(
    rt: &R,
    alloc: Global,
    head: &str,
    forest: &Sound,
    table: &BoxTable,
    wanted: &[&str],
) -> Result<String>
    requires { table.now.face ≡ forest.now.face }
{
    match word_at(head, 0)? {
        "part" => part_letter(alloc, forest, table, site_of(head)?, wanted),
        "within" => within_answer(alloc, forest, table, site_of(head)?),
        "fold" => folds_answer(alloc, forest, table, wanted),
        "canonical" => canonical_letters(rt, alloc, forest, table, wanted),
        "unfolded" => {
            let root = number_at(head, 1)?;
            let slot = number_at(head, 2)?;
            unfolded_answer(rt, alloc, forest, table, root, slot, wanted)
        }
        _ => bail!("no such kind"),
    }
}
