//! Rows of forests: merged, split, put in order, edited, and made canonical.
//!
//! A head is a kind and numbers; the first text is the forest (`given`), and the others are the wanted ones.
#![tactic(auto)]

ghost use Rattle.fa_order.specs.Placing.{DoEdgesGive};

mod canonizing;
mod editing;
mod given;
mod placing;
mod roots;
mod splitting;
mod turning;

use crate::canonizing::canonical_letters;
use crate::editing::{added_letter, dated_letter, leaf_text, set_letter};
use crate::given::forest_for;
use crate::placing::{decided, placed, reduced};
use crate::roots::{dropped, exchanged, leaking, merged, root_at};
use crate::splitting::{chosen_letters, lifted_letters, split_letters};
use anyhow::{Context, Result, bail};
use fa_sound::Sound;
use row_kit::{number_at, word_at};
use std::alloc::Global;
use std::thread::Threads;

/// The answer to a row of this head and these texts.
pub fn answer<R: Threads + Sync>(
    rt: &R,
    alloc: Global,
    head: &str,
    texts: &[&str],
) -> Result<String> {
    let (text, wanted) = texts.split_first().context("no forest")?;
    let forest = forest_for(alloc, head, text)?;
    answer_on(rt, alloc, head, &forest, wanted)
}

// The kinds without numbers. One that begins with `boxed-` asks the same of a forest that may have box edges.
fn answer_on<R: Threads + Sync>(
    rt: &R,
    alloc: Global,
    head: &str,
    forest: &Sound,
    wanted: &[&str],
) -> Result<String>
    requires { DoEdgesGive forest.now.face forest.now.forest }
{
    let head = head.strip_prefix("boxed-").unwrap_or(head);
    match head {
        "canonical" | "turned" => canonical_letters(rt, alloc, forest, wanted),
        "canonical?" => decided(alloc, forest),
        "reduced" => reduced(rt, alloc, forest),
        "placed" => placed(alloc, forest),
        "leaking" => leaking(alloc, forest),
        "exchanged" => exchanged(alloc, forest),
        _ => answer_at(alloc, head, forest, wanted),
    }
}

// The kinds that have a root.
fn answer_at(alloc: Global, head: &str, forest: &Sound, wanted: &[&str]) -> Result<String>
    requires { DoEdgesGive forest.now.face forest.now.forest }
{
    match word_at(head, 0)? {
        "dropped" => dropped(alloc, forest, root_at(forest, head)?),
        "merged" => merged(alloc, forest, root_at(forest, head)?, wanted),
        "chosen" => chosen_letters(alloc, forest, root_at(forest, head)?, wanted),
        "dated" => dated_letter(alloc, forest, root_at(forest, head)?, head, wanted),
        _ => answer_in(alloc, head, forest, wanted),
    }
}

// The kinds that have a second number.
fn answer_in(alloc: Global, head: &str, forest: &Sound, wanted: &[&str]) -> Result<String>
    requires { DoEdgesGive forest.now.face forest.now.forest }
{
    let root = number_at(head, 1)?;
    let field = number_at(head, 2)?;
    match word_at(head, 0)? {
        "lifted" => lifted_letters(alloc, forest, root, field, wanted),
        "split" => split_letters(alloc, forest, root, field, wanted),
        "leaf" => leaf_text(alloc, forest, root, field),
        "set" => set_letter(alloc, forest, root, field, word_at(head, 3)?, wanted),
        "added" => added_letter(alloc, forest, root, field, wanted),
        _ => bail!("no such kind"),
    }
}
