// Roots that leak, that are dropped or merged, and that change places.

ghost use Rattle.std.specs.Prelude.{◌≡◌, ◌<◌, length, IfOk};
ghost use Rattle.fa_merge.specs.Merged.{CanMerge};

use anyhow::{Result, bail};
use fa_merge::{can_merge, drop_dead, is_idle, leaking_root, merge_root, reorder};
use fa_sound::Sound;
use fore_base::memory::Mem;
use row_forests::{letter, put_forest};
use row_kit::{number_at, said};
use std::alloc::Global;

// The order in which the first two roots have changed places.
const ORDER: &[u32] = &[1, 0];

// The root that is the first number of the head.
pub fn root_at(forest: &Sound, head: &str) -> Result<u32>
    ensures { IfOk result (λ root. root < length forest.now.forest.autos) }
{
    let root = number_at(head, 1)?;
    if (root as usize) >= forest.forest().autos.len() {
        bail!("no such root");
    }
    Ok(root)
}

// leaking: the least root that leaks.
pub fn leaking(alloc: Global, forest: &Sound) -> Result<String> {
    let root = leaking_root(alloc, forest)?;
    root_text(alloc, root)
}

fn root_text(alloc: Global, root: Option<u32>) -> Result<String> {
    match root {
        Some(root) => Ok(format!(in alloc; "{root}")?),
        None => said(alloc, "none"),
    }
}

// dropped ROOT: the forest without the root, where that is idle.
pub fn dropped(alloc: Global, forest: &Sound, root: u32) -> Result<String>
    requires { root < length forest.now.forest.autos }
{
    if is_idle(alloc, forest, root)? {
        shown(alloc, drop_dead(alloc, forest, root)?)
    } else {
        refused(alloc)
    }
}

// The text of the forest.
pub fn shown(alloc: Global, forest: Sound) -> Result<String> {
    let mut text = String::new(alloc);
    put_forest(alloc, &mut text, forest.forest())?;
    Ok(text)
}

// exchanged: the forest whose two roots have changed places.
pub fn exchanged(alloc: Global, forest: &Sound) -> Result<String> {
    if forest.forest().autos.len() != 2 {
        bail!("not two roots");
    }
    shown(alloc, exchange(alloc, forest)?)
}

fn exchange(alloc: Global, forest: &Sound) -> Mem<Sound>
    requires { length forest.now.forest.autos ≡ 2 }
{
    reorder(alloc, forest, ORDER)
}

// merged ROOT: which of the wanted forests that is in which the root is merged.
pub fn merged(alloc: Global, forest: &Sound, root: u32, wanted: &[&str]) -> Result<String>
    requires { root < length forest.now.forest.autos }
{
    let can = can_merge(alloc, forest, root)?;
    if can {
        merged_letter(alloc, forest, root, wanted)
    } else {
        refused(alloc)
    }
}

fn merged_letter(alloc: Global, forest: &Sound, root: u32, wanted: &[&str]) -> Result<String>
    requires { CanMerge forest.now.forest root }
{
    letter_of(alloc, merge_root(alloc, forest, root)?, wanted)
}

// The letter of the wanted forest that this is.
pub fn letter_of(alloc: Global, forest: Sound, wanted: &[&str]) -> Result<String> {
    let letter = letter(alloc, forest.forest(), wanted)?;
    Ok(format!(in alloc; "{letter}")?)
}

// The answer where what is asked for cannot be done.
pub fn refused(alloc: Global) -> Result<String> {
    said(alloc, "refused")
}
