// Parts of forests.

use anyhow::{Result, bail};
use fa_core::boxes::BoxDef;
use fa_core::table::BoxTable;
use fa_fold::is_within;
use fa_part::{is_site, part};
use fa_sound::Sound;
use row_forests::letter;
use row_kit::{number_at, said, word_at, yes_or_no};
use std::alloc::Global;

// Where an edge of a box could stand.
#[derive(Clone, Copy)]
pub struct Site {
    box_no: u32,
    input: u32,
    output: Option<u32>,
}

// part BOX INPUT OUTPUT: none, or the letter of the first wanted inside that the part's is like. The output is - where
// none is named.
pub fn part_letter(
    alloc: Global,
    forest: &Sound,
    table: &BoxTable,
    site: Site,
    wanted: &[&str],
) -> Result<String> {
    if !is_site(forest.forest(), table, site.box_no, site.input, site.output) {
        return said(alloc, "no such place");
    }
    match part(alloc, forest, table, site.box_no, site.input, site.output)? {
        None => said(alloc, "none"),
        Some(part) => letter_of(alloc, &part, table, site.box_no, wanted),
    }
}

// within BOX INPUT OUTPUT: yes or no.
pub fn within_answer(
    alloc: Global,
    forest: &Sound,
    table: &BoxTable,
    site: Site,
) -> Result<String> {
    if !is_site(forest.forest(), table, site.box_no, site.input, site.output) {
        return said(alloc, "no such place");
    }
    let is_so = is_within(alloc, forest, table, site.box_no, site.input, site.output)?;
    said(alloc, yes_or_no(is_so))
}

// A part has the name and face of its box.
fn letter_of(
    alloc: Global,
    part: &BoxDef,
    table: &BoxTable,
    box_no: u32,
    wanted: &[&str],
) -> Result<String> {
    if box_no >= table.len() {
        bail!("no such box");
    }
    let def = table.box_def(box_no);
    if part.name.as_slice() != def.name.as_slice() || part.face != def.face {
        bail!("another name or face");
    }
    let mut text = String::new(alloc);
    text.push(letter(alloc, &part.inside, wanted)?)?;
    Ok(text)
}

// The place that the head names.
pub fn site_of(head: &str) -> Result<Site> {
    let output = match word_at(head, 3)? {
        "-" => None,
        root => Some(root.parse::<u32>()?),
    };
    Ok(Site {
        box_no: number_at(head, 1)?,
        input: number_at(head, 2)?,
        output,
    })
}
