//! Rows of files of boxes.
#![tactic(auto)]

mod printing;
mod structs;
mod tables;

use crate::structs::shapes_of;
use crate::tables::put_table;
use anyhow::{Context, Result, bail};
use fa_written::limits::TEXT_BYTES;
use fore_base::shape::Shapes;
use fore_base::text::Text;
use row_texts::{read_text, shown};
use std::alloc::Global;

/// The answer to a row of this head and these texts.
pub fn answer(alloc: Global, head: &str, texts: &[&str]) -> Result<String> {
    let row = texts.first().context("no text")?;
    let shapes = match head {
        "boxes" => shapes_of(alloc, "node(next:node,prev:node)")?,
        "over" => shapes_of(alloc, texts.get(1).context("no structs")?)?,
        _ => bail!("no such kind"),
    };
    answered(alloc, row, &shapes)
}

fn answered(alloc: Global, row: &str, shapes: &Shapes) -> Result<String> {
    let text = read_text(alloc, row)?;
    if text.len() > TEXT_BYTES {
        bail!("too long");
    }
    let mut out = Text::new(alloc);
    put_table(alloc, &mut out, text.as_slice(), shapes)?;
    shown(alloc, &out)
}
