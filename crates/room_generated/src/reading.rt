// Generated programs and boxes, read as files are.

use anyhow::{Context, Result};
use c_front::program_in;
use c_types::Typed;
use fa_text::read_boxes;
use fa_written::limits::TEXT_BYTES;
use fore_base::limits::FILE_BYTES;
use fore_gen::{dll_boxes, generate};
use fore_words::Kind;
use std::alloc::Global;

/// The program of so many phases, read; None where the front end refuses it.
fn program(alloc: Global, kind: Kind, phases: u32) -> Result<Option<Typed>> {
    let text = generate(alloc, kind, phases)?;
    let bytes = text.as_slice();
    if FILE_BYTES < bytes.len() {
        return Ok(None);
    }
    Ok(program_in(alloc, bytes).ok())
}

/// How many of the programs of one phase to `most` phases the front end takes.
pub fn accepted(alloc: Global, kind: Kind, most: u32) -> Result<u64> {
    let mut count: u64 = 0;
    for phases in 1..=most {
        if program(alloc, kind, phases)?.is_some() {
            count = count.saturating_add(1);
        }
    }
    Ok(count)
}

/// How many boxes the file of boxes has over the structs of the program.
pub fn boxes_read(alloc: Global, kind: Kind, phases: u32) -> Result<u64> {
    let program = program(alloc, kind, phases)?.context("a program that is refused")?;
    let boxes = dll_boxes();
    if TEXT_BYTES < boxes.len() {
        return Ok(0);
    }
    let table = read_boxes(alloc, boxes, &program.shapes)
        .ok()
        .context("boxes that are refused")?;
    Ok(u64::from(table.len()))
}
