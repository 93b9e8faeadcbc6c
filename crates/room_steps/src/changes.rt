// Changes of a forest, written as short texts.
//
// `cell 0 1` is a new cell of struct 1, at which the variable 0 is, as a last root; `leaf 0 1 n` puts a leaf into the
// pointer field 1 of root 0, n, u, d or the number of a root; `datum 0 1 15` puts a number into a data field; `bare`
// takes the variables away.

use anyhow::{Context, Result, bail};
use fa_core::forest::Target;

// One change, with the numbers in the order of the text.
#[derive(Clone, Copy)]
pub enum Change {
    Cell(u32, u32),
    Leaf(u32, u32, Target),
    Datum(u32, u32, u8),
    Bare,
}

// The change of the text.
pub fn change_of(text: &str) -> Result<Change> {
    if text == "bare" {
        return Ok(Change::Bare);
    }
    let (kind, numbers) = text.split_once(' ').context("no numbers")?;
    let (first, rest) = numbers.split_once(' ').context("one number alone")?;
    let first = first.parse::<u32>()?;
    match kind {
        "cell" => Ok(Change::Cell(first, rest.parse::<u32>()?)),
        "leaf" => leaf(first, rest),
        "datum" => datum(first, rest),
        _ => bail!("no such change"),
    }
}

fn leaf(root: u32, rest: &str) -> Result<Change> {
    let (field, leaf) = rest.split_once(' ').context("no leaf")?;
    Ok(Change::Leaf(root, field.parse::<u32>()?, target(leaf)?))
}

fn target(text: &str) -> Result<Target> {
    match text {
        "n" => Ok(Target::Null),
        "u" => Ok(Target::Uninit),
        "d" => Ok(Target::Dangling),
        _ => Ok(Target::At(text.parse::<u32>()?)),
    }
}

fn datum(root: u32, rest: &str) -> Result<Change> {
    let (field, number) = rest.split_once(' ').context("no number")?;
    Ok(Change::Datum(root, field.parse::<u32>()?, number.parse::<u8>()?))
}
