// Automata cut by signature.

use anyhow::{Context, Result};
use fa_signatures::cut_auto;
use fore_base::list::List;
use row_forests::{auto_letters, auto_of};
use std::alloc::Global;
use ta_core::auto::Auto;

// cut: which of the wanted automata the pieces of the automaton are.
pub fn cut_letters(alloc: Global, text: &str, wanted: &[&str]) -> Result<String> {
    let mut autos = List::new(alloc);
    autos.push(auto_of(alloc, text)?)?;
    let pieces = cut_first(alloc, autos.as_slice())?;
    auto_letters(alloc, pieces.as_slice(), wanted)
}

fn cut_first(alloc: Global, autos: &[Auto]) -> Result<List<Auto>> {
    let auto = autos.first().context("no automaton")?;
    Ok(cut_auto(alloc, &[], auto)?)
}
