// Automata as texts, as they are read.

use crate::digits::{put_number, put_numbers};
use crate::symbols::put_symbol;
use anyhow::Result;
use std::alloc::Global;
use ta_core::auto::{Auto, Rule};

/// The text of the automaton.
///
/// # Errors
///
/// Want of memory.
pub fn text_of_auto(alloc: Global, auto: &Auto) -> Result<String> {
    let mut text = String::new(alloc);
    put_auto(alloc, &mut text, auto)?;
    Ok(text)
}

/// Adds the text of the automaton.
///
/// # Errors
///
/// Want of memory.
pub fn put_auto(alloc: Global, text: &mut String, auto: &Auto) -> Result<()> {
    put_number(text, auto.states)?;
    put_numbers(text, auto.roots.as_slice())?;
    for rule in auto.rules.as_slice() {
        put_rule(alloc, text, rule)?;
    }
    Ok(())
}

fn put_rule(alloc: Global, text: &mut String, rule: &Rule) -> Result<()> {
    text.push(' ')?;
    put_number(text, rule.state)?;
    put_symbol(alloc, text, &rule.symbol)?;
    put_numbers(text, rule.children.as_slice())
}
