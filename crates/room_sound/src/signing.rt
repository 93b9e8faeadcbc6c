// What a sound forest keeps: the signature of each state, and its face; and the same in a copy.
//
// A signature is the letter of each root to which the trees of the state refer, in the order of first visit, with *
// where they do so twice; a full stop is the empty one. Behind a letter stand, between brackets, the fields that box
// edges give there, then < where a way to it leads back from the top, and then, between square brackets, the roots to
// which its ways back lead. The states of a component stand with a blank between.

use anyhow::{Context, Result};
use fa_core::signature::{RefMark, Signature};
use fa_sound::Sound;
use fore_base::shape::{FieldDef, FieldKind, Shape};
use row_forests::{put_forest, put_number, put_numbers, put_symbol, sound};
use std::alloc::Global;
use ta_core::symbol::Symbol;

// signatures: those of all states.
pub fn signatures(alloc: Global, text: &str) -> Result<String> {
    let forest = sound(alloc, text)?;
    signatures_text(alloc, &forest)
}

/// The signatures of all states.
pub fn signatures_text(alloc: Global, forest: &Sound) -> Result<String> {
    let mut text = String::new(alloc);
    put_signatures(alloc, &mut text, forest)?;
    Ok(text)
}

// copied: the forest of a copy, its signatures, and the fields of its structs: a number is a pointer to the struct of
// this number, and a full stop a datum.
pub fn copied(alloc: Global, text: &str) -> Result<String> {
    let copy = copy_of(alloc, text)?;
    shown(alloc, &copy)
}

fn copy_of(alloc: Global, text: &str) -> Result<Sound> {
    let forest = sound(alloc, text)?;
    Ok(forest.copy(alloc)?)
}

fn shown(alloc: Global, copy: &Sound) -> Result<String> {
    let mut text = String::new(alloc);
    put_forest(alloc, &mut text, copy.forest())?;
    text.push_str("; ")?;
    put_signatures(alloc, &mut text, copy)?;
    text.push_str("; structs")?;
    put_structs(&mut text, copy.face().shapes.structs.as_slice())?;
    Ok(text)
}

fn put_signatures(alloc: Global, text: &mut String, forest: &Sound) -> Result<()> {
    for (root, auto) in (0..u32::MAX).zip(forest.forest().autos.as_slice()) {
        if root > 0 {
            text.push_str(" / ")?;
        }
        put_states(alloc, text, forest, root, auto.states)?;
    }
    Ok(())
}

fn put_states(
    alloc: Global,
    text: &mut String,
    forest: &Sound,
    root: u32,
    states: u32,
) -> Result<()> {
    for state in 0..states {
        if state > 0 {
            text.push(' ')?;
        }
        let signature = signature_at(forest, root, state).context("no such state")?;
        put_signature(alloc, text, signature)?;
    }
    Ok(())
}

fn signature_at(forest: &Sound, root: u32, state: u32) -> Option<&Signature> {
    match forest.forest().autos.get(root as usize) {
        Some(auto) if state < auto.states => Some(forest.signature(root, state)),
        _ => None,
    }
}

fn put_signature(alloc: Global, text: &mut String, signature: &Signature) -> Result<()> {
    if signature.refs.is_empty() {
        text.push('.')?;
    }
    for mark in signature.refs.as_slice() {
        put_mark(alloc, text, mark)?;
    }
    Ok(())
}

fn put_mark(alloc: Global, text: &mut String, mark: &RefMark) -> Result<()> {
    put_root(alloc, text, mark.root)?;
    if mark.many {
        text.push('*')?;
    }
    if !mark.provided.is_empty() {
        text.push('(')?;
        put_numbers(text, mark.provided.as_slice())?;
        text.push(')')?;
    }
    if mark.back {
        text.push('<')?;
    }
    put_reach(alloc, text, mark.reach.as_slice())
}

fn put_reach(alloc: Global, text: &mut String, reach: &[u32]) -> Result<()> {
    if reach.is_empty() {
        return Ok(());
    }
    text.push('[')?;
    for root in reach {
        put_root(alloc, text, *root)?;
    }
    text.push(']')?;
    Ok(())
}

fn put_root(alloc: Global, text: &mut String, root: u32) -> Result<()> {
    put_symbol(alloc, text, &Symbol::Ref(root))
}

fn put_structs(text: &mut String, structs: &[Shape]) -> Result<()> {
    for shape in structs {
        text.push(' ')?;
        put_fields(text, shape.fields.as_slice())?;
    }
    Ok(())
}

fn put_fields(text: &mut String, fields: &[FieldDef]) -> Result<()> {
    for field in fields {
        put_kind(text, field.kind)?;
    }
    Ok(())
}

fn put_kind(text: &mut String, kind: FieldKind) -> Result<()> {
    match kind {
        FieldKind::Pointer(target) => put_number(text, target)?,
        FieldKind::Datum => text.push('.')?,
    }
    Ok(())
}
