// Symbols as letters.
//
// Beside the letters of the crate's first page, p, q and v are a cell of struct 0 with the datum 1, 2 and undefined,
// w one of struct 1 with the datum 1, and these are cells of struct 0 with two slots, a field, a box with an output
// (link) or one without (hook): h both hooks of box 0, i hooks of the boxes 0 and 1, j a hook and a link of box 0, k
// a field and a hook of box 0, l a link of box 0 and a field, r a link of box 0 and a hook of box 1, s a field and a
// hook of box 1, t a link and a hook of box 1.

use crate::digits::{datums, digit, put_datums, put_number};
use anyhow::{Context, Result, bail};
use fore_base::list::List;
use fore_base::store::Datum;
use std::alloc::Global;
use ta_core::symbol::{Slot, Symbol};

// The letters of cells.
const CELLS: &[u8] = b"nfxyzpqvwhijklrst";

const FIELD: Slot = Slot::Field(0);

/// The symbol of the letter.
///
/// # Errors
///
/// A letter that is no symbol, and want of memory.
pub fn symbol_of(alloc: Global, letter: u8) -> Result<Symbol> {
    match letter {
        b'a' => Ok(Symbol::Null),
        b'u' => Ok(Symbol::Uninit),
        b'd' => Ok(Symbol::Dangling),
        b'A'..=b'Z' => Ok(Symbol::Ref((letter - b'A') as u32)),
        _ => cell_of(alloc, letter),
    }
}

fn cell_of(alloc: Global, letter: u8) -> Result<Symbol> {
    match letter {
        b'n' => cell(alloc, 0, &[], &[FIELD]),
        b'f' => cell(alloc, 1, &[], &[FIELD, Slot::Field(1)]),
        b'x' => cell(alloc, 2, &[Datum::Undefined], &[FIELD]),
        b'y' => cell(alloc, 2, &[Datum::Known(1)], &[FIELD]),
        b'z' => cell(alloc, 2, &[Datum::Known(2)], &[FIELD]),
        b'p' => cell(alloc, 0, &[Datum::Known(1)], &[]),
        b'q' => cell(alloc, 0, &[Datum::Known(2)], &[]),
        b'v' => cell(alloc, 0, &[Datum::Undefined], &[]),
        b'w' => cell(alloc, 1, &[Datum::Known(1)], &[]),
        _ => slots_of(alloc, letter),
    }
}

fn slots_of(alloc: Global, letter: u8) -> Result<Symbol> {
    match letter {
        b'h' => cell(alloc, 0, &[], &[Slot::Hook(0), Slot::Hook(0)]),
        b'i' => cell(alloc, 0, &[], &[Slot::Hook(0), Slot::Hook(1)]),
        b'j' => cell(alloc, 0, &[], &[Slot::Hook(0), Slot::Link(0)]),
        b'k' => cell(alloc, 0, &[], &[FIELD, Slot::Hook(0)]),
        b'l' => cell(alloc, 0, &[], &[Slot::Link(0), FIELD]),
        b'r' => cell(alloc, 0, &[], &[Slot::Link(0), Slot::Hook(1)]),
        b's' => cell(alloc, 0, &[], &[FIELD, Slot::Hook(1)]),
        b't' => cell(alloc, 0, &[], &[Slot::Link(1), Slot::Hook(1)]),
        _ => bail!("no such symbol"),
    }
}

fn cell(alloc: Global, shape: u32, datums: &[Datum], slots: &[Slot]) -> Result<Symbol> {
    let datums = List::from_slice(alloc, datums)?;
    let slots = List::from_slice(alloc, slots)?;
    Ok(Symbol::Cell {
        shape,
        datums,
        slots,
    })
}

/// The symbol of a cell that is spelled out: its struct, its data and its slots, with a colon between. A slot is the
/// digit of a field, or a box behind l, for one with an output, or behind h, for one without: a digit, or a letter for
/// a number from 10 on.
///
/// # Errors
///
/// A text that cannot be read, and want of memory.
pub fn spelled_symbol(alloc: Global, text: &str) -> Result<Symbol> {
    let (shape, rest) = text.split_once(':').context("no data")?;
    let (data, slots) = rest.split_once(':').context("no slots")?;
    let shape = shape.as_bytes().first().context("no struct")?;
    let shape = digit(*shape).context("a struct is no digit")?;
    let datums = datums(alloc, data.as_bytes())?;
    let slots = spelled_slots(alloc, slots.as_bytes())?;
    Ok(Symbol::Cell {
        shape,
        datums,
        slots,
    })
}

fn spelled_slots(alloc: Global, text: &[u8]) -> Result<List<Slot>> {
    let mut slots: List<Slot> = List::new(alloc);
    let mut kind = None;
    for byte in text {
        match kind {
            Some(letter) => {
                slots.push(box_slot(letter, *byte)?)?;
                kind = None;
            }
            None => match digit(*byte) {
                Some(field) => slots.push(Slot::Field(field))?,
                None => kind = Some(*byte),
            },
        }
    }
    Ok(slots)
}

fn box_slot(letter: u8, number: u8) -> Result<Slot> {
    let number = long_digit(number).context("no number of a box")?;
    match letter {
        b'l' => Ok(Slot::Link(number)),
        b'h' => Ok(Slot::Hook(number)),
        _ => bail!("no such slot"),
    }
}

// The number of a digit, or of a letter from 10 on.
fn long_digit(byte: u8) -> Option<u32> {
    match byte {
        b'a'..=b'z' => Some((byte - b'a' + 10) as u32),
        _ => digit(byte),
    }
}

/// Adds the letter of the symbol. A cell that has no letter is spelled out between brackets.
///
/// # Errors
///
/// Want of memory.
pub fn put_symbol(alloc: Global, text: &mut String, symbol: &Symbol) -> Result<()> {
    match symbol {
        Symbol::Null => text.push('a')?,
        Symbol::Uninit => text.push('u')?,
        Symbol::Dangling => text.push('d')?,
        Symbol::Ref(root) => put_reference(text, *root)?,
        Symbol::Cell {
            shape,
            datums,
            slots,
        } => {
            if !put_letter(alloc, text, symbol)? {
                put_spelled(text, *shape, datums.as_slice(), slots.as_slice())?;
            }
        }
    }
    Ok(())
}

fn put_reference(text: &mut String, root: u32) -> Result<()> {
    if root < 26 {
        text.push((b'A' + root as u8) as char)?;
    } else {
        write!(text, "[root {root}]")?;
    }
    Ok(())
}

// Adds the letter of the cell, if it has one.
fn put_letter(alloc: Global, text: &mut String, symbol: &Symbol) -> Result<bool> {
    for letter in CELLS {
        if is_cell(alloc, *letter, symbol)? {
            text.push(*letter as char)?;
            return Ok(true);
        }
    }
    Ok(false)
}

fn is_cell(alloc: Global, letter: u8, symbol: &Symbol) -> Result<bool> {
    let cell = cell_of(alloc, letter)?;
    Ok(cell.is_same(symbol))
}

fn put_spelled(text: &mut String, shape: u32, datums: &[Datum], slots: &[Slot]) -> Result<()> {
    text.push('[')?;
    put_number(text, shape)?;
    text.push(':')?;
    put_datums(text, datums)?;
    text.push(':')?;
    for slot in slots {
        put_slot(text, *slot)?;
    }
    text.push(']')?;
    Ok(())
}

fn put_slot(text: &mut String, slot: Slot) -> Result<()> {
    match slot {
        Slot::Field(field) => put_number(text, field)?,
        Slot::Link(number) => put_box(text, 'l', number)?,
        Slot::Hook(number) => put_box(text, 'h', number)?,
    }
    Ok(())
}

fn put_box(text: &mut String, kind: char, number: u32) -> Result<()> {
    text.push(kind)?;
    match number {
        10..=35 => text.push((b'a' + (number - 10) as u8) as char)?,
        _ => put_number(text, number)?,
    }
    Ok(())
}
