// Edges, written as short texts.
//
// p0 is the pointer variable 0, d0 the data variable 0, p0->1 the field 1 at the cell of p0; fields are numbered by
// their kind, pointers and data apart. An edge
// - writes a pointer variable: `p0 = p1`, `p0 = null`, `p0 = p1->0`, `p0 = new 2` (a cell of struct 2);
// - writes a data variable: `d0 = d1`, `d0 = 7`, `d0 = p0->0`, `d0 = choose 1`;
// - writes a field: `p0->0 = p1`, `p0->0 = null`, `p0->0 = d0`, `p0->0 = 7`;
// - tests: `p0 == p1`, `null != p0`, `d0 == 7`;
// - or does what its first word says: `free p0`, `kill p0 p1 d0`, `choose 1`, `fail` (an assertion), `exit`.
// An edge of a `malloc` that may fail has its choice behind it: `p0 = null on 0`, `p0 = new 2 on 1`.

use anyhow::{Context, Result, bail};
use c_cfg::graph::{Const, DataArg, Edge, Instr, PtrArg};
use fore_base::list::List;
use std::alloc::Global;

// What stands on either side of an edge.
#[derive(Clone, Copy)]
enum Operand {
    Null,
    Number(u8),
    Pointer(u32),
    Datum(u32),
    // The pointer variable, and the field at its cell.
    Field(u32, u32),
    // A new cell of this struct.
    Cell(u32),
    Chosen,
}

// The edge of the text, between these locations.
pub fn edge(alloc: Global, from: u32, to: u32, text: &str) -> Result<Edge> {
    let (what, choice) = taken_on(text)?;
    let instr = instr(alloc, what)?;
    Ok(Edge {
        from,
        to,
        instr,
        choice,
        line: 1,
    })
}

// What the edge does, and its choice.
fn taken_on(text: &str) -> Result<(&str, Option<u8>)> {
    if let Some((what, number)) = text.split_once(" on ") {
        return Ok((what, Some(number.parse::<u8>()?)));
    }
    match text.split_once("choose ") {
        Some((_, number)) => Ok((text, Some(number.parse::<u8>()?))),
        None => Ok((text, None)),
    }
}

fn instr(alloc: Global, text: &str) -> Result<Instr> {
    if let Some((to, from)) = text.split_once(" = ") {
        return written(operand_of(to)?, operand_of(from)?);
    }
    if let Some((left, right)) = text.split_once(" == ") {
        return tested(operand_of(left)?, operand_of(right)?, true);
    }
    if let Some((left, right)) = text.split_once(" != ") {
        return tested(operand_of(left)?, operand_of(right)?, false);
    }
    named(alloc, text)
}

fn operand_of(text: &str) -> Result<Operand> {
    match text.split_once("->") {
        Some((cell, field)) => Ok(Operand::Field(pointer(cell)?, field.parse::<u32>()?)),
        None => plain(text),
    }
}

fn plain(text: &str) -> Result<Operand> {
    if text == "null" {
        return Ok(Operand::Null);
    }
    if text.starts_with("choose ") {
        return Ok(Operand::Chosen);
    }
    if let Some(shape) = text.strip_prefix("new ") {
        return Ok(Operand::Cell(shape.parse::<u32>()?));
    }
    variable(text)
}

fn variable(text: &str) -> Result<Operand> {
    if let Some(number) = text.strip_prefix('p') {
        return Ok(Operand::Pointer(number.parse::<u32>()?));
    }
    match text.strip_prefix('d') {
        Some(number) => Ok(Operand::Datum(number.parse::<u32>()?)),
        None => Ok(Operand::Number(text.parse::<u8>()?)),
    }
}

fn written(to: Operand, from: Operand) -> Result<Instr> {
    match to {
        Operand::Pointer(to) => into_pointer(to, from),
        Operand::Datum(to) => into_datum(to, from),
        Operand::Field(to, field) => into_field(to, field, from),
        _ => bail!("nothing to write to"),
    }
}

fn into_pointer(to: u32, from: Operand) -> Result<Instr> {
    match from {
        Operand::Null => Ok(Instr::CopyPtr {
            to,
            from: PtrArg::Null,
        }),
        Operand::Pointer(from) => Ok(Instr::CopyPtr {
            to,
            from: PtrArg::Var(from),
        }),
        Operand::Field(from, field) => Ok(Instr::LoadPtr { to, from, field }),
        Operand::Cell(shape) => Ok(Instr::New { to, shape }),
        _ => bail!("no pointer"),
    }
}

fn into_datum(to: u32, from: Operand) -> Result<Instr> {
    match from {
        Operand::Number(number) => Ok(Instr::CopyData {
            to,
            from: DataArg::Known(number),
        }),
        Operand::Datum(from) => Ok(Instr::CopyData {
            to,
            from: DataArg::Var(from),
        }),
        Operand::Field(from, field) => Ok(Instr::LoadData { to, from, field }),
        Operand::Chosen => Ok(Instr::Choose { to: Some(to) }),
        _ => bail!("no datum"),
    }
}

fn into_field(to: u32, field: u32, from: Operand) -> Result<Instr> {
    match from {
        Operand::Null => Ok(Instr::StoreConst {
            to,
            field,
            value: Const::Null,
        }),
        Operand::Number(number) => Ok(Instr::StoreConst {
            to,
            field,
            value: Const::Known(number),
        }),
        Operand::Pointer(from) => Ok(Instr::StorePtr { to, field, from }),
        Operand::Datum(from) => Ok(Instr::StoreData { to, field, from }),
        _ => bail!("nothing to write"),
    }
}

fn tested(left: Operand, right: Operand, equal: bool) -> Result<Instr> {
    match left {
        Operand::Null | Operand::Pointer(_) => Ok(Instr::TestPtr {
            left: pointer_arg(left)?,
            right: pointer_arg(right)?,
            equal,
        }),
        _ => Ok(Instr::TestData {
            left: data_arg(left)?,
            right: data_arg(right)?,
            equal,
        }),
    }
}

fn pointer_arg(operand: Operand) -> Result<PtrArg> {
    match operand {
        Operand::Null => Ok(PtrArg::Null),
        Operand::Pointer(number) => Ok(PtrArg::Var(number)),
        _ => bail!("no pointer"),
    }
}

fn data_arg(operand: Operand) -> Result<DataArg> {
    match operand {
        Operand::Number(number) => Ok(DataArg::Known(number)),
        Operand::Datum(number) => Ok(DataArg::Var(number)),
        _ => bail!("no datum"),
    }
}

fn named(alloc: Global, text: &str) -> Result<Instr> {
    let word = text.split(' ').next().context("no word")?;
    match word {
        "kill" => killed(alloc, text),
        "choose" => Ok(Instr::Choose { to: None }),
        "fail" => Ok(Instr::Stop { error: true }),
        "exit" => Ok(Instr::Stop { error: false }),
        _ => freed(text),
    }
}

fn freed(text: &str) -> Result<Instr> {
    let cell = text.strip_prefix("free ").context("no such edge")?;
    Ok(Instr::Free {
        from: pointer(cell)?,
    })
}

fn pointer(text: &str) -> Result<u32> {
    let number = text.strip_prefix('p').context("no pointer variable")?;
    Ok(number.parse::<u32>()?)
}

fn killed(alloc: Global, text: &str) -> Result<Instr> {
    let mut ptrs = List::new(alloc);
    let mut datums = List::new(alloc);
    for word in text.split(' ').skip(1) {
        add_killed(word, &mut ptrs, &mut datums)?;
    }
    Ok(Instr::Kill { ptrs, datums })
}

fn add_killed(word: &str, ptrs: &mut List<u32>, datums: &mut List<u32>) -> Result<()> {
    match variable(word)? {
        Operand::Pointer(number) => ptrs.push(number)?,
        Operand::Datum(number) => datums.push(number)?,
        _ => bail!("no variable"),
    }
    Ok(())
}
