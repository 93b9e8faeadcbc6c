// Programs as the body of a `main`.
//
// Before a body stand two lines, structs and the head of `main`; so the first line of a body is line 3.

use anyhow::{Result, bail};
use c_cfg::graph::Graph;
use c_front::program_in;
use c_lower::lower::lower;
use c_types::mode::MallocMode;
use c_types::program::Typed;
use fore_base::limits::FILE_BYTES;
use fore_base::text::Text;
use std::alloc::Global;

/// What stands before the body of a program that is run: a struct with two pointers and a datum, and three
/// enumerators.
pub const RUN_HEAD: &str =
    "enum kind { A, B, C }; struct node { struct node *next; struct node *other; int d; };\nint main(void) {\n";

/// What stands before the body of a program that has a graph: a struct with three pointers, `next`, `other` and
/// `tag`, and two data, `d` and `e`, and the struct of `tag`.
pub const GRAPH_HEAD: &str =
    "struct node { struct node *next; int d; struct node *other; int e; struct tag *tag; }; struct tag { int t; };\n\
     int main(void) {\n";

/// The program of a body behind a head.
pub fn program_of(alloc: Global, head: &str, body: &[u8]) -> Result<Typed> {
    let mut text = Text::new(alloc);
    text.put(head.as_bytes())?;
    text.put(body)?;
    text.put(b"}\n")?;
    if text.len() > FILE_BYTES {
        bail!("too long");
    }
    match program_in(alloc, text.as_slice()) {
        Ok(program) => Ok(program),
        Err(_) => bail!("no program"),
    }
}

/// The graph of a body, where `malloc` has this mode.
pub fn graph_of(alloc: Global, mode: MallocMode, body: &[u8]) -> Result<Graph> {
    let program = program_of(alloc, GRAPH_HEAD, body)?;
    Ok(lower(alloc, &program, mode)?)
}
