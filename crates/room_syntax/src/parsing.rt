// The answers of the parser, as texts.
ghost use Rattle.std.specs.Prelude.{◌≤◌, length};

use crate::trees::put_item;
use c_ast::Unit;
use c_grammar::SyntaxFault;
use c_lexer::{Token, end_place, tokens};
use c_parser::parse;
use fore_base::limits::FILE_BYTES;
use fore_base::memory::Mem;
use fore_base::place::Place;
use fore_base::text::Text;
use row_texts::put_between;
use std::alloc::{AllocError, Global};

/// parse: `ok` with the depth of the tree; `S` or `D` with the offset of the token; or `P` with the rule and the
/// offset.
pub fn put_parsed(alloc: Global, out: &mut Text, text: &[u8]) -> Mem<()>
    requires { length text.now ≤ FILE_BYTES }
{
    match tokens(alloc, text) {
        Ok(all) => put_answer(alloc, out, all.as_slice(), end_place(text)),
        Err(_) => out.put(b"no tokens"),
    }
}

/// Puts the answer to tokens.
fn put_answer(alloc: Global, out: &mut Text, tokens: &[Token], end: Place) -> Mem<()> {
    match parse(alloc, tokens, end) {
        Ok(unit) => {
            out.put(b"ok ")?;
            out.put_number(u64::from(unit.depth()))
        }
        Err(fault) => put_fault(out, fault),
    }
}

fn put_fault(out: &mut Text, fault: SyntaxFault) -> Mem<()> {
    match fault {
        SyntaxFault::Refused { rule, at } => {
            out.put(b"P")?;
            out.put_number(u64::from(rule))?;
            put_place(out, b" ", at)
        }
        SyntaxFault::Syntax { at } => put_place(out, b"S ", at),
        SyntaxFault::Deep { at } => put_place(out, b"D ", at),
        SyntaxFault::Memory => Err(AllocError),
    }
}

/// Puts a word and the offset of a place.
fn put_place(out: &mut Text, word: &[u8], at: Place) -> Mem<()> {
    out.put(word)?;
    out.put_number(u64::from(at.offset))
}

/// tree: each part with the offset of its first token, items apart by a bar.
pub fn put_tree(alloc: Global, out: &mut Text, text: &[u8]) -> Mem<()>
    requires { length text.now ≤ FILE_BYTES }
{
    if let Ok(all) = tokens(alloc, text) {
        if let Ok(unit) = parse(alloc, all.as_slice(), end_place(text)) {
            return put_unit(out, &unit);
        }
    }
    out.put(b"no tree")
}

/// Puts the items of a text.
fn put_unit(out: &mut Text, unit: &Unit) -> Mem<()> {
    for (number, item) in unit.items.as_slice().iter().enumerate() {
        put_between(out, number, b"|")?;
        put_item(out, item)?;
    }
    Ok(())
}

/// over: the offset of token 65,536, where the tree has so many.
pub fn put_over(alloc: Global, out: &mut Text, text: &[u8]) -> Mem<()>
    requires { length text.now ≤ FILE_BYTES }
{
    if let Ok(all) = tokens(alloc, text) {
        if let Ok(unit) = parse(alloc, all.as_slice(), end_place(text)) {
            return match unit.over {
                Some(at) => out.put_number(u64::from(at.offset)),
                None => out.put(b"none"),
            };
        }
    }
    out.put(b"no tree")
}
