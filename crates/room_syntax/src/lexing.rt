// Tokens, their places, and the first refused one, as texts.
ghost use Rattle.std.specs.Prelude.{◌≤◌, length};

use c_lexer::{LexFault, TokKind, end_place, tokens};
use c_refused::first_refused;
use fore_base::limits::FILE_BYTES;
use fore_base::memory::Mem;
use fore_base::place::Place;
use fore_base::text::Text;
use row_texts::put_between;
use std::alloc::{AllocError, Global};

/// tokens: the first letter of each token's kind and its bytes, or `none`; or the rule that refuses the text, and
/// the place.
pub fn put_tokens(alloc: Global, out: &mut Text, text: &[u8]) -> Mem<()>
    requires { length text.now ≤ FILE_BYTES }
{
    match tokens(alloc, text) {
        Ok(all) => {
            if all.is_empty() {
                out.put(b"none")?;
            }
            for (number, token) in all.as_slice().iter().enumerate() {
                put_between(out, number, b" ")?;
                out.put(letter(token.kind))?;
                out.put(token.text.as_slice())?;
            }
            Ok(())
        }
        Err(fault) => put_fault(out, fault),
    }
}

/// places: the offset, line and column of each token, and those of the end.
pub fn put_places(alloc: Global, out: &mut Text, text: &[u8]) -> Mem<()>
    requires { length text.now ≤ FILE_BYTES }
{
    match tokens(alloc, text) {
        Ok(all) => {
            for token in all.as_slice() {
                put_place(out, token.at)?;
                out.put(b" ")?;
            }
            out.put(b"end ")?;
            put_place(out, end_place(text))
        }
        Err(fault) => put_fault(out, fault),
    }
}

/// count: how many tokens there are.
pub fn put_count(alloc: Global, out: &mut Text, text: &[u8]) -> Mem<()>
    requires { length text.now ≤ FILE_BYTES }
{
    match tokens(alloc, text) {
        Ok(all) => out.put_number(all.len() as u64),
        Err(fault) => put_fault(out, fault),
    }
}

/// refused: the rule of the first refused token, and its offset.
pub fn put_refused(alloc: Global, out: &mut Text, text: &[u8]) -> Mem<()>
    requires { length text.now ≤ FILE_BYTES }
{
    match tokens(alloc, text) {
        Ok(all) => match first_refused(all.as_slice()) {
            Some(refusal) => {
                out.put(b"P")?;
                out.put_number(u64::from(refusal.rule))?;
                out.put(b" ")?;
                out.put_number(u64::from(refusal.at.offset))
            }
            None => out.put(b"none"),
        },
        Err(fault) => put_fault(out, fault),
    }
}

fn letter(kind: TokKind) -> &'static [u8] {
    match kind {
        TokKind::Word => b"W",
        TokKind::Number => b"N",
        TokKind::Mark => b"M",
        TokKind::Quoted => b"Q",
        TokKind::Hash => b"H",
        TokKind::Refused => b"R",
    }
}

fn put_place(out: &mut Text, at: Place) -> Mem<()> {
    out.put_number(u64::from(at.offset))?;
    out.put(b":")?;
    out.put_number(u64::from(at.line))?;
    out.put(b":")?;
    out.put_number(u64::from(at.column))
}

fn put_fault(out: &mut Text, fault: LexFault) -> Mem<()> {
    match fault {
        LexFault::L1 { at } => {
            out.put(b"L1 ")?;
            put_place(out, at)
        }
        LexFault::L2 { at } => {
            out.put(b"L2 ")?;
            put_place(out, at)
        }
        LexFault::Memory => Err(AllocError),
    }
}
