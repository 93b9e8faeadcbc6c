// The answers of the checker and of the whole front end, as texts.
ghost use Rattle.std.specs.Prelude.{◌≤◌, length};

use c_check::check;
use c_front::{Broken, FileFault, Letter, program_in};
use c_lexer::{end_place, tokens};
use c_parser::parse;
use c_typing::TypeFault;
use fore_base::limits::FILE_BYTES;
use fore_base::memory::Mem;
use fore_base::text::Text;
use std::alloc::{AllocError, Global};

/// check: `ok`; or the rule that is broken first, and the offset of its place.
pub fn put_checked(alloc: Global, out: &mut Text, text: &[u8]) -> Mem<()>
    requires { length text.now ≤ FILE_BYTES }
{
    if let Ok(all) = tokens(alloc, text) {
        if let Ok(unit) = parse(alloc, all.as_slice(), end_place(text)) {
            return match check(alloc, &unit) {
                Ok(_) => out.put(b"ok"),
                Err(fault) => put_fault(out, fault),
            };
        }
    }
    out.put(b"no tree")
}

fn put_fault(out: &mut Text, fault: TypeFault) -> Mem<()> {
    match fault {
        TypeFault::Rule { rule, at } => put_rule(out, b"T", rule, at.offset),
        TypeFault::Limit { limit, at } => put_rule(out, b"K", limit, at.offset),
        TypeFault::Memory => Err(AllocError),
    }
}

/// Puts a rule, and a number of its place.
fn put_rule(out: &mut Text, letter: &[u8], rule: u8, number: u32) -> Mem<()> {
    out.put(letter)?;
    out.put_number(u64::from(rule))?;
    out.put(b" ")?;
    out.put_number(u64::from(number))
}

/// front: `ok`; or the rule that is broken first, and the line and the column of its place.
pub fn put_read(alloc: Global, out: &mut Text, text: &[u8]) -> Mem<()>
    requires { length text.now ≤ FILE_BYTES }
{
    match program_in(alloc, text) {
        Ok(_) => out.put(b"ok"),
        Err(FileFault::Breaks { first }) => put_broken(out, first),
        Err(FileFault::Memory) => Err(AllocError),
    }
}

fn put_broken(out: &mut Text, broken: Broken) -> Mem<()> {
    let letter: &[u8] = match broken.letter {
        Letter::Lexical => b"L",
        Letter::Profile => b"P",
        Letter::Syntax => b"S",
        Letter::Typing => b"T",
        Letter::Limit => b"K",
    };
    put_rule(out, letter, broken.number, broken.at.line)?;
    out.put(b":")?;
    out.put_number(u64::from(broken.at.column))
}
