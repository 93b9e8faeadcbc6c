// The pieces of a line.
ghost use Rattle.std.specs.Prelude.{◌≡◌, ◌≤◌, ◌<◌, ◌++◌, [], length, IfOk, OnOk};
ghost use Rattle.std.specs.List.{prefix_len};
ghost use Rattle.fa_lines.specs.Pieces as spec;
ghost use Rattle.fa_lines.specs.inner.Reading as read;

use c_lexer::bytes::{is_digit, is_gap, is_letter, is_word_byte};
use fore_base::list::List;
use fore_base::memory::Mem;
use fore_base::text::Text;
use std::alloc::Global;

/// Whether a byte goes on the piece that begins with this one.
fn joins(first: u8, byte: u8) -> bool
    ensures { result ≡ spec.joins first byte }
{
    (is_digit(first) && is_digit(byte)) || (is_letter(first) && is_word_byte(byte))
}

/// The number of bytes in front that go on the piece that begins with this one.
fn joined_size(first: u8, bytes: &[u8]) -> usize
    ensures value { result ≡ prefix_len (spec.joins first) bytes.now }
    ensures within { result ≤ length bytes.now }
{
    for (i, byte) in bytes.iter().enumerate() {
        if !joins(first, *byte) {
            return i;
        }
    }
    bytes.len()
}

/// How many bytes the piece in front has; of a space or a tab 1.
fn front_size(bytes: &[u8]) -> usize
    ensures value { result ≡ read.front_size bytes.now }
    ensures within { result ≤ length bytes.now }
    ensures some { 0 < length bytes.now → 0 < result }
{
    match bytes {
        [] => 0,
        [first, rest @ ..] => joined_size(*first, rest) + 1,
    }
}

/// Adds a piece, but for a space or a tab.
fn keep(alloc: Global, found: &mut List<Text>, piece: &[u8]) -> Mem<()>
    ensures { OnOk result (found.new ≡ found.old ++ read.kept piece.now) }
{
    match piece {
        [first, ..] => {
            if !is_gap(*first) {
                let text = Text::from_slice(alloc, piece)?;
                found.push(text)?;
            }
        }
        [] => {}
    }
    Ok(())
}

/// The pieces of a line.
pub fn pieces(alloc: Global, line: &[u8]) -> Mem<List<Text>>
    ensures { IfOk result (λ found. found ≡ spec.pieces line.now) }
{
    let mut found = List::new(alloc);
    let mut rest = line;
    'pieces: while !rest.is_empty() {
        let (piece, others) = rest.split_at(front_size(rest));
        keep(alloc, &mut found, piece)?;
        rest = others;
    }
    Ok(found)
}
