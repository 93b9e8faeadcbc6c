// A text is read from its front to its end, one piece after another.
ghost use Rattle.std.specs.Prelude.{◌≡◌, ◌⊎◌, ◌≤◌, ◌<◌, ◌+◌, ◌++◌, [], ◌∷◌, List, Ok, Err, length, take, IfOk, IfErr};
ghost use Rattle.std.specs.Prelude.{OnOk};
ghost use Rattle.fore_base.specs.declared.place.Place.{Place};
ghost use Rattle.c_lexer.specs.declared.token.Token.{Token};
ghost use Rattle.c_lexer.specs.inner.Readings.{ReadsOn, Refuses};
ghost use Rattle.c_lexer.specs.Refusals.{IsRefusal};
ghost use Rattle.c_lexer.specs.inner.Steps.{cursor_after};
ghost use Rattle.c_lexer.specs.Tokens.{Tokens, LacksToken, LacksClose};

use crate::fault::LexFault;
use crate::place::{Cursor, advance, start};
use crate::step::{Step, next_step};
use crate::token::{TokKind, Token};
use fore_base::limits::FILE_BYTES;
use fore_base::list::List;
use fore_base::place::Place;
use fore_base::text::Text;
use std::alloc::{AllocError, Global};

/// Adds a token with a copy of its bytes.
fn add_token(
    alloc: Global,
    found: &mut List<Token>,
    kind: TokKind,
    bytes: &[u8],
    at: Place,
) -> Result<(), AllocError>
    ensures { OnOk result (found.new ≡ found.old ++ record { kind = kind; text = bytes.now; at = at } ∷ []) }
{
    let text = Text::from_slice(alloc, bytes)?;
    found.push(Token { kind, text, at })?;
    Ok(())
}

/// Reads the piece at a place that is not the end, and gives its size; a token is added to those found.
fn read_piece(
    alloc: Global,
    text: &[u8],
    at: usize,
    cursor: Cursor,
    found: &mut List<Token>,
) -> Result<usize, LexFault>
    requires within { at < length text.now }
    requires here { cursor ≡ cursor_after (take at text.now) }
    ensures moves { IfOk result (λ size. (0 < size) × (at + size ≤ length text.now)) }
    ensures leads { IfOk result (λ size. ReadsOn text.now at found.old (at + size) found.new) }
    ensures err { IfErr result (Refuses text.now at) }
{
    match next_step(&text[at..], cursor.fresh) {
        Step::Skip(size) => Ok(size),
        Step::Take(kind, size) => {
            add_token(alloc, found, kind, &text[at..at + size], cursor.place)?;
            Ok(size)
        }
        Step::Unclosed => Err(LexFault::L2 { at: cursor.place }),
        Step::Nothing => Err(LexFault::L1 { at: cursor.place }),
    }
}

fn read_pieces(alloc: Global, text: &[u8]) -> Result<List<Token>, LexFault>
    requires { length text.now ≤ FILE_BYTES }
    ensures ok { IfOk result (Tokens text.now) }
    ensures err { IfErr result (IsRefusal text.now) }
{
    let mut found = List::new(alloc);
    let mut cursor = start();
    let mut at = 0;
    'pieces: while at < text.len() {
        let size = read_piece(alloc, text, at, cursor, &mut found)?;
        cursor = advance(text, cursor, at, at + size);
        at += size;
    }
    Ok(found)
}

/// The tokens of a text of at most 1,048,576 bytes, in order.
///
/// # Errors
///
/// `LexFault::L1` at the first byte at which no token begins, `LexFault::L2` at the first byte of the comment that is
/// not closed: whichever comes
/// first. `LexFault::Memory` for want of memory.
pub fn tokens(alloc: Global, text: &[u8]) -> Result<List<Token>, LexFault>
    requires { length text.now ≤ FILE_BYTES }
    ensures ok { IfOk result (λ ts. Tokens text.now ts) }
    ensures err { IfErr result (IsRefusal text.now) }

    // Nothing but want of memory keeps a text from its reading.
    ensures read { (ts : List Token) → Tokens text.now ts → (result ≡ Ok ts) ⊎ (result ≡ Err LexFault.Memory) }
    ensures no_token { (place : Place) → LacksToken text.now place
        → (result ≡ Err (LexFault.L1 place)) ⊎ (result ≡ Err LexFault.Memory) }
    ensures unclosed { (place : Place) → LacksClose text.now place
        → (result ≡ Err (LexFault.L2 place)) ⊎ (result ≡ Err LexFault.Memory) }
{
    read_pieces(alloc, text)
}
