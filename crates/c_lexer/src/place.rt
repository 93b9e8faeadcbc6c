// Places in a text, byte by byte.
ghost use Rattle.std.specs.Prelude.{◌≡◌, ◌≤◌, ◌<◌, ◌+◌, [], length, take};
ghost use Rattle.c_lexer.specs.Places.{place_after};
ghost use Rattle.c_lexer.specs.inner.Steps.{cursor_after, moved};

use crate::bytes::{is_gap, is_newline};
use fore_base::limits::FILE_BYTES;
use fore_base::place::Place;

/// Where the reader stands.
#[derive(Clone, Copy)]
pub struct Cursor {
    pub place: Place,
    /// Nothing but spaces and tabs stands before the place on its line.
    pub fresh: bool,
}

/// The beginning of a text.
pub fn start() -> Cursor
    ensures { result ≡ cursor_after [] }
{
    let place = Place {
        offset: 0,
        line: 1,
        column: 1,
    };
    Cursor { place, fresh: true }
}

/// The place behind one more byte.
fn behind(cursor: Cursor, byte: u8) -> Cursor
    requires { (cursor.place.offset < 4294967295) × (cursor.place.line < 4294967295)
        × (cursor.place.column < 4294967295) }
    ensures { result ≡ moved cursor byte }
{
    let offset = cursor.place.offset + 1;
    if is_newline(byte) {
        let line = cursor.place.line + 1;
        let column = 1;
        let place = Place {
            offset,
            line,
            column,
        };
        Cursor { place, fresh: true }
    } else {
        let line = cursor.place.line;
        let column = cursor.place.column + 1;
        let place = Place {
            offset,
            line,
            column,
        };
        let fresh = cursor.fresh && is_gap(byte);
        Cursor { place, fresh }
    }
}

/// The place at `to`, from the one at `from`.
pub fn advance(text: &[u8], cursor: Cursor, from: usize, to: usize) -> Cursor
    requires short { length text.now ≤ FILE_BYTES }
    requires order { from ≤ to }
    requires within { to ≤ length text.now }
    requires here { cursor ≡ cursor_after (take from text.now) }
    ensures { result ≡ cursor_after (take to text.now) }
{
    let mut cursor = cursor;
    for i in from..to {
        cursor = behind(cursor, text[i]);
    }
    cursor
}

/// The place behind the last byte of a text of at most 1,048,576 bytes.
pub fn end_place(text: &[u8]) -> Place
    requires { length text.now ≤ FILE_BYTES }
    ensures { result ≡ place_after text.now }
{
    advance(text, start(), 0, text.len()).place
}
