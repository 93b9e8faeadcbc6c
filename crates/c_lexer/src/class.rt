// What the first byte of a piece tells of it.
ghost use Rattle.std.specs.Prelude.{◌≡◌, slice_index};
ghost use Rattle.c_lexer.specs.inner.Steps.{class_of};

use crate::bytes::{is_digit, is_letter, is_quote, is_space};

/// What the first byte at a place tells of the piece that begins there.
#[derive(Clone, Copy)]
pub enum Class {
    /// White space.
    Space,
    /// A letter or the underscore.
    Letter,
    /// A decimal digit.
    Digit,
    /// A quotation mark or an apostrophe.
    Quote,
    /// The number sign.
    Sharp,
    /// Every other byte.
    Sign,
}

/// The class of a byte.
pub fn class_of(byte: u8) -> Class
    ensures { result ≡ class_of byte }
{
    if is_space(byte) {
        Class::Space
    } else if is_letter(byte) {
        Class::Letter
    } else if is_digit(byte) {
        Class::Digit
    } else if is_quote(byte) {
        Class::Quote
    } else if byte == b'#' {
        Class::Sharp
    } else {
        Class::Sign
    }
}

/// The byte at a place, and 0 past the end.
pub fn byte_at(text: &[u8], at: usize) -> u8
    ensures { result ≡ slice_index text.now at }
{
    if at < text.len() { text[at] } else { 0 }
}
