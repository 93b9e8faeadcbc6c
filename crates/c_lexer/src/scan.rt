// How far the pieces of a text reach.
ghost use Rattle.std.specs.Prelude.{◌≡◌, ◌==◌, ◌<◌, false, drop, length, slice_index};
ghost use Rattle.std.specs.List.{prefix_len, list_any};
ghost use Rattle.c_lexer.specs.Bytes.{is_no_newline};
ghost use Rattle.c_lexer.specs.Bytes as spec;
ghost use Rattle.c_lexer.specs.inner.Steps.{quote_end, comment_end, spells, is_include, is_long_mark};
ghost use Rattle.c_lexer.specs.Lexemes.{short_marks, refused_marks};

use crate::bytes::{is_newline, is_number_byte, is_solid, is_word_byte};
use crate::class::byte_at;

/// The number of bytes at the front that may stand in a word.
pub fn word_size(rest: &[u8]) -> usize
    ensures { result ≡ prefix_len spec.is_word_byte rest.now }
{
    for (i, byte) in rest.iter().enumerate() {
        if !is_word_byte(*byte) {
            return i;
        }
    }
    rest.len()
}

/// The number of bytes at the front that may stand in a number.
pub fn number_size(rest: &[u8]) -> usize
    ensures { result ≡ prefix_len spec.is_number_byte rest.now }
{
    for (i, byte) in rest.iter().enumerate() {
        if !is_number_byte(*byte) {
            return i;
        }
    }
    rest.len()
}

/// The number of bytes before the first newline.
#[tactic(auto, unfolding(crate::specs::Bytes::is_newline, crate::specs::Bytes::is_no_newline))]
pub fn line_size(rest: &[u8]) -> usize
    ensures { result ≡ prefix_len is_no_newline rest.now }
{
    for (i, byte) in rest.iter().enumerate() {
        if is_newline(*byte) {
            return i;
        }
    }
    rest.len()
}

/// The number of bytes of the quotation that the first byte begins, if it is closed on its line.
pub fn quotation_size(rest: &[u8]) -> Option<usize>
    requires { 0 < length rest.now }
    ensures { result ≡ quote_end (slice_index rest.now 0) false 1 (drop 1 rest.now) }
{
    let quote = rest[0];
    let mut escaped = false;
    for i in 1..rest.len() {
        let byte = rest[i];
        if is_newline(byte) {
            return None;
        }
        if escaped {
            escaped = false;
        } else if byte == quote {
            return Some(i + 1);
        } else {
            escaped = byte == b'\\';
        }
    }
    None
}

/// The number of bytes of the comment that the first two bytes begin, if it is closed.
pub fn comment_size(rest: &[u8]) -> Option<usize>
    ensures { result ≡ comment_end 2 (drop 2 rest.now) }
{
    for i in 2..rest.len() {
        if rest[i] == b'*' && byte_at(rest, i + 1) == b'/' {
            return Some(i + 2);
        }
    }
    None
}

/// Whether the line is this text, but for spaces, tabs and carriage returns.
fn spells(line: &[u8], name: &[u8]) -> bool
    ensures { result ≡ spells line.now name.now }
{
    let mut left = name;
    for byte in line {
        if is_solid(*byte) {
            match left.split_first() {
                Some((first, others)) => {
                    if *first != *byte {
                        return false;
                    }
                    left = others;
                }
                None => return false,
            }
        }
    }
    left.is_empty()
}

/// Whether the line is one of the four include lines that are skipped.
pub fn is_include(line: &[u8]) -> bool
    ensures { result ≡ is_include line.now }
{
    spells(line, b"#include<stdlib.h>")
        || spells(line, b"#include<assert.h>")
        || spells(line, b"#include<stddef.h>")
        || spells(line, b"#include<stdbool.h>")
}

/// Whether the two bytes are a mark.
pub fn is_long_mark(first: u8, second: u8) -> bool
    ensures { result ≡ is_long_mark first second }
{
    match first {
        b'-' => second == b'>',
        b'=' | b'!' => second == b'=',
        b'&' => second == b'&',
        b'|' => second == b'|',
        _ => false,
    }
}

/// Whether the byte is a mark.
pub fn is_short_mark(byte: u8) -> bool
    ensures { result ≡ list_any (λ x. x == byte) short_marks }
{
    b"{}();,*=!".contains(&byte)
}

/// Whether the byte is a punctuator that no program may use.
pub fn is_refused_mark(byte: u8) -> bool
    ensures { result ≡ list_any (λ x. x == byte) refused_marks }
{
    b"&[].+-/%<>~^|?:".contains(&byte)
}
