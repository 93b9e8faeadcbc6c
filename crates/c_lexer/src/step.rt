// What stands at a place of a text.
ghost use Rattle.std.specs.Prelude.{◌≡◌, ◌<◌, false, drop, length, slice_index};
ghost use Rattle.c_lexer.specs.inner.Found.{IsFound};
ghost use Rattle.c_lexer.specs.inner.Steps.{quote_step, comment_step, mark_step, sign_step, sharp_step, step_of};
ghost use Rattle.c_lexer.specs.inner.Steps.{quote_end, comment_end};

use crate::class::{Class, byte_at, class_of};
use crate::scan::{
    comment_size, is_include, is_long_mark, is_refused_mark, is_short_mark, line_size, number_size,
    quotation_size, word_size,
};
use crate::token::TokKind;

/// What stands at a place of a text.
#[derive(Clone, Copy)]
pub enum Step {
    /// This many bytes are passed over: white space, a comment or an include line.
    Skip(usize),
    /// A token of this kind and of this many bytes.
    Take(TokKind, usize),
    /// A comment that is not closed.
    Unclosed,
    /// A byte at which no token begins.
    Nothing,
}

fn at_mark(first: u8, second: u8) -> Step
    ensures { result ≡ mark_step first second }
{
    if is_long_mark(first, second) {
        Step::Take(TokKind::Mark, 2)
    } else if is_short_mark(first) {
        Step::Take(TokKind::Mark, 1)
    } else if is_refused_mark(first) {
        Step::Take(TokKind::Refused, 1)
    } else {
        Step::Nothing
    }
}

fn at_comment(rest: &[u8]) -> Step
    ensures { result ≡ comment_step (comment_end 2 (drop 2 rest.now)) }
{
    match comment_size(rest) {
        Some(size) => Step::Skip(size),
        None => Step::Unclosed,
    }
}

fn at_sign(rest: &[u8]) -> Step
    ensures { result ≡ sign_step rest.now }
{
    let first = byte_at(rest, 0);
    let second = byte_at(rest, 1);
    if first == b'/' && second == b'/' {
        Step::Skip(line_size(rest))
    } else if first == b'/' && second == b'*' {
        at_comment(rest)
    } else {
        at_mark(first, second)
    }
}

fn at_sharp(rest: &[u8], fresh: bool) -> Step
    ensures { result ≡ sharp_step fresh rest.now }
{
    if !fresh {
        return Step::Take(TokKind::Hash, 1);
    }
    let size = line_size(rest);
    if is_include(&rest[..size]) {
        Step::Skip(size)
    } else {
        Step::Take(TokKind::Hash, 1)
    }
}

fn at_quote(rest: &[u8]) -> Step
    requires { 0 < length rest.now }
    ensures { result ≡ quote_step (quote_end (slice_index rest.now 0) false 1 (drop 1 rest.now)) }
{
    match quotation_size(rest) {
        Some(size) => Step::Take(TokKind::Quoted, size),
        None => Step::Nothing,
    }
}

fn by_class(rest: &[u8], fresh: bool) -> Step
    requires { 0 < length rest.now }
    ensures { result ≡ step_of fresh rest.now }
{
    match class_of(byte_at(rest, 0)) {
        Class::Space => Step::Skip(1),
        Class::Letter => Step::Take(TokKind::Word, word_size(rest)),
        Class::Digit => Step::Take(TokKind::Number, number_size(rest)),
        Class::Quote => at_quote(rest),
        Class::Sharp => at_sharp(rest, fresh),
        Class::Sign => at_sign(rest),
    }
}

/// What stands at the front of a text that is not empty; `fresh` says that nothing but spaces and tabs stands before it
/// on its line.
pub fn next_step(rest: &[u8], fresh: bool) -> Step
    requires { 0 < length rest.now }
    ensures { IsFound fresh rest.now result }
{
    by_class(rest, fresh)
}
