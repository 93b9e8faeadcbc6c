// Words and numbers.
ghost use Rattle.std.specs.Prelude.{◌≡◌, ◌≤◌, ◌<◌, MatchOption, nat_eq};
ghost use Rattle.std.specs.List.{list_all};
ghost use Rattle.c_lexer.specs.Bytes as byte_classes;
ghost use Rattle.fa_lines.specs.Pieces as spec;
ghost use Rattle.fa_lines.specs.inner.Reading as read;

use c_lexer::bytes::{is_letter, is_word_byte};
use fore_base::store::Datum;
use fore_base::text::Text;
use itoa::Buffer;

/// Whether a text is this word.
pub fn is(text: &Text, word: &[u8]) -> bool
    ensures { result ≡ read.is text.now word.now }
{
    text.as_slice() == word
}

fn are_word_bytes(bytes: &[u8]) -> bool
    ensures { result ≡ list_all byte_classes.is_word_byte bytes.now }
{
    for byte in bytes {
        if !is_word_byte(*byte) {
            return false;
        }
    }
    true
}

/// Whether a text is a word.
pub fn is_word(text: &Text) -> bool
    ensures { result ≡ spec.is_word text.now }
{
    match text.as_slice() {
        [first, rest @ ..] => is_letter(*first) && are_word_bytes(rest),
        [] => false,
    }
}

/// The number that digits write, where it is below 4,294,967,296.
#[tactic(auto, using(crate::proofs::NumberLemmas::value_grows))]
fn value_of(digits: &[u8]) -> Option<u32>
    ensures { MatchOption result (4294967296 ≤ read.value_from 0 digits.now)
        (λ n. n ≡ read.value_from 0 digits.now) }
{
    let mut value: u64 = 0;
    for digit in digits {
        if value > 4294967295 {
            return None;
        }
        value = value * 10 + digit.saturating_sub(48) as u64;
    }
    if value > 4294967295 {
        return None;
    }
    Some(value as u32)
}

/// The number that a text is in decimal, without leading zeros and below 4,294,967,296.
#[tactic(auto, unfolding(crate::specs::inner::Reading::number_of))]
pub fn number_of(text: &[u8]) -> Option<u32>
    ensures { result ≡ read.number_of text.now }
{
    let value = value_of(text)?;
    let mut buffer = Buffer::new();
    if buffer.format(value).as_bytes() == text {
        Some(value)
    } else {
        None
    }
}

#[tactic(auto, unfolding(crate::specs::inner::Reading::number_up_to))]
fn number_up_to(most: u8, text: &[u8]) -> Option<u8>
    ensures { result ≡ read.number_up_to most text.now }
{
    let value = number_of(text)?;
    if value <= most as u32 {
        Some(value as u8)
    } else {
        None
    }
}

/// The state that a text is: `s` and its number, which is at most 255.
#[tactic(auto, unfolding(crate::specs::inner::Reading::state_of))]
pub fn state_of(text: &Text) -> Option<u32>
    ensures { result ≡ read.state_of text.now }
{
    match text.as_slice() {
        [b's', digits @ ..] => {
            let state = number_up_to(255, digits)?;
            Some(state as u32)
        }
        _ => None,
    }
}

/// The datum that a text is: `undef`, or a number of at most 15.
#[tactic(auto, unfolding(crate::specs::inner::Reading::datum_of))]
pub fn datum_of(text: &Text) -> Option<Datum>
    ensures { result ≡ read.datum_of text.now }
{
    match number_up_to(15, text.as_slice()) {
        Some(number) => Some(Datum::Known(number)),
        None => {
            if is(text, b"undef") {
                Some(Datum::Undefined)
            } else {
                None
            }
        }
    }
}
