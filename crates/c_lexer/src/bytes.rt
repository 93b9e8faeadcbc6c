// The classes of bytes that the rules for tokens speak of.
ghost use Rattle.std.specs.Prelude.{◌≡◌};
ghost use Rattle.c_lexer.specs.Bytes as spec;

/// A letter or the underscore.
#[tactic(auto, unfolding(crate::specs::Bytes::is_letter))]
pub fn is_letter(byte: u8) -> bool
    ensures { result ≡ spec.is_letter byte }
{
    (byte >= b'a' && byte <= b'z') || (byte >= b'A' && byte <= b'Z') || byte == b'_'
}

/// A decimal digit.
#[tactic(auto, unfolding(crate::specs::Bytes::is_digit))]
pub fn is_digit(byte: u8) -> bool
    ensures { result ≡ spec.is_digit byte }
{
    byte >= b'0' && byte <= b'9'
}

/// What may follow the first byte of a word.
#[tactic(auto, unfolding(crate::specs::Bytes::is_word_byte))]
pub fn is_word_byte(byte: u8) -> bool
    ensures { result ≡ spec.is_word_byte byte }
{
    is_letter(byte) || is_digit(byte)
}

/// What may follow the first digit of a number.
#[tactic(auto, unfolding(crate::specs::Bytes::is_number_byte))]
pub fn is_number_byte(byte: u8) -> bool
    ensures { result ≡ spec.is_number_byte byte }
{
    is_word_byte(byte) || byte == b'.'
}

/// A space or a tab.
#[tactic(auto, unfolding(crate::specs::Bytes::is_gap))]
pub fn is_gap(byte: u8) -> bool
    ensures { result ≡ spec.is_gap byte }
{
    byte == b' ' || byte == b'\t'
}

/// White space: a space, a tab, a newline, a vertical tab, a form feed or a carriage return.
#[tactic(auto, unfolding(crate::specs::Bytes::is_space))]
pub fn is_space(byte: u8) -> bool
    ensures { result ≡ spec.is_space byte }
{
    byte == b' ' || (byte >= b'\t' && byte <= b'\r')
}

/// A quotation mark or an apostrophe.
#[tactic(auto, unfolding(crate::specs::Bytes::is_quote))]
pub fn is_quote(byte: u8) -> bool
    ensures { result ≡ spec.is_quote byte }
{
    byte == b'"' || byte == b'\''
}

/// A newline.
#[tactic(auto, unfolding(crate::specs::Bytes::is_newline))]
pub fn is_newline(byte: u8) -> bool
    ensures { result ≡ spec.is_newline byte }
{
    byte == b'\n'
}

/// No space, no tab and no carriage return.
#[tactic(auto, unfolding(crate::specs::Bytes::is_solid))]
pub fn is_solid(byte: u8) -> bool
    ensures { result ≡ spec.is_solid byte }
{
    byte != b' ' && byte != b'\t' && byte != b'\r'
}
