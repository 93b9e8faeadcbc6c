// Tokens and their kinds.
use fore_base::place::Place;
use fore_base::text::Text;

/// The kinds of tokens.
#[derive(Clone, Copy)]
pub enum TokKind {
    /// An identifier or a keyword (ISO/IEC 9899:2011, 6.4.1 and 6.4.2).
    Word,
    /// A digit with the letters, digits, underscores and dots after it; among them the constants of 6.4.4.
    Number,
    /// A punctuator that programs may use (6.4.6).
    Mark,
    /// A string literal or a character constant (6.4.5 and 6.4.4.4).
    Quoted,
    /// A number sign that begins no skipped line.
    Hash,
    /// A punctuator that no program may use.
    Refused,
}

/// A token of a text.
#[derive(Drop)]
pub struct Token {
    /// What it is.
    pub kind: TokKind,
    /// The bytes of the token.
    pub text: Text,
    /// The place of its first byte.
    pub at: Place,
}
