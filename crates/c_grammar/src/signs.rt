// What a token is to the grammar.

ghost use Rattle.std.specs.Prelude.{◌≡◌, nat_eq, drop};
ghost use Rattle.std.specs.Cmp.Lexicographic.{pointwise};
ghost use Rattle.c_grammar.specs.Signs.{sign_in, reserved, marks};
ghost use Rattle.c_grammar.specs.Signs as spec;
ghost use Rattle.c_grammar.specs.declared.signs.Sign.TheVariants.{Id, Other};

use c_lexer::{TokKind, Token};

/// What a token is to the grammar: tokens of one sign can stand in each other's place.
#[derive(Clone, Copy, PartialEq, Eq)]
pub enum Sign {
    Id,
    Number,
    Struct,
    Enum,
    Int,
    Void,
    Extern,
    If,
    Else,
    While,
    Do,
    For,
    Return,
    Break,
    Continue,
    Sizeof,
    Malloc,
    Free,
    Assert,
    Null,
    True,
    False,
    Arrow,
    Equal,
    Unequal,
    And,
    Or,
    OpenBrace,
    CloseBrace,
    Open,
    Close,
    Semicolon,
    Comma,
    Star,
    Assign,
    Not,
    /// Nothing in the grammar is such a token.
    Other,
    /// The end of the text, which counts as one more token.
    End,
}

/// The text is this word.
fn is(text: &[u8], word: &[u8]) -> bool
    ensures { result ≡ pointwise nat_eq text.now word.now }
{
    text == word
}

/// The sign of a word that is none of the reserved words before `sizeof`.
fn late_word_sign(text: &[u8]) -> Sign
    ensures { result ≡ sign_in (drop 13 reserved) text.now Id }
{
    if is(text, b"sizeof") {
        Sign::Sizeof
    } else if is(text, b"malloc") {
        Sign::Malloc
    } else if is(text, b"free") {
        Sign::Free
    } else if is(text, b"assert") {
        Sign::Assert
    } else if is(text, b"NULL") {
        Sign::Null
    } else if is(text, b"true") {
        Sign::True
    } else if is(text, b"false") {
        Sign::False
    } else {
        Sign::Id
    }
}

/// The sign of a word.
fn word_sign(text: &[u8]) -> Sign
    ensures { result ≡ sign_in reserved text.now Id }
{
    if is(text, b"struct") {
        Sign::Struct
    } else if is(text, b"enum") {
        Sign::Enum
    } else if is(text, b"int") {
        Sign::Int
    } else if is(text, b"void") {
        Sign::Void
    } else if is(text, b"extern") {
        Sign::Extern
    } else if is(text, b"if") {
        Sign::If
    } else if is(text, b"else") {
        Sign::Else
    } else if is(text, b"while") {
        Sign::While
    } else if is(text, b"do") {
        Sign::Do
    } else if is(text, b"for") {
        Sign::For
    } else if is(text, b"return") {
        Sign::Return
    } else if is(text, b"break") {
        Sign::Break
    } else if is(text, b"continue") {
        Sign::Continue
    } else {
        late_word_sign(text)
    }
}

/// The sign of a mark.
fn mark_sign(text: &[u8]) -> Sign
    ensures { result ≡ sign_in marks text.now Other }
{
    if is(text, b"->") {
        Sign::Arrow
    } else if is(text, b"==") {
        Sign::Equal
    } else if is(text, b"!=") {
        Sign::Unequal
    } else if is(text, b"&&") {
        Sign::And
    } else if is(text, b"||") {
        Sign::Or
    } else if is(text, b"{") {
        Sign::OpenBrace
    } else if is(text, b"}") {
        Sign::CloseBrace
    } else if is(text, b"(") {
        Sign::Open
    } else if is(text, b")") {
        Sign::Close
    } else if is(text, b";") {
        Sign::Semicolon
    } else if is(text, b",") {
        Sign::Comma
    } else if is(text, b"*") {
        Sign::Star
    } else if is(text, b"=") {
        Sign::Assign
    } else if is(text, b"!") {
        Sign::Not
    } else {
        Sign::Other
    }
}

/// What a token is to the grammar.
#[tactic(auto, unfolding(crate::specs::Signs::sign_of))]
pub fn sign_of(token: &Token) -> Sign
    ensures { result ≡ spec.sign_of token.now }
{
    match token.kind {
        TokKind::Word => word_sign(token.text.as_slice()),
        TokKind::Number => Sign::Number,
        TokKind::Mark => mark_sign(token.text.as_slice()),
        TokKind::Quoted | TokKind::Hash | TokKind::Refused => Sign::Other,
    }
}
