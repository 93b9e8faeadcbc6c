// The first refused token of a list.
ghost use Rattle.std.specs.Prelude.{◌≡◌, MatchOption, map};
ghost use Rattle.std.specs.Option.{option_map};
ghost use Rattle.c_refused.specs.Refused as spec;
ghost use Rattle.c_refused.specs.Refused.{NoneRefused, IsFirstRefused, words, marks, numbers, rule_in};

use c_lexer::token::{TokKind, Token};
use fore_base::place::Place;

/// A refused token: the number of the rule that refuses it, 1 to 10, and the place of the token.
#[derive(Clone, Copy)]
pub struct Refusal {
    pub rule: u8,
    pub at: Place,
}

/// The first token that no program may have, if there is one. It takes no memory, and its time is linear in the tokens.
pub fn first_refused(tokens: &[Token]) -> Option<Refusal>
    ensures { MatchOption result (NoneRefused tokens.now) (λ refusal. IsFirstRefused tokens.now refusal) }
{
    for token in tokens {
        if let Some(rule) = rule_of(token) {
            return Some(Refusal { rule, at: token.at });
        }
    }
    None
}

#[tactic(auto, unfolding(crate::specs::Refused::rule_of))]
fn rule_of(token: &Token) -> Option<u8>
    ensures { result ≡ spec.rule_of token.now }
{
    let text = token.text.as_slice();
    match token.kind {
        TokKind::Word => word_rule(text),
        TokKind::Number => number_rule(text),
        TokKind::Mark => None,
        TokKind::Quoted => Some(7),
        TokKind::Hash => Some(8),
        TokKind::Refused => mark_rule(text),
    }
}

const UNIONS: [&str; 1] = ["union"];

const CONTROL: [&str; 4] = ["goto", "switch", "case", "default"];

const TYPES: [&str; 10] = [
    "char", "short", "long", "float", "double", "signed", "unsigned", "bool", "_Bool", "_Complex",
];

const SPECIFIERS: [&str; 8] = [
    "static", "volatile", "const", "register", "auto", "inline", "restrict", "typedef",
];

const ADDRESSES: [&str; 1] = ["&"];

const ARRAYS: [&str; 2] = ["[", "]"];

const OPERATORS: [&str; 11] = ["+", "-", "/", "%", "<", ">", "~", "^", "|", "?", "."];

const LABELS: [&str; 1] = [":"];

const NUMBERS: [&str; 16] = [
    "0", "1", "2", "3", "4", "5", "6", "7", "8", "9", "10", "11", "12", "13", "14", "15",
];

fn word_rule(text: &[u8]) -> Option<u8>
    ensures { result ≡ rule_in words text.now }
{
    if is_among(&UNIONS, text) {
        Some(3)
    } else if is_among(&CONTROL, text) {
        Some(5)
    } else if is_among(&TYPES, text) {
        Some(6)
    } else if is_among(&SPECIFIERS, text) {
        Some(9)
    } else {
        None
    }
}

fn number_rule(text: &[u8]) -> Option<u8>
    ensures { result ≡ spec.rule_as TokKind.Number text.now }
{
    if is_among(&NUMBERS, text) {
        None
    } else {
        Some(10)
    }
}

fn mark_rule(text: &[u8]) -> Option<u8>
    ensures { result ≡ rule_in marks text.now }
{
    if is_among(&ADDRESSES, text) {
        Some(1)
    } else if is_among(&ARRAYS, text) {
        Some(2)
    } else if is_among(&OPERATORS, text) {
        Some(4)
    } else if is_among(&LABELS, text) {
        Some(5)
    } else {
        None
    }
}

/// Whether a text is one of these.
fn is_among(texts: &[&str], text: &[u8]) -> bool
    ensures { result ≡ spec.is_among (map (λ one. one.now) texts.now) text.now }
{
    for one in texts {
        if one.as_bytes() == text {
            return true;
        }
    }
    false
}
