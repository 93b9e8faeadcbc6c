// Reading the values that stand in the words.
ghost use Rattle.std.specs.Prelude.{
  ◌≡◌,
  ◌∷◌,
  [],
  ℕ,
  List,
  map,
  Some,
  option_map,
  IfOk,
  IsErrOf,
  IsTrue,
  MatchResult,
  ◌↔◌,
  decimal,
};
ghost use Rattle.fore_base.specs.Lists.{Every};
ghost use Rattle.fore_words.specs.Values.{IsNumber, IsDigit, digit_of, IsChoices, IsKind, IsMode, IsOption};
ghost use Rattle.fore_words.specs.declared.asked.WordsFault.{WordsFault as Why};
ghost use Rattle.fore_words.specs.declared.asked.Kind.{Kind as What};

use crate::asked::{Kind, WordsFault};
use c_types::mode::MallocMode;
use fore_base::list::List;
use fore_base::memory::Mem;
use itoa::Buffer;
use std::alloc::Global;

/// The number that an option names, or the default where it is not named.
///
/// # Errors
///
/// `Usage` where its text is none.
pub fn number_or(text: Option<&str>, most: u32, default: u32) -> Result<u32, WordsFault>
    ensures { MatchResult result
        (IsOption (IsNumber most) default (option_map (λ t. t.now) text.entry))
        (λ why. (why ≡ Why.Usage)
        × ((n : ℕ) → IsOption (IsNumber most) default (option_map (λ t. t.now) text.entry) n → ⊥)) }
{
    match text {
        Some(text) => number_in(text, most),
        None => Ok(default),
    }
}

/// The number that a text is, from 1 to the greatest.
///
/// # Errors
///
/// `Usage` where it is none.
pub fn number_in(text: &str, most: u32) -> Result<u32, WordsFault>
    ensures { MatchResult result (IsNumber most text.now)
        (λ why. (why ≡ Why.Usage) × ((n : ℕ) → IsNumber most text.now n → ⊥)) }
{
    match text.parse::<u32>() {
        Ok(number) if is_number(text, most, number) => Ok(number),
        _ => Err(WordsFault::Usage),
    }
}

fn is_number(text: &str, most: u32, number: u32) -> bool
    ensures { IsTrue result ↔ IsNumber most text.now number }
{
    1 <= number && number <= most && is_decimal(text, number)
}

/// Whether a text is the number in decimal, without a sign or leading zeros.
fn is_decimal(text: &str, number: u32) -> bool
    ensures { IsTrue result ↔ (text.now ≡ decimal number) }
{
    let mut buffer = Buffer::new();
    text.as_bytes() == buffer.format(number).as_bytes()
}

/// The choices that an option lists, or none where it is not named.
///
/// # Errors
///
/// `Usage` where some byte of its text is no digit, `Memory` for want of memory.
pub fn choices_or_none(alloc: Global, text: Option<&str>) -> Result<List<u8>, WordsFault>
    ensures ok { IfOk result (IsOption IsChoices [] (option_map (λ t. t.now) text.entry)) }
    ensures usage { IsErrOf result Why.Usage
        → (choices : List ℕ) → IsOption IsChoices [] (option_map (λ t. t.now) text.entry) choices → ⊥ }
{
    match text {
        Some(text) => choices_in(alloc, text),
        None => Ok(List::new(alloc)),
    }
}

/// The choices that a text lists, a digit for each.
///
/// # Errors
///
/// `Usage` where some byte is no digit, `Memory` for want of memory.
fn choices_in(alloc: Global, text: &str) -> Result<List<u8>, WordsFault>
    ensures ok { IfOk result (IsChoices text.now) }
    ensures usage { IsErrOf result Why.Usage → (choices : List ℕ) → IsChoices text.now choices → ⊥ }
{
    if !are_digits(text.as_bytes()) {
        return Err(WordsFault::Usage);
    }
    let choices = values_of(alloc, text.as_bytes())?;
    Ok(choices)
}

fn are_digits(bytes: &[u8]) -> bool
    ensures { IsTrue result ↔ Every IsDigit bytes.now }
{
    for byte in bytes {
        if !byte.is_ascii_digit() {
            return false;
        }
    }
    true
}

/// The values of digits.
fn values_of(alloc: Global, digits: &[u8]) -> Mem<List<u8>>
    requires { Every IsDigit digits.now }
    ensures { IfOk result (λ values. values ≡ map digit_of digits.now) }
{
    let mut values = List::new(alloc);
    for digit in digits {
        values.push(*digit - b'0')?;
    }
    Ok(values)
}

/// The kind of which a text is the name.
///
/// # Errors
///
/// `Usage` where it is no such name.
pub fn kind_in(text: &str) -> Result<Kind, WordsFault>
    ensures { MatchResult result (IsKind text.now)
        (λ why. (why ≡ Why.Usage) × ((kind : What) → IsKind text.now kind → ⊥)) }
{
    match text {
        "list" => Ok(Kind::ListPhases),
        "dll" => Ok(Kind::DllPhases),
        "tree" => Ok(Kind::TreePhases),
        _ => Err(WordsFault::Usage),
    }
}

/// What `malloc` may answer, by what is found under the flag's name.
pub fn mode_of(flag: Option<&str>) -> MallocMode
    ensures { IsMode (option_map (λ t. t.now) flag.entry) result }
{
    match flag {
        Some(text) => mode_in(text),
        None => MallocMode::Always,
    }
}

fn mode_in(text: &str) -> MallocMode
    ensures { IsMode (Some text.now) result }
{
    match text {
        "true" => MallocMode::MayFail,
        _ => MallocMode::Always,
    }
}
