// Numbers and data in texts.

use anyhow::{Context, Result};
use fore_base::list::List;
use fore_base::store::Datum;
use std::alloc::Global;

/// The number of a digit.
pub fn digit(byte: u8) -> Option<u32> {
    match byte {
        b'0'..=b'9' => Some((byte - b'0') as u32),
        _ => None,
    }
}

/// The numbers of the digits.
///
/// # Errors
///
/// A byte that is no digit, and want of memory.
pub fn numbers(alloc: Global, digits: &[u8]) -> Result<List<u32>> {
    let mut made = List::new(alloc);
    for byte in digits {
        made.push(digit(*byte).context("no digit")?)?;
    }
    Ok(made)
}

/// Adds the number: a digit, or more digits between brackets.
///
/// # Errors
///
/// Want of memory.
pub fn put_number(text: &mut String, number: u32) -> Result<()> {
    if number < 10 {
        write!(text, "{number}")?;
    } else {
        write!(text, "({number})")?;
    }
    Ok(())
}

/// Adds the numbers, with nothing between.
///
/// # Errors
///
/// Want of memory.
pub fn put_numbers(text: &mut String, numbers: &[u32]) -> Result<()> {
    for number in numbers {
        put_number(text, *number)?;
    }
    Ok(())
}

/// The data of the bytes: u is undefined, a digit itself, and a letter a number from 10 on; g is 16, one above the
/// greatest.
///
/// # Errors
///
/// A byte that is no datum, and want of memory.
pub fn datums(alloc: Global, bytes: &[u8]) -> Result<List<Datum>> {
    let mut datums = List::new(alloc);
    for byte in bytes {
        datums.push(datum(*byte).context("no such datum")?)?;
    }
    Ok(datums)
}

fn datum(byte: u8) -> Option<Datum> {
    match byte {
        b'u' => Some(Datum::Undefined),
        b'0'..=b'9' => Some(Datum::Known(byte - b'0')),
        b'a'..=b'g' => Some(Datum::Known(byte - b'a' + 10)),
        _ => None,
    }
}

/// Adds the data, with nothing between.
///
/// # Errors
///
/// Want of memory.
pub fn put_datums(text: &mut String, datums: &[Datum]) -> Result<()> {
    for datum in datums {
        put_datum(text, *datum)?;
    }
    Ok(())
}

fn put_datum(text: &mut String, datum: Datum) -> Result<()> {
    match datum {
        Datum::Undefined => text.push('u')?,
        Datum::Known(number) => write!(text, "{number:x}")?,
    }
    Ok(())
}
