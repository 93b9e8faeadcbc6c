// Choices of one part of each component, by number.

ghost use Rattle.std.specs.Prelude.{◌≡◌, ◌*◌, ◌≤◌, length, map, IfOk};
ghost use Rattle.fore_base.specs.Lists.{Every};
ghost use Rattle.fa_reach.specs.inner.Parts.{HasPart, choice_count, picked};
ghost use Rattle.fa_reach.specs.inner.Going.{AllFit, AreFit};

use crate::part::Part;
use fore_base::list::{Copies, List};
use fore_base::memory::Mem;
use std::alloc::{AllocError, Global};

/// The most choices that are gone through.
const MOST_CHOICES: usize = 65_536;

/// How many choices there are.
///
/// # Errors
///
/// Want of memory where there are more than are gone through.
pub fn choice_count(all: &[List<Part>]) -> Mem<usize>
    ensures { IfOk result (λ count. count ≡ choice_count all.now) }
{
    let mut count: usize = 1;
    for parts in all {
        count = times(count, parts.len())?;
    }
    Ok(count)
}

/// The product, where it is the number of choices that are gone through.
fn times(count: usize, parts: usize) -> Mem<usize>
    ensures { IfOk result (λ product. product ≡ count * parts) }
{
    match count.checked_mul(parts) {
        Some(product) if product <= MOST_CHOICES => Ok(product),
        _ => Err(AllocError),
    }
}

/// The choice of this number, of parts that fit.
pub fn choice(alloc: Global, all: &[List<Part>], number: usize) -> Mem<List<Part>>
    requires { AllFit (length all.now) all.now }
    ensures value { IfOk result (λ parts. parts ≡ picked all.now number) }
    ensures long { IfOk result (λ parts. length parts ≡ length all.now) }
    ensures fit { IfOk result AreFit }
{
    let parts = picked(alloc, all, number)?;
    Ok(parts)
}

/// The choice of this number: its digits, by how many parts each component has, are the places of the parts.
fn picked(alloc: Global, all: &[List<Part>], number: usize) -> Mem<List<Part>>
    requires { Every HasPart all.now }
    ensures { IfOk result (λ parts. parts ≡ picked all.now number) }
{
    let mut chosen = List::new(alloc);
    let mut rest = number;
    for parts in all {
        let part = parts.at(rest % parts.len()).copy(alloc)?;
        chosen.push(part)?;
        rest /= parts.len();
    }
    Ok(chosen)
}
