// How many statements the functions of a file have, and what `main` weighs.
ghost use Rattle.std.specs.Prelude.{◌≡◌, ◌+◌, ℕ, map, min, nat_lt, length, slice_index, IfOk};
ghost use Rattle.c_typing.specs.Globals.{body_named, calls_of};
ghost use Rattle.c_typing.specs.Weights.{main_weight, statements_in, statements_of};

use crate::bodies::body_named;
use crate::counting::statements_within;
use crate::functions::Functions;
use c_ast::Item;
use c_calls::CallGraph;
use c_typing::limits::WEIGHT;
use fore_base::list::List;
use fore_base::memory::Mem;
use fore_base::text::Text;
use std::alloc::Global;

/// How many statements the body of the function of this name has.
fn statements_named(name: &[u8], items: &[Item]) -> Mem<u32>
    ensures { IfOk result (λ count. count ≡ statements_in (body_named name.now items.now)) }
{
    match body_named(name, items) {
        Some(body) => statements_within(body),
        None => Ok(0),
    }
}

fn all_statements(alloc: Global, texts: &[Text], items: &[Item]) -> Mem<List<u32>>
    ensures { IfOk result (λ counts. counts ≡ map (λ x. statements_in (body_named x items.now)) texts.now) }
{
    let mut counts = List::new(alloc);
    for text in texts {
        let count = statements_named(text.as_slice(), items)?;
        counts.push(count)?;
    }
    Ok(counts)
}

/// For each function, in the order of `calls_of`, how many statements and declarations its body has.
///
/// # Errors
///
/// Want of memory, also past 32 bits.
pub fn statements_of(alloc: Global, items: &[Item]) -> Mem<List<u32>>
    ensures { IfOk result (λ counts. counts ≡ statements_of items.now) }
{
    let functions = Functions::of(alloc, items)?;
    let counts = all_statements(alloc, functions.texts.as_slice(), items)?;
    Ok(counts)
}

/// The last of the numbers; 0 where there is none.
fn last_of(numbers: &List<u32>) -> u32
    ensures { (n : ℕ) → length numbers.now ≡ n + 1 → result ≡ slice_index numbers.now n }
{
    match numbers.len().checked_sub(1) {
        Some(last) => numbers.get_or(last, 0),
        None => 0,
    }
}

/// What `main` weighs, or `cap` where that is less: the statements of its body, and for each call in it what the called
/// function weighs. `graph` is that of the items' calls. Where a function leads to itself, calls are followed as deep
/// as there are functions.
///
/// # Errors
///
/// Want of memory, also past 32 bits.
pub fn main_weight(alloc: Global, graph: &CallGraph, items: &[Item], cap: u32) -> Mem<u32>
    requires { graph.now ≡ calls_of items.now }
    ensures { IfOk result (λ weight. weight ≡ min (main_weight items.now) cap) }
{
    let statements = statements_of(alloc, items)?;
    let weights = graph.weigh(alloc, statements.as_slice(), cap)?;
    Ok(last_of(&weights))
}

/// Whether `main` weighs more than it may. `graph` is that of the items' calls.
///
/// # Errors
///
/// Want of memory, also past 32 bits.
pub fn is_overweight(alloc: Global, graph: &CallGraph, items: &[Item]) -> Mem<bool>
    requires { graph.now ≡ calls_of items.now }
    ensures { IfOk result (λ yes. yes ≡ nat_lt WEIGHT (main_weight items.now)) }
{
    let weight = main_weight(alloc, graph, items, WEIGHT as u32 + 1)?;
    Ok(weight as usize > WEIGHT)
}
