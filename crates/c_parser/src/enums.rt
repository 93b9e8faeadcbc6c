// Items that begin with `enum`.
ghost use Rattle.std.specs.Prelude.{length, IfOk, IfErr, ◌<◌};
ghost use Rattle.c_reader.specs.Bounds.{Reads, Stops};
ghost use Rattle.c_parser.specs.inner.Shapes.{read_enum_body, read_enum_item, read_enum_named, read_enum_rest_of};
ghost use Rattle.c_parser.specs.inner.Shapes.{read_more_names};
ghost use Rattle.c_parser.specs.inner.Values.{ValueStep, ValueStops};

use crate::globals::{Base, rest_of};
use c_ast::{Data, Item, Name};
use c_grammar::{Sign, SyntaxFault};
use c_lexer::Token;
use c_operands::name;
use c_reader::{Bounds, is_next, take};
use c_statements::{alone, named};
use fore_base::list::List;
use fore_base::place::Place;
use std::alloc::Global;

/// One more name, with the comma before it, or the end of the names.
fn next_value<'t>(
    alloc: Global,
    bounds: &Bounds,
    left: &'t [Token],
) -> Result<(Option<Name>, &'t [Token]), SyntaxFault>
    ensures ok { IfOk result (λ r. ValueStep bounds.now.room left.now r.1.now r.0) }
    ensures shorter { IfOk result (λ r. length r.1.now < length left.now) }
    ensures err { IfErr result (ValueStops bounds.now.room bounds.now.end left.now) }
{
    if !is_next(left, Sign::Comma) {
        let (_, rest) = take(bounds, left, Sign::CloseBrace)?;
        return Ok((None, rest));
    }
    let (_, after) = take(bounds, left, Sign::Comma)?;
    if !is_next(after, Sign::Id) {
        let (_, rest) = take(bounds, after, Sign::CloseBrace)?;
        return Ok((None, rest));
    }
    let (next, rest) = name(alloc, bounds, after)?;
    Ok((Some(next), rest))
}

/// `{ "," id } [ "," ] "}"`
fn more_names<'t>(
    alloc: Global,
    bounds: &Bounds,
    left: &'t [Token],
) -> Result<(List<Name>, &'t [Token]), SyntaxFault>
    ensures ok { IfOk result (λ r. Reads read_more_names bounds.now left.now r.1.now r.0) }
    ensures shorter { IfOk result (λ r. length r.1.now < length left.now) }
    ensures err { IfErr result (Stops read_more_names bounds.now left.now) }
{
    let mut all = List::new(alloc);
    let mut rest = left;
    'names: loop {
        let (next, after) = next_value(alloc, bounds, rest)?;
        rest = after;
        match next {
            Some(value) => all.push(value)?,
            None => return Ok((all, rest)),
        }
    }
}

/// The names of an enumeration, in braces, and the semicolon.
fn enum_body<'t>(
    alloc: Global,
    bounds: &Bounds,
    at: Place,
    shape: Name,
    left: &'t [Token],
) -> Result<(Item, &'t [Token]), SyntaxFault>
    ensures ok { IfOk result (λ r. Reads (read_enum_body at shape) bounds.now left.now r.1.now r.0) }
    ensures shorter { IfOk result (λ r. length r.1.now < length left.now) }
    ensures err { IfErr result (Stops (read_enum_body at shape) bounds.now left.now) }
{
    let (_, rest) = take(bounds, left, Sign::OpenBrace)?;
    let (first, rest) = name(alloc, bounds, rest)?;
    let mut values = alone(alloc, first)?;
    let (later, rest) = more_names(alloc, bounds, rest)?;
    let (_, rest) = take(bounds, rest, Sign::Semicolon)?;
    values.append(later)?;
    let item = Item::Enum {
        at,
        name: shape,
        values,
    };
    Ok((item, rest))
}

/// A name after an enumeration, and what follows it.
fn enum_named<'t>(
    alloc: Global,
    bounds: &Bounds,
    at: Place,
    shape: Name,
    left: &'t [Token],
) -> Result<(Item, &'t [Token]), SyntaxFault>
    requires room { 0 < bounds.now.room }
    ensures ok { IfOk result (λ r. Reads (read_enum_named at shape) bounds.now left.now r.1.now r.0) }
    ensures shorter { IfOk result (λ r. length r.1.now < length left.now) }
    ensures err { IfErr result (Stops (read_enum_named at shape) bounds.now left.now) }
{
    let (name, rest) = name(alloc, bounds, left)?;
    let base = Base::Datum(Data::Enum { at, name: shape });
    let (item, rest) = rest_of(alloc, bounds, base, name, rest)?;
    Ok((item, rest))
}

/// What stands after `"enum" id`.
fn enum_rest_of<'t>(
    alloc: Global,
    bounds: &Bounds,
    at: Place,
    shape: Name,
    left: &'t [Token],
) -> Result<(Item, &'t [Token]), SyntaxFault>
    requires room { 0 < bounds.now.room }
    ensures ok { IfOk result (λ r. Reads (read_enum_rest_of at shape) bounds.now left.now r.1.now r.0) }
    ensures shorter { IfOk result (λ r. length r.1.now < length left.now) }
    ensures err { IfErr result (Stops (read_enum_rest_of at shape) bounds.now left.now) }
{
    if is_next(left, Sign::OpenBrace) {
        return enum_body(alloc, bounds, at, shape, left);
    }
    enum_named(alloc, bounds, at, shape, left)
}

/// An item that begins with `enum`.
pub fn enum_item<'t>(
    alloc: Global,
    bounds: &Bounds,
    left: &'t [Token],
) -> Result<(Item, &'t [Token]), SyntaxFault>
    requires room { 0 < bounds.now.room }
    ensures ok { IfOk result (λ r. Reads read_enum_item bounds.now left.now r.1.now r.0) }
    ensures shorter { IfOk result (λ r. length r.1.now < length left.now) }
    ensures err { IfErr result (Stops read_enum_item bounds.now left.now) }
{
    let (head, rest) = named(alloc, bounds, Sign::Enum, left)?;
    let (at, shape) = head;
    let (item, rest) = enum_rest_of(alloc, bounds, at, shape, rest)?;
    Ok((item, rest))
}
