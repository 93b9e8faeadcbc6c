// Items, and all of a text.
ghost use Rattle.std.specs.Prelude.{length, IfOk, IfErr, ◌<◌};
ghost use Rattle.c_reader.specs.Bounds.{Reads, Stops};
ghost use Rattle.c_parser.specs.inner.Shapes.{read_all_items, read_extern_item, read_int_item, read_item};
ghost use Rattle.c_parser.specs.inner.Shapes.{read_star_rest, read_struct_end, read_struct_item, read_struct_rest_of};
ghost use Rattle.c_parser.specs.inner.Shapes.{read_void_item};

use crate::enums::enum_item;
use crate::fields::maybe_braced;
use crate::functions::called;
use crate::globals::{Base, rest_of};
use crate::heads::head;
use c_ast::{Data, Item, Name, ReturnType};
use c_grammar::{Sign, SyntaxFault};
use c_lexer::Token;
use c_operands::name;
use c_reader::{Bounds, begins_ending, begins_item, is_next, peek, take};
use c_statements::named;
use fore_base::list::List;
use fore_base::place::Place;
use std::alloc::Global;

/// The fields of a struct, and the semicolon.
fn struct_end<'t>(
    alloc: Global,
    bounds: &Bounds,
    at: Place,
    shape: Name,
    left: &'t [Token],
) -> Result<(Item, &'t [Token]), SyntaxFault>
    ensures ok { IfOk result (λ r. Reads (read_struct_end at shape) bounds.now left.now r.1.now r.0) }
    ensures shorter { IfOk result (λ r. length r.1.now < length left.now) }
    ensures err { IfErr result (Stops (read_struct_end at shape) bounds.now left.now) }
{
    let (fields, rest) = maybe_braced(alloc, bounds, left)?;
    let (_, rest) = take(bounds, rest, Sign::Semicolon)?;
    let item = Item::Struct {
        at,
        name: shape,
        fields,
    };
    Ok((item, rest))
}

/// A pointer to a struct, and what follows it.
fn star_rest<'t>(
    alloc: Global,
    bounds: &Bounds,
    at: Place,
    shape: Name,
    left: &'t [Token],
) -> Result<(Item, &'t [Token]), SyntaxFault>
    requires room { 0 < bounds.now.room }
    ensures ok { IfOk result (λ r. Reads (read_star_rest at shape) bounds.now left.now r.1.now r.0) }
    ensures shorter { IfOk result (λ r. length r.1.now < length left.now) }
    ensures err { IfErr result (Stops (read_star_rest at shape) bounds.now left.now) }
{
    let (_, rest) = take(bounds, left, Sign::Star)?;
    let (name, rest) = name(alloc, bounds, rest)?;
    let base = Base::Pointer { at, name: shape };
    let (item, rest) = rest_of(alloc, bounds, base, name, rest)?;
    Ok((item, rest))
}

/// What stands after `"struct" id`.
fn struct_rest_of<'t>(
    alloc: Global,
    bounds: &Bounds,
    at: Place,
    shape: Name,
    left: &'t [Token],
) -> Result<(Item, &'t [Token]), SyntaxFault>
    requires room { 0 < bounds.now.room }
    ensures ok { IfOk result (λ r. Reads (read_struct_rest_of at shape) bounds.now left.now r.1.now r.0) }
    ensures shorter { IfOk result (λ r. length r.1.now < length left.now) }
    ensures err { IfErr result (Stops (read_struct_rest_of at shape) bounds.now left.now) }
{
    if begins_ending(peek(left)) {
        return struct_end(alloc, bounds, at, shape, left);
    }
    star_rest(alloc, bounds, at, shape, left)
}

/// `"extern"`, and a prototype.
fn extern_item<'t>(
    alloc: Global,
    bounds: &Bounds,
    left: &'t [Token],
) -> Result<(Item, &'t [Token]), SyntaxFault>
    ensures ok { IfOk result (λ r. Reads read_extern_item bounds.now left.now r.1.now r.0) }
    ensures shorter { IfOk result (λ r. length r.1.now < length left.now) }
    ensures err { IfErr result (Stops read_extern_item bounds.now left.now) }
{
    let (token, rest) = take(bounds, left, Sign::Extern)?;
    let (head, rest) = head(alloc, bounds, rest)?;
    let (_, after) = take(bounds, rest, Sign::Semicolon)?;
    let item = Item::Proto {
        outer: Some(token.at),
        head,
    };
    Ok((item, after))
}

/// A prototype or a function that gives nothing.
fn void_item<'t>(
    alloc: Global,
    bounds: &Bounds,
    left: &'t [Token],
) -> Result<(Item, &'t [Token]), SyntaxFault>
    requires room { 0 < bounds.now.room }
    ensures ok { IfOk result (λ r. Reads read_void_item bounds.now left.now r.1.now r.0) }
    ensures shorter { IfOk result (λ r. length r.1.now < length left.now) }
    ensures err { IfErr result (Stops read_void_item bounds.now left.now) }
{
    let (head, rest) = named(alloc, bounds, Sign::Void, left)?;
    let (at, name) = head;
    let gives = ReturnType::Void { at };
    let (item, rest) = called(alloc, bounds, gives, name, rest)?;
    Ok((item, rest))
}

/// An item that begins with `int`.
fn int_item<'t>(
    alloc: Global,
    bounds: &Bounds,
    left: &'t [Token],
) -> Result<(Item, &'t [Token]), SyntaxFault>
    requires room { 0 < bounds.now.room }
    ensures ok { IfOk result (λ r. Reads read_int_item bounds.now left.now r.1.now r.0) }
    ensures shorter { IfOk result (λ r. length r.1.now < length left.now) }
    ensures err { IfErr result (Stops read_int_item bounds.now left.now) }
{
    let (head, rest) = named(alloc, bounds, Sign::Int, left)?;
    let (at, name) = head;
    let base = Base::Datum(Data::Int { at });
    let (item, rest) = rest_of(alloc, bounds, base, name, rest)?;
    Ok((item, rest))
}

/// An item that begins with `struct`.
fn struct_item<'t>(
    alloc: Global,
    bounds: &Bounds,
    left: &'t [Token],
) -> Result<(Item, &'t [Token]), SyntaxFault>
    requires room { 0 < bounds.now.room }
    ensures ok { IfOk result (λ r. Reads read_struct_item bounds.now left.now r.1.now r.0) }
    ensures shorter { IfOk result (λ r. length r.1.now < length left.now) }
    ensures err { IfErr result (Stops read_struct_item bounds.now left.now) }
{
    let (head, rest) = named(alloc, bounds, Sign::Struct, left)?;
    let (at, shape) = head;
    let (item, rest) = struct_rest_of(alloc, bounds, at, shape, rest)?;
    Ok((item, rest))
}

/// `item = structdef | enumdef | proto | function | declare`
fn item<'t>(
    alloc: Global,
    bounds: &Bounds,
    left: &'t [Token],
) -> Result<(Item, &'t [Token]), SyntaxFault>
    requires room { 0 < bounds.now.room }
    ensures ok { IfOk result (λ r. Reads read_item bounds.now left.now r.1.now r.0) }
    ensures shorter { IfOk result (λ r. length r.1.now < length left.now) }
    ensures err { IfErr result (Stops read_item bounds.now left.now) }
{
    if is_next(left, Sign::Extern) {
        return extern_item(alloc, bounds, left);
    }
    if is_next(left, Sign::Void) {
        return void_item(alloc, bounds, left);
    }
    if is_next(left, Sign::Int) {
        return int_item(alloc, bounds, left);
    }
    if is_next(left, Sign::Enum) {
        return enum_item(alloc, bounds, left);
    }
    struct_item(alloc, bounds, left)
}

/// `{ item }`
pub fn all_items<'t>(
    alloc: Global,
    bounds: &Bounds,
    left: &'t [Token],
) -> Result<(List<Item>, &'t [Token]), SyntaxFault>
    requires room { 0 < bounds.now.room }
    ensures ok { IfOk result (λ r. Reads read_all_items bounds.now left.now r.1.now r.0) }
    ensures err { IfErr result (Stops read_all_items bounds.now left.now) }
{
    let mut all = List::new(alloc);
    let mut rest = left;
    'items: while begins_item(peek(rest)) {
        let (one, after) = item(alloc, bounds, rest)?;
        all.push(one)?;
        rest = after;
    }
    Ok((all, rest))
}
