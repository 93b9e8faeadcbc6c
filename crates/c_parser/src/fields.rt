// The fields of structs.
ghost use Rattle.std.specs.Prelude.{length, IfOk, IfErr, ◌<◌, ◌≤◌};
ghost use Rattle.c_reader.specs.Bounds.{Reads, Stops};
ghost use Rattle.c_parser.specs.inner.Shapes.{read_braced, read_datum_field, read_field, read_field_name};
ghost use Rattle.c_parser.specs.inner.Shapes.{read_maybe_braced, read_names, read_next_name, read_pointer_field};
ghost use Rattle.c_parser.specs.inner.Shapes.{read_some_fields};

use c_ast::{Field, Name};
use c_grammar::{Sign, SyntaxFault};
use c_lexer::Token;
use c_operands::name;
use c_reader::{Bounds, begins_declare, is_next, peek, take};
use c_statements::{data, named};
use fore_base::list::List;
use std::alloc::Global;

/// The name of a field, behind a star where it is a pointer: `[ "*" ] id`
fn field_name<'t>(
    alloc: Global,
    bounds: &Bounds,
    starred: bool,
    left: &'t [Token],
) -> Result<(Name, &'t [Token]), SyntaxFault>
    ensures ok { IfOk result (λ r. Reads (read_field_name starred) bounds.now left.now r.1.now r.0) }
    ensures shorter { IfOk result (λ r. length r.1.now < length left.now) }
    ensures err { IfErr result (Stops (read_field_name starred) bounds.now left.now) }
{
    if !starred {
        return name(alloc, bounds, left);
    }
    let (_, rest) = take(bounds, left, Sign::Star)?;
    let (name, rest) = name(alloc, bounds, rest)?;
    Ok((name, rest))
}

/// `"," field_name`
fn next_name<'t>(
    alloc: Global,
    bounds: &Bounds,
    starred: bool,
    left: &'t [Token],
) -> Result<(Name, &'t [Token]), SyntaxFault>
    ensures ok { IfOk result (λ r. Reads (read_next_name starred) bounds.now left.now r.1.now r.0) }
    ensures shorter { IfOk result (λ r. length r.1.now < length left.now) }
    ensures err { IfErr result (Stops (read_next_name starred) bounds.now left.now) }
{
    let (_, rest) = take(bounds, left, Sign::Comma)?;
    let (name, rest) = field_name(alloc, bounds, starred, rest)?;
    Ok((name, rest))
}

/// `field_name { "," field_name }`
fn names<'t>(
    alloc: Global,
    bounds: &Bounds,
    starred: bool,
    left: &'t [Token],
) -> Result<(List<Name>, &'t [Token]), SyntaxFault>
    ensures ok { IfOk result (λ r. Reads (read_names starred) bounds.now left.now r.1.now r.0) }
    ensures shorter { IfOk result (λ r. length r.1.now < length left.now) }
    ensures err { IfErr result (Stops (read_names starred) bounds.now left.now) }
{
    let mut all = List::new(alloc);
    let (first, rest) = field_name(alloc, bounds, starred, left)?;
    all.push(first)?;
    let mut rest = rest;
    'names: while is_next(rest, Sign::Comma) {
        let (next, after) = next_name(alloc, bounds, starred, rest)?;
        all.push(next)?;
        rest = after;
    }
    Ok((all, rest))
}

/// `"struct" id "*" id { "," "*" id } ";"`
fn pointer_field<'t>(
    alloc: Global,
    bounds: &Bounds,
    left: &'t [Token],
) -> Result<(Field, &'t [Token]), SyntaxFault>
    ensures ok { IfOk result (λ r. Reads read_pointer_field bounds.now left.now r.1.now r.0) }
    ensures shorter { IfOk result (λ r. length r.1.now < length left.now) }
    ensures err { IfErr result (Stops read_pointer_field bounds.now left.now) }
{
    let (head, rest) = named(alloc, bounds, Sign::Struct, left)?;
    let (fields, rest) = names(alloc, bounds, true, rest)?;
    let (_, rest) = take(bounds, rest, Sign::Semicolon)?;
    let (at, name) = head;
    let field = Field::Pointers { at, name, fields };
    Ok((field, rest))
}

/// `data id { "," id } ";"`
fn datum_field<'t>(
    alloc: Global,
    bounds: &Bounds,
    left: &'t [Token],
) -> Result<(Field, &'t [Token]), SyntaxFault>
    ensures ok { IfOk result (λ r. Reads read_datum_field bounds.now left.now r.1.now r.0) }
    ensures shorter { IfOk result (λ r. length r.1.now < length left.now) }
    ensures err { IfErr result (Stops read_datum_field bounds.now left.now) }
{
    let (data, rest) = data(alloc, bounds, left)?;
    let (fields, rest) = names(alloc, bounds, false, rest)?;
    let (_, rest) = take(bounds, rest, Sign::Semicolon)?;
    let field = Field::Datums { data, fields };
    Ok((field, rest))
}

/// `field`: pointers or data.
fn field<'t>(
    alloc: Global,
    bounds: &Bounds,
    left: &'t [Token],
) -> Result<(Field, &'t [Token]), SyntaxFault>
    ensures ok { IfOk result (λ r. Reads read_field bounds.now left.now r.1.now r.0) }
    ensures shorter { IfOk result (λ r. length r.1.now < length left.now) }
    ensures err { IfErr result (Stops read_field bounds.now left.now) }
{
    if is_next(left, Sign::Struct) {
        return pointer_field(alloc, bounds, left);
    }
    datum_field(alloc, bounds, left)
}

/// `field { field }`
fn some_fields<'t>(
    alloc: Global,
    bounds: &Bounds,
    left: &'t [Token],
) -> Result<(List<Field>, &'t [Token]), SyntaxFault>
    ensures ok { IfOk result (λ r. Reads read_some_fields bounds.now left.now r.1.now r.0) }
    ensures shorter { IfOk result (λ r. length r.1.now < length left.now) }
    ensures err { IfErr result (Stops read_some_fields bounds.now left.now) }
{
    let mut all = List::new(alloc);
    let (first, rest) = field(alloc, bounds, left)?;
    all.push(first)?;
    let mut rest = rest;
    'fields: while begins_declare(peek(rest)) {
        let (next, after) = field(alloc, bounds, rest)?;
        all.push(next)?;
        rest = after;
    }
    Ok((all, rest))
}

/// `"{" field { field } "}"`
fn braced<'t>(
    alloc: Global,
    bounds: &Bounds,
    left: &'t [Token],
) -> Result<(List<Field>, &'t [Token]), SyntaxFault>
    ensures ok { IfOk result (λ r. Reads read_braced bounds.now left.now r.1.now r.0) }
    ensures shorter { IfOk result (λ r. length r.1.now < length left.now) }
    ensures err { IfErr result (Stops read_braced bounds.now left.now) }
{
    let (_, rest) = take(bounds, left, Sign::OpenBrace)?;
    let (fields, rest) = some_fields(alloc, bounds, rest)?;
    let (_, rest) = take(bounds, rest, Sign::CloseBrace)?;
    Ok((fields, rest))
}

/// `[ "{" field { field } "}" ]`
pub fn maybe_braced<'t>(
    alloc: Global,
    bounds: &Bounds,
    left: &'t [Token],
) -> Result<(Option<List<Field>>, &'t [Token]), SyntaxFault>
    ensures ok { IfOk result (λ r. Reads read_maybe_braced bounds.now left.now r.1.now r.0) }
    ensures shorter { IfOk result (λ r. length r.1.now ≤ length left.now) }
    ensures err { IfErr result (Stops read_maybe_braced bounds.now left.now) }
{
    if is_next(left, Sign::OpenBrace) {
        let (fields, rest) = braced(alloc, bounds, left)?;
        return Ok((Some(fields), rest));
    }
    Ok((None, left))
}
