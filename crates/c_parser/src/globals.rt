// What begins with a type and a name: a declaration at file level, or a prototype or a function.
ghost use Rattle.std.specs.Prelude.{length, IfOk, IfErr, ◌<◌, ◌≡◌};
ghost use Rattle.c_reader.specs.Bounds.{Reads, Stops};
ghost use Rattle.c_parser.specs.inner.Shapes as shapes;
ghost use Rattle.c_parser.specs.inner.Shapes.{read_declared_names, read_rest_of};

use crate::functions::called;
use c_ast::{Data, Declarator, Declare, Item, Name, ReturnType};
use c_grammar::{Sign, SyntaxFault};
use c_lexer::Token;
use c_reader::{Bounds, is_next, take};
use c_statements::{alone, maybe_from, more_declarators};
use fore_base::list::List;
use fore_base::place::Place;
use std::alloc::Global;

/// The type that stands before a name: data, or a pointer to a struct.
#[derive(Drop)]
pub enum Base {
    Datum(Data),
    Pointer { at: Place, name: Name },
}

/// The names of a declaration stand behind stars.
fn is_pointer(base: &Base) -> bool
    ensures { result ≡ shapes.is_pointer base.now }
{
    match base {
        Base::Datum(_) => false,
        Base::Pointer { .. } => true,
    }
}

/// What a function gives.
fn gives_of(base: Base) -> ReturnType
    ensures { result ≡ shapes.gives_of base }
{
    match base {
        Base::Datum(data) => ReturnType::Data(data),
        Base::Pointer { at, name } => ReturnType::Pointer { at, name },
    }
}

/// What is declared.
fn declare_of(base: Base, vars: List<Declarator>) -> Declare
    ensures { result ≡ shapes.declare_of base vars }
{
    match base {
        Base::Datum(data) => Declare::Datums { data, vars },
        Base::Pointer { at, name } => Declare::Pointers { at, name, vars },
    }
}

/// What stands after the first name of a declaration.
fn declared_names<'t>(
    alloc: Global,
    bounds: &Bounds,
    base: Base,
    name: Name,
    left: &'t [Token],
) -> Result<(Item, &'t [Token]), SyntaxFault>
    ensures ok { IfOk result (λ r. Reads (read_declared_names base name) bounds.now left.now r.1.now r.0) }
    ensures shorter { IfOk result (λ r. length r.1.now < length left.now) }
    ensures err { IfErr result (Stops (read_declared_names base name) bounds.now left.now) }
{
    let (from, rest) = maybe_from(alloc, bounds, left)?;
    let mut vars = alone(alloc, Declarator { name, from })?;
    let (more, rest) = more_declarators(alloc, bounds, is_pointer(&base), rest)?;
    let (_, rest) = take(bounds, rest, Sign::Semicolon)?;
    vars.append(more)?;
    let item = Item::Declare(declare_of(base, vars));
    Ok((item, rest))
}

/// What stands after a type and a name.
pub fn rest_of<'t>(
    alloc: Global,
    bounds: &Bounds,
    base: Base,
    name: Name,
    left: &'t [Token],
) -> Result<(Item, &'t [Token]), SyntaxFault>
    requires room { 0 < bounds.now.room }
    ensures ok { IfOk result (λ r. Reads (read_rest_of base name) bounds.now left.now r.1.now r.0) }
    ensures shorter { IfOk result (λ r. length r.1.now < length left.now) }
    ensures err { IfErr result (Stops (read_rest_of base name) bounds.now left.now) }
{
    if is_next(left, Sign::Open) {
        return called(alloc, bounds, gives_of(base), name, left);
    }
    declared_names(alloc, bounds, base, name, left)
}
