// Declarations.
ghost use Rattle.std.specs.Prelude.{[], length, IfOk, IfErr, ◌<◌, ◌≤◌, ◌≡◌, ◌≢◌, ◌∷◌};
ghost use Rattle.c_grammar.specs.declared.signs.Sign.TheVariants.{End};
ghost use Rattle.c_reader.specs.Bounds.{Reads, Stops};
ghost use Rattle.c_statements.specs.Shapes.{read_data, read_datum_declare, read_declarator, read_declarators};
ghost use Rattle.c_statements.specs.Shapes.{read_declare, read_enum_data, read_init_declarator, read_initial};
ghost use Rattle.c_statements.specs.Shapes.{read_int_data, read_maybe_from, read_more_declarators, read_named};
ghost use Rattle.c_statements.specs.Shapes.{read_next_declarator, read_pointer_declare};

use c_ast::{Data, Declarator, Declare, Name, Rhs};
use c_grammar::{Sign, SyntaxFault};
use c_lexer::Token;
use c_operands::name;
use c_reader::{Bounds, is_next, take};
use c_simples::rhs;
use fore_base::list::List;
use fore_base::place::Place;
use std::alloc::{AllocError, Global};

/// A word, and a name behind it: the place of the word, and the name.
pub fn named<'t>(
    alloc: Global,
    bounds: &Bounds,
    word: Sign,
    left: &'t [Token],
) -> Result<((Place, Name), &'t [Token]), SyntaxFault>
    requires { word ≢ End }
    ensures ok { IfOk result (λ r. Reads (read_named word) bounds.now left.now r.1.now r.0) }
    ensures shorter { IfOk result (λ r. length r.1.now < length left.now) }
    ensures err { IfErr result (Stops (read_named word) bounds.now left.now) }
{
    let (token, rest) = take(bounds, left, word)?;
    let (name, rest) = name(alloc, bounds, rest)?;
    Ok(((token.at, name), rest))
}

/// `"int"`
fn int_data<'t>(
    alloc: Global,
    bounds: &Bounds,
    left: &'t [Token],
) -> Result<(Data, &'t [Token]), SyntaxFault>
    ensures ok { IfOk result (λ r. Reads read_int_data bounds.now left.now r.1.now r.0) }
    ensures shorter { IfOk result (λ r. length r.1.now < length left.now) }
    ensures err { IfErr result (Stops read_int_data bounds.now left.now) }
{
    let (token, rest) = take(bounds, left, Sign::Int)?;
    let data = Data::Int { at: token.at };
    Ok((data, rest))
}

/// `"enum" id`
fn enum_data<'t>(
    alloc: Global,
    bounds: &Bounds,
    left: &'t [Token],
) -> Result<(Data, &'t [Token]), SyntaxFault>
    ensures ok { IfOk result (λ r. Reads read_enum_data bounds.now left.now r.1.now r.0) }
    ensures shorter { IfOk result (λ r. length r.1.now < length left.now) }
    ensures err { IfErr result (Stops read_enum_data bounds.now left.now) }
{
    let (head, rest) = named(alloc, bounds, Sign::Enum, left)?;
    let (at, name) = head;
    let data = Data::Enum { at, name };
    Ok((data, rest))
}

/// `data = "int" | "enum" id`
pub fn data<'t>(
    alloc: Global,
    bounds: &Bounds,
    left: &'t [Token],
) -> Result<(Data, &'t [Token]), SyntaxFault>
    ensures ok { IfOk result (λ r. Reads read_data bounds.now left.now r.1.now r.0) }
    ensures shorter { IfOk result (λ r. length r.1.now < length left.now) }
    ensures err { IfErr result (Stops read_data bounds.now left.now) }
{
    if is_next(left, Sign::Int) {
        return int_data(alloc, bounds, left);
    }
    enum_data(alloc, bounds, left)
}

/// `"=" rhs`
fn initial<'t>(
    alloc: Global,
    bounds: &Bounds,
    left: &'t [Token],
) -> Result<(Rhs, &'t [Token]), SyntaxFault>
    ensures ok { IfOk result (λ r. Reads read_initial bounds.now left.now r.1.now r.0) }
    ensures shorter { IfOk result (λ r. length r.1.now < length left.now) }
    ensures err { IfErr result (Stops read_initial bounds.now left.now) }
{
    let (_, rest) = take(bounds, left, Sign::Assign)?;
    let (rhs, rest) = rhs(alloc, bounds, rest)?;
    Ok((rhs, rest))
}

/// `[ "=" rhs ]`
pub fn maybe_from<'t>(
    alloc: Global,
    bounds: &Bounds,
    left: &'t [Token],
) -> Result<(Option<Rhs>, &'t [Token]), SyntaxFault>
    ensures ok { IfOk result (λ r. Reads read_maybe_from bounds.now left.now r.1.now r.0) }
    ensures shorter { IfOk result (λ r. length r.1.now ≤ length left.now) }
    ensures err { IfErr result (Stops read_maybe_from bounds.now left.now) }
{
    if is_next(left, Sign::Assign) {
        let (rhs, rest) = initial(alloc, bounds, left)?;
        return Ok((Some(rhs), rest));
    }
    Ok((None, left))
}

/// `id [ "=" rhs ]`
fn declarator<'t>(
    alloc: Global,
    bounds: &Bounds,
    left: &'t [Token],
) -> Result<(Declarator, &'t [Token]), SyntaxFault>
    ensures ok { IfOk result (λ r. Reads read_declarator bounds.now left.now r.1.now r.0) }
    ensures shorter { IfOk result (λ r. length r.1.now < length left.now) }
    ensures err { IfErr result (Stops read_declarator bounds.now left.now) }
{
    let (name, rest) = name(alloc, bounds, left)?;
    let (from, rest) = maybe_from(alloc, bounds, rest)?;
    let declarator = Declarator { name, from };
    Ok((declarator, rest))
}

/// A declarator with what it starts with, behind a star where pointers are declared: `[ "*" ] id [ "=" rhs ]`
fn init_declarator<'t>(
    alloc: Global,
    bounds: &Bounds,
    starred: bool,
    left: &'t [Token],
) -> Result<(Declarator, &'t [Token]), SyntaxFault>
    ensures ok { IfOk result (λ r. Reads (read_init_declarator starred) bounds.now left.now r.1.now r.0) }
    ensures shorter { IfOk result (λ r. length r.1.now < length left.now) }
    ensures err { IfErr result (Stops (read_init_declarator starred) bounds.now left.now) }
{
    if !starred {
        return declarator(alloc, bounds, left);
    }
    let (_, rest) = take(bounds, left, Sign::Star)?;
    let (declarator, rest) = declarator(alloc, bounds, rest)?;
    Ok((declarator, rest))
}

/// `"," init_declarator`
fn next_declarator<'t>(
    alloc: Global,
    bounds: &Bounds,
    starred: bool,
    left: &'t [Token],
) -> Result<(Declarator, &'t [Token]), SyntaxFault>
    ensures ok { IfOk result (λ r. Reads (read_next_declarator starred) bounds.now left.now r.1.now r.0) }
    ensures shorter { IfOk result (λ r. length r.1.now < length left.now) }
    ensures err { IfErr result (Stops (read_next_declarator starred) bounds.now left.now) }
{
    let (_, rest) = take(bounds, left, Sign::Comma)?;
    let (declarator, rest) = init_declarator(alloc, bounds, starred, rest)?;
    Ok((declarator, rest))
}

/// `{ "," init_declarator }`
pub fn more_declarators<'t>(
    alloc: Global,
    bounds: &Bounds,
    starred: bool,
    left: &'t [Token],
) -> Result<(List<Declarator>, &'t [Token]), SyntaxFault>
    ensures ok { IfOk result (λ r. Reads (read_more_declarators starred) bounds.now left.now r.1.now r.0) }
    ensures shorter { IfOk result (λ r. length r.1.now ≤ length left.now) }
    ensures err { IfErr result (Stops (read_more_declarators starred) bounds.now left.now) }
{
    let mut all = List::new(alloc);
    let mut rest = left;
    'declarators: while is_next(rest, Sign::Comma) {
        let (next, after) = next_declarator(alloc, bounds, starred, rest)?;
        all.push(next)?;
        rest = after;
    }
    Ok((all, rest))
}

/// A list of one item. What is read next goes behind it, so that no wide value is held meanwhile.
pub fn alone<T: Drop>(alloc: Global, item: T) -> Result<List<T>, AllocError>
    ensures { IfOk result (λ all. all ≡ item ∷ []) }
{
    let mut all = List::new(alloc);
    all.push(item)?;
    Ok(all)
}

/// `init_declarator { "," init_declarator }`
fn declarators<'t>(
    alloc: Global,
    bounds: &Bounds,
    starred: bool,
    left: &'t [Token],
) -> Result<(List<Declarator>, &'t [Token]), SyntaxFault>
    ensures ok { IfOk result (λ r. Reads (read_declarators starred) bounds.now left.now r.1.now r.0) }
    ensures shorter { IfOk result (λ r. length r.1.now < length left.now) }
    ensures err { IfErr result (Stops (read_declarators starred) bounds.now left.now) }
{
    let (first, rest) = init_declarator(alloc, bounds, starred, left)?;
    let mut all = alone(alloc, first)?;
    let (more, rest) = more_declarators(alloc, bounds, starred, rest)?;
    all.append(more)?;
    Ok((all, rest))
}

/// `"struct" id "*" id [ "=" rhs ] { "," "*" id [ "=" rhs ] } ";"`
fn pointer_declare<'t>(
    alloc: Global,
    bounds: &Bounds,
    left: &'t [Token],
) -> Result<(Declare, &'t [Token]), SyntaxFault>
    ensures ok { IfOk result (λ r. Reads read_pointer_declare bounds.now left.now r.1.now r.0) }
    ensures shorter { IfOk result (λ r. length r.1.now < length left.now) }
    ensures err { IfErr result (Stops read_pointer_declare bounds.now left.now) }
{
    let (head, rest) = named(alloc, bounds, Sign::Struct, left)?;
    let (vars, rest) = declarators(alloc, bounds, true, rest)?;
    let (_, rest) = take(bounds, rest, Sign::Semicolon)?;
    let (at, name) = head;
    let declare = Declare::Pointers { at, name, vars };
    Ok((declare, rest))
}

/// `data id [ "=" rhs ] { "," id [ "=" rhs ] } ";"`
fn datum_declare<'t>(
    alloc: Global,
    bounds: &Bounds,
    left: &'t [Token],
) -> Result<(Declare, &'t [Token]), SyntaxFault>
    ensures ok { IfOk result (λ r. Reads read_datum_declare bounds.now left.now r.1.now r.0) }
    ensures shorter { IfOk result (λ r. length r.1.now < length left.now) }
    ensures err { IfErr result (Stops read_datum_declare bounds.now left.now) }
{
    let (data, rest) = data(alloc, bounds, left)?;
    let (vars, rest) = declarators(alloc, bounds, false, rest)?;
    let (_, rest) = take(bounds, rest, Sign::Semicolon)?;
    let declare = Declare::Datums { data, vars };
    Ok((declare, rest))
}

/// `declare`: pointers or data, with what they start with.
pub fn declare<'t>(
    alloc: Global,
    bounds: &Bounds,
    left: &'t [Token],
) -> Result<(Declare, &'t [Token]), SyntaxFault>
    ensures ok { IfOk result (λ r. Reads read_declare bounds.now left.now r.1.now r.0) }
    ensures shorter { IfOk result (λ r. length r.1.now < length left.now) }
    ensures err { IfErr result (Stops read_declare bounds.now left.now) }
{
    if is_next(left, Sign::Struct) {
        return pointer_declare(alloc, bounds, left);
    }
    datum_declare(alloc, bounds, left)
}
