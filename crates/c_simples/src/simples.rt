// Sizes, right sides and simple statements.
ghost use Rattle.std.specs.Prelude.{length, IfOk, IfErr, ◌<◌, ◌≤◌};
ghost use Rattle.c_reader.specs.Bounds.{Reads, Stops};
ghost use Rattle.c_simples.specs.Shapes.{read_after_name, read_assigned, read_called_simple, read_cast};
ghost use Rattle.c_simples.specs.Shapes.{read_closed_path, read_closed_size, read_closed_size_inside, read_free};
ghost use Rattle.c_simples.specs.Shapes.{read_malloc, read_maybe_cast, read_operand_rhs, read_rhs, read_simple};
ghost use Rattle.c_simples.specs.Shapes.{read_size, read_size_inside, read_sized, read_starred, read_struct_size};
ghost use Rattle.c_simples.specs.Shapes.{read_word_simple};

use c_ast::{Call, Cast, Name, Path, Rhs, Simple, Size};
use c_grammar::{Sign, SyntaxFault};
use c_lexer::Token;
use c_operands::{arguments, arrows, name, operand, path};
use c_reader::{Bounds, begins_operand, is_next, peek, take};
use fore_base::place::Place;
use std::alloc::Global;

/// `"(" path ")"`
fn closed_path<'t>(
    alloc: Global,
    bounds: &Bounds,
    left: &'t [Token],
) -> Result<(Path, &'t [Token]), SyntaxFault>
    ensures ok { IfOk result (λ r. Reads read_closed_path bounds.now left.now r.1.now r.0) }
    ensures shorter { IfOk result (λ r. length r.1.now < length left.now) }
    ensures err { IfErr result (Stops read_closed_path bounds.now left.now) }
{
    let (_, rest) = take(bounds, left, Sign::Open)?;
    let (path, rest) = path(alloc, bounds, rest)?;
    let (_, rest) = take(bounds, rest, Sign::Close)?;
    Ok((path, rest))
}

/// A star, and a path behind it: the place of the star, and the path.
fn starred<'t>(
    alloc: Global,
    bounds: &Bounds,
    left: &'t [Token],
) -> Result<((Place, Path), &'t [Token]), SyntaxFault>
    ensures ok { IfOk result (λ r. Reads read_starred bounds.now left.now r.1.now r.0) }
    ensures shorter { IfOk result (λ r. length r.1.now < length left.now) }
    ensures err { IfErr result (Stops read_starred bounds.now left.now) }
{
    let (star, rest) = take(bounds, left, Sign::Star)?;
    let (path, rest) = path(alloc, bounds, rest)?;
    Ok(((star.at, path), rest))
}

/// `"struct" id`, in the brackets of a `sizeof`.
fn struct_size<'t>(
    alloc: Global,
    bounds: &Bounds,
    at: Place,
    left: &'t [Token],
) -> Result<(Size, &'t [Token]), SyntaxFault>
    ensures ok { IfOk result (λ r. Reads (read_struct_size at) bounds.now left.now r.1.now r.0) }
    ensures shorter { IfOk result (λ r. length r.1.now < length left.now) }
    ensures err { IfErr result (Stops (read_struct_size at) bounds.now left.now) }
{
    let (_, rest) = take(bounds, left, Sign::Struct)?;
    let (name, rest) = name(alloc, bounds, rest)?;
    let size = Size::Struct { at, name };
    Ok((size, rest))
}

/// What stands in the brackets of a `sizeof`.
fn size_inside<'t>(
    alloc: Global,
    bounds: &Bounds,
    at: Place,
    left: &'t [Token],
) -> Result<(Size, &'t [Token]), SyntaxFault>
    ensures ok { IfOk result (λ r. Reads (read_size_inside at) bounds.now left.now r.1.now r.0) }
    ensures shorter { IfOk result (λ r. length r.1.now < length left.now) }
    ensures err { IfErr result (Stops (read_size_inside at) bounds.now left.now) }
{
    if is_next(left, Sign::Struct) {
        return struct_size(alloc, bounds, at, left);
    }
    let (inside, rest) = starred(alloc, bounds, left)?;
    let (star, path) = inside;
    let size = Size::Bracketed { at, star, path };
    Ok((size, rest))
}

/// What stands in the brackets of a `sizeof`, with the brackets.
fn closed_size_inside<'t>(
    alloc: Global,
    bounds: &Bounds,
    at: Place,
    left: &'t [Token],
) -> Result<(Size, &'t [Token]), SyntaxFault>
    ensures ok { IfOk result (λ r. Reads (read_closed_size_inside at) bounds.now left.now r.1.now r.0) }
    ensures shorter { IfOk result (λ r. length r.1.now < length left.now) }
    ensures err { IfErr result (Stops (read_closed_size_inside at) bounds.now left.now) }
{
    let (_, rest) = take(bounds, left, Sign::Open)?;
    let (size, rest) = size_inside(alloc, bounds, at, rest)?;
    let (_, rest) = take(bounds, rest, Sign::Close)?;
    Ok((size, rest))
}

/// What stands after a `sizeof`.
fn sized<'t>(
    alloc: Global,
    bounds: &Bounds,
    at: Place,
    left: &'t [Token],
) -> Result<(Size, &'t [Token]), SyntaxFault>
    ensures ok { IfOk result (λ r. Reads (read_sized at) bounds.now left.now r.1.now r.0) }
    ensures shorter { IfOk result (λ r. length r.1.now < length left.now) }
    ensures err { IfErr result (Stops (read_sized at) bounds.now left.now) }
{
    if is_next(left, Sign::Open) {
        return closed_size_inside(alloc, bounds, at, left);
    }
    let (bare, rest) = starred(alloc, bounds, left)?;
    let (star, path) = bare;
    let size = Size::Bare { at, star, path };
    Ok((size, rest))
}

/// `size = "sizeof" "(" "struct" id ")" | "sizeof" "(" "*" path ")" | "sizeof" "*" path`
fn size<'t>(
    alloc: Global,
    bounds: &Bounds,
    left: &'t [Token],
) -> Result<(Size, &'t [Token]), SyntaxFault>
    ensures ok { IfOk result (λ r. Reads read_size bounds.now left.now r.1.now r.0) }
    ensures shorter { IfOk result (λ r. length r.1.now < length left.now) }
    ensures err { IfErr result (Stops read_size bounds.now left.now) }
{
    let (token, rest) = take(bounds, left, Sign::Sizeof)?;
    let (size, rest) = sized(alloc, bounds, token.at, rest)?;
    Ok((size, rest))
}

/// `"(" size ")"`
fn closed_size<'t>(
    alloc: Global,
    bounds: &Bounds,
    left: &'t [Token],
) -> Result<(Size, &'t [Token]), SyntaxFault>
    ensures ok { IfOk result (λ r. Reads read_closed_size bounds.now left.now r.1.now r.0) }
    ensures shorter { IfOk result (λ r. length r.1.now < length left.now) }
    ensures err { IfErr result (Stops read_closed_size bounds.now left.now) }
{
    let (_, rest) = take(bounds, left, Sign::Open)?;
    let (size, rest) = size(alloc, bounds, rest)?;
    let (_, rest) = take(bounds, rest, Sign::Close)?;
    Ok((size, rest))
}

/// `"(" "struct" id "*" ")"`
fn cast<'t>(
    alloc: Global,
    bounds: &Bounds,
    left: &'t [Token],
) -> Result<(Cast, &'t [Token]), SyntaxFault>
    ensures ok { IfOk result (λ r. Reads read_cast bounds.now left.now r.1.now r.0) }
    ensures shorter { IfOk result (λ r. length r.1.now < length left.now) }
    ensures err { IfErr result (Stops read_cast bounds.now left.now) }
{
    let (token, rest) = take(bounds, left, Sign::Open)?;
    let (_, rest) = take(bounds, rest, Sign::Struct)?;
    let (name, rest) = name(alloc, bounds, rest)?;
    let (_, rest) = take(bounds, rest, Sign::Star)?;
    let (_, rest) = take(bounds, rest, Sign::Close)?;
    let cast = Cast { at: token.at, name };
    Ok((cast, rest))
}

/// `[ "(" "struct" id "*" ")" ]`
fn maybe_cast<'t>(
    alloc: Global,
    bounds: &Bounds,
    left: &'t [Token],
) -> Result<(Option<Cast>, &'t [Token]), SyntaxFault>
    ensures ok { IfOk result (λ r. Reads read_maybe_cast bounds.now left.now r.1.now r.0) }
    ensures shorter { IfOk result (λ r. length r.1.now ≤ length left.now) }
    ensures err { IfErr result (Stops read_maybe_cast bounds.now left.now) }
{
    if is_next(left, Sign::Open) {
        let (cast, rest) = cast(alloc, bounds, left)?;
        return Ok((Some(cast), rest));
    }
    Ok((None, left))
}

/// `[ "(" "struct" id "*" ")" ] "malloc" "(" size ")"`
fn malloc<'t>(
    alloc: Global,
    bounds: &Bounds,
    left: &'t [Token],
) -> Result<(Rhs, &'t [Token]), SyntaxFault>
    ensures ok { IfOk result (λ r. Reads read_malloc bounds.now left.now r.1.now r.0) }
    ensures shorter { IfOk result (λ r. length r.1.now < length left.now) }
    ensures err { IfErr result (Stops read_malloc bounds.now left.now) }
{
    let (cast, rest) = maybe_cast(alloc, bounds, left)?;
    let (token, rest) = take(bounds, rest, Sign::Malloc)?;
    let (size, rest) = closed_size(alloc, bounds, rest)?;
    let rhs = Rhs::Malloc {
        cast,
        at: token.at,
        size,
    };
    Ok((rhs, rest))
}

/// An operand as a right side.
fn operand_rhs<'t>(
    alloc: Global,
    bounds: &Bounds,
    left: &'t [Token],
) -> Result<(Rhs, &'t [Token]), SyntaxFault>
    ensures ok { IfOk result (λ r. Reads read_operand_rhs bounds.now left.now r.1.now r.0) }
    ensures shorter { IfOk result (λ r. length r.1.now < length left.now) }
    ensures err { IfErr result (Stops read_operand_rhs bounds.now left.now) }
{
    let (operand, rest) = operand(alloc, bounds, left)?;
    let rhs = Rhs::Operand(operand);
    Ok((rhs, rest))
}

/// `rhs = operand | [ "(" "struct" id "*" ")" ] "malloc" "(" size ")"`
pub fn rhs<'t>(
    alloc: Global,
    bounds: &Bounds,
    left: &'t [Token],
) -> Result<(Rhs, &'t [Token]), SyntaxFault>
    ensures ok { IfOk result (λ r. Reads read_rhs bounds.now left.now r.1.now r.0) }
    ensures shorter { IfOk result (λ r. length r.1.now < length left.now) }
    ensures err { IfErr result (Stops read_rhs bounds.now left.now) }
{
    if begins_operand(peek(left)) {
        return operand_rhs(alloc, bounds, left);
    }
    malloc(alloc, bounds, left)
}

/// The arguments of a call that is a statement.
fn called_simple<'t>(
    alloc: Global,
    bounds: &Bounds,
    name: Name,
    left: &'t [Token],
) -> Result<(Simple, &'t [Token]), SyntaxFault>
    ensures ok { IfOk result (λ r. Reads (read_called_simple name) bounds.now left.now r.1.now r.0) }
    ensures shorter { IfOk result (λ r. length r.1.now < length left.now) }
    ensures err { IfErr result (Stops (read_called_simple name) bounds.now left.now) }
{
    let (operands, rest) = arguments(alloc, bounds, left)?;
    let call = Call { name, operands };
    let simple = Simple::Call(call);
    Ok((simple, rest))
}

/// What stands after the first name of an assignment.
fn assigned<'t>(
    alloc: Global,
    bounds: &Bounds,
    name: Name,
    left: &'t [Token],
) -> Result<(Simple, &'t [Token]), SyntaxFault>
    ensures ok { IfOk result (λ r. Reads (read_assigned name) bounds.now left.now r.1.now r.0) }
    ensures shorter { IfOk result (λ r. length r.1.now < length left.now) }
    ensures err { IfErr result (Stops (read_assigned name) bounds.now left.now) }
{
    let (arrows, rest) = arrows(alloc, bounds, left)?;
    let (_, rest) = take(bounds, rest, Sign::Assign)?;
    let (from, rest) = rhs(alloc, bounds, rest)?;
    let to = Path { head: name, arrows };
    let simple = Simple::Assign { to, from };
    Ok((simple, rest))
}

/// What stands after the first name of a call or an assignment.
fn after_name<'t>(
    alloc: Global,
    bounds: &Bounds,
    name: Name,
    left: &'t [Token],
) -> Result<(Simple, &'t [Token]), SyntaxFault>
    ensures ok { IfOk result (λ r. Reads (read_after_name name) bounds.now left.now r.1.now r.0) }
    ensures shorter { IfOk result (λ r. length r.1.now < length left.now) }
    ensures err { IfErr result (Stops (read_after_name name) bounds.now left.now) }
{
    if is_next(left, Sign::Open) {
        return called_simple(alloc, bounds, name, left);
    }
    assigned(alloc, bounds, name, left)
}

/// A call or an assignment.
fn word_simple<'t>(
    alloc: Global,
    bounds: &Bounds,
    left: &'t [Token],
) -> Result<(Simple, &'t [Token]), SyntaxFault>
    ensures ok { IfOk result (λ r. Reads read_word_simple bounds.now left.now r.1.now r.0) }
    ensures shorter { IfOk result (λ r. length r.1.now < length left.now) }
    ensures err { IfErr result (Stops read_word_simple bounds.now left.now) }
{
    let (name, rest) = name(alloc, bounds, left)?;
    let (simple, rest) = after_name(alloc, bounds, name, rest)?;
    Ok((simple, rest))
}

/// `"free" "(" path ")"`
fn free<'t>(
    alloc: Global,
    bounds: &Bounds,
    left: &'t [Token],
) -> Result<(Simple, &'t [Token]), SyntaxFault>
    ensures ok { IfOk result (λ r. Reads read_free bounds.now left.now r.1.now r.0) }
    ensures shorter { IfOk result (λ r. length r.1.now < length left.now) }
    ensures err { IfErr result (Stops read_free bounds.now left.now) }
{
    let (token, rest) = take(bounds, left, Sign::Free)?;
    let (path, rest) = closed_path(alloc, bounds, rest)?;
    let simple = Simple::Free { at: token.at, path };
    Ok((simple, rest))
}

/// `simple = path "=" rhs | call | "free" "(" path ")"`
pub fn simple<'t>(
    alloc: Global,
    bounds: &Bounds,
    left: &'t [Token],
) -> Result<(Simple, &'t [Token]), SyntaxFault>
    ensures ok { IfOk result (λ r. Reads read_simple bounds.now left.now r.1.now r.0) }
    ensures shorter { IfOk result (λ r. length r.1.now < length left.now) }
    ensures err { IfErr result (Stops read_simple bounds.now left.now) }
{
    if is_next(left, Sign::Id) {
        return word_simple(alloc, bounds, left);
    }
    free(alloc, bounds, left)
}
