// Operands and calls.
ghost use Rattle.std.specs.Prelude.{◌≡◌, ◌≢◌, ◌<◌, ◌≤◌, IfOk, IfErr, length};
ghost use Rattle.c_reader.specs.Bounds.{Reads, Stops};
ghost use Rattle.c_grammar.specs.words.Shapes.{an_argument, next_argument, some_arguments, all_arguments, a_literal};
ghost use Rattle.c_grammar.specs.words.Shapes.{an_operand};
ghost use Rattle.c_grammar.specs.words.Sets as sets;
ghost use Rattle.c_grammar.specs.Signs.{sign_at};
ghost use Rattle.c_grammar.specs.declared.signs.Sign.TheVariants as sign;

use crate::paths::{arrows, name};
use c_ast::{Call, Name, Operand, Path};
use c_grammar::{Sign, SyntaxFault};
use c_lexer::Token;
use c_reader::{Bounds, Level, begins_operand, deeper, is_next, peek, take};
use fore_base::list::{Copies, List};
use std::alloc::Global;

/// `"(" [ operand { "," operand } ] ")"`
#[cycle(operand)]
pub fn arguments<'t>(
    alloc: Global,
    bounds: &Bounds,
    left: &'t [Token],
) -> Result<(List<Operand>, &'t [Token]), SyntaxFault>
    ensures ok { IfOk result (λ r. Reads all_arguments bounds.now left.now r.1.now r.0) }
    ensures shorter { IfOk result (λ r. length r.1.now < length left.now) }
    ensures err { IfErr result (Stops all_arguments bounds.now left.now) }
{
    let (_, rest) = take(bounds, left, Sign::Open)?;
    let (operands, rest) = some_operands(alloc, bounds, rest)?;
    let (_, rest) = take(bounds, rest, Sign::Close)?;
    Ok((operands, rest))
}

/// `[ operand { "," operand } ]`
#[cycle(operand)]
fn some_operands<'t>(
    alloc: Global,
    bounds: &Bounds,
    left: &'t [Token],
) -> Result<(List<Operand>, &'t [Token]), SyntaxFault>
    ensures ok { IfOk result (λ r. Reads some_arguments bounds.now left.now r.1.now r.0) }
    ensures shorter { IfOk result (λ r. length r.1.now ≤ length left.now) }
    ensures err { IfErr result (Stops some_arguments bounds.now left.now) }
{
    if !begins_operand(peek(left)) {
        return Ok((List::new(alloc), left));
    }
    let mut all = List::new(alloc);
    let (first, rest) = argument(alloc, bounds, left)?;
    all.push(first)?;
    let mut rest = rest;
    'operands: while is_next(rest, Sign::Comma) {
        let (next, after) = next_operand(alloc, bounds, rest)?;
        all.push(next)?;
        rest = after;
    }
    Ok((all, rest))
}

/// `"," operand`
#[cycle(operand)]
fn next_operand<'t>(
    alloc: Global,
    bounds: &Bounds,
    left: &'t [Token],
) -> Result<(Operand, &'t [Token]), SyntaxFault>
    ensures ok { IfOk result (λ r. Reads next_argument bounds.now left.now r.1.now r.0) }
    ensures shorter { IfOk result (λ r. length r.1.now < length left.now) }
    ensures err { IfErr result (Stops next_argument bounds.now left.now) }
{
    let (_, rest) = take(bounds, left, Sign::Comma)?;
    let (operand, rest) = argument(alloc, bounds, rest)?;
    Ok((operand, rest))
}

/// An operand of a call: a call in it is a level.
#[cycle(operand)]
fn argument<'t>(
    alloc: Global,
    bounds: &Bounds,
    left: &'t [Token],
) -> Result<(Operand, &'t [Token]), SyntaxFault>
    ensures ok { IfOk result (λ r. Reads an_argument bounds.now left.now r.1.now r.0) }
    ensures shorter { IfOk result (λ r. length r.1.now < length left.now) }
    ensures err { IfErr result (Stops an_argument bounds.now left.now) }
{
    if !is_next(left, Sign::Id) {
        return literal(alloc, bounds, left);
    }
    let (name, rest) = name(alloc, bounds, left)?;
    if !is_next(rest, Sign::Open) {
        let (arrows, rest) = arrows(alloc, bounds, rest)?;
        let path = Path { head: name, arrows };
        return Ok((Operand::Path(path), rest));
    }
    if bounds.room.is_full() {
        return Err(SyntaxFault::Deep { at: name.at });
    }
    let inner = deeper(alloc, bounds, Level::Call);
    let (operands, rest) = arguments(alloc, &inner, rest)?;
    let call = Call { name, operands };
    Ok((Operand::Call(call), rest))
}

/// `operand = path | call | number | "NULL" | "true" | "false"`, not in a call.
pub fn operand<'t>(
    alloc: Global,
    bounds: &Bounds,
    left: &'t [Token],
) -> Result<(Operand, &'t [Token]), SyntaxFault>
    ensures ok { IfOk result (λ r. Reads an_operand bounds.now left.now r.1.now r.0) }
    ensures shorter { IfOk result (λ r. length r.1.now < length left.now) }
    ensures err { IfErr result (Stops an_operand bounds.now left.now) }
{
    if !is_next(left, Sign::Id) {
        return literal(alloc, bounds, left);
    }
    let (name, rest) = name(alloc, bounds, left)?;
    if !is_next(rest, Sign::Open) {
        let (arrows, rest) = arrows(alloc, bounds, rest)?;
        let path = Path { head: name, arrows };
        return Ok((Operand::Path(path), rest));
    }
    let (operands, rest) = arguments(alloc, bounds, rest)?;
    let call = Call { name, operands };
    Ok((Operand::Call(call), rest))
}

/// A number or one of the words for values.
fn literal<'t>(
    alloc: Global,
    bounds: &Bounds,
    left: &'t [Token],
) -> Result<(Operand, &'t [Token]), SyntaxFault>
    ensures ok { IfOk result (λ r. Reads a_literal bounds.now left.now r.1.now r.0) }
    ensures shorter { IfOk result (λ r. length r.1.now < length left.now) }
    ensures err { IfErr result (Stops a_literal bounds.now left.now) }
{
    match peek(left) {
        Sign::Null => {
            let (token, rest) = take(bounds, left, Sign::Null)?;
            Ok((Operand::Null { at: token.at }, rest))
        }
        Sign::True => {
            let (token, rest) = take(bounds, left, Sign::True)?;
            Ok((Operand::True { at: token.at }, rest))
        }
        Sign::False => {
            let (token, rest) = take(bounds, left, Sign::False)?;
            Ok((Operand::False { at: token.at }, rest))
        }
        _ => number(alloc, bounds, left),
    }
}

/// A number, where none of the words for values stands.
fn number<'t>(
    alloc: Global,
    bounds: &Bounds,
    left: &'t [Token],
) -> Result<(Operand, &'t [Token]), SyntaxFault>
    requires null { sign_at left.now ≢ sign.Null }
    requires holds { sign_at left.now ≢ sign.True }
    requires fails { sign_at left.now ≢ sign.False }
    ensures ok { IfOk result (λ r. Reads a_literal bounds.now left.now r.1.now r.0) }
    ensures shorter { IfOk result (λ r. length r.1.now < length left.now) }
    ensures err { IfErr result (Stops a_literal bounds.now left.now) }
{
    let (token, rest) = take(bounds, left, Sign::Number)?;
    let text = token.text.copy(alloc)?;
    let number = Name { text, at: token.at };
    Ok((Operand::Number(number), rest))
}
