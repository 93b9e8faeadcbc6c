// Statements that are no level.
ghost use Rattle.std.specs.Prelude.{length, IfOk, IfErr, ◌<◌, ◌≤◌, ◌≢◌};
ghost use Rattle.c_grammar.specs.declared.signs.Sign.TheVariants.{End};
ghost use Rattle.c_reader.specs.Bounds.{Reads, Stops};
ghost use Rattle.c_statements.specs.Shapes.{read_assert_stmt, read_empty, read_ended, read_flat, read_maybe_operand};
ghost use Rattle.c_statements.specs.Shapes.{read_return_stmt, read_simple_stmt};

use crate::loops::tested;
use c_ast::{Operand, Stmt};
use c_grammar::{Sign, SyntaxFault};
use c_lexer::Token;
use c_operands::operand;
use c_reader::{Bounds, begins_operand, begins_simple, is_next, peek, take};
use c_simples::simple;
use fore_base::boxed::Boxed;
use fore_base::place::Place;
use std::alloc::Global;

/// `";"`
fn empty<'t>(
    alloc: Global,
    bounds: &Bounds,
    left: &'t [Token],
) -> Result<(Stmt, &'t [Token]), SyntaxFault>
    ensures ok { IfOk result (λ r. Reads read_empty bounds.now left.now r.1.now r.0) }
    ensures shorter { IfOk result (λ r. length r.1.now < length left.now) }
    ensures err { IfErr result (Stops read_empty bounds.now left.now) }
{
    let (token, rest) = take(bounds, left, Sign::Semicolon)?;
    let stmt = Stmt::Empty { at: token.at };
    Ok((stmt, rest))
}

/// `simple ";"`
fn simple_stmt<'t>(
    alloc: Global,
    bounds: &Bounds,
    left: &'t [Token],
) -> Result<(Stmt, &'t [Token]), SyntaxFault>
    ensures ok { IfOk result (λ r. Reads read_simple_stmt bounds.now left.now r.1.now r.0) }
    ensures shorter { IfOk result (λ r. length r.1.now < length left.now) }
    ensures err { IfErr result (Stops read_simple_stmt bounds.now left.now) }
{
    let (simple, rest) = simple(alloc, bounds, left)?;
    let boxed = Boxed::new(alloc, simple)?;
    let (_, rest) = take(bounds, rest, Sign::Semicolon)?;
    let stmt = Stmt::Simple(boxed);
    Ok((stmt, rest))
}

/// `[ operand ]`
fn maybe_operand<'t>(
    alloc: Global,
    bounds: &Bounds,
    left: &'t [Token],
) -> Result<(Option<Operand>, &'t [Token]), SyntaxFault>
    ensures ok { IfOk result (λ r. Reads read_maybe_operand bounds.now left.now r.1.now r.0) }
    ensures shorter { IfOk result (λ r. length r.1.now ≤ length left.now) }
    ensures err { IfErr result (Stops read_maybe_operand bounds.now left.now) }
{
    if begins_operand(peek(left)) {
        let (operand, rest) = operand(alloc, bounds, left)?;
        return Ok((Some(operand), rest));
    }
    Ok((None, left))
}

/// `"return" [ operand ] ";"`
fn return_stmt<'t>(
    alloc: Global,
    bounds: &Bounds,
    left: &'t [Token],
) -> Result<(Stmt, &'t [Token]), SyntaxFault>
    ensures ok { IfOk result (λ r. Reads read_return_stmt bounds.now left.now r.1.now r.0) }
    ensures shorter { IfOk result (λ r. length r.1.now < length left.now) }
    ensures err { IfErr result (Stops read_return_stmt bounds.now left.now) }
{
    let (token, rest) = take(bounds, left, Sign::Return)?;
    let (operand, rest) = maybe_operand(alloc, bounds, rest)?;
    let (_, rest) = take(bounds, rest, Sign::Semicolon)?;
    let stmt = Stmt::Return {
        at: token.at,
        operand,
    };
    Ok((stmt, rest))
}

/// A word, and a semicolon behind it: the place of the word.
fn ended<'t>(
    bounds: &Bounds,
    word: Sign,
    left: &'t [Token],
) -> Result<(Place, &'t [Token]), SyntaxFault>
    requires { word ≢ End }
    ensures ok { IfOk result (λ r. Reads (read_ended word) bounds.now left.now r.1.now r.0) }
    ensures shorter { IfOk result (λ r. length r.1.now < length left.now) }
    ensures err { IfErr result (Stops (read_ended word) bounds.now left.now) }
{
    let (token, rest) = take(bounds, left, word)?;
    let (_, rest) = take(bounds, rest, Sign::Semicolon)?;
    Ok((token.at, rest))
}

/// `"assert" "(" cond ")" ";"`
fn assert_stmt<'t>(
    alloc: Global,
    bounds: &Bounds,
    left: &'t [Token],
) -> Result<(Stmt, &'t [Token]), SyntaxFault>
    ensures ok { IfOk result (λ r. Reads read_assert_stmt bounds.now left.now r.1.now r.0) }
    ensures shorter { IfOk result (λ r. length r.1.now < length left.now) }
    ensures err { IfErr result (Stops read_assert_stmt bounds.now left.now) }
{
    let (head, rest) = tested(alloc, bounds, Sign::Assert, left)?;
    let (_, rest) = take(bounds, rest, Sign::Semicolon)?;
    let (at, cond) = head;
    let stmt = Stmt::Assert { at, cond };
    Ok((stmt, rest))
}

/// A statement that is no level.
pub fn flat<'t>(
    alloc: Global,
    bounds: &Bounds,
    left: &'t [Token],
) -> Result<(Stmt, &'t [Token]), SyntaxFault>
    ensures ok { IfOk result (λ r. Reads read_flat bounds.now left.now r.1.now r.0) }
    ensures shorter { IfOk result (λ r. length r.1.now < length left.now) }
    ensures err { IfErr result (Stops read_flat bounds.now left.now) }
{
    if is_next(left, Sign::Semicolon) {
        return empty(alloc, bounds, left);
    }
    if begins_simple(peek(left)) {
        return simple_stmt(alloc, bounds, left);
    }
    if is_next(left, Sign::Return) {
        return return_stmt(alloc, bounds, left);
    }
    if is_next(left, Sign::Break) {
        let (at, rest) = ended(bounds, Sign::Break, left)?;
        return Ok((Stmt::Break { at }, rest));
    }
    if is_next(left, Sign::Continue) {
        let (at, rest) = ended(bounds, Sign::Continue, left)?;
        return Ok((Stmt::Continue { at }, rest));
    }
    assert_stmt(alloc, bounds, left)
}
