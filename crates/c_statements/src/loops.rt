// What stands round the statements that an `if`, a `while`, a `do` and a `for` have within.
ghost use Rattle.std.specs.Prelude.{length, IfOk, IfErr, ◌<◌, ◌≤◌, ◌≢◌};
ghost use Rattle.c_grammar.specs.declared.signs.Sign.TheVariants.{End};
ghost use Rattle.c_reader.specs.Bounds.{Reads, Stops};
ghost use Rattle.c_statements.specs.Shapes.{read_do_tail, read_first, read_first_declare, read_first_simple};
ghost use Rattle.c_statements.specs.Shapes.{read_for_head, read_maybe_cond, read_maybe_first, read_maybe_simple};
ghost use Rattle.c_statements.specs.Shapes.{read_tested};

use crate::declarations::declare;
use c_ast::{Cond, First, Simple};
use c_grammar::{Sign, SyntaxFault};
use c_lexer::Token;
use c_operands::{closed_cond, cond};
use c_reader::{Bounds, begins_cond, begins_declare, begins_simple, peek, take};
use c_simples::simple;
use fore_base::boxed::Boxed;
use fore_base::place::Place;
use std::alloc::Global;

/// A declaration first in the head of a `for`.
fn first_declare<'t>(
    alloc: Global,
    bounds: &Bounds,
    left: &'t [Token],
) -> Result<(Boxed<First>, &'t [Token]), SyntaxFault>
    ensures ok { IfOk result (λ r. Reads read_first_declare bounds.now left.now r.1.now r.0) }
    ensures shorter { IfOk result (λ r. length r.1.now < length left.now) }
    ensures err { IfErr result (Stops read_first_declare bounds.now left.now) }
{
    let (declare, rest) = declare(alloc, bounds, left)?;
    let boxed = Boxed::new(alloc, First::Declare(declare))?;
    Ok((boxed, rest))
}

/// `[ simple ]`, first in the head of a `for`.
fn maybe_first<'t>(
    alloc: Global,
    bounds: &Bounds,
    left: &'t [Token],
) -> Result<(First, &'t [Token]), SyntaxFault>
    ensures ok { IfOk result (λ r. Reads read_maybe_first bounds.now left.now r.1.now r.0) }
    ensures shorter { IfOk result (λ r. length r.1.now ≤ length left.now) }
    ensures err { IfErr result (Stops read_maybe_first bounds.now left.now) }
{
    if begins_simple(peek(left)) {
        let (simple, rest) = simple(alloc, bounds, left)?;
        return Ok((First::Simple(simple), rest));
    }
    Ok((First::Nothing, left))
}

/// `[ simple ] ";"`, first in the head of a `for`.
fn first_simple<'t>(
    alloc: Global,
    bounds: &Bounds,
    left: &'t [Token],
) -> Result<(Boxed<First>, &'t [Token]), SyntaxFault>
    ensures ok { IfOk result (λ r. Reads read_first_simple bounds.now left.now r.1.now r.0) }
    ensures shorter { IfOk result (λ r. length r.1.now < length left.now) }
    ensures err { IfErr result (Stops read_first_simple bounds.now left.now) }
{
    let (first, rest) = maybe_first(alloc, bounds, left)?;
    let boxed = Boxed::new(alloc, first)?;
    let (_, rest) = take(bounds, rest, Sign::Semicolon)?;
    Ok((boxed, rest))
}

/// `declare | [ simple ] ";"`, first in the head of a `for`.
fn first<'t>(
    alloc: Global,
    bounds: &Bounds,
    left: &'t [Token],
) -> Result<(Boxed<First>, &'t [Token]), SyntaxFault>
    ensures ok { IfOk result (λ r. Reads read_first bounds.now left.now r.1.now r.0) }
    ensures shorter { IfOk result (λ r. length r.1.now < length left.now) }
    ensures err { IfErr result (Stops read_first bounds.now left.now) }
{
    if begins_declare(peek(left)) {
        return first_declare(alloc, bounds, left);
    }
    first_simple(alloc, bounds, left)
}

/// `[ cond ]`
fn maybe_cond<'t>(
    alloc: Global,
    bounds: &Bounds,
    left: &'t [Token],
) -> Result<(Option<Cond>, &'t [Token]), SyntaxFault>
    ensures ok { IfOk result (λ r. Reads read_maybe_cond bounds.now left.now r.1.now r.0) }
    ensures shorter { IfOk result (λ r. length r.1.now ≤ length left.now) }
    ensures err { IfErr result (Stops read_maybe_cond bounds.now left.now) }
{
    if begins_cond(peek(left)) {
        let (cond, rest) = cond(alloc, bounds, left)?;
        return Ok((Some(cond), rest));
    }
    Ok((None, left))
}

/// `[ simple ]`
fn maybe_simple<'t>(
    alloc: Global,
    bounds: &Bounds,
    left: &'t [Token],
) -> Result<(Option<Boxed<Simple>>, &'t [Token]), SyntaxFault>
    ensures ok { IfOk result (λ r. Reads read_maybe_simple bounds.now left.now r.1.now r.0) }
    ensures shorter { IfOk result (λ r. length r.1.now ≤ length left.now) }
    ensures err { IfErr result (Stops read_maybe_simple bounds.now left.now) }
{
    if begins_simple(peek(left)) {
        let (simple, rest) = simple(alloc, bounds, left)?;
        let boxed = Boxed::new(alloc, simple)?;
        return Ok((Some(boxed), rest));
    }
    Ok((None, left))
}

/// A word, and a condition in brackets behind it: the place of the word, and the condition.
pub fn tested<'t>(
    alloc: Global,
    bounds: &Bounds,
    word: Sign,
    left: &'t [Token],
) -> Result<((Place, Cond), &'t [Token]), SyntaxFault>
    requires { word ≢ End }
    ensures ok { IfOk result (λ r. Reads (read_tested word) bounds.now left.now r.1.now r.0) }
    ensures shorter { IfOk result (λ r. length r.1.now < length left.now) }
    ensures err { IfErr result (Stops (read_tested word) bounds.now left.now) }
{
    let (token, rest) = take(bounds, left, word)?;
    let (cond, rest) = closed_cond(alloc, bounds, rest)?;
    Ok(((token.at, cond), rest))
}

/// `"for" "(" ( declare | [ simple ] ";" ) [ cond ] ";" [ simple ] ")"`
pub fn for_head<'t>(
    alloc: Global,
    bounds: &Bounds,
    left: &'t [Token],
) -> Result<
    (
        (Place, Boxed<First>, Option<Cond>, Option<Boxed<Simple>>),
        &'t [Token],
    ),
    SyntaxFault,
>
    ensures ok { IfOk result (λ r. Reads read_for_head bounds.now left.now r.1.now r.0) }
    ensures shorter { IfOk result (λ r. length r.1.now < length left.now) }
    ensures err { IfErr result (Stops read_for_head bounds.now left.now) }
{
    let (token, rest) = take(bounds, left, Sign::For)?;
    let (_, rest) = take(bounds, rest, Sign::Open)?;
    let (first, rest) = first(alloc, bounds, rest)?;
    let (cond, rest) = maybe_cond(alloc, bounds, rest)?;
    let (_, rest) = take(bounds, rest, Sign::Semicolon)?;
    let (next, rest) = maybe_simple(alloc, bounds, rest)?;
    let (_, rest) = take(bounds, rest, Sign::Close)?;
    Ok(((token.at, first, cond, next), rest))
}

/// `"while" "(" cond ")" ";"`, after the body of a `do`.
pub fn do_tail<'t>(
    alloc: Global,
    bounds: &Bounds,
    left: &'t [Token],
) -> Result<(Cond, &'t [Token]), SyntaxFault>
    ensures ok { IfOk result (λ r. Reads read_do_tail bounds.now left.now r.1.now r.0) }
    ensures shorter { IfOk result (λ r. length r.1.now < length left.now) }
    ensures err { IfErr result (Stops read_do_tail bounds.now left.now) }
{
    let (_, rest) = take(bounds, left, Sign::While)?;
    let (cond, rest) = closed_cond(alloc, bounds, rest)?;
    let (_, rest) = take(bounds, rest, Sign::Semicolon)?;
    Ok((cond, rest))
}
