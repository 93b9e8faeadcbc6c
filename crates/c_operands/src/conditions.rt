// Conditions.
ghost use Rattle.std.specs.Prelude.{◌<◌, ◌≡◌, ◌≢◌, true, IfOk, IfErr, length};
ghost use Rattle.c_grammar.specs.words.Sets as sets;
ghost use Rattle.c_reader.specs.Bounds.{Reads, Stops, StepsIn, StaysOut};
ghost use Rattle.c_grammar.specs.words.Shapes.{two_sides, a_comparison, an_inner_unary, a_unary, a_test, next_test};
ghost use Rattle.c_grammar.specs.words.Shapes.{some_tests, next_and, some_ands, a_cond};
ghost use Rattle.c_grammar.specs.declared.signs.Sign.TheVariants as sign;
ghost use Rattle.c_grammar.specs.Signs.{sign_at};
ghost use Rattle.c_operands.specs.Shapes.{read_closed_cond};

use crate::operands::operand;
use c_ast::{And, Cond, Test, Unary};
use c_grammar::{Sign, SyntaxFault};
use c_lexer::Token;
use c_reader::{Bounds, Level, begins_operand, deeper, here, is_next, peek, take};
use fore_base::boxed::Boxed;
use fore_base::list::List;
use std::alloc::Global;

/// A negation or brackets begin with this.
fn begins_nested(sign: Sign) -> bool
    ensures { result ≡ sets.begins_nested sign }
{
    match sign {
        Sign::Not | Sign::Open => true,
        _ => false,
    }
}

/// One level further in, where a negation or brackets begin.
fn step_in(alloc: Global, bounds: &Bounds, left: &[Token]) -> Result<Bounds, SyntaxFault>
    ensures ok { IfOk result (StepsIn sets.begins_nested bounds.now left.now) }
    ensures err { IfErr result (StaysOut sets.begins_nested bounds.now left.now) }
{
    let at = here(bounds.end, left);
    if !begins_nested(peek(left)) {
        return Err(SyntaxFault::Syntax { at });
    }
    if bounds.room.is_full() {
        return Err(SyntaxFault::Deep { at });
    }
    let level = if is_next(left, Sign::Not) {
        Level::Not
    } else {
        Level::Bracket
    };
    let inner = deeper(alloc, bounds, level);
    Ok(inner)
}

/// `"==" | "!="`
fn sides<'t>(bounds: &Bounds, left: &'t [Token]) -> Result<(bool, &'t [Token]), SyntaxFault>
    ensures ok { IfOk result (λ r. Reads two_sides bounds.now left.now r.1.now r.0) }
    ensures shorter { IfOk result (λ r. length r.1.now < length left.now) }
    ensures err { IfErr result (Stops two_sides bounds.now left.now) }
{
    if is_next(left, Sign::Equal) {
        let (_, rest) = take(bounds, left, Sign::Equal)?;
        return Ok((true, rest));
    }
    let (_, rest) = take(bounds, left, Sign::Unequal)?;
    Ok((false, rest))
}

/// A comparison begins with an operand, and here its two sides meet.
fn begins_side(sign: Sign) -> bool
    ensures { result ≡ sets.equals sign }
{
    match sign {
        Sign::Equal | Sign::Unequal => true,
        _ => false,
    }
}

/// `operand [ ( "==" | "!=" ) operand ]`
fn comparison<'t>(
    alloc: Global,
    bounds: &Bounds,
    left: &'t [Token],
) -> Result<(Test, &'t [Token]), SyntaxFault>
    ensures ok { IfOk result (λ r. Reads a_comparison bounds.now left.now r.1.now r.0) }
    ensures shorter { IfOk result (λ r. length r.1.now < length left.now) }
    ensures err { IfErr result (Stops a_comparison bounds.now left.now) }
{
    let (first, rest) = operand(alloc, bounds, left)?;
    if !begins_side(peek(rest)) {
        let alone = Unary::Operand(first);
        return Ok((Test::Unary(alone), rest));
    }
    let (equal, rest) = sides(bounds, rest)?;
    let (right, rest) = operand(alloc, bounds, rest)?;
    let test = Test::Compare {
        left: first,
        equal,
        right,
    };
    Ok((test, rest))
}

/// `cond = and { "||" and }`
#[cycle(cond)]
pub fn cond<'t>(
    alloc: Global,
    bounds: &Bounds,
    left: &'t [Token],
) -> Result<(Cond, &'t [Token]), SyntaxFault>
    ensures ok { IfOk result (λ r. Reads a_cond bounds.now left.now r.1.now r.0) }
    ensures shorter { IfOk result (λ r. length r.1.now < length left.now) }
    ensures err { IfErr result (Stops a_cond bounds.now left.now) }
{
    let (ands, rest) = all_ands(alloc, bounds, left)?;
    let cond = Cond { ands };
    Ok((cond, rest))
}

#[cycle(cond)]
fn all_ands<'t>(
    alloc: Global,
    bounds: &Bounds,
    left: &'t [Token],
) -> Result<(List<And>, &'t [Token]), SyntaxFault>
    ensures ok { IfOk result (λ r. Reads some_ands bounds.now left.now r.1.now r.0) }
    ensures shorter { IfOk result (λ r. length r.1.now < length left.now) }
    ensures err { IfErr result (Stops some_ands bounds.now left.now) }
{
    let mut all = List::new(alloc);
    let (tests, rest) = all_tests(alloc, bounds, left)?;
    all.push(And { tests })?;
    let mut rest = rest;
    'ands: while is_next(rest, Sign::Or) {
        let (next, after) = another_and(alloc, bounds, rest)?;
        all.push(next)?;
        rest = after;
    }
    Ok((all, rest))
}

/// `"||" and`
#[cycle(cond)]
fn another_and<'t>(
    alloc: Global,
    bounds: &Bounds,
    left: &'t [Token],
) -> Result<(And, &'t [Token]), SyntaxFault>
    ensures ok { IfOk result (λ r. Reads next_and bounds.now left.now r.1.now r.0) }
    ensures shorter { IfOk result (λ r. length r.1.now < length left.now) }
    ensures err { IfErr result (Stops next_and bounds.now left.now) }
{
    let (_, rest) = take(bounds, left, Sign::Or)?;
    let (tests, rest) = all_tests(alloc, bounds, rest)?;
    let and = And { tests };
    Ok((and, rest))
}

/// `test { "&&" test }`
#[cycle(cond)]
fn all_tests<'t>(
    alloc: Global,
    bounds: &Bounds,
    left: &'t [Token],
) -> Result<(List<Test>, &'t [Token]), SyntaxFault>
    ensures ok { IfOk result (λ r. Reads some_tests bounds.now left.now r.1.now r.0) }
    ensures shorter { IfOk result (λ r. length r.1.now < length left.now) }
    ensures err { IfErr result (Stops some_tests bounds.now left.now) }
{
    let mut all = List::new(alloc);
    let (first, rest) = test(alloc, bounds, left)?;
    all.push(first)?;
    let mut rest = rest;
    'tests: while is_next(rest, Sign::And) {
        let (next, after) = another_test(alloc, bounds, rest)?;
        all.push(next)?;
        rest = after;
    }
    Ok((all, rest))
}

/// `"&&" test`
#[cycle(cond)]
fn another_test<'t>(
    alloc: Global,
    bounds: &Bounds,
    left: &'t [Token],
) -> Result<(Test, &'t [Token]), SyntaxFault>
    ensures ok { IfOk result (λ r. Reads next_test bounds.now left.now r.1.now r.0) }
    ensures shorter { IfOk result (λ r. length r.1.now < length left.now) }
    ensures err { IfErr result (Stops next_test bounds.now left.now) }
{
    let (_, rest) = take(bounds, left, Sign::And)?;
    let (test, rest) = test(alloc, bounds, rest)?;
    Ok((test, rest))
}

/// `test = operand ( "==" | "!=" ) operand | unary`
#[cycle(cond)]
fn test<'t>(
    alloc: Global,
    bounds: &Bounds,
    left: &'t [Token],
) -> Result<(Test, &'t [Token]), SyntaxFault>
    ensures ok { IfOk result (λ r. Reads a_test bounds.now left.now r.1.now r.0) }
    ensures shorter { IfOk result (λ r. length r.1.now < length left.now) }
    ensures err { IfErr result (Stops a_test bounds.now left.now) }
{
    if begins_operand(peek(left)) {
        return comparison(alloc, bounds, left);
    }
    let inner = step_in(alloc, bounds, left)?;
    let (unary, rest) = nested(alloc, &inner, left)?;
    Ok((Test::Unary(unary), rest))
}

/// `unary = "!" unary | "(" cond ")" | operand`
#[cycle(cond)]
fn unary<'t>(
    alloc: Global,
    bounds: &Bounds,
    left: &'t [Token],
) -> Result<(Unary, &'t [Token]), SyntaxFault>
    ensures ok { IfOk result (λ r. Reads a_unary bounds.now left.now r.1.now r.0) }
    ensures shorter { IfOk result (λ r. length r.1.now < length left.now) }
    ensures err { IfErr result (Stops a_unary bounds.now left.now) }
{
    if begins_operand(peek(left)) {
        let (operand, rest) = operand(alloc, bounds, left)?;
        return Ok((Unary::Operand(operand), rest));
    }
    let inner = step_in(alloc, bounds, left)?;
    let (unary, rest) = nested(alloc, &inner, left)?;
    Ok((unary, rest))
}

/// `"!" unary | "(" cond ")"`, the level of which is counted.
#[cycle(cond)]
fn nested<'t>(
    alloc: Global,
    bounds: &Bounds,
    left: &'t [Token],
) -> Result<(Unary, &'t [Token]), SyntaxFault>
    requires { sets.begins_nested (sign_at left.now) ≡ true }
    ensures ok { IfOk result (λ r. Reads an_inner_unary bounds.now left.now r.1.now r.0) }
    ensures shorter { IfOk result (λ r. length r.1.now < length left.now) }
    ensures err { IfErr result (Stops an_inner_unary bounds.now left.now) }
{
    if !is_next(left, Sign::Not) {
        return brackets(alloc, bounds, left);
    }
    let (token, rest) = take(bounds, left, Sign::Not)?;
    let (unary, rest) = unary(alloc, bounds, rest)?;
    let unary = Boxed::new(alloc, unary)?;
    let not = Unary::Not {
        at: token.at,
        unary,
    };
    Ok((not, rest))
}

/// `"(" cond ")"`
#[cycle(cond)]
fn brackets<'t>(
    alloc: Global,
    bounds: &Bounds,
    left: &'t [Token],
) -> Result<(Unary, &'t [Token]), SyntaxFault>
    requires begins { sets.begins_nested (sign_at left.now) ≡ true }
    requires other { sign_at left.now ≢ sign.Not }
    ensures ok { IfOk result (λ r. Reads an_inner_unary bounds.now left.now r.1.now r.0) }
    ensures shorter { IfOk result (λ r. length r.1.now < length left.now) }
    ensures err { IfErr result (Stops an_inner_unary bounds.now left.now) }
{
    let (token, rest) = take(bounds, left, Sign::Open)?;
    let (cond, rest) = cond(alloc, bounds, rest)?;
    let (_, rest) = take(bounds, rest, Sign::Close)?;
    let bracket = Unary::Bracket { at: token.at, cond };
    Ok((bracket, rest))
}

/// `"(" cond ")"`
pub fn closed_cond<'t>(
    alloc: Global,
    bounds: &Bounds,
    left: &'t [Token],
) -> Result<(Cond, &'t [Token]), SyntaxFault>
    ensures ok { IfOk result (λ r. Reads read_closed_cond bounds.now left.now r.1.now r.0) }
    ensures shorter { IfOk result (λ r. length r.1.now < length left.now) }
    ensures err { IfErr result (Stops read_closed_cond bounds.now left.now) }
{
    let (_, rest) = take(bounds, left, Sign::Open)?;
    let (cond, rest) = cond(alloc, bounds, rest)?;
    let (_, rest) = take(bounds, rest, Sign::Close)?;
    Ok((cond, rest))
}
