// Statements and blocks.
ghost use Rattle.std.specs.Prelude.{length, IfOk, IfErr, IsErr, ◌<◌, ◌≤◌, ◌≡◌, true};
ghost use Rattle.c_grammar.specs.Hopeless.{place_at};
ghost use Rattle.c_grammar.specs.Signs.{sign_at};
ghost use Rattle.c_grammar.specs.declared.fault.SyntaxFault.TheVariants.{Deep};
ghost use Rattle.c_grammar.specs.declared.signs.Sign.TheVariants as sign;
ghost use Rattle.c_grammar.specs.words.Parted as sets;
ghost use Rattle.c_reader.specs.Bounds.{Reads, Stops, StepsIn};
ghost use Rattle.c_statements.specs.Shapes.{read_block, read_block_stmt, read_do_stmt, read_for_stmt, read_if_stmt};
ghost use Rattle.c_statements.specs.Shapes.{read_nested, read_other, read_part, read_parts, read_stmt};
ghost use Rattle.c_statements.specs.Shapes.{read_while_stmt};

use crate::declarations::declare;
use crate::flat::flat;
use crate::loops::{do_tail, for_head, tested};
use c_ast::{Block, Part, Stmt};
use c_grammar::{Sign, SyntaxFault};
use c_lexer::Token;
use c_reader::{
    Bounds, Level, begins_declare, begins_level, begins_part, deeper, here, is_next, peek, take,
};
use fore_base::boxed::Boxed;
use fore_base::list::List;
use std::alloc::Global;

/// What opens a level, where one begins.
fn level_of(sign: Sign) -> Level {
    match sign {
        Sign::If => Level::If,
        Sign::While => Level::While,
        Sign::Do => Level::Do,
        Sign::For => Level::For,
        _ => Level::Block,
    }
}

/// One level further in, where a statement begins that is one.
fn step_in(alloc: Global, bounds: &Bounds, left: &[Token]) -> Result<Bounds, SyntaxFault>
    requires { sets.begins_level (sign_at left.now) ≡ true }
    ensures ok { IfOk result (StepsIn sets.begins_level bounds.now left.now) }
    ensures err { IfErr result (λ e. (e ≡ Deep (place_at bounds.now.end left.now)) × (bounds.now.room ≡ 0)) }
{
    let at = here(bounds.end, left);
    if bounds.room.is_full() {
        return Err(SyntaxFault::Deep { at });
    }
    let inner = deeper(alloc, bounds, level_of(peek(left)));
    Ok(inner)
}

/// `declare | stmt`
#[cycle(stmt)]
fn part<'t>(
    alloc: Global,
    bounds: &Bounds,
    left: &'t [Token],
) -> Result<(Part, &'t [Token]), SyntaxFault>
    ensures ok { IfOk result (λ r. Reads read_part bounds.now left.now r.1.now r.0) }
    ensures shorter { IfOk result (λ r. length r.1.now < length left.now) }
    ensures err { IfErr result (Stops read_part bounds.now left.now) }
{
    if begins_declare(peek(left)) {
        let (declare, rest) = declare(alloc, bounds, left)?;
        return Ok((Part::Declare(declare), rest));
    }
    let (stmt, rest) = stmt(alloc, bounds, left)?;
    Ok((Part::Stmt(stmt), rest))
}

/// `{ declare | stmt }`
#[cycle(stmt)]
fn parts<'t>(
    alloc: Global,
    bounds: &Bounds,
    left: &'t [Token],
) -> Result<(List<Part>, &'t [Token]), SyntaxFault>
    ensures ok { IfOk result (λ r. Reads read_parts bounds.now left.now r.1.now r.0) }
    ensures shorter { IfOk result (λ r. length r.1.now ≤ length left.now) }
    ensures err { IfErr result (Stops read_parts bounds.now left.now) }
{
    let mut all = List::new(alloc);
    let mut rest = left;
    'parts: while begins_part(peek(rest)) {
        let (one, after) = part(alloc, bounds, rest)?;
        all.push(one)?;
        rest = after;
    }
    Ok((all, rest))
}

/// `block = "{" { declare | stmt } "}"`, the level of which is counted.
#[cycle(stmt)]
pub fn block<'t>(
    alloc: Global,
    bounds: &Bounds,
    left: &'t [Token],
) -> Result<(Block, &'t [Token]), SyntaxFault>
    ensures ok { IfOk result (λ r. Reads read_block bounds.now left.now r.1.now r.0) }
    ensures shorter { IfOk result (λ r. length r.1.now < length left.now) }
    ensures err { IfErr result (Stops read_block bounds.now left.now) }
{
    let (open, rest) = take(bounds, left, Sign::OpenBrace)?;
    let (parts, rest) = parts(alloc, bounds, rest)?;
    let (close, rest) = take(bounds, rest, Sign::CloseBrace)?;
    let block = Block {
        at: open.at,
        parts,
        close: close.at,
    };
    Ok((block, rest))
}

/// `[ "else" stmt ]`
#[cycle(stmt)]
fn other<'t>(
    alloc: Global,
    bounds: &Bounds,
    left: &'t [Token],
) -> Result<(Option<Boxed<Stmt>>, &'t [Token]), SyntaxFault>
    ensures ok { IfOk result (λ r. Reads read_other bounds.now left.now r.1.now r.0) }
    ensures shorter { IfOk result (λ r. length r.1.now ≤ length left.now) }
    ensures begins { IsErr result → sign_at left.now ≡ sign.Else }
    ensures err { IfErr result (Stops read_other bounds.now left.now) }
{
    if is_next(left, Sign::Else) {
        let (_, rest) = take(bounds, left, Sign::Else)?;
        let (stmt, rest) = stmt(alloc, bounds, rest)?;
        let stmt = Boxed::new(alloc, stmt)?;
        return Ok((Some(stmt), rest));
    }
    Ok((None, left))
}

/// `"if" "(" cond ")" stmt [ "else" stmt ]`
#[cycle(stmt)]
fn if_stmt<'t>(
    alloc: Global,
    bounds: &Bounds,
    left: &'t [Token],
) -> Result<(Stmt, &'t [Token]), SyntaxFault>
    ensures ok { IfOk result (λ r. Reads read_if_stmt bounds.now left.now r.1.now r.0) }
    ensures shorter { IfOk result (λ r. length r.1.now < length left.now) }
    ensures err { IfErr result (Stops read_if_stmt bounds.now left.now) }
{
    let (head, rest) = tested(alloc, bounds, Sign::If, left)?;
    let (then, rest) = stmt(alloc, bounds, rest)?;
    let then = Boxed::new(alloc, then)?;
    let (other, rest) = other(alloc, bounds, rest)?;
    let (at, cond) = head;
    let stmt = Stmt::If {
        at,
        cond,
        then,
        other,
    };
    Ok((stmt, rest))
}

/// `"while" "(" cond ")" stmt`
#[cycle(stmt)]
fn while_stmt<'t>(
    alloc: Global,
    bounds: &Bounds,
    left: &'t [Token],
) -> Result<(Stmt, &'t [Token]), SyntaxFault>
    ensures ok { IfOk result (λ r. Reads read_while_stmt bounds.now left.now r.1.now r.0) }
    ensures shorter { IfOk result (λ r. length r.1.now < length left.now) }
    ensures err { IfErr result (Stops read_while_stmt bounds.now left.now) }
{
    let (head, rest) = tested(alloc, bounds, Sign::While, left)?;
    let (body, rest) = stmt(alloc, bounds, rest)?;
    let body = Boxed::new(alloc, body)?;
    let (at, cond) = head;
    let stmt = Stmt::While { at, cond, body };
    Ok((stmt, rest))
}

/// `"do" stmt "while" "(" cond ")" ";"`
#[cycle(stmt)]
fn do_stmt<'t>(
    alloc: Global,
    bounds: &Bounds,
    left: &'t [Token],
) -> Result<(Stmt, &'t [Token]), SyntaxFault>
    ensures ok { IfOk result (λ r. Reads read_do_stmt bounds.now left.now r.1.now r.0) }
    ensures shorter { IfOk result (λ r. length r.1.now < length left.now) }
    ensures err { IfErr result (Stops read_do_stmt bounds.now left.now) }
{
    let (token, rest) = take(bounds, left, Sign::Do)?;
    let (body, rest) = stmt(alloc, bounds, rest)?;
    let body = Boxed::new(alloc, body)?;
    let (cond, rest) = do_tail(alloc, bounds, rest)?;
    let stmt = Stmt::Do {
        at: token.at,
        body,
        cond,
    };
    Ok((stmt, rest))
}

/// `"for" "(" ( declare | [ simple ] ";" ) [ cond ] ";" [ simple ] ")" stmt`
#[cycle(stmt)]
fn for_stmt<'t>(
    alloc: Global,
    bounds: &Bounds,
    left: &'t [Token],
) -> Result<(Stmt, &'t [Token]), SyntaxFault>
    ensures ok { IfOk result (λ r. Reads read_for_stmt bounds.now left.now r.1.now r.0) }
    ensures shorter { IfOk result (λ r. length r.1.now < length left.now) }
    ensures err { IfErr result (Stops read_for_stmt bounds.now left.now) }
{
    let (head, rest) = for_head(alloc, bounds, left)?;
    let (body, rest) = stmt(alloc, bounds, rest)?;
    let body = Boxed::new(alloc, body)?;
    let (at, first, cond, next) = head;
    let stmt = Stmt::For {
        at,
        first,
        cond,
        next,
        body,
    };
    Ok((stmt, rest))
}

/// A block as a statement.
#[cycle(stmt)]
fn block_stmt<'t>(
    alloc: Global,
    bounds: &Bounds,
    left: &'t [Token],
) -> Result<(Stmt, &'t [Token]), SyntaxFault>
    ensures ok { IfOk result (λ r. Reads read_block_stmt bounds.now left.now r.1.now r.0) }
    ensures shorter { IfOk result (λ r. length r.1.now < length left.now) }
    ensures err { IfErr result (Stops read_block_stmt bounds.now left.now) }
{
    let (block, rest) = block(alloc, bounds, left)?;
    let stmt = Stmt::Block(block);
    Ok((stmt, rest))
}

/// A statement that is a level, the level of which is counted.
#[cycle(stmt)]
fn nested<'t>(
    alloc: Global,
    bounds: &Bounds,
    left: &'t [Token],
) -> Result<(Stmt, &'t [Token]), SyntaxFault>
    ensures ok { IfOk result (λ r. Reads read_nested bounds.now left.now r.1.now r.0) }
    ensures shorter { IfOk result (λ r. length r.1.now < length left.now) }
    ensures err { IfErr result (Stops read_nested bounds.now left.now) }
{
    if is_next(left, Sign::OpenBrace) {
        return block_stmt(alloc, bounds, left);
    }
    if is_next(left, Sign::If) {
        return if_stmt(alloc, bounds, left);
    }
    if is_next(left, Sign::While) {
        return while_stmt(alloc, bounds, left);
    }
    if is_next(left, Sign::Do) {
        return do_stmt(alloc, bounds, left);
    }
    for_stmt(alloc, bounds, left)
}

/// `stmt`
#[cycle(stmt)]
fn stmt<'t>(
    alloc: Global,
    bounds: &Bounds,
    left: &'t [Token],
) -> Result<(Stmt, &'t [Token]), SyntaxFault>
    ensures ok { IfOk result (λ r. Reads read_stmt bounds.now left.now r.1.now r.0) }
    ensures shorter { IfOk result (λ r. length r.1.now < length left.now) }
    ensures err { IfErr result (Stops read_stmt bounds.now left.now) }
{
    if !begins_level(peek(left)) {
        return flat(alloc, bounds, left);
    }
    let inner = step_in(alloc, bounds, left)?;
    let (stmt, rest) = nested(alloc, &inner, left)?;
    Ok((stmt, rest))
}
