// Prototypes and functions, from what stands after their name.
ghost use Rattle.std.specs.Prelude.{length, IfOk, IfErr, ◌<◌};
ghost use Rattle.c_reader.specs.Bounds.{Reads, Stops};
ghost use Rattle.c_parser.specs.inner.Shapes.{read_called, read_ending};

use crate::heads::closed_params;
use c_ast::{Block, Head, Item, Name, ReturnType};
use c_grammar::{Sign, SyntaxFault};
use c_lexer::Token;
use c_reader::{Bounds, Level, deeper, is_next, take};
use c_statements::block;
use std::alloc::Global;

/// What stands after the head of a prototype or a function: a semicolon, or a block, which is a level.
fn ending<'t>(
    alloc: Global,
    bounds: &Bounds,
    left: &'t [Token],
) -> Result<(Option<Block>, &'t [Token]), SyntaxFault>
    requires room { 0 < bounds.now.room }
    ensures ok { IfOk result (λ r. Reads read_ending bounds.now left.now r.1.now r.0) }
    ensures shorter { IfOk result (λ r. length r.1.now < length left.now) }
    ensures err { IfErr result (Stops read_ending bounds.now left.now) }
{
    if is_next(left, Sign::Semicolon) {
        let (_, rest) = take(bounds, left, Sign::Semicolon)?;
        return Ok((None, rest));
    }
    let inner = deeper(alloc, bounds, Level::Block);
    let (block, rest) = block(alloc, &inner, left)?;
    Ok((Some(block), rest))
}

/// What stands after the name of a prototype or a function.
pub fn called<'t>(
    alloc: Global,
    bounds: &Bounds,
    gives: ReturnType,
    name: Name,
    left: &'t [Token],
) -> Result<(Item, &'t [Token]), SyntaxFault>
    requires room { 0 < bounds.now.room }
    ensures ok { IfOk result (λ r. Reads (read_called gives name) bounds.now left.now r.1.now r.0) }
    ensures shorter { IfOk result (λ r. length r.1.now < length left.now) }
    ensures err { IfErr result (Stops (read_called gives name) bounds.now left.now) }
{
    let (params, rest) = closed_params(alloc, bounds, left)?;
    let (ending, rest) = ending(alloc, bounds, rest)?;
    let head = Head {
        gives,
        name,
        params,
    };
    match ending {
        Some(body) => Ok((Item::Function { head, body }, rest)),
        None => Ok((Item::Proto { outer: None, head }, rest)),
    }
}
