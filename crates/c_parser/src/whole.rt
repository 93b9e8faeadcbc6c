// Whole texts.
ghost use Rattle.std.specs.Prelude.{◌≡◌, ◌≢◌, ◌⊎◌, ◌<◌, ◌↔◌, [], Ok, Err, IfOk, IfErr, IsTrue};
ghost use Rattle.c_ast.specs.declared.items.Unit as whole;
ghost use Rattle.c_grammar.specs.Items.{unit};
ghost use Rattle.c_grammar.specs.declared.fault.SyntaxFault.TheVariants.{Memory};
ghost use Rattle.c_grammar.specs.declared.fault.SyntaxFault.{SyntaxFault};
ghost use Rattle.c_refused.specs.Refused.{NoneRefused};
ghost use Rattle.c_parser.specs.Parses.{over_of, IsParsed, IsFault};
ghost use Rattle.c_parser.specs.inner.Stops.{IsStop};

use crate::items::all_items;
use c_ast::{Item, Unit};
use c_grammar::SyntaxFault;
use c_lexer::Token;
use c_reader::{Bounds, Levels, here};
use c_refused::first_refused;
use fore_base::limits::TOKENS;
use fore_base::list::List;
use fore_base::place::Place;
use std::alloc::Global;

/// The tree of a list of tokens, where `end` is the place after the last byte. The tokens are gone through once, lists
/// without recursion; the recursion goes no deeper than 64 levels.
///
/// Errors: `Refused` at the first token that no program may have, wherever another fault stands; else `Syntax` at the
/// hopeless token, or `Deep` at the token that opens level 65, whichever comes first; `Memory` for want of memory.
pub fn parse(alloc: Global, tokens: &[Token], end: Place) -> Result<Unit, SyntaxFault>
    ensures ok { IfOk result (IsParsed tokens.now end) }
    ensures err { IfErr result (IsFault tokens.now end) }
    ensures reads { (u : whole.Unit) → IsParsed tokens.now end u → (result ≡ Ok u) ⊎ (result ≡ Err Memory) }
    ensures finds { (e : SyntaxFault) → e ≢ Memory → IsFault tokens.now end e
        → (result ≡ Err e) ⊎ (result ≡ Err Memory) }
{
    answer(alloc, tokens, end)
}

fn answer(alloc: Global, tokens: &[Token], end: Place) -> Result<Unit, SyntaxFault>
    ensures ok { IfOk result (IsParsed tokens.now end) }
    ensures err { IfErr result (IsFault tokens.now end) }
{
    match first_refused(tokens) {
        Some(refusal) => Err(SyntaxFault::Refused {
            rule: refusal.rule,
            at: refusal.at,
        }),
        None => tree(alloc, tokens, end),
    }
}

/// The tree of tokens none of which is refused.
fn tree(alloc: Global, tokens: &[Token], end: Place) -> Result<Unit, SyntaxFault>
    requires { NoneRefused tokens.now }
    ensures ok { IfOk result (IsParsed tokens.now end) }
    ensures err { IfErr result (IsFault tokens.now end) }
{
    let bounds = Bounds {
        end,
        room: Levels::new(alloc),
    };
    let items = whole(alloc, &bounds, tokens)?;
    let over = over(tokens);
    Ok(Unit { items, over, end })
}

/// All the tokens as items.
fn whole(alloc: Global, bounds: &Bounds, tokens: &[Token]) -> Result<List<Item>, SyntaxFault>
    requires { bounds.now.room ≡ 64 }
    ensures ok { IfOk result (λ items. unit 64 tokens.now [] items) }
    ensures err { IfErr result (IsStop tokens.now bounds.now.end) }
{
    let (items, rest) = all_items(alloc, bounds, tokens)?;
    if !is_over(rest) {
        let at = here(bounds.end, rest);
        return Err(SyntaxFault::Syntax { at });
    }
    Ok(items)
}

/// No token is left.
fn is_over(left: &[Token]) -> bool
    ensures { IsTrue result ↔ (left.now ≡ []) }
{
    left.is_empty()
}

/// The place of the first token above the limit.
fn over(tokens: &[Token]) -> Option<Place>
    ensures { result ≡ over_of tokens.now }
{
    match tokens.get(TOKENS) {
        Some(token) => Some(token.at),
        None => None,
    }
}
