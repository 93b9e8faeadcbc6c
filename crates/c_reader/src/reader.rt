// What the parser knows of the tokens that are left.
ghost use Rattle.std.specs.Prelude.{suc, ◌≡◌, ◌≢◌, ◌<◌, [], ◌∷◌, ◌↔◌, IfOk, IfErr, IsTrue};
ghost use Rattle.c_grammar.specs.Hopeless.{place_at};
ghost use Rattle.c_grammar.specs.Signs as spec;
ghost use Rattle.c_grammar.specs.Signs.{sign_at};
ghost use Rattle.c_grammar.specs.words.Sets.{among};
ghost use Rattle.c_grammar.specs.declared.fault.SyntaxFault.TheVariants.{Syntax};
ghost use Rattle.c_grammar.specs.declared.signs.Sign.TheVariants.{End};

use crate::levels::{Level, Levels};
use c_grammar::{Sign, SyntaxFault, sign_of};
use c_lexer::Token;
use fore_base::place::Place;
use std::alloc::Global;

/// The end of the text, and the levels that are open. In contracts `room` is how many more may be opened.
#[derive(Drop)]
pub struct Bounds {
    pub end: Place,
    pub room: Levels,
}

/// One level further in.
pub fn deeper(alloc: Global, bounds: &Bounds, level: Level) -> Bounds
    requires { 0 < bounds.now.room }
    ensures end { result.end ≡ bounds.now.end }
    ensures room { bounds.now.room ≡ suc result.room }
{
    Bounds {
        end: bounds.end,
        room: bounds.room.deeper(alloc, level),
    }
}

/// The sign of the next token.
pub fn peek(left: &[Token]) -> Sign
    ensures { result ≡ sign_at left.now }
{
    match left.split_first() {
        Some((token, _)) => sign_of(token),
        None => Sign::End,
    }
}

/// The place of the next token.
pub fn here(end: Place, left: &[Token]) -> Place
    ensures { result ≡ place_at end left.now }
{
    match left.split_first() {
        Some((token, _)) => token.at,
        None => end,
    }
}

/// The next token has this sign.
pub fn is_next(left: &[Token], sign: Sign) -> bool
    ensures { result ≡ among (sign ∷ []) (sign_at left.now) }
{
    same(peek(left), sign)
}

/// The two signs are one.
fn same(left: Sign, right: Sign) -> bool
    ensures { IsTrue result ↔ (left ≡ right) }
{
    left == right
}

/// The next token, which has this sign, and the tokens after it.
pub fn take<'t>(
    bounds: &Bounds,
    left: &'t [Token],
    sign: Sign,
) -> Result<(&'t Token, &'t [Token]), SyntaxFault>
    requires { sign ≢ End }
    ensures ok { IfOk result (λ r. (left.now ≡ r.0.now ∷ r.1.now) × (spec.sign_of r.0.now ≡ sign)) }
    ensures err { IfErr result (λ e. (e ≡ Syntax (place_at bounds.now.end left.now)) × (sign_at left.now ≢ sign)) }
{
    match left.split_first() {
        Some((token, rest)) => {
            if sign_of(token) == sign {
                Ok((token, rest))
            } else {
                Err(SyntaxFault::Syntax { at: token.at })
            }
        }
        None => Err(SyntaxFault::Syntax { at: bounds.end }),
    }
}
