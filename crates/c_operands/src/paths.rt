// Names and paths.
ghost use Rattle.std.specs.Prelude.{◌<◌, ◌≡◌, IfOk, IfErr, length};
ghost use Rattle.c_grammar.specs.Signs.{sign_at};
ghost use Rattle.c_grammar.specs.declared.fault.SyntaxFault.TheVariants.{Memory};
ghost use Rattle.c_grammar.specs.declared.signs.Sign.TheVariants.{Id};
ghost use Rattle.c_reader.specs.Bounds.{Reads, Stops};
ghost use Rattle.c_grammar.specs.words.Shapes.{IsName, a_name, an_arrow, some_arrows, a_path};

use c_ast::{Arrow, Name, Path};
use c_grammar::{Sign, SyntaxFault};
use c_lexer::Token;
use c_reader::{Bounds, is_next, take};
use fore_base::list::{Copies, List};
use std::alloc::Global;

/// `id`
pub fn name<'t>(
    alloc: Global,
    bounds: &Bounds,
    left: &'t [Token],
) -> Result<(Name, &'t [Token]), SyntaxFault>
    ensures ok { IfOk result (λ r. IsName left.now r.1.now r.0) }
    ensures shorter { IfOk result (λ r. length r.1.now < length left.now) }
    ensures named { IfErr result (λ e. sign_at left.now ≡ Id → e ≡ Memory) }
    ensures err { IfErr result (Stops a_name bounds.now left.now) }
{
    let (token, rest) = take(bounds, left, Sign::Id)?;
    let text = token.text.copy(alloc)?;
    let name = Name { text, at: token.at };
    Ok((name, rest))
}

/// `"->" id`
fn arrow<'t>(
    alloc: Global,
    bounds: &Bounds,
    left: &'t [Token],
) -> Result<(Arrow, &'t [Token]), SyntaxFault>
    ensures ok { IfOk result (λ r. Reads an_arrow bounds.now left.now r.1.now r.0) }
    ensures shorter { IfOk result (λ r. length r.1.now < length left.now) }
    ensures err { IfErr result (Stops an_arrow bounds.now left.now) }
{
    let (token, rest) = take(bounds, left, Sign::Arrow)?;
    let (field, rest) = name(alloc, bounds, rest)?;
    let arrow = Arrow {
        at: token.at,
        field,
    };
    Ok((arrow, rest))
}

/// `{ "->" id }`
pub fn arrows<'t>(
    alloc: Global,
    bounds: &Bounds,
    left: &'t [Token],
) -> Result<(List<Arrow>, &'t [Token]), SyntaxFault>
    ensures ok { IfOk result (λ r. Reads some_arrows bounds.now left.now r.1.now r.0) }
    ensures err { IfErr result (Stops some_arrows bounds.now left.now) }
{
    let mut all = List::new(alloc);
    let mut rest = left;
    'arrows: while is_next(rest, Sign::Arrow) {
        let (one, after) = arrow(alloc, bounds, rest)?;
        all.push(one)?;
        rest = after;
    }
    Ok((all, rest))
}

/// `path = id { "->" id }`
pub fn path<'t>(
    alloc: Global,
    bounds: &Bounds,
    left: &'t [Token],
) -> Result<(Path, &'t [Token]), SyntaxFault>
    ensures ok { IfOk result (λ r. Reads a_path bounds.now left.now r.1.now r.0) }
    ensures err { IfErr result (Stops a_path bounds.now left.now) }
{
    let (head, rest) = name(alloc, bounds, left)?;
    let (arrows, rest) = arrows(alloc, bounds, rest)?;
    let path = Path { head, arrows };
    Ok((path, rest))
}
