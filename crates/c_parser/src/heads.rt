// Parameters, and what a function gives.
ghost use Rattle.std.specs.Prelude.{length, IfOk, IfErr, ◌<◌, ◌≤◌};
ghost use Rattle.c_reader.specs.Bounds.{Reads, Stops};
ghost use Rattle.c_parser.specs.inner.Shapes.{read_all_params, read_closed_params, read_datum_param, read_head};
ghost use Rattle.c_parser.specs.inner.Shapes.{read_maybe_params, read_next_param, read_param, read_params};
ghost use Rattle.c_parser.specs.inner.Shapes.{read_pointer_param, read_rtype};

use c_ast::{Head, Param, Params, ReturnType};
use c_grammar::{Sign, SyntaxFault};
use c_lexer::Token;
use c_operands::name;
use c_reader::{Bounds, begins_data, begins_params, is_next, peek, take};
use c_statements::{data, named};
use fore_base::list::List;
use std::alloc::Global;

/// `"struct" id "*" id`
fn pointer_param<'t>(
    alloc: Global,
    bounds: &Bounds,
    left: &'t [Token],
) -> Result<(Param, &'t [Token]), SyntaxFault>
    ensures ok { IfOk result (λ r. Reads read_pointer_param bounds.now left.now r.1.now r.0) }
    ensures shorter { IfOk result (λ r. length r.1.now < length left.now) }
    ensures err { IfErr result (Stops read_pointer_param bounds.now left.now) }
{
    let (head, rest) = named(alloc, bounds, Sign::Struct, left)?;
    let (_, rest) = take(bounds, rest, Sign::Star)?;
    let (name, rest) = name(alloc, bounds, rest)?;
    let (at, shape) = head;
    let param = Param::Pointer { at, shape, name };
    Ok((param, rest))
}

/// `data id`
fn datum_param<'t>(
    alloc: Global,
    bounds: &Bounds,
    left: &'t [Token],
) -> Result<(Param, &'t [Token]), SyntaxFault>
    ensures ok { IfOk result (λ r. Reads read_datum_param bounds.now left.now r.1.now r.0) }
    ensures shorter { IfOk result (λ r. length r.1.now < length left.now) }
    ensures err { IfErr result (Stops read_datum_param bounds.now left.now) }
{
    let (data, rest) = data(alloc, bounds, left)?;
    let (variable, rest) = name(alloc, bounds, rest)?;
    let param = Param::Datum {
        data,
        name: variable,
    };
    Ok((param, rest))
}

/// `param = "struct" id "*" id | data id`
fn param<'t>(
    alloc: Global,
    bounds: &Bounds,
    left: &'t [Token],
) -> Result<(Param, &'t [Token]), SyntaxFault>
    ensures ok { IfOk result (λ r. Reads read_param bounds.now left.now r.1.now r.0) }
    ensures shorter { IfOk result (λ r. length r.1.now < length left.now) }
    ensures err { IfErr result (Stops read_param bounds.now left.now) }
{
    if is_next(left, Sign::Struct) {
        return pointer_param(alloc, bounds, left);
    }
    datum_param(alloc, bounds, left)
}

/// `"," param`
fn next_param<'t>(
    alloc: Global,
    bounds: &Bounds,
    left: &'t [Token],
) -> Result<(Param, &'t [Token]), SyntaxFault>
    ensures ok { IfOk result (λ r. Reads read_next_param bounds.now left.now r.1.now r.0) }
    ensures shorter { IfOk result (λ r. length r.1.now < length left.now) }
    ensures err { IfErr result (Stops read_next_param bounds.now left.now) }
{
    let (_, rest) = take(bounds, left, Sign::Comma)?;
    let (param, rest) = param(alloc, bounds, rest)?;
    Ok((param, rest))
}

/// `param { "," param }`
fn all_params<'t>(
    alloc: Global,
    bounds: &Bounds,
    left: &'t [Token],
) -> Result<(List<Param>, &'t [Token]), SyntaxFault>
    ensures ok { IfOk result (λ r. Reads read_all_params bounds.now left.now r.1.now r.0) }
    ensures shorter { IfOk result (λ r. length r.1.now < length left.now) }
    ensures err { IfErr result (Stops read_all_params bounds.now left.now) }
{
    let mut all = List::new(alloc);
    let (first, rest) = param(alloc, bounds, left)?;
    all.push(first)?;
    let mut rest = rest;
    'params: while is_next(rest, Sign::Comma) {
        let (next, after) = next_param(alloc, bounds, rest)?;
        all.push(next)?;
        rest = after;
    }
    Ok((all, rest))
}

/// `params = "void" | param { "," param }`
fn params<'t>(
    alloc: Global,
    bounds: &Bounds,
    left: &'t [Token],
) -> Result<(Params, &'t [Token]), SyntaxFault>
    ensures ok { IfOk result (λ r. Reads read_params bounds.now left.now r.1.now r.0) }
    ensures shorter { IfOk result (λ r. length r.1.now < length left.now) }
    ensures err { IfErr result (Stops read_params bounds.now left.now) }
{
    if is_next(left, Sign::Void) {
        let (token, rest) = take(bounds, left, Sign::Void)?;
        return Ok((Params::Void { at: token.at }, rest));
    }
    let (all, rest) = all_params(alloc, bounds, left)?;
    Ok((Params::List(all), rest))
}

/// `[ params ]`
fn maybe_params<'t>(
    alloc: Global,
    bounds: &Bounds,
    left: &'t [Token],
) -> Result<(Option<Params>, &'t [Token]), SyntaxFault>
    ensures ok { IfOk result (λ r. Reads read_maybe_params bounds.now left.now r.1.now r.0) }
    ensures shorter { IfOk result (λ r. length r.1.now ≤ length left.now) }
    ensures err { IfErr result (Stops read_maybe_params bounds.now left.now) }
{
    if begins_params(peek(left)) {
        let (params, rest) = params(alloc, bounds, left)?;
        return Ok((Some(params), rest));
    }
    Ok((None, left))
}

/// `"(" [ params ] ")"`
pub fn closed_params<'t>(
    alloc: Global,
    bounds: &Bounds,
    left: &'t [Token],
) -> Result<(Option<Params>, &'t [Token]), SyntaxFault>
    ensures ok { IfOk result (λ r. Reads read_closed_params bounds.now left.now r.1.now r.0) }
    ensures shorter { IfOk result (λ r. length r.1.now < length left.now) }
    ensures err { IfErr result (Stops read_closed_params bounds.now left.now) }
{
    let (_, rest) = take(bounds, left, Sign::Open)?;
    let (params, rest) = maybe_params(alloc, bounds, rest)?;
    let (_, rest) = take(bounds, rest, Sign::Close)?;
    Ok((params, rest))
}

/// `rtype = "void" | data | "struct" id "*"`
fn rtype<'t>(
    alloc: Global,
    bounds: &Bounds,
    left: &'t [Token],
) -> Result<(ReturnType, &'t [Token]), SyntaxFault>
    ensures ok { IfOk result (λ r. Reads read_rtype bounds.now left.now r.1.now r.0) }
    ensures shorter { IfOk result (λ r. length r.1.now < length left.now) }
    ensures err { IfErr result (Stops read_rtype bounds.now left.now) }
{
    if is_next(left, Sign::Void) {
        let (token, rest) = take(bounds, left, Sign::Void)?;
        return Ok((ReturnType::Void { at: token.at }, rest));
    }
    if begins_data(peek(left)) {
        let (data, rest) = data(alloc, bounds, left)?;
        return Ok((ReturnType::Data(data), rest));
    }
    let (head, rest) = named(alloc, bounds, Sign::Struct, left)?;
    let (_, rest) = take(bounds, rest, Sign::Star)?;
    let (at, name) = head;
    Ok((ReturnType::Pointer { at, name }, rest))
}

/// `rtype id "(" [ params ] ")"`
pub fn head<'t>(
    alloc: Global,
    bounds: &Bounds,
    left: &'t [Token],
) -> Result<(Head, &'t [Token]), SyntaxFault>
    ensures ok { IfOk result (λ r. Reads read_head bounds.now left.now r.1.now r.0) }
    ensures shorter { IfOk result (λ r. length r.1.now < length left.now) }
    ensures err { IfErr result (Stops read_head bounds.now left.now) }
{
    let (gives, rest) = rtype(alloc, bounds, left)?;
    let (name, rest) = name(alloc, bounds, rest)?;
    let (params, rest) = closed_params(alloc, bounds, rest)?;
    let head = Head {
        gives,
        name,
        params,
    };
    Ok((head, rest))
}
