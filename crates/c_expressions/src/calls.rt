// The functions that a program may call. They go by their names alone: a variable hides none of them.
ghost use Rattle.std.specs.Prelude.{◌≡◌, IfOk, OnOk};
ghost use Rattle.c_ast.specs.declared.operands.Call.{out-Call};
ghost use Rattle.c_typing.specs.Profile.{is_constant, is_one_constant, is_allowed};
ghost use Rattle.c_typing.specs.Sites.{Calls};
ghost use Rattle.c_typing.specs.Texts.{is_empty};
ghost use Rattle.c_expressions.specs.Meeting.{noted};
ghost use Rattle.c_expressions.specs.inner.Noting.{call_noted};

use crate::meanings::meaning_of_operand;
use crate::noting::note_when;
use c_ast::{Call, Operand};
use c_functions::called::{is_called, is_counted};
use c_functions::given::{is_choice, is_error};
use c_functions::recursion::recurs;
use c_scopes::scopes::Scope;
use c_tables::tables::Tables;
use c_typing::{Meaning, Spot, TypeFault};
use fore_base::memory::Mem;
use std::alloc::Global;

/// Whether there are no operands.
fn is_empty(operands: &[Operand]) -> bool
    ensures { result ≡ is_empty operands.now }
{
    match operands {
        [] => true,
        _ => false,
    }
}

/// Whether this is a number, an enumerator, `true` or `false`.
fn is_constant(meaning: &Meaning) -> bool
    ensures { result ≡ is_constant meaning.now }
{
    match meaning {
        Meaning::Known(_) | Meaning::Zero => true,
        Meaning::Pointer { .. }
        | Meaning::Datum(_)
        | Meaning::Null
        | Meaning::Call
        | Meaning::Broken => false,
    }
}

fn is_one_constant(alloc: Global, tables: &Tables, scope: &Scope, operands: &[Operand]) -> Mem<bool>
    ensures { IfOk result (λ one. one ≡ is_one_constant tables.now scope.now operands.now) }
{
    match operands {
        [] => Ok(false),
        [first, rest @ ..] => {
            let meaning = meaning_of_operand(alloc, tables, scope, first)?;
            Ok(is_constant(&meaning) && is_empty(rest))
        }
    }
}

/// A call as a statement.
fn is_allowed_statement(
    alloc: Global,
    tables: &Tables,
    scope: &Scope,
    name: &[u8],
    operands: &[Operand],
) -> Mem<bool>
    ensures { IfOk result (λ allowed. allowed ≡ is_allowed tables.now scope.now Spot.Statement name.now operands.now) }
{
    if (name == b"abort".as_slice() || is_error(name)) && is_empty(operands) {
        return Ok(true);
    }
    let one = is_one_constant(alloc, tables, scope, operands)?;
    Ok(name == b"exit".as_slice() && one)
}

/// Whether a call of this name, with these operands, is right where it stands.
fn is_allowed(
    alloc: Global,
    tables: &Tables,
    scope: &Scope,
    spot: Spot,
    name: &[u8],
    operands: &[Operand],
) -> Mem<bool>
    ensures { IfOk result (λ allowed. allowed ≡ is_allowed tables.now scope.now spot name.now operands.now) }
{
    match spot {
        Spot::Statement => is_allowed_statement(alloc, tables, scope, name, operands),
        Spot::Condition => Ok(is_choice(name) && is_empty(operands)),
        Spot::Right => Ok(name == b"__VERIFIER_nondet_bool".as_slice() && is_empty(operands)),
        Spot::Elsewhere => Ok(false),
    }
}

/// Whether a call is right where it stands.
pub fn is_allowed_call(
    alloc: Global,
    tables: &Tables,
    scope: &Scope,
    spot: Spot,
    call: &Call,
) -> Mem<bool>
    ensures { IfOk result (λ allowed. allowed
        ≡ is_allowed tables.now scope.now spot (out-Call call.now).name.text (out-Call call.now).operands) }
{
    let name = call.name.text.as_slice();
    is_allowed(alloc, tables, scope, spot, name, call.operands.as_slice())
}

/// Notes what a call breaks, of which it is known whether its function leads back to the one around, and whether it is
/// right by the functions that a program has besides its own.
fn note_call(
    tables: &Tables,
    recurs: bool,
    allowed: bool,
    spot: Spot,
    call: &Call,
    found: &mut Option<TypeFault>,
)
    ensures { found.new ≡ call_noted tables.now recurs allowed spot (out-Call call.now).name
        (out-Call call.now).operands found.old }
{
    let name = call.name.text.as_slice();
    let operands = call.operands.as_slice();
    let right = allowed || is_called(tables, spot, name, operands);
    note_when(recurs, 13, call.name.at, found);
    note_when(!right, 15, call.name.at, found);
    note_when(!is_counted(tables, name, operands), 17, call.name.at, found);
}

/// A call.
#[tactic(auto, using(crate::proofs::MeetingLemmas::sites))]
pub fn calls(
    alloc: Global,
    tables: &Tables,
    scope: &Scope,
    spot: Spot,
    call: &Call,
    found: &mut Option<TypeFault>,
) -> Mem<()>
    ensures { OnOk result
        (found.new ≡ noted tables.now found.old
        (Calls scope.now spot (out-Call call.now).name (out-Call call.now).operands)) }
{
    let name = call.name.text.as_slice();
    let operands = call.operands.as_slice();
    let recurs = recurs(alloc, tables, scope.home(), name)?;
    let allowed = is_allowed(alloc, tables, scope, spot, name, operands)?;
    note_call(tables, recurs, allowed, spot, call, found);
    Ok(())
}
