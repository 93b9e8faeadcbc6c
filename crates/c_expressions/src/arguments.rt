// What is given to the functions that are called, and what these give.
ghost use Rattle.std.specs.Prelude.{◌≡◌, ◌++◌, OnOk};
ghost use Rattle.c_ast.specs.declared.operands.Call.{out-Call};
ghost use Rattle.c_typing.specs.Functions.{called};
ghost use Rattle.c_typing.specs.Profile.{is_allowed};
ghost use Rattle.c_typing.specs.Sites.{argument_sites, arguments_sites, call_sites, choice_at, result_at_call};
ghost use Rattle.c_typing.specs.Sites.{value_sites, want_of_kind, wanted_sites};
ghost use Rattle.c_typing.specs.declared.meaning.Spot.TheVariants.{Elsewhere, Right};
ghost use Rattle.c_expressions.specs.Meeting.{met};

use crate::calls::{calls, is_allowed_call};
use crate::noting::{chooses, gives};
use crate::operands::wanted_faults;
use crate::wants::want_of_kind;
use c_ast::{Call, Operand};
use c_functions::called::{called, params_called};
use c_scopes::scopes::Scope;
use c_tables::tables::Tables;
use c_typing::{Kind, Spot, TypeFault, Want};
use fore_base::list::List;
use fore_base::memory::Mem;
use fore_base::place::Place;
use std::alloc::Global;

/// What is given to a parameter of this kind breaks.
fn argument_faults(
    alloc: Global,
    tables: &Tables,
    scope: &Scope,
    kind: Kind,
    operand: &Operand,
    found: &mut Option<TypeFault>,
) -> Mem<()>
    ensures { OnOk result
        (found.new ≡ met tables.now found.old
        (wanted_sites tables.now scope.now Elsewhere (want_of_kind kind) operand.now)) }
{
    let want = want_of_kind(kind);
    wanted_faults(alloc, tables, scope, Spot::Elsewhere, want, operand, found)
}

/// What is given to parameters of these kinds breaks, one after the other; what is too many is passed over.
fn arguments_faults(
    alloc: Global,
    tables: &Tables,
    scope: &Scope,
    kinds: &[Kind],
    operands: &List<Operand>,
    found: &mut Option<TypeFault>,
) -> Mem<()>
    ensures { OnOk result
        (found.new ≡ met tables.now found.old
        (arguments_sites tables.now scope.now kinds.now operands.now)) }
{
    for (number, kind) in kinds.iter().enumerate() {
        match operands.get(number) {
            Some(operand) => argument_faults(alloc, tables, scope, *kind, operand, found)?,
            None => return Ok(()),
        }
    }
    Ok(())
}

/// What is given to a function of the file breaks.
fn given_faults(
    alloc: Global,
    tables: &Tables,
    scope: &Scope,
    call: &Call,
    found: &mut Option<TypeFault>,
) -> Mem<()>
    ensures { OnOk result
        (found.new ≡ met tables.now found.old (argument_sites tables.now scope.now call.now)) }
{
    let kinds = params_called(tables, call.name.text.as_slice());
    arguments_faults(alloc, tables, scope, kinds, &call.operands, found)
}

/// A call as a statement, with what is given.
#[tactic(auto, using(crate::proofs::MeetingLemmas::meeting))]
pub fn call_faults(
    alloc: Global,
    tables: &Tables,
    scope: &Scope,
    spot: Spot,
    call: &Call,
    found: &mut Option<TypeFault>,
) -> Mem<()>
    ensures { OnOk result
        (found.new ≡ met tables.now found.old
        (call_sites tables.now scope.now spot call.now ++ argument_sites tables.now scope.now call.now)) }
{
    calls(alloc, tables, scope, spot, call, found)?;
    given_faults(alloc, tables, scope, call, found)
}

/// A choice as a right side, where it is one.
#[tactic(auto, using(crate::proofs::MeetingLemmas::meeting))]
fn choice_when(
    tables: &Tables,
    _scope: &Scope,
    want: Want,
    at: Place,
    choice: bool,
    found: &mut Option<TypeFault>,
)
    ensures { found.new ≡ met tables.now found.old (choice_at tables.now _scope.now want at choice) }
{
    if choice {
        chooses(tables, want, at, found);
    }
}

/// What the result of a function of the file breaks as a right side.
#[tactic(auto, using(crate::proofs::MeetingLemmas::meeting))]
fn result_faults(
    tables: &Tables,
    _scope: &Scope,
    want: Want,
    call: &Call,
    found: &mut Option<TypeFault>,
)
    ensures { found.new ≡ met tables.now found.old
        (result_at_call tables.now _scope.now want (out-Call call.now).name.at
        (called tables.now (out-Call call.now).name.text)) }
{
    match called(tables, call.name.text.as_slice()) {
        Some(function) => gives(tables, want, call.name.at, function.result, found),
        None => {}
    }
}

/// What the value of a call breaks as a right side.
#[tactic(auto, using(crate::proofs::MeetingLemmas::meeting))]
fn value_faults(
    alloc: Global,
    tables: &Tables,
    scope: &Scope,
    want: Want,
    call: &Call,
    found: &mut Option<TypeFault>,
) -> Mem<()>
    ensures { OnOk result (found.new ≡ met tables.now found.old (value_sites tables.now scope.now want call.now)) }
{
    let choice = is_allowed_call(alloc, tables, scope, Spot::Right, call)?;
    choice_when(tables, scope, want, call.name.at, choice, found);
    result_faults(tables, scope, want, call, found);
    Ok(())
}

/// What a call as a right side breaks.
#[tactic(auto, using(crate::proofs::MeetingLemmas::meeting))]
pub fn right_call_faults(
    alloc: Global,
    tables: &Tables,
    scope: &Scope,
    want: Want,
    call: &Call,
    found: &mut Option<TypeFault>,
) -> Mem<()>
    ensures { OnOk result
        (found.new ≡ met tables.now found.old
        (value_sites tables.now scope.now want call.now ++ call_sites tables.now scope.now Right call.now
        ++ argument_sites tables.now scope.now call.now)) }
{
    value_faults(alloc, tables, scope, want, call, found)?;
    calls(alloc, tables, scope, Spot::Right, call, found)?;
    given_faults(alloc, tables, scope, call, found)
}
