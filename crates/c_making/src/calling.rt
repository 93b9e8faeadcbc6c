// Calls of functions of the file, and what these return.
ghost use Rattle.std.specs.Prelude.{◌≡◌, IfOk, Some, None, option_copied};
ghost use Rattle.c_ast.specs.declared.operands.Call.{out-Call};
ghost use Rattle.c_ast.specs.declared.operands.Operand.{out-Operand};
ghost use Rattle.c_types.specs.declared.program.Stmt.TheVariants.{Call as Calling};
ghost use Rattle.c_typing.specs.Functions.{called_number, function_at, params_in};
ghost use Rattle.c_typing.specs.Meanings.{meaning_of_operand};
ghost use Rattle.c_typing.specs.Programs.{arg_of, args_of, call_act, call_in, call_stmt, dest_of, return_act};
ghost use Rattle.c_typing.specs.Programs.{returned_value, right_call};

use crate::acts::{call_act, returned_operand};
use c_ast::{Call, Operand, Rhs};
use c_expressions::conditions::{data_op_of, ptr_op_of};
use c_expressions::meanings::meaning_of_operand;
use c_functions::called::{called_number, params_at};
use c_scopes::scopes::Scope;
use c_tables::tables::Tables;
use c_types::{Act, Arg, Dest, Stmt};
use c_typing::{Kind, Meaning};
use fore_base::list::List;
use fore_base::memory::{Mem, beside};
use std::alloc::Global;

/// What is given to a parameter, or returned as a result, of this kind.
fn arg_of(kind: Kind, meaning: Meaning) -> Arg
    ensures { result ≡ arg_of kind meaning }
{
    match kind {
        Kind::Points(_) => Arg::Ptr(ptr_op_of(meaning)),
        Kind::Datum => Arg::Data(data_op_of(meaning)),
    }
}

/// What the result of a call is assigned to.
pub fn dest_of(target: Meaning) -> Option<Dest>
    ensures { result ≡ dest_of target }
{
    match target {
        Meaning::Pointer { path, .. } => Some(Dest::Ptr(path)),
        Meaning::Datum(path) => Some(Dest::Data(path)),
        Meaning::Known(_) | Meaning::Zero | Meaning::Null | Meaning::Call | Meaning::Broken => None,
    }
}

/// An operand that is given to a parameter of this kind.
fn argument(
    alloc: Global,
    tables: &Tables,
    scope: &Scope,
    kind: Kind,
    operand: &Operand,
) -> Mem<Arg>
    ensures { IfOk result (λ arg. arg ≡ arg_of kind (meaning_of_operand tables.now scope.now operand.now)) }
{
    let meaning = meaning_of_operand(alloc, tables, scope, operand)?;
    Ok(arg_of(kind, meaning))
}

/// An argument for each parameter, in order.
fn args_of(
    alloc: Global,
    tables: &Tables,
    scope: &Scope,
    kinds: &[Kind],
    operands: &List<Operand>,
) -> Mem<List<Arg>>
    ensures { IfOk result (λ args. args ≡ args_of tables.now scope.now kinds.now operands.now) }
{
    let mut args = List::new(alloc);
    for (number, kind) in kinds.iter().enumerate() {
        match operands.get(number) {
            Some(operand) => {
                let arg = argument(alloc, tables, scope, *kind, operand)?;
                args.push(arg)?;
            }
            None => return Ok(args),
        }
    }
    Ok(args)
}

/// A call of the function of this number.
fn calling(
    alloc: Global,
    tables: &Tables,
    scope: &Scope,
    function: u32,
    operands: &List<Operand>,
    to: Option<Dest>,
    line: u32,
) -> Mem<Stmt>
    ensures { IfOk result (λ stmt. stmt
        ≡ Calling function (args_of tables.now scope.now (params_in (function_at tables.now (Some function)))
        operands.now) to line) }
{
    let args = args_of(
        alloc,
        tables,
        scope,
        params_at(tables, Some(function)),
        operands,
    );
    let (to, args) = beside(to, args)?;
    Ok(Stmt::Call {
        func: function,
        args,
        to,
        line,
    })
}

/// A call as a statement: of a function of the file, or what it does by itself.
pub fn call_stmt(alloc: Global, tables: &Tables, scope: &Scope, call: &Call) -> Mem<Stmt>
    ensures { IfOk result (λ stmt. stmt
        ≡ call_stmt tables.now scope.now (called_number tables.now (out-Call call.now).name.text)
        (out-Call call.now).operands None (call_act (out-Call call.now).name.text) (out-Call call.now).name.at.line) }
{
    let name = call.name.text.as_slice();
    let line = call.name.at.line;
    match called_number(tables, name) {
        Some(function) => calling(alloc, tables, scope, function, &call.operands, None, line),
        None => Ok(Stmt::Do {
            act: call_act(name),
            line,
        }),
    }
}

/// A call of the function of this number as a right side.
pub fn stored_call(
    alloc: Global,
    tables: &Tables,
    scope: &Scope,
    function: u32,
    target: Meaning,
    call: &Call,
    line: u32,
) -> Mem<Stmt>
    ensures { IfOk result (λ stmt. stmt
        ≡ Calling function (args_of tables.now scope.now (params_in (function_at tables.now (Some function)))
        (out-Call call.now).operands) (dest_of target) line) }
{
    calling(
        alloc,
        tables,
        scope,
        function,
        &call.operands,
        dest_of(target),
        line,
    )
}

#[tactic(auto, using(c_typing::proofs::ConditionLayers::condition_layers))]
fn call_in(operand: &Operand) -> Option<&Call>
    ensures { option_copied result ≡ call_in (out-Operand operand.now) }
{
    match operand {
        Operand::Call(call) => Some(call),
        Operand::Path(_)
        | Operand::Number(_)
        | Operand::Null { .. }
        | Operand::True { .. }
        | Operand::False { .. } => None,
    }
}

/// The call that a right side is, if it is one.
pub fn right_call(rhs: &Rhs) -> Option<&Call>
    ensures { option_copied result ≡ right_call rhs.now }
{
    match rhs {
        Rhs::Operand(operand) => call_in(operand),
        Rhs::Malloc { .. } => None,
    }
}

/// The value that a function returns, whose result is of this kind.
fn returned_value(
    alloc: Global,
    tables: &Tables,
    scope: &Scope,
    kind: Option<Kind>,
    operand: &Option<Operand>,
) -> Mem<Option<Arg>>
    ensures { IfOk result (λ value. value ≡ returned_value tables.now scope.now kind operand.now) }
{
    match kind {
        None => Ok(None),
        Some(kind) => match operand {
            None => Ok(None),
            Some(operand) => {
                let arg = argument(alloc, tables, scope, kind, operand)?;
                Ok(Some(arg))
            }
        },
    }
}

/// What a `return` does in the function around, or in `main`.
pub fn return_act(
    alloc: Global,
    tables: &Tables,
    scope: &Scope,
    operand: &Option<Operand>,
) -> Mem<Act>
    ensures { IfOk result (λ act. act ≡ return_act tables.now scope.now scope.now.home operand.now) }
{
    match scope.home() {
        None => {
            let path = returned_operand(alloc, tables, scope, operand)?;
            Ok(Act::Return(path))
        }
        Some(function) => {
            let kind = tables.result_at(function);
            let value = returned_value(alloc, tables, scope, kind, operand)?;
            Ok(Act::Leave {
                func: function,
                value,
            })
        }
    }
}
