// Which function of the file a call calls, and whether the call is right. They go by their names alone.
ghost use Rattle.std.specs.Prelude.{◌≡◌, is_some};
ghost use Rattle.std.specs.Option.{option_copied};
ghost use Rattle.c_ast.specs.declared.operands.Operand.{out-Operand};
ghost use Rattle.c_typing.specs.Functions.{called, called_number, function_at, has_no_calls, is_call, is_called};
ghost use Rattle.c_typing.specs.Functions.{is_counted, params_in, takes_functions};

use crate::given::is_given;
use c_ast::Operand;
use c_tables::tables::Tables;
use c_typing::{FunctionDef, Kind, Spot};

/// The number of the function that a call of this name calls; None where there is none, and for `main` and the given
/// functions.
pub fn called_number(tables: &Tables, name: &[u8]) -> Option<u32>
    ensures { result ≡ called_number tables.now name.now }
{
    if is_given(name) {
        return None;
    }
    tables.function_of(name)
}

/// The function of this number; None where there is none.
pub fn function_at<'a>(tables: &'a Tables, number: Option<u32>) -> Option<&'a FunctionDef>
    ensures { option_copied result ≡ function_at tables.now number }
{
    match number {
        Some(number) => tables.functions().get(number as usize),
        None => None,
    }
}

/// The function that a call of this name calls; None where there is none, and for `main` and the given functions.
pub fn called<'a>(tables: &'a Tables, name: &[u8]) -> Option<&'a FunctionDef>
    ensures { option_copied result ≡ called tables.now name.now }
{
    function_at(tables, called_number(tables, name))
}

/// What the parameters of the function of this number hold; nothing where there is none.
pub fn params_at<'a>(tables: &'a Tables, number: Option<u32>) -> &'a [Kind]
    ensures { result.now ≡ params_in (function_at tables.now number) }
{
    match function_at(tables, number) {
        Some(function) => function.params.as_slice(),
        None => &[],
    }
}

/// What the parameters of the function hold that a call of this name calls; nothing where there is none.
pub fn params_called<'a>(tables: &'a Tables, name: &[u8]) -> &'a [Kind]
    ensures { result.now ≡ params_in (called tables.now name.now) }
{
    params_at(tables, called_number(tables, name))
}

/// Whether there is a function of the file that a call of this name calls.
fn is_function(tables: &Tables, name: &[u8]) -> bool
    ensures { result ≡ is_some (called tables.now name.now) }
{
    match called(tables, name) {
        Some(_) => true,
        None => false,
    }
}

/// Whether functions of the file may be called where the call stands.
fn takes_functions(spot: Spot) -> bool
    ensures { result ≡ takes_functions spot }
{
    match spot {
        Spot::Statement | Spot::Right => true,
        Spot::Condition | Spot::Elsewhere => false,
    }
}

fn is_call(operand: &Operand) -> bool
    ensures { result ≡ is_call (out-Operand operand.now) }
{
    match operand {
        Operand::Call(_) => true,
        Operand::Path(_)
        | Operand::Number(_)
        | Operand::Null { .. }
        | Operand::True { .. }
        | Operand::False { .. } => false,
    }
}

/// Whether none of the operands is a call.
fn has_no_calls(operands: &[Operand]) -> bool
    ensures { result ≡ has_no_calls operands.now }
{
    for operand in operands {
        if is_call(operand) {
            return false;
        }
    }
    true
}

/// Whether a call of this name is one of a function of the file, and right where it stands.
pub fn is_called(tables: &Tables, spot: Spot, name: &[u8], operands: &[Operand]) -> bool
    ensures { result ≡ is_called tables.now spot name.now operands.now }
{
    is_function(tables, name) && (takes_functions(spot) && has_no_calls(operands))
}

/// Whether the function of the file that a call of this name calls has as many parameters as there are operands; so it
/// is where it calls none.
pub fn is_counted(tables: &Tables, name: &[u8], operands: &[Operand]) -> bool
    ensures { result ≡ is_counted (called tables.now name.now) operands.now }
{
    match called(tables, name) {
        Some(function) => function.params.len() == operands.len(),
        None => true,
    }
}
