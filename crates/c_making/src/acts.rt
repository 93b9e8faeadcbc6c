// What assignments, `free`, `return` of `main` and given functions do.
ghost use Rattle.std.specs.Prelude.{◌≡◌, IfOk};
ghost use Rattle.c_typing.specs.Programs.{ptr_rhs_of, data_rhs_of, assigned, target_struct, freed, call_act, returned};
ghost use Rattle.c_typing.specs.Programs.{assignment, returned_operand};
ghost use Rattle.c_typing.specs.Scopes.{or_zero};
ghost use Rattle.c_types.specs.declared.program.DataRhs.TheVariants as data_rhs;
ghost use Rattle.c_types.specs.declared.program.PtrRhs.TheVariants as ptr_rhs;

use c_ast::{Operand, Rhs};
use c_expressions::meanings::meaning_of_operand;
use c_functions::given::is_error;
use c_scopes::scopes::{Scope, or_zero};
use c_tables::tables::Tables;
use c_types::{Act, DataPath, DataRhs, PtrRhs};
use c_typing::Meaning;
use fore_base::memory::{Mem, beside};
use std::alloc::Global;

fn ptr_rhs_of(meaning: Meaning) -> PtrRhs
    ensures { result ≡ ptr_rhs_of meaning }
{
    match meaning {
        Meaning::Pointer { path, .. } => PtrRhs::Path(path),
        Meaning::Datum(_)
        | Meaning::Known(_)
        | Meaning::Zero
        | Meaning::Null
        | Meaning::Call
        | Meaning::Broken => PtrRhs::Null,
    }
}

fn data_rhs_of(meaning: Meaning) -> DataRhs
    ensures { result ≡ data_rhs_of meaning }
{
    match meaning {
        Meaning::Datum(path) => DataRhs::Path(path),
        Meaning::Known(number) => DataRhs::Known(number),
        Meaning::Call => DataRhs::Choice,
        Meaning::Pointer { .. } | Meaning::Zero | Meaning::Null | Meaning::Broken => DataRhs::Known(
            0,
        ),
    }
}

/// The assignment of what an operand is.
fn assigned_operand(target: Meaning, from: Meaning) -> Act
    ensures { result ≡ assigned target (ptr_rhs_of from) (data_rhs_of from) }
{
    match target {
        Meaning::Pointer { path, .. } => Act::SetPtr {
            to: path,
            from: ptr_rhs_of(from),
        },
        Meaning::Datum(path) => Act::SetData {
            to: path,
            from: data_rhs_of(from),
        },
        Meaning::Known(_) | Meaning::Zero | Meaning::Null | Meaning::Call | Meaning::Broken =>
            Act::Halt,
    }
}

/// The assignment of a new cell.
fn assigned_new(target: Meaning) -> Act
    ensures { result ≡ assigned target (ptr_rhs.New (target_struct target)) (data_rhs.Known 0) }
{
    match target {
        Meaning::Pointer { path, to } => Act::SetPtr {
            to: path,
            from: PtrRhs::New(or_zero(to)),
        },
        Meaning::Datum(path) => Act::SetData {
            to: path,
            from: DataRhs::Known(0),
        },
        Meaning::Known(_) | Meaning::Zero | Meaning::Null | Meaning::Call | Meaning::Broken =>
            Act::Halt,
    }
}

/// The assignment of a right side.
pub fn assignment(
    alloc: Global,
    tables: &Tables,
    scope: &Scope,
    target: Meaning,
    rhs: &Rhs,
) -> Mem<Act>
    ensures { IfOk result (λ act. act ≡ assignment tables.now scope.now target rhs.now) }
{
    match rhs {
        Rhs::Operand(operand) => {
            let from = meaning_of_operand(alloc, tables, scope, operand);
            let (target, from) = beside(target, from)?;
            Ok(assigned_operand(target, from))
        }
        Rhs::Malloc { .. } => Ok(assigned_new(target)),
    }
}

/// `free` of what this is.
pub fn freed(meaning: Meaning) -> Act
    ensures { result ≡ freed meaning }
{
    match meaning {
        Meaning::Pointer { path, .. } => Act::Free(path),
        Meaning::Datum(_)
        | Meaning::Known(_)
        | Meaning::Zero
        | Meaning::Null
        | Meaning::Call
        | Meaning::Broken => Act::Halt,
    }
}

/// What a call of a given function does as a statement.
pub fn call_act(name: &[u8]) -> Act
    ensures { result ≡ call_act name.now }
{
    if is_error(name) {
        Act::Error
    } else {
        Act::Halt
    }
}

fn returned(meaning: Meaning) -> Option<DataPath>
    ensures { result ≡ returned meaning }
{
    match meaning {
        Meaning::Datum(path) => Some(path),
        Meaning::Pointer { .. }
        | Meaning::Known(_)
        | Meaning::Zero
        | Meaning::Null
        | Meaning::Call
        | Meaning::Broken => None,
    }
}

/// The datum at which a `return` looks.
pub fn returned_operand(
    alloc: Global,
    tables: &Tables,
    scope: &Scope,
    operand: &Option<Operand>,
) -> Mem<Option<DataPath>>
    ensures { IfOk result (λ path. path ≡ returned_operand tables.now scope.now operand.now) }
{
    match operand {
        None => Ok(None),
        Some(operand) => {
            let meaning = meaning_of_operand(alloc, tables, scope, operand)?;
            Ok(returned(meaning))
        }
    }
}
