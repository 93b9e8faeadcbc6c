// What the heads of functions put into scope: the result, and then the parameters.
ghost use Rattle.std.specs.Prelude.{◌≡◌, ◌++◌, ◌∷◌, [], codes, IfOk, OnOk};
ghost use Rattle.c_typing.specs.Globals.{param_kind, struct_names};
ghost use Rattle.c_typing.specs.Programs.{param_refs, result_ref};
ghost use Rattle.c_typing.specs.Scopes.{begun, declared, opened, param_name, past_head, past_params, past_result};
ghost use Rattle.c_typing.specs.Scopes.{next_ref, result_declared, result_of};

use crate::scopes::Scope;
use c_ast::{Head, Name, Param};
use c_tables::functions::{is_main, params_of};
use c_tables::tables::Tables;
use c_types::VarRef;
use c_typing::Kind;
use fore_base::list::List;
use fore_base::memory::Mem;
use fore_base::text::Text;
use std::alloc::Global;

/// Begins the function of this head, of which nothing is declared yet. No block is open.
pub fn begin(tables: &Tables, scope: &mut Scope, head: &Head)
    requires { scope.old.blocks ≡ [] }
    ensures { scope.new ≡ begun tables.now head.now scope.old }
{
    scope.move_to(tables.function_of(head.name.text.as_slice()));
}

/// What the result of a function is, if it has one; that of `main` is no variable.
pub fn result_of(tables: &Tables, head: &Head) -> Option<Kind>
    ensures { result ≡ result_of tables.now head.now }
{
    if is_main(head) {
        return None;
    }
    tables.result_kind(&head.gives)
}

/// The name of a parameter.
pub fn param_name(param: &Param) -> &Name
    ensures { result.now ≡ param_name param.now }
{
    match param {
        Param::Pointer { name, .. } | Param::Datum { name, .. } => name,
    }
}

/// The name of the variable that is the result of a function.
fn result_name(alloc: Global, name: &Text) -> Mem<Text>
    ensures { IfOk result (λ text. text ≡ name.now ++ codes "()") }
{
    let mut text = Text::from_slice(alloc, name.as_slice())?;
    text.put(b"()".as_slice())?;
    Ok(text)
}

/// A variable of this kind is the result of a function of this name.
fn declare_named(alloc: Global, scope: &mut Scope, kind: Kind, name: &Text) -> Mem<()>
    ensures { OnOk result (scope.new ≡ declared scope.old (name.now ++ codes "()") kind) }
{
    let text = result_name(alloc, name)?;
    scope.declare(alloc, text.as_slice(), kind)?;
    Ok(())
}

/// Declares the result of a function of this name, if it has one, where no block is open.
///
/// # Errors
///
/// Want of memory, also where the variable's number does not fit 32 bits.
pub fn declare_result(alloc: Global, scope: &mut Scope, kind: Option<Kind>, name: &Text) -> Mem<()>
    ensures { OnOk result (scope.new ≡ result_declared kind name.now scope.old) }
{
    match kind {
        Some(kind) => declare_named(alloc, scope, kind, name),
        None => Ok(()),
    }
}

/// The variable that the result will be.
///
/// # Errors
///
/// Want of memory, where the variable's number does not fit 32 bits.
pub fn result_ref(scope: &Scope, kind: Option<Kind>) -> Mem<Option<VarRef>>
    ensures { IfOk result (λ variable. variable ≡ result_ref kind scope.now) }
{
    match kind {
        Some(kind) => {
            let variable = scope.next_ref(kind)?;
            Ok(Some(variable))
        }
        None => Ok(None),
    }
}

/// Declares the result of a function of this name, if it has one, and opens the block of its parameters.
fn open_params(alloc: Global, scope: &mut Scope, kind: Option<Kind>, name: &Text) -> Mem<()>
    ensures { OnOk result (scope.new ≡ opened (result_declared kind name.now scope.old)) }
{
    declare_result(alloc, scope, kind, name)?;
    scope.enter(alloc)?;
    Ok(())
}

/// Begins the function of this head, declares its result, opens the block of its parameters, and tells which variable
/// the result is, if it has one. No block is open.
///
/// # Errors
///
/// Want of memory, also where the variable's number does not fit 32 bits.
pub fn begin_result(
    alloc: Global,
    tables: &Tables,
    scope: &mut Scope,
    head: &Head,
) -> Mem<Option<VarRef>>
    requires { scope.old.blocks ≡ [] }
    ensures result { IfOk result (λ variable. variable
        ≡ result_ref (result_of tables.now head.now) (begun tables.now head.now scope.old)) }
    ensures scope { OnOk result (scope.new ≡ opened (past_result tables.now head.now scope.old)) }
{
    begin(tables, scope, head);
    let kind = result_of(tables, head);
    let variable = result_ref(scope, kind)?;
    open_params(alloc, scope, kind, &head.name.text)?;
    Ok(variable)
}

/// Declares a parameter.
///
/// # Errors
///
/// Want of memory, also where the variable's number does not fit 32 bits.
pub fn declare_param(alloc: Global, tables: &Tables, scope: &mut Scope, param: &Param) -> Mem<()>
    ensures { OnOk result
        (scope.new ≡ declared scope.old (param_name param.now).text (param_kind (struct_names tables.now) param.now)) }
{
    scope.declare(
        alloc,
        param_name(param).text.as_slice(),
        tables.param_kind(param),
    )
}

/// Declares a parameter, and adds its variable to these.
fn add_param(
    alloc: Global,
    tables: &Tables,
    scope: &mut Scope,
    param: &Param,
    refs: &mut List<VarRef>,
) -> Mem<()>
    ensures refs { OnOk result
        (refs.new ≡ refs.old ++ next_ref (param_kind (struct_names tables.now) param.now) scope.old ∷ []) }
    ensures scope { OnOk result
        (scope.new ≡ declared scope.old (param_name param.now).text (param_kind (struct_names tables.now) param.now)) }
{
    let variable = scope.next_ref(tables.param_kind(param))?;
    refs.push(variable)?;
    declare_param(alloc, tables, scope, param)
}

/// Declares parameters, and tells their variables.
///
/// # Errors
///
/// Want of memory, also where a variable's number does not fit 32 bits.
pub fn declare_params(
    alloc: Global,
    tables: &Tables,
    scope: &mut Scope,
    params: &[Param],
) -> Mem<List<VarRef>>
    ensures refs { IfOk result (λ refs. refs ≡ param_refs tables.now params.now scope.old) }
    ensures scope { OnOk result (scope.new ≡ past_params tables.now params.now scope.old) }
{
    let mut refs = List::new(alloc);
    for param in params {
        add_param(alloc, tables, scope, param, &mut refs)?;
    }
    Ok(refs)
}

/// Begins the function of this head: its result is declared, and its parameters in the block that is open then. No
/// block is open before.
///
/// # Errors
///
/// Want of memory, also where a variable's number does not fit 32 bits.
pub fn past_head(alloc: Global, tables: &Tables, scope: &mut Scope, head: &Head) -> Mem<()>
    requires { scope.old.blocks ≡ [] }
    ensures { OnOk result (scope.new ≡ past_head tables.now head.now scope.old) }
{
    let _variable = begin_result(alloc, tables, scope, head)?;
    let _refs = declare_params(alloc, tables, scope, params_of(&head.params))?;
    Ok(())
}
