// The program of a file.
ghost use Rattle.std.specs.Prelude.{◌≡◌, ◌∷◌, ◌++◌, [], true, IfOk, List, OnOk};
ghost use Rattle.c_ast.specs.declared.items.Item.{Item as AnItem};
ghost use Rattle.c_types.specs.Program.{is_typed};
ghost use Rattle.c_typing.specs.Globals.{is_main};
ghost use Rattle.c_typing.specs.Programs.{func_of, funcs_in, main_in, program_in};
ghost use Rattle.c_typing.specs.Scopes.{empty_scope, outside, past_block, past_head, past_item, past_items};
ghost use Rattle.c_programs.specs.inner.Making.{or_body, with_body, with_func, with_main};

use crate::functions::func_of;
use c_ast::{Block, Head, Item};
use c_scopes::scopes::Scope;
use c_tables::functions::is_main;
use c_tables::tables::Tables;
use c_types::{Func, Stmt, Typed};
use fore_base::list::List;
use fore_base::memory::{Mem, beside};
use std::alloc::Global;

/// The functions so far, and the body of the first `main`, if there was one.
#[derive(Drop)]
struct Made {
    funcs: List<Func>,
    body: Option<List<Stmt>>,
}

/// A body of `main`, of which the first counts.
fn add_body(made: &mut Made, body: List<Stmt>)
    ensures funcs { made.new.funcs ≡ made.old.funcs }
    ensures body { made.new.body ≡ with_body made.old.body body }
{
    if made.body.is_none() {
        made.body = Some(body);
    }
}

/// The body of a function, where nothing else of it is wanted.
fn into_body(func: Func) -> List<Stmt>
    ensures { result ≡ func.body }
{
    let Func {
        name: _name,
        params: _params,
        locals: _locals,
        result: _result,
        body,
    } = func;
    body
}

/// A function more, which is `main`, or is not.
fn add(made: &mut Made, is_main: bool, func: Func) -> Mem<()>
    ensures funcs { OnOk result (made.new.funcs ≡ with_func is_main made.old.funcs func) }
    ensures body { OnOk result (made.new.body ≡ with_main is_main made.old.body func) }
{
    if is_main {
        add_body(made, into_body(func));
        return Ok(());
    }
    made.funcs.push(func)?;
    Ok(())
}

/// A function.
fn function_item(
    alloc: Global,
    tables: &Tables,
    scope: &mut Scope,
    made: &mut Made,
    head: &Head,
    body: &Block,
) -> Mem<()>
    requires { scope.old.blocks ≡ [] }
    ensures past { OnOk result
        (scope.new ≡ outside (past_block tables.now body.now (past_head tables.now head.now scope.old))) }
    ensures funcs { OnOk result
        (made.new.funcs ≡ with_func (is_main head.now) made.old.funcs
        (func_of tables.now head.now body.now scope.old)) }
    ensures body { OnOk result
        (made.new.body ≡ with_main (is_main head.now) made.old.body
        (func_of tables.now head.now body.now scope.old)) }
{
    let func = func_of(alloc, tables, scope, head, body)?;
    add(made, is_main(head), func)
}

/// One item.
fn one_item(
    alloc: Global,
    tables: &Tables,
    scope: &mut Scope,
    made: &mut Made,
    item: &Item,
) -> Mem<()>
    requires { scope.old.blocks ≡ [] }
    ensures past { OnOk result (scope.new ≡ past_item tables.now item.now scope.old) }
    ensures blocks { OnOk result (scope.new.blocks ≡ []) }
    ensures funcs { OnOk result ((rest : List AnItem)
        → made.new.funcs ++ funcs_in tables.now rest scope.new
        ≡ made.old.funcs ++ funcs_in tables.now (item.now ∷ rest) scope.old) }
    ensures body { OnOk result ((rest : List AnItem)
        → or_body made.new.body (main_in tables.now rest scope.new)
        ≡ or_body made.old.body (main_in tables.now (item.now ∷ rest) scope.old)) }
{
    match item {
        Item::Function { head, body } => {
            function_item(alloc, tables, scope, made, head, body)?;
            Ok(())
        }
        Item::Struct { .. } | Item::Enum { .. } | Item::Proto { .. } | Item::Declare(_) => Ok(()),
    }
}

/// All items in order.
fn all_items(alloc: Global, tables: &Tables, scope: &mut Scope, items: &[Item]) -> Mem<Made>
    requires { scope.old ≡ empty_scope }
    ensures past { OnOk result (scope.new ≡ past_items tables.now items.now empty_scope) }
    ensures funcs { IfOk result (λ made. made.funcs ≡ funcs_in tables.now items.now empty_scope) }
    ensures body { IfOk result (λ made. or_body made.body [] ≡ main_in tables.now items.now empty_scope) }
{
    let mut made = Made {
        funcs: List::new(alloc),
        body: None,
    };
    for item in items {
        one_item(alloc, tables, scope, &mut made, item)?;
    }
    Ok(made)
}

/// The body of the first `main`; nothing where there is none.
fn body_of(alloc: Global, body: Option<List<Stmt>>) -> List<Stmt>
    ensures { result ≡ or_body body [] }
{
    match body {
        Some(body) => body,
        None => List::new(alloc),
    }
}

/// The program of these items.
///
/// # Errors
///
/// Want of memory.
pub fn program_in(alloc: Global, tables: &Tables, items: &[Item]) -> Mem<Typed>
    requires { is_typed (program_in tables.now items.now) ≡ true }
    ensures { IfOk result (λ typed. typed ≡ program_in tables.now items.now) }
{
    let mut scope = Scope::new(alloc);
    let made = all_items(alloc, tables, &mut scope, items)?;
    let (made, shapes) = beside(made, tables.shapes(alloc))?;
    let (vars, data_vars) = scope.into_variables();
    let Made { funcs, body } = made;
    Ok(Typed {
        shapes,
        vars,
        data_vars,
        funcs,
        body: body_of(alloc, body),
    })
}
