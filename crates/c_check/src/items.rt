// The items of a unit in order: what they break.
ghost use Rattle.std.specs.Prelude.{◌≡◌, ◌||◌, [], false, IfOk, OnOk};
ghost use Rattle.c_typing.specs.Globals.{is_main};
ghost use Rattle.c_typing.specs.Scopes.{empty_scope, outside, past_block, past_head, past_item};
ghost use Rattle.c_check.specs.inner.Items.{is_main_item, kept_after, kept_function, kept_function_sites};
ghost use Rattle.c_check.specs.inner.Items.{kept_item_sites, kept_items_sites, nothing_kept, any_main};
ghost use Rattle.c_expressions.specs.Meeting.{met};

use crate::definitions::{Seen, enum_item, struct_item};
use crate::functions::function_faults;
use crate::heads::{global_item, proto_item};
use c_ast::{Block, Head, Item};
use c_names::naming::one_more;
use c_scopes::scopes::Scope;
use c_tables::functions::is_main;
use c_tables::tables::Tables;
use c_typing::TypeFault;
use fore_base::memory::Mem;
use std::alloc::Global;

/// A function. Tells whether there was a `main` then.
fn function_item(
    alloc: Global,
    tables: &Tables,
    seen: &mut Seen,
    scope: &mut Scope,
    main: bool,
    head: &Head,
    body: &Block,
    found: &mut Option<TypeFault>,
) -> Mem<bool>
    requires { scope.old.blocks ≡ [] }
    ensures seen { OnOk result (seen.new ≡ kept_function seen.old head.now) }
    ensures past { OnOk result
        (scope.new ≡ outside (past_block tables.now body.now (past_head tables.now head.now scope.old))) }
    ensures blocks { OnOk result (scope.new.blocks ≡ []) }
    ensures found { OnOk result
        (found.new ≡ met tables.now found.old
        (kept_function_sites tables.now seen.old.functions seen.old.function_count head.now body.now scope.old)) }
    ensures main { IfOk result (λ more. more ≡ (main || is_main head.now)) }
{
    function_faults(
        alloc,
        tables,
        &mut seen.functions,
        scope,
        seen.function_count,
        head,
        body,
        found,
    )?;
    seen.function_count = one_more(seen.function_count)?;
    Ok(main || is_main(head))
}

/// One item. Tells whether there was a `main` then.
fn one_item(
    alloc: Global,
    tables: &Tables,
    seen: &mut Seen,
    scope: &mut Scope,
    main: bool,
    item: &Item,
    found: &mut Option<TypeFault>,
) -> Mem<bool>
    requires { scope.old.blocks ≡ [] }
    ensures seen { OnOk result (seen.new ≡ kept_after seen.old item.now) }
    ensures past { OnOk result (scope.new ≡ past_item tables.now item.now scope.old) }
    ensures blocks { OnOk result (scope.new.blocks ≡ []) }
    ensures found { OnOk result
        (found.new ≡ met tables.now found.old
        (kept_item_sites tables.now seen.old item.now scope.old)) }
    ensures main { IfOk result (λ more. more ≡ (main || is_main_item item.now)) }
{
    match item {
        Item::Struct { name, fields, .. } => {
            struct_item(alloc, tables, seen, name, fields, found)?;
            Ok(main)
        }
        Item::Enum { name, values, .. } => {
            enum_item(tables, seen, name, values.as_slice(), found)?;
            Ok(main)
        }
        Item::Proto { head, .. } => {
            proto_item(alloc, tables, head, found)?;
            Ok(main)
        }
        Item::Function { head, body } => function_item(
            alloc, tables, seen, scope, main, head, body, found,
        ),
        Item::Declare(declare) => {
            global_item(tables, declare, found);
            Ok(main)
        }
    }
}

/// All items in order. Tells whether there is a `main`.
pub fn all_items(
    alloc: Global,
    tables: &Tables,
    items: &[Item],
    found: &mut Option<TypeFault>,
) -> Mem<bool>
    ensures found { OnOk result
        (found.new ≡ met tables.now found.old
        (kept_items_sites tables.now nothing_kept items.now empty_scope)) }
    ensures main { IfOk result (λ main. main ≡ any_main items.now) }
{
    let mut seen = Seen::new(alloc);
    let mut scope = Scope::new(alloc);
    items_in_order(alloc, tables, &mut seen, &mut scope, items, found)
}

/// All items in order, where none was seen before. Tells whether there is a `main`.
fn items_in_order(
    alloc: Global,
    tables: &Tables,
    seen: &mut Seen,
    scope: &mut Scope,
    items: &[Item],
    found: &mut Option<TypeFault>,
) -> Mem<bool>
    requires seen { seen.old ≡ nothing_kept }
    requires scope { scope.old ≡ empty_scope }
    ensures found { OnOk result
        (found.new ≡ met tables.now found.old
        (kept_items_sites tables.now nothing_kept items.now empty_scope)) }
    ensures main { IfOk result (λ main. main ≡ any_main items.now) }
{
    let mut main = false;
    for item in items {
        main = one_item(alloc, tables, seen, scope, main, item, found)?;
    }
    Ok(main)
}
