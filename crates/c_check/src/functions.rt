// Functions: their heads, with the variables that these declare, and their bodies.
ghost use Rattle.std.specs.Prelude.{◌≡◌, [], OnOk};
ghost use Rattle.c_typing.specs.BodySites.{block_places};
ghost use Rattle.c_typing.specs.Globals.{param_kind, struct_names};
ghost use Rattle.c_typing.specs.ItemSites.{own_param_sites, own_params_sites, result_sites};
ghost use Rattle.c_typing.specs.Scopes.{begun, declared, outside, param_name, past_block, past_head, past_params};
ghost use Rattle.c_typing.specs.Scopes.{past_result, result_of};
ghost use Rattle.c_typing.specs.Sites.{Counts, Functions};
ghost use Rattle.c_check.specs.inner.Items.{kept_function_sites, kept_head_sites, kept_named_sites, with_name};
ghost use Rattle.c_expressions.specs.Meeting.{met, noted};

use crate::definitions::defines;
use c_ast::{Block, Head, Name, Param};
use c_bodies::bodies::block_faults;
use c_bodies::types::{uses_param, uses_result};
use c_callees::place_behind;
use c_expressions::first::note_limit;
use c_expressions::noting::{defines_variable, note_when};
use c_functions::given::is_given;
use c_functions::profile::is_main_head;
use c_scopes::heads::{begin, declare_param, declare_result, param_name, result_of};
use c_scopes::scopes::Scope;
use c_tables::functions::{is_main, params_of};
use c_tables::tables::Tables;
use c_typing::{Family, Kind, TypeFault};
use fore_base::limits::STATEMENTS;
use fore_base::memory::Mem;
use fore_base::names::Names;
use std::alloc::Global;

/// A function is defined.
#[tactic(auto, using(crate::proofs::ItemLemmas::sites))]
fn functions(tables: &Tables, head: &Head, found: &mut Option<TypeFault>)
    ensures { found.new ≡ noted tables.now found.old (Functions head.now) }
{
    let _tables = tables;
    let given = is_given(head.name.text.as_slice());
    let broken = given || (is_main(head) && !is_main_head(head));
    note_when(broken, 15, head.name.at, found);
}

/// The name of a function that is defined, after these and so many others.
#[tactic(auto, using(c_expressions::proofs::MeetingLemmas::meeting))]
fn named(
    tables: &Tables,
    names: &mut Names,
    count: usize,
    head: &Head,
    found: &mut Option<TypeFault>,
) -> Mem<()>
    ensures names { OnOk result (names.new ≡ with_name names.old head.now.name.text) }
    ensures found { OnOk result
        (found.new ≡ met tables.now found.old (kept_named_sites names.old count head.now)) }
{
    defines(tables, Family::Function, names, count, &head.name, found)?;
    functions(tables, head, found);
    Ok(())
}

/// What the result of a function breaks, if it has one. No block is open.
#[tactic(auto, using(c_expressions::proofs::MeetingLemmas::meeting))]
fn result_faults(
    tables: &Tables,
    scope: &Scope,
    kind: Option<Kind>,
    name: &Name,
    found: &mut Option<TypeFault>,
)
    requires { scope.now.blocks ≡ [] }
    ensures { found.new ≡ met tables.now found.old (result_sites kind name.now scope.now) }
{
    match kind {
        Some(_) => defines_variable(tables, scope, name, found),
        None => {}
    }
}

/// A function begins, and its result is declared, if it has one.
fn begins(
    alloc: Global,
    tables: &Tables,
    scope: &mut Scope,
    head: &Head,
    found: &mut Option<TypeFault>,
) -> Mem<()>
    requires { scope.old.blocks ≡ [] }
    ensures past { OnOk result (scope.new ≡ past_result tables.now head.now scope.old) }
    ensures found { OnOk result
        (found.new ≡ met tables.now found.old
        (result_sites (result_of tables.now head.now) head.now.name
        (begun tables.now head.now scope.old))) }
{
    begin(tables, scope, head);
    let kind = result_of(tables, head);
    result_faults(tables, scope, kind, &head.name, found);
    declare_result(alloc, scope, kind, &head.name.text)
}

/// What a parameter breaks, which is in scope from then on.
#[tactic(auto, using(c_expressions::proofs::MeetingLemmas::meeting))]
fn param_faults(
    alloc: Global,
    tables: &Tables,
    scope: &mut Scope,
    param: &Param,
    found: &mut Option<TypeFault>,
) -> Mem<()>
    ensures past { OnOk result
        (scope.new ≡ declared scope.old (param_name param.now).text (param_kind (struct_names tables.now) param.now)) }
    ensures found { OnOk result
        (found.new ≡ met tables.now found.old (own_param_sites tables.now param.now scope.old)) }
{
    uses_param(tables, param, found);
    defines_variable(tables, scope, param_name(param), found);
    declare_param(alloc, tables, scope, param)
}

/// What parameters break, one after the other.
#[tactic(auto, using(c_expressions::proofs::MeetingLemmas::meeting))]
fn params_faults(
    alloc: Global,
    tables: &Tables,
    scope: &mut Scope,
    params: &[Param],
    found: &mut Option<TypeFault>,
) -> Mem<()>
    ensures past { OnOk result (scope.new ≡ past_params tables.now params.now scope.old) }
    ensures found { OnOk result
        (found.new ≡ met tables.now found.old (own_params_sites tables.now params.now scope.old)) }
{
    for param in params {
        param_faults(alloc, tables, scope, param, found)?;
    }
    Ok(())
}

/// What the head of a function breaks, which is defined after these and so many others.
fn head_faults(
    alloc: Global,
    tables: &Tables,
    names: &mut Names,
    scope: &mut Scope,
    count: usize,
    head: &Head,
    found: &mut Option<TypeFault>,
) -> Mem<()>
    requires { scope.old.blocks ≡ [] }
    ensures names { OnOk result (names.new ≡ with_name names.old head.now.name.text) }
    ensures past { OnOk result (scope.new ≡ past_head tables.now head.now scope.old) }
    ensures found { OnOk result
        (found.new ≡ met tables.now found.old (kept_head_sites tables.now names.old count head.now scope.old)) }
{
    uses_result(tables, &head.gives, found);
    named(tables, names, count, head, found)?;
    begins(alloc, tables, scope, head, found)?;
    scope.enter(alloc)?;
    params_faults(alloc, tables, scope, params_of(&head.params), found)?;
    Ok(())
}

/// The first statement or declaration of a body beyond the limit.
fn counts(tables: &Tables, block: &Block, found: &mut Option<TypeFault>)
    ensures { found.new ≡ noted tables.now found.old (Counts (block_places block.now).within) }
{
    let _tables = tables;
    match place_behind(STATEMENTS as u32, block) {
        Some(at) => note_limit(found, 7, at),
        None => {}
    }
}

/// What a function breaks, which is defined after these and so many others.
pub fn function_faults(
    alloc: Global,
    tables: &Tables,
    names: &mut Names,
    scope: &mut Scope,
    count: usize,
    head: &Head,
    body: &Block,
    found: &mut Option<TypeFault>,
) -> Mem<()>
    requires { scope.old.blocks ≡ [] }
    ensures names { OnOk result (names.new ≡ with_name names.old head.now.name.text) }
    ensures past { OnOk result
        (scope.new ≡ outside (past_block tables.now body.now (past_head tables.now head.now scope.old))) }
    ensures found { OnOk result
        (found.new ≡ met tables.now found.old
        (kept_function_sites tables.now names.old count head.now body.now scope.old)) }
{
    head_faults(alloc, tables, names, scope, count, head, found)?;
    block_faults(alloc, tables, scope, false, body, found)?;
    counts(tables, body, found);
    scope.leave();
    scope.move_to(None);
    Ok(())
}
