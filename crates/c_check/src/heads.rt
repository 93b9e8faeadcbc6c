// Prototypes, and declarations at file level.
ghost use Rattle.std.specs.Prelude.{◌≡◌, ◌++◌, ◌∷◌, [], OnOk};
ghost use Rattle.c_typing.specs.BodySites.{type_sites};
ghost use Rattle.c_typing.specs.ItemSites.{global_sites, param_sites};
ghost use Rattle.c_typing.specs.Scopes.{declarators_of, param_name};
ghost use Rattle.c_typing.specs.Sites.{Declares, Defines, Globally};
ghost use Rattle.c_typing.specs.declared.meaning.Family.TheVariants.{Parameter};
ghost use Rattle.c_check.specs.inner.Items.{kept_params_sites, kept_proto_sites, with_name};
ghost use Rattle.c_expressions.specs.Meeting.{met, noted};

use crate::definitions::defines;
use c_ast::{Declarator, Declare, Head, Name, Param};
use c_bodies::types::{uses_param, uses_result, uses_type};
use c_expressions::noting::note_when;
use c_functions::prototypes::is_right_prototype;
use c_making::declaring::declarators_of;
use c_scopes::heads::param_name;
use c_tables::functions::params_of;
use c_tables::tables::Tables;
use c_typing::{Family, TypeFault};
use fore_base::memory::Mem;
use fore_base::names::Names;
use std::alloc::Global;

/// A prototype is declared.
#[tactic(auto, using(crate::proofs::ItemLemmas::sites))]
fn declares(tables: &Tables, head: &Head, found: &mut Option<TypeFault>)
    ensures { found.new ≡ noted tables.now found.old (Declares head.now) }
{
    let right = is_right_prototype(tables, head);
    note_when(!right, 15, head.name.at, found);
}

/// A parameter of a prototype, with its type.
#[tactic(auto, using(c_expressions::proofs::MeetingLemmas::meeting))]
fn proto_param(
    tables: &Tables,
    names: &mut Names,
    param: &Param,
    found: &mut Option<TypeFault>,
) -> Mem<()>
    ensures names { OnOk result (names.new ≡ with_name names.old (param_name param.now).text) }
    ensures found { OnOk result
        (found.new ≡ met tables.now found.old
        (param_sites param.now ++ Defines Parameter (param_name param.now) names.old 0 ∷ [])) }
{
    uses_param(tables, param, found);
    defines(
        tables,
        Family::Parameter,
        names,
        0,
        param_name(param),
        found,
    )
}

/// The parameters of a prototype.
#[tactic(auto, using(c_expressions::proofs::MeetingLemmas::meeting))]
fn proto_params(
    alloc: Global,
    tables: &Tables,
    params: &[Param],
    found: &mut Option<TypeFault>,
) -> Mem<()>
    ensures { OnOk result (found.new ≡ met tables.now found.old (kept_params_sites [] params.now)) }
{
    let mut names = Names::new(alloc);
    for param in params {
        proto_param(tables, &mut names, param, found)?;
    }
    Ok(())
}

/// A prototype, with its parameters and the types that it names.
#[tactic(auto, using(c_expressions::proofs::MeetingLemmas::meeting))]
pub fn proto_item(
    alloc: Global,
    tables: &Tables,
    head: &Head,
    found: &mut Option<TypeFault>,
) -> Mem<()>
    ensures { OnOk result (found.new ≡ met tables.now found.old (kept_proto_sites head.now)) }
{
    uses_result(tables, &head.gives, found);
    declares(tables, head, found);
    proto_params(alloc, tables, params_of(&head.params), found)
}

/// A variable is declared at file level.
#[tactic(auto, using(crate::proofs::ItemLemmas::sites))]
fn declares_globally(tables: &Tables, name: &Name, found: &mut Option<TypeFault>)
    ensures { found.new ≡ noted tables.now found.old (Globally name.now) }
{
    let _tables = tables;
    note_when(true, 14, name.at, found);
}

/// The first variable of a declaration at file level.
#[tactic(auto, using(c_expressions::proofs::MeetingLemmas::meeting))]
fn first_global(tables: &Tables, vars: &[Declarator], found: &mut Option<TypeFault>)
    ensures { found.new ≡ met tables.now found.old (global_sites tables.now vars.now) }
{
    match vars {
        [] => {}
        [var, ..] => declares_globally(tables, &var.name, found),
    }
}

/// A declaration at file level.
#[tactic(auto, using(c_expressions::proofs::MeetingLemmas::meeting))]
pub fn global_item(tables: &Tables, declare: &Declare, found: &mut Option<TypeFault>)
    ensures { found.new ≡ met tables.now found.old
        (type_sites declare.now ++ global_sites tables.now (declarators_of declare.now)) }
{
    uses_type(tables, declare, found);
    first_global(tables, declarators_of(declare), found);
}
