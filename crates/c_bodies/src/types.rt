// The types that declarations, fields and heads name.
ghost use Rattle.std.specs.Prelude.{◌≡◌};
ghost use Rattle.c_typing.specs.BodySites.{data_sites, type_sites};
ghost use Rattle.c_typing.specs.ItemSites.{gives_sites, param_sites, field_type_sites};
ghost use Rattle.c_expressions.specs.Meeting.{met};

use c_ast::{Data, Declare, Field, Param, ReturnType};
use c_expressions::noting::{uses_enum, uses_struct};
use c_tables::tables::Tables;
use c_typing::TypeFault;

/// A type of data is named.
#[tactic(auto, using(c_expressions::proofs::MeetingLemmas::meeting))]
pub fn uses_data(tables: &Tables, data: &Data, found: &mut Option<TypeFault>)
    ensures { found.new ≡ met tables.now found.old (data_sites data.now) }
{
    match data {
        Data::Int { .. } => {}
        Data::Enum { name, .. } => uses_enum(tables, name, found),
    }
}

/// The type of a declaration.
#[tactic(auto, using(c_expressions::proofs::MeetingLemmas::meeting))]
pub fn uses_type(tables: &Tables, declare: &Declare, found: &mut Option<TypeFault>)
    ensures { found.new ≡ met tables.now found.old (type_sites declare.now) }
{
    match declare {
        Declare::Pointers { name, .. } => uses_struct(tables, name, found),
        Declare::Datums { data, .. } => uses_data(tables, data, found),
    }
}

/// The type of a line of fields.
#[tactic(auto, using(c_expressions::proofs::MeetingLemmas::meeting))]
pub fn uses_field_type(tables: &Tables, field: &Field, found: &mut Option<TypeFault>)
    ensures { found.new ≡ met tables.now found.old (field_type_sites field.now) }
{
    match field {
        Field::Pointers { name, .. } => uses_struct(tables, name, found),
        Field::Datums { data, .. } => uses_data(tables, data, found),
    }
}

/// What a function gives.
#[tactic(auto, using(c_expressions::proofs::MeetingLemmas::meeting))]
pub fn uses_result(tables: &Tables, gives: &ReturnType, found: &mut Option<TypeFault>)
    ensures { found.new ≡ met tables.now found.old (gives_sites gives.now) }
{
    match gives {
        ReturnType::Void { .. } => {}
        ReturnType::Data(data) => uses_data(tables, data, found),
        ReturnType::Pointer { name, .. } => uses_struct(tables, name, found),
    }
}

/// The type of a parameter.
#[tactic(auto, using(c_expressions::proofs::MeetingLemmas::meeting))]
pub fn uses_param(tables: &Tables, param: &Param, found: &mut Option<TypeFault>)
    ensures { found.new ≡ met tables.now found.old (param_sites param.now) }
{
    match param {
        Param::Pointer { shape, .. } => uses_struct(tables, shape, found),
        Param::Datum { data, .. } => uses_data(tables, data, found),
    }
}
