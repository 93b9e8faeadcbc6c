// Definitions: what is defined twice, what is not defined, and the limits.
ghost use Rattle.std.specs.Prelude.{◌≡◌, ◌+◌, ◌∷◌, [], length, nat_eq, IfOk, OnOk};
ghost use Rattle.c_typing.specs.ItemSites.{field_type_sites, names_of};
ghost use Rattle.c_typing.specs.Sites.{Defines};
ghost use Rattle.c_typing.specs.declared.meaning.Family.TheVariants.{Struct, Enum, Value, Member};
ghost use Rattle.c_typing.specs.declared.fault.TypeFault.TheVariants.{Limit};
ghost use Rattle.c_check.specs.inner.Items.{counted, with_name, with_names, kept_name_sites, kept_fields_sites};
ghost use Rattle.c_check.specs.inner.Items.{kept_structs, kept_struct_sites, kept_enums};
ghost use Rattle.c_expressions.specs.Meeting.{met, noted, noted_when};

use c_ast::{Field, Name};
use c_bodies::types::uses_field_type;
use c_expressions::first::note_limit;
use c_expressions::noting::{note_when, uses_struct};
use c_names::naming::{self, one_more};
use c_tables::tables::Tables;
use c_typing::limits::FUNCTIONS;
use c_typing::{Family, TypeFault};
use fore_base::limits::{ENUMERATORS, FIELDS, STRUCTS, VARIABLES};
use fore_base::list::List;
use fore_base::memory::Mem;
use fore_base::names::Names;
use fore_base::place::Place;
use std::alloc::Global;

/// What the items so far define: each name once, and how many definitions of structs and of functions there were.
#[derive(Drop)]
pub struct Seen {
    pub structs: Names,
    pub count: usize,
    pub enums: Names,
    pub values: Names,
    pub functions: Names,
    pub function_count: usize,
}

impl Seen {
    /// Nothing is defined yet.
    pub fn new(alloc: Global) -> Seen
        ensures structs { result.structs ≡ [] }
        ensures count { result.count ≡ 0 }
        ensures enums { result.enums ≡ [] }
        ensures values { result.values ≡ [] }
        ensures functions { result.functions ≡ [] }
        ensures function_count { result.function_count ≡ 0 }
    {
        Seen {
            structs: Names::new(alloc),
            count: 0,
            enums: Names::new(alloc),
            values: Names::new(alloc),
            functions: Names::new(alloc),
            function_count: 0,
        }
    }
}

/// Notes that a limit is passed at a place, where so many were counted before it.
fn note_at(count: usize, most: usize, limit: u8, at: Place, found: &mut Option<TypeFault>)
    ensures { found.new ≡ noted_when (nat_eq count most) (Limit limit at) found.old }
{
    if count == most {
        note_limit(found, limit, at);
    }
}

/// Notes that the limit of a family is passed at a place, where so many of it were counted before it.
fn note_count(family: Family, count: usize, at: Place, found: &mut Option<TypeFault>)
    ensures { found.new ≡ counted family count at found.old }
{
    match family {
        Family::Struct => note_at(count, STRUCTS, 2, at, found),
        Family::Member => note_at(count, FIELDS, 3, at, found),
        Family::Variable => note_at(count, VARIABLES, 4, at, found),
        Family::Value => note_at(count, ENUMERATORS, 5, at, found),
        Family::Function => note_at(count, FUNCTIONS, 10, at, found),
        Family::Enum | Family::Parameter => {}
    }
}

/// A name of this family is defined, after so many others; `names` are those before it.
#[tactic(auto, using(crate::proofs::ItemLemmas::sites))]
pub fn defines(
    tables: &Tables,
    family: Family,
    names: &mut Names,
    count: usize,
    name: &Name,
    found: &mut Option<TypeFault>,
) -> Mem<()>
    ensures names { OnOk result (names.new ≡ with_name names.old name.now.text) }
    ensures found { OnOk result (found.new ≡ noted tables.now found.old (Defines family name.now names.old count)) }
{
    let _tables = tables;
    let known = naming::is_there(names, name.text.as_slice());
    let _new = naming::add(names, name.text.as_slice())?;
    note_when(known, 5, name.at, found);
    note_count(family, count, name.at, found);
    Ok(())
}

/// Names of this family are defined, one after the other, after so many others: how many there are then.
#[tactic(auto, using(c_expressions::proofs::MeetingLemmas::meeting))]
fn defines_all(
    tables: &Tables,
    family: Family,
    names: &mut Names,
    count: usize,
    list: &[Name],
    found: &mut Option<TypeFault>,
) -> Mem<usize>
    ensures count { IfOk result (λ more. more ≡ count + length list.now) }
    ensures names { OnOk result (names.new ≡ with_names names.old list.now) }
    ensures found { OnOk result
        (found.new ≡ met tables.now found.old (kept_name_sites family names.old count list.now)) }
{
    let mut count = count;
    for name in list {
        defines(tables, family, names, count, name, found)?;
        count = one_more(count)?;
    }
    Ok(count)
}

/// The names of a line of fields.
fn names_of(field: &Field) -> &[Name]
    ensures { result.now ≡ names_of field.now }
{
    match field {
        Field::Pointers { fields, .. } | Field::Datums { fields, .. } => fields.as_slice(),
    }
}

/// A line of fields.
#[tactic(auto, using(c_expressions::proofs::MeetingLemmas::meeting))]
fn defines_field(
    tables: &Tables,
    names: &mut Names,
    count: usize,
    field: &Field,
    found: &mut Option<TypeFault>,
) -> Mem<usize>
    ensures count { IfOk result (λ more. more ≡ count + length (names_of field.now)) }
    ensures names { OnOk result (names.new ≡ with_names names.old (names_of field.now)) }
    ensures found { OnOk result
        (found.new ≡ met tables.now (met tables.now found.old (field_type_sites field.now))
        (kept_name_sites Member names.old count (names_of field.now))) }
{
    uses_field_type(tables, field, found);
    defines_all(tables, Family::Member, names, count, names_of(field), found)
}

/// The fields of a struct.
#[tactic(auto, using(c_expressions::proofs::MeetingLemmas::meeting))]
fn defines_fields(
    alloc: Global,
    tables: &Tables,
    fields: &[Field],
    found: &mut Option<TypeFault>,
) -> Mem<()>
    ensures { OnOk result (found.new ≡ met tables.now found.old (kept_fields_sites [] 0 fields.now)) }
{
    let mut names = Names::new(alloc);
    let mut count = 0;
    for field in fields {
        count = defines_field(tables, &mut names, count, field, found)?;
    }
    Ok(())
}

/// A struct with its fields.
fn defines_struct(
    tables: &Tables,
    seen: &mut Seen,
    name: &Name,
    found: &mut Option<TypeFault>,
) -> Mem<()>
    ensures structs { OnOk result (seen.new.structs ≡ with_name seen.old.structs name.now.text) }
    ensures count { OnOk result (seen.new.count ≡ seen.old.count + 1) }
    ensures enums { OnOk result (seen.new.enums ≡ seen.old.enums) }
    ensures values { OnOk result (seen.new.values ≡ seen.old.values) }
    ensures functions { seen.new.functions ≡ seen.old.functions }
    ensures function_count { seen.new.function_count ≡ seen.old.function_count }
    ensures found { OnOk result
        (found.new ≡ noted tables.now found.old
        (Defines Struct name.now seen.old.structs seen.old.count)) }
{
    let count = seen.count;
    defines(
        tables,
        Family::Struct,
        &mut seen.structs,
        count,
        name,
        found,
    )?;
    seen.count = one_more(count)?;
    Ok(())
}

/// A struct, which without braces is named only.
#[tactic(auto, using(c_expressions::proofs::MeetingLemmas::meeting))]
pub fn struct_item(
    alloc: Global,
    tables: &Tables,
    seen: &mut Seen,
    name: &Name,
    fields: &Option<List<Field>>,
    found: &mut Option<TypeFault>,
) -> Mem<()>
    ensures seen { OnOk result (seen.new ≡ kept_structs seen.old name.now fields.now) }
    ensures found { OnOk result
        (found.new ≡ met tables.now found.old
        (kept_struct_sites seen.old name.now fields.now)) }
{
    match fields {
        None => {
            uses_struct(tables, name, found);
            Ok(())
        }
        Some(fields) => {
            defines_struct(tables, seen, name, found)?;
            defines_fields(alloc, tables, fields.as_slice(), found)
        }
    }
}

/// An enumeration with its enumerators.
#[tactic(auto, using(c_expressions::proofs::MeetingLemmas::meeting))]
pub fn enum_item(
    tables: &Tables,
    seen: &mut Seen,
    name: &Name,
    values: &[Name],
    found: &mut Option<TypeFault>,
) -> Mem<()>
    ensures seen { OnOk result (seen.new ≡ kept_enums seen.old name.now values.now) }
    ensures found { OnOk result
        (found.new ≡ met tables.now found.old
        (Defines Enum name.now seen.old.enums 0 ∷ kept_name_sites Value seen.old.values 0 values.now)) }
{
    defines(tables, Family::Enum, &mut seen.enums, 0, name, found)?;
    let _count = defines_all(tables, Family::Value, &mut seen.values, 0, values, found)?;
    Ok(())
}
