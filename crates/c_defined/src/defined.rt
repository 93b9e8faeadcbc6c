// What the items of a unit define, of each name the first.
ghost use Rattle.std.specs.Prelude.{◌≡◌, ◌∷◌, ◌++◌, [], List, map, cond, not, IfOk, OnOk};
ghost use Rattle.c_typing.specs.Globals.{Definition, datum_of, defined_name, enums_of, itself, members_in};
ghost use Rattle.c_typing.specs.Globals.{struct_definitions, struct_of, structs_in, value_name, values_from, values_in};
ghost use Rattle.c_typing.specs.Globals.{values_of, enums_in};
ghost use Rattle.c_typing.specs.Texts.{Text as Word, each_of, firsts, has, number_of};
ghost use Rattle.c_typing.specs.declared.meaning.Enumerator.{Enumerator as Value};
ghost use Rattle.c_defined.specs.inner.Definitions.{names_in, member_of};

use crate::structs::Struct;
use c_ast::{Field, Item, Name};
use c_names::naming;
use c_typing::{Enumerator, Kind, Member};
use fore_base::limits::DATUM;
use fore_base::list::{Copies, List};
use fore_base::memory::Mem;
use fore_base::names::Names;
use std::alloc::Global;

/// The names of the structs.
#[tactic(auto, using(crate::proofs::TableLemmas::struct_names_all))]
pub fn struct_names(alloc: Global, items: &[Item]) -> Mem<Names>
    ensures { IfOk result (λ names. names ≡ map defined_name (struct_definitions items.now)) }
{
    let names = all_names(alloc, items)?;
    Ok(names)
}

fn all_names(alloc: Global, items: &[Item]) -> Mem<Names>
    ensures { IfOk result (λ names. names ≡ firsts itself [] (each_of names_in items.now)) }
{
    let mut names = Names::new(alloc);
    for item in items {
        name_struct(&mut names, item)?;
    }
    Ok(names)
}

fn name_struct(names: &mut Names, item: &Item) -> Mem<()>
    ensures { OnOk result ((rest : List Word) → names.new ++ firsts itself names.new rest ≡ names.old
        ++ firsts itself names.old (names_in item.now ++ rest)) }
{
    match item {
        Item::Struct { name, fields, .. } => match fields {
            Some(_) => put_name(names, name),
            None => Ok(()),
        },
        Item::Enum { .. } | Item::Proto { .. } | Item::Function { .. } | Item::Declare(_) => Ok(()),
    }
}

fn put_name(names: &mut Names, name: &Name) -> Mem<()>
    ensures { OnOk result ((rest : List Word) → names.new ++ firsts itself names.new rest ≡ names.old
        ++ firsts itself names.old (name.now.text ∷ rest)) }
{
    let _new = naming::add(names, name.text.as_slice())?;
    Ok(())
}

/// The names of the enumerations.
pub fn enum_names(alloc: Global, items: &[Item]) -> Mem<Names>
    ensures { IfOk result (λ names. names ≡ enums_of items.now) }
{
    let mut names = Names::new(alloc);
    for item in items {
        name_enum(&mut names, item)?;
    }
    Ok(names)
}

fn name_enum(names: &mut Names, item: &Item) -> Mem<()>
    ensures { OnOk result ((rest : List Word) → names.new ++ firsts itself names.new rest ≡ names.old
        ++ firsts itself names.old (enums_in item.now ++ rest)) }
{
    match item {
        Item::Enum { name, .. } => put_name(names, name),
        Item::Struct { .. } | Item::Proto { .. } | Item::Function { .. } | Item::Declare(_) => Ok(
            (),
        ),
    }
}

/// Enumerators and their names.
#[derive(Drop)]
pub struct Values {
    pub names: Names,
    pub values: List<Enumerator>,
}

impl Values {
    /// The enumerators of the items.
    pub fn of(alloc: Global, items: &[Item]) -> Mem<Values>
        ensures names { IfOk result (λ v. v.names ≡ map value_name v.values) }
        ensures values { IfOk result (λ v. v.values ≡ values_of items.now) }
    {
        let mut all = Values {
            names: Names::new(alloc),
            values: List::new(alloc),
        };
        for item in items {
            all.add_item(alloc, item)?;
        }
        Ok(all)
    }

    fn add_item(&mut self, alloc: Global, item: &Item) -> Mem<()>
        requires { self.old.names ≡ map value_name self.old.values }
        ensures names { OnOk result (self.new.names ≡ map value_name self.new.values) }
        ensures ok { OnOk result ((rest : List Value) → self.new.values ++ firsts value_name self.new.names rest
            ≡ self.old.values ++ firsts value_name self.old.names (values_in item.now ++ rest)) }
    {
        match item {
            Item::Enum { values, .. } => self.add_all(alloc, values.as_slice()),
            Item::Struct { .. } | Item::Proto { .. } | Item::Function { .. } | Item::Declare(_) =>
                Ok(()),
        }
    }

    fn add_all(&mut self, alloc: Global, names: &[Name]) -> Mem<()>
        requires { self.old.names ≡ map value_name self.old.values }
        ensures names { OnOk result (self.new.names ≡ map value_name self.new.values) }
        ensures ok { OnOk result ((rest : List Value) → self.new.values ++ firsts value_name self.new.names rest
            ≡ self.old.values ++ firsts value_name self.old.names (values_from 0 names.now ++ rest)) }
    {
        for (place, name) in names.iter().enumerate() {
            self.add(alloc, name, value_at(place))?;
        }
        Ok(())
    }

    fn add(&mut self, alloc: Global, name: &Name, value: u8) -> Mem<()>
        requires { self.old.names ≡ map value_name self.old.values }
        ensures names { OnOk result (self.new.names ≡ map value_name self.new.values) }
        ensures ok { OnOk result ((rest : List Value) → self.new.values ++ firsts value_name self.new.names rest
            ≡ self.old.values ++ firsts value_name self.old.names
            (record { name = name.now.text; value = value } ∷ rest)) }
    {
        if naming::add(&mut self.names, name.text.as_slice())? {
            let name = name.text.copy(alloc)?;
            self.values.push(Enumerator { name, value })?;
            return Ok(());
        }
        Ok(())
    }
}

/// The value of the enumerator at a place of its enumeration: the place, where it is a datum.
fn value_at(place: usize) -> u8
    ensures { result ≡ datum_of place }
{
    if place <= DATUM as usize {
        place as u8
    } else {
        0
    }
}

/// The structs; `names` are the names of all of them.
pub fn structs(alloc: Global, names: &Names, items: &[Item]) -> Mem<List<Struct>>
    ensures { IfOk result (λ structs. structs ≡ map (struct_of names.now) (struct_definitions items.now)) }
{
    let mut seen = Names::new(alloc);
    let mut structs = List::new(alloc);
    for item in items {
        define_item(alloc, names, &mut seen, &mut structs, item)?;
    }
    Ok(structs)
}

fn define_item(
    alloc: Global,
    names: &Names,
    seen: &mut Names,
    structs: &mut List<Struct>,
    item: &Item,
) -> Mem<()>
    ensures { OnOk result ((rest : List Definition)
        → structs.new ++ map (struct_of names.now) (firsts defined_name seen.new rest) ≡ structs.old
        ++ map (struct_of names.now) (firsts defined_name seen.old (structs_in item.now ++ rest))) }
{
    match item {
        Item::Struct { name, fields, .. } => match fields {
            Some(fields) => define(alloc, names, seen, structs, name, fields.as_slice()),
            None => Ok(()),
        },
        Item::Enum { .. } | Item::Proto { .. } | Item::Function { .. } | Item::Declare(_) => Ok(()),
    }
}

fn define(
    alloc: Global,
    names: &Names,
    seen: &mut Names,
    structs: &mut List<Struct>,
    name: &Name,
    fields: &[Field],
) -> Mem<()>
    ensures { OnOk result ((rest : List Definition)
        → structs.new ++ map (struct_of names.now) (firsts defined_name seen.new rest) ≡ structs.old
        ++ map (struct_of names.now) (firsts defined_name seen.old ((name.now, fields.now) ∷ rest))) }
{
    if naming::add(seen, name.text.as_slice())? {
        let one = one_struct(alloc, names, name, fields)?;
        structs.push(one)?;
        return Ok(());
    }
    Ok(())
}

fn one_struct(alloc: Global, names: &Names, name: &Name, fields: &[Field]) -> Mem<Struct>
    ensures { IfOk result (λ one. one ≡ struct_of names.now (name.now, fields.now)) }
{
    let mut members = List::new(alloc);
    for field in fields {
        add_field(alloc, names, &mut members, field)?;
    }
    let name = name.text.copy(alloc)?;
    let one = Struct::of(alloc, name, members)?;
    Ok(one)
}

fn add_field(alloc: Global, names: &Names, members: &mut List<Member>, field: &Field) -> Mem<()>
    ensures { OnOk result (members.new ≡ members.old ++ members_in names.now field.now) }
{
    match field {
        Field::Pointers { name, fields, .. } => {
            let to = naming::find(names, name.text.as_slice());
            add_names(alloc, members, Kind::Points(to), fields.as_slice())
        }
        Field::Datums { fields, .. } => add_names(alloc, members, Kind::Datum, fields.as_slice()),
    }
}

fn add_names(alloc: Global, members: &mut List<Member>, kind: Kind, names: &[Name]) -> Mem<()>
    ensures { OnOk result (members.new ≡ members.old ++ map (member_of kind) names.now) }
{
    for name in names {
        let name = name.text.copy(alloc)?;
        members.push(Member { name, kind })?;
    }
    Ok(())
}
