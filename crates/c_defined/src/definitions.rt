// The structs, enumerations and enumerators that the items of a unit define, to be found by their names.
ghost use Rattle.std.specs.Prelude.{◌≡◌, map, IfOk};
ghost use Rattle.c_typing.specs.Globals.{enums_of, fields_of, struct_name, structs_of, use_in, value_in, value_name};
ghost use Rattle.c_typing.specs.Globals.{values_of};
ghost use Rattle.c_typing.specs.Programs.{field_kind_of, field_of, shape_of};
ghost use Rattle.c_typing.specs.Texts.{has, number_of};

use crate::defined::{self, Values};
use crate::structs::Struct;
use c_ast::Item;
use c_names::naming;
use c_typing::{Enumerator, FieldUse, Kind, Member};
use fore_base::list::{Copies, List};
use fore_base::memory::Mem;
use fore_base::names::Names;
use fore_base::shape::{FieldDef, FieldKind, Shape, Shapes};
use std::alloc::Global;
use std::marker::Model;

/// The structs, enumerations and enumerators of a unit, of each name the first, to be found by their names.
#[derive(Drop)]
pub struct Definitions {
    struct_names: Names,
    structs: List<Struct>,
    enums: Names,
    value_names: Names,
    values: List<Enumerator>,
}

impl Model for Definitions {
    ghost use Rattle.std.specs.Prelude.{◌≡◌, map};
    ghost use Rattle.c_typing.specs.Globals.{struct_name, value_name};
    ghost use Rattle.c_defined.specs.Defined.{Defined};

    ghost Value = { Defined };

    ghost view = { λ d. record { structs = d.structs; enums = d.enums; values = d.values } };

    ghost invariant = { λ d. (d.struct_names ≡ map struct_name d.structs) × (d.value_names ≡ map value_name d.values) };
}

impl Definitions {
    /// What the items define.
    ///
    /// # Errors
    ///
    /// Want of memory.
    #[tactic(auto, using(c_typing::proofs::Firsts::names_of_structs))]
    pub fn of(alloc: Global, items: &[Item]) -> Mem<Definitions>
        ensures structs { IfOk result (λ d. d.structs ≡ structs_of items.now) }
        ensures enums { IfOk result (λ d. d.enums ≡ enums_of items.now) }
        ensures values { IfOk result (λ d. d.values ≡ values_of items.now) }
    {
        let struct_names = defined::struct_names(alloc, items)?;
        let structs = defined::structs(alloc, &struct_names, items)?;
        let enums = defined::enum_names(alloc, items)?;
        let Values { names, values } = Values::of(alloc, items)?;
        Ok(Definitions {
            struct_names,
            structs,
            enums,
            value_names: names,
            values,
        })
    }

    /// The names of the structs.
    pub fn struct_names(&self) -> &Names
        ensures { result.now ≡ map struct_name self.now.structs }
    {
        &self.struct_names
    }

    /// The structs, as a program has them.
    ///
    /// # Errors
    ///
    /// Want of memory.
    pub fn shapes(&self, alloc: Global) -> Mem<Shapes>
        ensures { IfOk result (λ s. s.structs ≡ map shape_of self.now.structs) }
    {
        let structs = shapes_of(alloc, &self.structs)?;
        Ok(Shapes { structs })
    }

    /// The number of the struct of a name; None where none is defined.
    pub fn struct_of(&self, name: &[u8]) -> Option<u32>
        ensures { result ≡ number_of name.now (map struct_name self.now.structs) }
    {
        naming::find(&self.struct_names, name)
    }

    /// The field of a name in the struct of a number; None where there is none.
    pub fn field_of(&self, shape: u32, name: &[u8]) -> Option<FieldUse>
        ensures { result ≡ use_in name.now 0 0 (fields_of self.now.structs shape) }
    {
        field_in(&self.structs, shape, name)
    }

    /// The value of the enumerator of a name; None where there is none.
    pub fn value_of(&self, name: &[u8]) -> Option<u8>
        ensures { result ≡ value_in name.now self.now.values }
    {
        found(&self.value_names, &self.values, name)
    }

    /// Whether an enumeration of this name is defined.
    pub fn has_enum(&self, name: &[u8]) -> bool
        ensures { result ≡ has name.now self.now.enums }
    {
        naming::is_there(&self.enums, name)
    }
}

/// The field of a name in the struct of a number.
fn field_in(structs: &List<Struct>, shape: u32, name: &[u8]) -> Option<FieldUse>
    ensures { result ≡ use_in name.now 0 0 (fields_of structs.now shape) }
{
    match structs.get(shape as usize) {
        Some(one) => one.find(name),
        None => None,
    }
}

/// The value of the enumerator of a name, where `names` are the names of `values`.
fn found(names: &Names, values: &List<Enumerator>, name: &[u8]) -> Option<u8>
    requires { names.now ≡ map value_name values.now }
    ensures { result ≡ value_in name.now values.now }
{
    names.known_distinct();
    match names.find(name) {
        Some(number) => match values.get(number as usize) {
            Some(one) => Some(one.value),
            None => None,
        },
        None => None,
    }
}

fn shapes_of(alloc: Global, structs: &List<Struct>) -> Mem<List<Shape>>
    ensures { IfOk result (λ shapes. shapes ≡ map shape_of structs.now) }
{
    let mut shapes = List::new(alloc);
    for one in structs.as_slice() {
        shapes.push(shape(alloc, one)?)?;
    }
    Ok(shapes)
}

fn shape(alloc: Global, one: &Struct) -> Mem<Shape>
    ensures { IfOk result (λ shape. shape ≡ shape_of one.now) }
{
    let fields = fields_in(alloc, one.fields())?;
    let name = one.name().copy(alloc)?;
    Ok(Shape { name, fields })
}

fn fields_in(alloc: Global, members: &[Member]) -> Mem<List<FieldDef>>
    ensures { IfOk result (λ fields. fields ≡ map field_of members.now) }
{
    let mut fields = List::new(alloc);
    for member in members {
        fields.push(field(alloc, member)?)?;
    }
    Ok(fields)
}

fn field(alloc: Global, member: &Member) -> Mem<FieldDef>
    ensures { IfOk result (λ field. field ≡ field_of member.now) }
{
    let name = member.name.copy(alloc)?;
    let kind = kind_of(member.kind);
    Ok(FieldDef { name, kind })
}

/// A pointer to a struct that is not defined is seen by nobody.
fn kind_of(kind: Kind) -> FieldKind
    ensures { result ≡ field_kind_of kind }
{
    match kind {
        Kind::Points(Some(number)) => FieldKind::Pointer(number),
        Kind::Points(None) => FieldKind::Pointer(0),
        Kind::Datum => FieldKind::Datum,
    }
}
