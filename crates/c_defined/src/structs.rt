// A struct whose fields are found by their names.
ghost use Rattle.std.specs.Prelude.{◌≡◌, ◌+◌, ◌∷◌, [], ℕ, List, Some, None, cond, length, IfOk, OnOk};
ghost use Rattle.c_typing.specs.Texts.{Text as Word, same};
ghost use Rattle.c_typing.specs.Globals.{use_as, use_in, one_pointer_more, one_datum_more};
ghost use Rattle.c_typing.specs.declared.meaning.Member.{Member as AMember};
ghost use Rattle.c_defined.specs.inner.Directories.{look_up, or_else};

use c_names::naming::add;
use c_typing::{FieldUse, Kind, Member};
use fore_base::list::List;
use fore_base::memory::Mem;
use fore_base::names::Names;
use fore_base::text::Text;
use std::alloc::{AllocError, Global};
use std::marker::Model;

/// A struct whose fields are found by their names. Contracts see the struct.
#[derive(Drop)]
pub struct Struct {
    name: Text,
    fields: List<Member>,
    names: Names,
    uses: List<FieldUse>,
}

impl Model for Struct {
    ghost use Rattle.std.specs.Prelude.{◌≡◌};
    ghost use Rattle.c_typing.specs.Texts.{Text as Word};
    ghost use Rattle.c_typing.specs.Globals.{use_in};
    ghost use Rattle.c_typing.specs.declared.meaning.StructDef.{StructDef};
    ghost use Rattle.c_defined.specs.inner.Directories.{look_up};

    ghost Value = { StructDef };

    ghost view = { λ s. record { name = s.name; fields = s.fields } };

    ghost invariant = { λ s. (x : Word) → look_up x s.names s.uses ≡ use_in x 0 0 s.fields };
}

impl Struct {
    /// A struct with these fields.
    pub fn of(alloc: Global, name: Text, fields: List<Member>) -> Mem<Struct>
        ensures name { IfOk result (λ s. s.name ≡ name) }
        ensures fields { IfOk result (λ s. s.fields ≡ fields) }
    {
        let Uses { names, uses, .. } = Uses::of(alloc, fields.as_slice())?;
        Ok(Struct {
            name,
            fields,
            names,
            uses,
        })
    }

    /// The field of a name; None where there is none.
    pub fn find(&self, name: &[u8]) -> Option<FieldUse>
        ensures { result ≡ use_in name.now 0 0 self.now.fields }
    {
        found(&self.names, &self.uses, name)
    }

    /// Its name.
    pub fn name(&self) -> &Text
        ensures { result.now ≡ self.now.name }
    {
        &self.name
    }

    /// Its fields, in order of declaration.
    pub fn fields(&self) -> &[Member]
        ensures { result.now ≡ self.now.fields }
    {
        self.fields.as_slice()
    }
}

fn found(names: &Names, uses: &List<FieldUse>, name: &[u8]) -> Option<FieldUse>
    ensures { result ≡ look_up name.now names.now uses.now }
{
    names.known_distinct();
    match names.find(name) {
        Some(number) => uses.get(number as usize).copied(),
        None => None,
    }
}

/// The fields so far by their names, of each name the first, and how many of each kind there were.
#[derive(Drop)]
struct Uses {
    names: Names,
    uses: List<FieldUse>,
    ptrs: u32,
    datums: u32,
}

impl Uses {
    fn of(alloc: Global, fields: &[Member]) -> Mem<Uses>
        ensures { IfOk result (λ u. (x : Word) → look_up x u.names u.uses ≡ use_in x 0 0 fields.now) }
    {
        let mut all = Uses {
            names: Names::new(alloc),
            uses: List::new(alloc),
            ptrs: 0,
            datums: 0,
        };
        for field in fields {
            all.add(field)?;
        }
        Ok(all)
    }

    fn add(&mut self, field: &Member) -> Mem<()>
        requires { length self.old.names ≡ length self.old.uses }
        ensures even { OnOk result (length self.new.names ≡ length self.new.uses) }
        ensures ok { OnOk result ((x : Word) (rest : List AMember)
            → or_else (look_up x self.new.names self.new.uses) (use_in x self.new.ptrs self.new.datums rest)
            ≡ or_else (look_up x self.old.names self.old.uses)
            (use_in x self.old.ptrs self.old.datums (field.now ∷ rest))) }
    {
        let place = use_of(field.kind, self.ptrs, self.datums);
        put(
            &mut self.names,
            &mut self.uses,
            field.name.as_slice(),
            place,
        )?;
        self.count(field.kind)
    }

    fn count(&mut self, kind: Kind) -> Mem<()>
        ensures names { self.new.names ≡ self.old.names }
        ensures uses { self.new.uses ≡ self.old.uses }
        ensures ptrs { OnOk result (self.new.ptrs ≡ one_pointer_more kind self.old.ptrs) }
        ensures datums { OnOk result (self.new.datums ≡ one_datum_more kind self.old.datums) }
    {
        match kind {
            Kind::Points(_) => self.ptrs = next(self.ptrs)?,
            Kind::Datum => self.datums = next(self.datums)?,
        }
        Ok(())
    }
}

/// Puts in a field, if there is none of its name.
fn put(names: &mut Names, uses: &mut List<FieldUse>, name: &[u8], place: FieldUse) -> Mem<()>
    requires { length names.old ≡ length uses.old }
    ensures even { OnOk result (length names.new ≡ length uses.new) }
    ensures ok { OnOk result ((x : Word) → look_up x names.new uses.new
        ≡ or_else (look_up x names.old uses.old) (cond (same x name.now) (Some place) None)) }
{
    if add(names, name)? {
        uses.push(place)?;
        return Ok(());
    }
    Ok(())
}

fn use_of(kind: Kind, ptrs: u32, datums: u32) -> FieldUse
    ensures { result ≡ use_as kind ptrs datums }
{
    match kind {
        Kind::Points(to) => FieldUse::Pointer { number: ptrs, to },
        Kind::Datum => FieldUse::Datum { number: datums },
    }
}

/// One more; want of memory past 32 bits.
fn next(number: u32) -> Mem<u32>
    ensures { IfOk result (λ n. n ≡ number + 1) }
{
    match number.checked_add(1) {
        Some(next) => Ok(next),
        None => Err(AllocError),
    }
}
