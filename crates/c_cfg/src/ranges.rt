// Whether the numbers of edges are in range.
ghost use Rattle.std.specs.Prelude.{◌≡◌, ◌<◌, ◌↔◌, length, IsTrue};
ghost use Rattle.fore_base.specs.Lists.{Every};
ghost use Rattle.fore_base.specs.Shapes.{targets_in, datums_in};
ghost use Rattle.c_cfg.specs.Graphs.{is_none_or, may_have, HasItsChoice};
ghost use Rattle.c_cfg.specs.Ranges.{IsPtrField, IsDataField, PtrArgFits, DataArgFits, ConstFits, TargetFits};
ghost use Rattle.c_cfg.specs.Ranges.{ChoiceFits, InstrFits, EdgeFits, IsEdgeOf};

use crate::graph::{Const, DataArg, Edge, Graph, Instr, PtrArg};
use fore_base::limits::DATUM;
use fore_base::shape::{FieldDef, FieldKind, Shape};

// How many pointer and data variables there are, and the structs.
#[derive(Clone, Copy)]
struct Bounds<'a> {
    ptrs: usize,
    datums: usize,
    structs: &'a [Shape],
}

/// Whether each edge of the graph leads from a location to a location, and each of its numbers is one of the graph.
pub fn are_edges_of(graph: &Graph) -> bool
    ensures { IsTrue result ↔ Every (IsEdgeOf graph.now) graph.now.edges }
{
    for edge in graph.edges.as_slice() {
        if !is_edge_of(graph, edge) {
            return false;
        }
    }
    true
}

fn is_edge_of(graph: &Graph, edge: &Edge) -> bool
    ensures { IsTrue result ↔ IsEdgeOf graph.now edge.now }
{
    edge.from < graph.locations
        && edge.to < graph.locations
        && fits(
            edge,
            graph.ptrs as usize,
            graph.datums as usize,
            graph.shapes.structs.as_slice(),
        )
}

/// Whether each number of the edge but its locations is in range for so many pointer and data variables and these
/// structs, and it has a choice where its instruction wants one.
pub fn fits(edge: &Edge, ptrs: usize, datums: usize, structs: &[Shape]) -> bool
    ensures { IsTrue result ↔ EdgeFits ptrs datums structs.now edge.now }
{
    let bounds = Bounds {
        ptrs,
        datums,
        structs,
    };
    has_its_choice(edge) && fits_choice(edge.choice) && fits_instr(&edge.instr, bounds)
}

/// Whether the edge has a choice where its instruction wants one, and none where it may have none: a `Choose` has one,
/// a copy of the null pointer none or 0, a `New` none or 1, and no other edge has one.
pub fn has_its_choice(edge: &Edge) -> bool
    ensures { IsTrue result ↔ HasItsChoice edge.now }
{
    may_have(&edge.instr, edge.choice)
}

fn may_have(instr: &Instr, choice: Option<u8>) -> bool
    ensures { result ≡ may_have instr.now choice }
{
    match instr {
        Instr::Choose { .. } => choice.is_some(),
        Instr::New { .. } => is_none_or(1, choice),
        Instr::CopyPtr {
            from: PtrArg::Null,
            ..
        } => is_none_or(0, choice),
        _ => choice.is_none(),
    }
}

fn is_none_or(number: u8, choice: Option<u8>) -> bool
    ensures { result ≡ is_none_or number choice }
{
    match choice {
        Some(choice) => choice == number,
        None => true,
    }
}

fn fits_choice(choice: Option<u8>) -> bool
    ensures { IsTrue result ↔ ChoiceFits choice }
{
    match choice {
        Some(choice) => choice < 2,
        None => true,
    }
}

fn fits_instr(instr: &Instr, bounds: Bounds) -> bool
    ensures { IsTrue result ↔ InstrFits bounds.entry.ptrs bounds.entry.datums bounds.entry.structs.now instr.now }
{
    match instr {
        Instr::CopyPtr { to, from } => bounds.has_ptr(*to) && bounds.fits_ptr(*from),
        Instr::LoadPtr { to, from, field } => {
            bounds.has_ptr(*to) && bounds.has_ptr(*from) && is_ptr_field(bounds.structs, *field)
        }
        Instr::StorePtr { to, field, from } => {
            bounds.has_ptr(*to) && is_ptr_field(bounds.structs, *field) && bounds.has_ptr(*from)
        }
        Instr::StoreConst { to, field, value } => {
            bounds.has_ptr(*to) && bounds.fits_const(*field, *value)
        }
        Instr::New { to, shape } => {
            bounds.has_ptr(*to) && (*shape as usize) < bounds.structs.len()
        }
        Instr::Free { from } => bounds.has_ptr(*from),
        Instr::Kill { ptrs, datums } => {
            are_below(ptrs.as_slice(), bounds.ptrs) && are_below(datums.as_slice(), bounds.datums)
        }
        Instr::CopyData { to, from } => bounds.has_datum(*to) && bounds.fits_datum(*from),
        Instr::LoadData { to, from, field } => {
            bounds.has_datum(*to) && bounds.has_ptr(*from) && is_data_field(bounds.structs, *field)
        }
        Instr::StoreData { to, field, from } => {
            bounds.has_ptr(*to) && is_data_field(bounds.structs, *field) && bounds.has_datum(*from)
        }
        Instr::TestPtr { left, right, .. } => bounds.fits_ptr(*left) && bounds.fits_ptr(*right),
        Instr::TestData { left, right, .. } => {
            bounds.fits_datum(*left) && bounds.fits_datum(*right)
        }
        Instr::Choose { to } => bounds.fits_target(*to),
        Instr::Stop { .. } => true,
    }
}

impl Bounds<'_> {
    fn has_ptr(self, variable: u32) -> bool
        ensures { IsTrue result ↔ (variable < self.entry.ptrs) }
    {
        (variable as usize) < self.ptrs
    }

    fn has_datum(self, variable: u32) -> bool
        ensures { IsTrue result ↔ (variable < self.entry.datums) }
    {
        (variable as usize) < self.datums
    }

    fn fits_ptr(self, arg: PtrArg) -> bool
        ensures { IsTrue result ↔ PtrArgFits self.entry.ptrs self.entry.datums self.entry.structs.now arg }
    {
        match arg {
            PtrArg::Var(x) => self.has_ptr(x),
            PtrArg::Null => true,
        }
    }

    fn fits_datum(self, arg: DataArg) -> bool
        ensures { IsTrue result ↔ DataArgFits self.entry.ptrs self.entry.datums self.entry.structs.now arg }
    {
        match arg {
            DataArg::Var(x) => self.has_datum(x),
            DataArg::Known(k) => k <= DATUM,
        }
    }

    fn fits_target(self, to: Option<u32>) -> bool
        ensures { IsTrue result ↔ TargetFits self.entry.ptrs self.entry.datums self.entry.structs.now to }
    {
        match to {
            Some(to) => self.has_datum(to),
            None => true,
        }
    }

    fn fits_const(self, field: u32, value: Const) -> bool
        ensures { IsTrue result ↔ ConstFits self.entry.ptrs self.entry.datums self.entry.structs.now field value }
    {
        match value {
            Const::Null => is_ptr_field(self.structs, field),
            Const::Known(k) => is_data_field(self.structs, field) && k <= DATUM,
        }
    }
}

fn are_below(numbers: &[u32], limit: usize) -> bool
    ensures { IsTrue result ↔ Every (λ x. x < limit) numbers.now }
{
    for number in numbers {
        if (*number as usize) >= limit {
            return false;
        }
    }
    true
}

/// Whether some struct has a pointer field of this number.
fn is_ptr_field(structs: &[Shape], field: u32) -> bool
    ensures { IsTrue result ↔ IsPtrField structs.now field }
{
    for shape in structs {
        if (field as usize) < count_ptrs(shape.fields.as_slice()) {
            return true;
        }
    }
    false
}

/// Whether some struct has a data field of this number.
fn is_data_field(structs: &[Shape], field: u32) -> bool
    ensures { IsTrue result ↔ IsDataField structs.now field }
{
    for shape in structs {
        if (field as usize) < count_datums(shape.fields.as_slice()) {
            return true;
        }
    }
    false
}

fn count_ptrs(fields: &[FieldDef]) -> usize
    ensures { result ≡ length (targets_in fields.now) }
{
    let mut count: usize = 0;
    for field in fields {
        if let FieldKind::Pointer(_) = field.kind {
            count += 1;
        }
    }
    count
}

fn count_datums(fields: &[FieldDef]) -> usize
    ensures { result ≡ datums_in fields.now }
{
    let mut count: usize = 0;
    for field in fields {
        if let FieldKind::Datum = field.kind {
            count += 1;
        }
    }
    count
}
