// The ports of a part: the roots of the box's structs, with the fields that are taken there.

ghost use Rattle.std.specs.Prelude.{◌≡◌, ◌↔◌, ◌<◌, length, slice_get, None, Some, IsTrue, IfOk, IfSome};
ghost use Rattle.fore_base.specs.Lists.{IsIn, IsDistinct, Every, Paired};
ghost use Rattle.ta_core.specs.declared.symbol.Slot.TheVariants.{Field};
ghost use Rattle.fa_core.specs.Folding.{taken_at};
ghost use Rattle.fa_core.specs.declared.boxes.BoxDef.{BoxDef};
ghost use Rattle.fa_part.specs.Ports.{AreFieldsAt, AreFieldsOf, ArePortsAt, HasPorts, IsPortOf, IsTakenOnce, ports_of};
ghost use Rattle.fa_part.specs.Ports.{roots_of};
ghost use Rattle.fa_part.specs.Sites.{OutputFits};
ghost use Rattle.fa_part.specs.inner.PortCells.{IsPortCell, IsPortFor};

use crate::fields::port_fields;
use fa_core::boxes::BoxDef;
use fa_core::faces::BoxFace;
use fa_core::forest::Forest;
use fa_core::table::BoxTable;
use fa_filling::is_one_of;
use fa_sound::component;
use fa_split::rule_at_top;
use fore_base::list::{Copies, List};
use fore_base::memory::Mem;
use std::alloc::Global;
use ta_core::auto::Auto;
use ta_core::single::has_one_top;
use ta_core::symbol::{Slot, Symbol};

/// The fields that the ports of a box cover, in rising order: they are the same at each place.
#[derive(Drop)]
pub struct PortFields {
    /// Those of the input.
    pub input: List<u32>,
    /// Those of the output; none where the box has no output.
    pub output: List<u32>,
}

/// A port of a part: its root, the struct that the box has there, and the fields that are taken there.
#[derive(Drop)]
pub struct Port {
    /// The root.
    pub root: u32,
    /// The struct, by its number.
    pub shape: u32,
    /// The fields, in rising order.
    pub fields: List<u32>,
}

/// The fields that the ports of each box of the table cover, by the numbers of the boxes.
///
/// # Errors
///
/// Want of memory.
pub fn table_fields(alloc: Global, table: &BoxTable) -> Mem<List<PortFields>>
    ensures { IfOk result (Paired (AreFieldsOf table.now.face.boxes) table.now.defs) }
{
    let mut made = List::new(alloc);
    for box_no in 0..table.len() {
        made.push(box_fields(alloc, table, box_no)?)?;
    }
    Ok(made)
}

/// The fields that the ports of the box cover.
///
/// # Errors
///
/// Want of memory.
pub fn box_fields(alloc: Global, table: &BoxTable, box_no: u32) -> Mem<PortFields>
    requires { box_no < length table.now.defs }
    ensures { (def : BoxDef) → slice_get table.now.defs box_no ≡ Some def → IfOk result
        (AreFieldsOf table.now.face.boxes def) }
{
    table.known();
    let made = fields_of(alloc, table.face().boxes.as_slice(), table.box_def(box_no))?;
    Ok(made)
}

fn fields_of(alloc: Global, boxes: &[BoxFace], def: &BoxDef) -> Mem<PortFields>
    requires { HasPorts def.now.face.output def.now.inside.autos }
    ensures { IfOk result (AreFieldsOf boxes.now def.now) }
{
    let input = fields_at(alloc, boxes, def, 0)?;
    let output = output_fields(alloc, boxes, def)?;
    Ok(PortFields { input, output })
}

fn output_fields(alloc: Global, boxes: &[BoxFace], def: &BoxDef) -> Mem<List<u32>>
    requires { HasPorts def.now.face.output def.now.inside.autos }
    ensures { IfOk result (λ made. IfSome def.now.face.output
        (λ t. AreFieldsAt boxes.now (slice_get def.now.inside.autos 1) made)) }
{
    match def.face.output {
        None => Ok(List::new(alloc)),
        Some(_) => fields_at(alloc, boxes, def, 1),
    }
}

fn fields_at(alloc: Global, boxes: &[BoxFace], def: &BoxDef, place: usize) -> Mem<List<u32>>
    requires { place < length def.now.inside.autos }
    ensures { IfOk result (AreFieldsAt boxes.now (slice_get def.now.inside.autos place)) }
{
    port_fields(alloc, boxes, def.inside.autos.at(place))
}

/// The ports for the box at these roots, with the fields that its ports cover.
///
/// # Errors
///
/// Want of memory.
pub fn ports_at(
    alloc: Global,
    def: &BoxDef,
    fields: &PortFields,
    input: u32,
    output: Option<u32>,
) -> Mem<List<Port>>
    requires { OutputFits def.now.face.output output }
    ensures { IfOk result (ArePortsAt def.now fields.now input output) }
{
    match output {
        None => input_alone(alloc, def, fields, input),
        Some(root) => match def.face.output {
            None => unreachable!(),
            Some(shape) => both_ports(alloc, def, fields, input, root, shape),
        },
    }
}

fn input_alone(alloc: Global, def: &BoxDef, fields: &PortFields, input: u32) -> Mem<List<Port>>
    requires { def.now.face.output ≡ None }
    ensures { IfOk result (ArePortsAt def.now fields.now input None) }
{
    let mut ports = List::new(alloc);
    ports.push(port_at(alloc, input, def.face.input, &fields.input)?)?;
    Ok(ports)
}

fn both_ports(
    alloc: Global,
    def: &BoxDef,
    fields: &PortFields,
    input: u32,
    output: u32,
    shape: u32,
) -> Mem<List<Port>>
    requires { def.now.face.output ≡ Some shape }
    ensures { IfOk result (ArePortsAt def.now fields.now input (Some output)) }
{
    let mut ports = List::new(alloc);
    ports.push(port_at(alloc, input, def.face.input, &fields.input)?)?;
    ports.push(port_at(alloc, output, shape, &fields.output)?)?;
    Ok(ports)
}

/// The port at a root, with its own copy of the fields. Err is want of memory.
fn port_at(alloc: Global, root: u32, shape: u32, fields: &List<u32>) -> Mem<Port>
    ensures { IfOk result (IsPortFor root shape fields.now) }
{
    let fields = fields.copy(alloc)?;
    Ok(Port {
        root,
        shape,
        fields,
    })
}

/// The roots of the ports. Err is want of memory.
pub fn roots_of(alloc: Global, ports: &[Port]) -> Mem<List<u32>>
    ensures { IfOk result (λ made. made ≡ roots_of ports.now) }
{
    let mut made = List::new(alloc);
    for port in ports {
        made.push(port.root)?;
    }
    Ok(made)
}

/// The fields that are taken at the root.
///
/// # Errors
///
/// Want of memory.
pub fn taken_at(alloc: Global, ports: &[Port], root: u32) -> Mem<List<u32>>
    ensures { IfOk result (λ made. made ≡ taken_at (ports_of ports.now) root) }
{
    let mut made = List::new(alloc);
    for port in ports {
        if port.root == root {
            made.append(port.fields.copy(alloc)?)?;
        }
    }
    Ok(made)
}

/// Whether each port is a root with one rule, of its struct and with its fields.
pub fn are_port_roots(forest: &Forest, ports: &[Port]) -> bool
    requires { Every (λ p. p.root < length forest.now.autos) ports.now }
    ensures { IsTrue result ↔ Every (IsPortOf forest.now.autos) ports.now }
{
    for port in ports {
        if !is_port_root(forest, port) {
            return false;
        }
    }
    true
}

fn is_port_root(forest: &Forest, port: &Port) -> bool
    requires { port.now.root < length forest.now.autos }
    ensures { IsTrue result ↔ IsPortOf forest.now.autos port.now }
{
    let auto = component(forest, port.root);
    has_one_top(auto) && is_port_cell(&rule_at_top(auto).symbol, port)
}

/// Whether the symbol is a cell of the port's struct with a slot for each of its fields.
fn is_port_cell(symbol: &Symbol, port: &Port) -> bool
    ensures { IsTrue result ↔ IsPortCell port.now.shape port.now.fields symbol.now }
{
    match symbol {
        Symbol::Cell { shape, slots, .. } => {
            *shape == port.shape && have_fields(slots.as_slice(), port.fields.as_slice())
        }
        Symbol::Null | Symbol::Uninit | Symbol::Dangling | Symbol::Ref(_) => false,
    }
}

/// Whether each of the fields has a slot of its own.
fn have_fields(slots: &[Slot], fields: &[u32]) -> bool
    ensures { IsTrue result ↔ Every (λ f. IsIn (Field f) slots.now) fields.now }
{
    for field in fields {
        if !is_field_in(*field, slots) {
            return false;
        }
    }
    true
}

fn is_field_in(field: u32, slots: &[Slot]) -> bool
    ensures { IsTrue result ↔ IsIn (Field field) slots.now }
{
    for slot in slots {
        if *slot == Slot::Field(field) {
            return true;
        }
    }
    false
}

/// Whether no field is taken twice at one root. Err is want of memory.
pub fn are_taken_once(alloc: Global, ports: &[Port]) -> Mem<bool>
    ensures { IfOk result (λ once. IsTrue once ↔ Every (IsTakenOnce ports.now) ports.now) }
{
    for port in ports {
        let fields = taken_at(alloc, ports, port.root)?;
        if !are_distinct(fields.as_slice()) {
            return Ok(false);
        }
    }
    Ok(true)
}

/// Whether no number stands twice.
fn are_distinct(numbers: &[u32]) -> bool
    ensures { IsTrue result ↔ IsDistinct numbers.now }
{
    for place in 0..numbers.len() {
        if is_one_of(numbers[place], &numbers[place + 1..]) {
            return false;
        }
    }
    true
}
