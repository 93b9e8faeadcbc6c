// The part of a forest that an edge of a box can take the place of.

ghost use Rattle.std.specs.Prelude.{◌≡◌, ◌<◌, ◌^◌, ◌++◌, ℕ, List, length, slice_get, Option, Some, IfOk, IfSome};
ghost use Rattle.fore_base.specs.Lists.{Every};
ghost use Rattle.fa_core.specs.Folding.{PortsAre};
ghost use Rattle.fa_core.specs.declared.boxes.BoxDef.{BoxDef};
ghost use Rattle.fa_core.specs.declared.faces.BoxFace.{BoxFace};
ghost use Rattle.fa_part.specs.Parts.{IsPartOrNone};
ghost use Rattle.fa_part.specs.Made.{ArePartAutos, IsBoxOf, IsMade};
ghost use Rattle.fa_part.specs.Ports.{AreFieldsOf, AreInnerRoots, IsPortOf, ports_of, roots_of, shapes_of};
ghost use Rattle.fa_part.specs.Sites.{IsSite, OutputFits};

use crate::components::{inner_components, port_components};
use crate::finding::lone_roots;
use crate::ports::{
    Port, PortFields, are_port_roots, are_taken_once, box_fields, ports_at, roots_of,
};
use fa_core::boxes::BoxDef;
use fa_core::forest::Forest;
use fa_core::table::BoxTable;
use fa_sound::Sound;
use fore_base::list::{Copies, List};
use fore_base::memory::Mem;
use std::alloc::{AllocError, Global};
use ta_core::auto::Auto;

/// The part of the forest for the box with its input at one root, and its output, where it has one, at another or the
/// same: the fields that the slots of the box's ports cover, with the trees under them, and the roots that are reached
/// only through them. It has the name and face of the box.
///
/// None where a port is no root with one rule, of the box's struct, with a slot of its own for each of these fields;
/// where a field is taken twice at a root that is both ports; and where a root behind the fields is reached otherwise,
/// by a variable or from outside of the part.
///
/// # Errors
///
/// Want of memory.
pub fn part(
    alloc: Global,
    forest: &Sound,
    table: &BoxTable,
    box_no: u32,
    input: u32,
    output: Option<u32>,
) -> Mem<Option<BoxDef>>
    requires { IsSite table.now forest.now.forest box_no input output }
    ensures { (def : BoxDef) → slice_get table.now.defs box_no ≡ Some def → IfOk result
        (IsPartOrNone table.now.face.boxes forest.now.forest def input output) }
{
    let fields = box_fields(alloc, table, box_no)?;
    part_by(alloc, forest, table.box_def(box_no), &fields, input, output)
}

/// The part for a box of which it is known which fields its ports cover, as `part` gives it.
///
/// # Errors
///
/// Want of memory.
pub fn part_by(
    alloc: Global,
    forest: &Sound,
    def: &BoxDef,
    fields: &PortFields,
    input: u32,
    output: Option<u32>,
) -> Mem<Option<BoxDef>>
    requires fits { OutputFits def.now.face.output output }
    requires input { input < length forest.now.forest.autos }
    requires output { IfSome output (λ r. r < length forest.now.forest.autos) }
    ensures { (bs : List BoxFace) → AreFieldsOf bs def.now fields.now → IfOk result
        (IsPartOrNone bs forest.now.forest def.now input output) }
{
    let ports = ports_at(alloc, def, fields, input, output)?;
    part_at(alloc, forest, def, ports.as_slice())
}

/// The part at these ports, which are those for the box. Err is want of memory.
fn part_at(alloc: Global, forest: &Sound, def: &BoxDef, ports: &[Port]) -> Mem<Option<BoxDef>>
    requires { Every (λ p. p.root < length forest.now.forest.autos) ports.now }
    ensures { (bs : List BoxFace) (i : ℕ) (out : Option ℕ)
        → PortsAre bs def.now i out (ports_of ports.now) (shapes_of ports.now) → IfOk result
        (IsPartOrNone bs forest.now.forest def.now i out) }
{
    if !are_port_roots(forest.forest(), ports) {
        return Ok(None);
    }
    if !are_taken_once(alloc, ports)? {
        return Ok(None);
    }
    match lone_roots(alloc, forest, ports)? {
        None => Ok(None),
        Some(inner) => Ok(Some(made_part(alloc, forest, def, ports, &inner)?)),
    }
}

/// The box of the part at these ports with these inner roots.
///
/// # Errors
///
/// Want of memory.
pub fn made_part(
    alloc: Global,
    forest: &Sound,
    def: &BoxDef,
    ports: &[Port],
    inner: &List<u32>,
) -> Mem<BoxDef>
    requires ports { Every (IsPortOf forest.now.forest.autos) ports.now }
    requires inner { AreInnerRoots forest.now.forest (ports_of ports.now) inner.now }
    ensures { IfOk result (IsMade forest.now.forest.autos def.now ports.now inner.now) }
{
    let autos = part_autos(alloc, forest, ports, inner)?;
    box_of(alloc, def, autos)
}

/// The components of the ports, and those of the inner roots behind them. Err is want of memory.
fn part_autos(alloc: Global, forest: &Sound, ports: &[Port], inner: &List<u32>) -> Mem<List<Auto>>
    requires ports { Every (IsPortOf forest.now.forest.autos) ports.now }
    requires inner { AreInnerRoots forest.now.forest (ports_of ports.now) inner.now }
    ensures { IfOk result (ArePartAutos forest.now.forest.autos ports.now inner.now) }
{
    forest.known();
    let order = order_of(alloc, ports, inner)?;
    let mut autos = port_components(alloc, forest.forest(), ports, order.as_slice())?;
    let more = inner_components(alloc, forest.forest(), inner.as_slice(), order.as_slice())?;
    autos.append(more)?;
    Ok(autos)
}

/// The roots of the part in their order. Err is want of memory.
fn order_of(alloc: Global, ports: &[Port], inner: &List<u32>) -> Mem<List<u32>>
    ensures order { IfOk result (λ order. order ≡ roots_of ports.now ++ inner.now) }
    ensures few { IfOk result (λ order. length order < 2 ^ 32) }
{
    let mut order = roots_of(alloc, ports)?;
    order.append(inner.copy(alloc)?)?;
    if order.len() > u32::MAX as usize {
        return Err(AllocError);
    }
    Ok(order)
}

/// The box with the name and face of this one, and these components inside. Err is want of memory.
fn box_of(alloc: Global, def: &BoxDef, autos: List<Auto>) -> Mem<BoxDef>
    ensures { IfOk result (IsBoxOf def.now autos) }
{
    Ok(BoxDef {
        name: def.name.copy(alloc)?,
        face: def.face.copy(alloc)?,
        inside: Forest {
            autos,
            vars: List::new(alloc),
            data_vars: List::new(alloc),
        },
    })
}
