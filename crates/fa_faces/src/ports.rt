// What stands at the tops of the trees of a box, as rule B5 asks it.

ghost use Rattle.std.specs.Prelude.{◌≡◌, ◌<◌, ◌≤◌, List, length, slice_get, Some, IfOk, MatchBool, true, false};
ghost use Rattle.fore_base.specs.Lists.{Every};
ghost use Rattle.ta_core.specs.Language.{IsTrim};
ghost use Rattle.fa_core.specs.declared.boxes.BoxDef.{BoxDef};
ghost use Rattle.fa_boxes.specs.Tops.{HasNoLeaf};
ghost use Rattle.fa_box_rules.specs.Rules.{Breaks5, port_count};
ghost use Rattle.fa_faces.specs.Faults.{box_inside};
ghost use Rattle.fa_faces.specs.inner.Parts.{AreTopsRight};
ghost use Rattle.fa_faces.specs.inner.Ports.{TakesLeaf, IsPortRight, PortApart, IsInputRight, InputApart};

use fa_boxes::tops::{are_cells, are_cells_of, cover_alike, cover_some};
use fa_core::{BoxFace, Face};
use fore_base::memory::Mem;
use std::alloc::Global;
use ta_core::auto::Auto;

/// Whether each tree has a cell at its top, the ports' cells are of the structs that the box says and cover the same
/// fields by their own slots, and the input's some.
///
/// # Errors
///
/// Want of memory.
pub fn are_tops_right(
    alloc: Global,
    face: &Face,
    input: u32,
    output: Option<u32>,
    autos: &[Auto],
) -> Mem<bool>
    requires trim { Every IsTrim autos.now }
    requires ports { port_count output ≤ length autos.now }
    ensures yes { IfOk result (λ yes. yes ≡ true → AreTopsRight face.now.boxes (box_inside input output autos.now)) }
    ensures no { IfOk result (λ yes. yes ≡ false → (T : List BoxDef)
        → Breaks5 face.now T (box_inside input output autos.now)) }
{
    if !are_all_cells(autos) {
        return Ok(false);
    }
    are_ports_right(alloc, face, input, output, autos)
}

fn are_ports_right(
    alloc: Global,
    face: &Face,
    input: u32,
    output: Option<u32>,
    autos: &[Auto],
) -> Mem<bool>
    requires trim { Every IsTrim autos.now }
    requires cells { Every HasNoLeaf autos.now }
    requires ports { port_count output ≤ length autos.now }
    ensures yes { IfOk result (λ yes. yes ≡ true → AreTopsRight face.now.boxes (box_inside input output autos.now)) }
    ensures no { IfOk result (λ yes. yes ≡ false → (T : List BoxDef)
        → Breaks5 face.now T (box_inside input output autos.now)) }
{
    if !is_input_right(alloc, face.boxes.as_slice(), component(autos, 0), input)? {
        return Ok(false);
    }
    match output {
        Some(shape) => {
            let right = is_port_right(alloc, face.boxes.as_slice(), component(autos, 1), shape)?;
            Ok(right)
        }
        None => Ok(true),
    }
}

fn component(autos: &[Auto], place: usize) -> &Auto
    requires { place < length autos.now }
    ensures { slice_get autos.now place ≡ Some result.now }
{
    &autos[place]
}

/// Whether no component accepts a leaf.
fn are_all_cells(autos: &[Auto]) -> bool
    requires { Every IsTrim autos.now }
    ensures { MatchBool result (Every HasNoLeaf autos.now) (TakesLeaf autos.now) }
{
    for auto in autos {
        if !are_cells(auto) {
            auto.known();
            return false;
        }
    }
    true
}

fn is_input_right(alloc: Global, boxes: &[BoxFace], auto: &Auto, shape: u32) -> Mem<bool>
    requires trim { IsTrim auto.now }
    requires cells { HasNoLeaf auto.now }
    ensures { IfOk result (λ yes. MatchBool yes (IsInputRight boxes.now shape auto.now)
        (InputApart boxes.now shape auto.now)) }
{
    auto.known();
    if !is_port_right(alloc, boxes, auto, shape)? {
        return Ok(false);
    }
    let some = cover_some(alloc, boxes, auto)?;
    Ok(some)
}

fn is_port_right(alloc: Global, boxes: &[BoxFace], auto: &Auto, shape: u32) -> Mem<bool>
    requires trim { IsTrim auto.now }
    requires cells { HasNoLeaf auto.now }
    ensures { IfOk result (λ yes. MatchBool yes (IsPortRight boxes.now shape auto.now)
        (PortApart boxes.now shape auto.now)) }
{
    auto.known();
    if !are_cells_of(auto, shape) {
        return Ok(false);
    }
    let alike = cover_alike(alloc, boxes, auto)?;
    Ok(alike)
}
