// The face of a box.

ghost use Rattle.std.specs.Prelude.{◌≡◌, ◌<◌, ◌^◌, ℕ, List, length, IfOk, IfErr};
ghost use Rattle.fa_box_rules.specs.Rules.{IsWellNamed, IsUnbroken};
ghost use Rattle.fa_core.specs.Boxes.{SoundBox};
ghost use Rattle.fa_core.specs.declared.faces.BoxFace.{BoxFace};
ghost use Rattle.fa_faces.specs.Faults.{box_inside, IsFaultOf};
ghost use Rattle.fa_faces.specs.inner.Parts.{IsReady, AllRight, AreTopsRight, AreSigned, IsShown};

use crate::fault::FaceFault;
use crate::ports::are_tops_right;
use crate::shown::shown_face;
use crate::trimming::trim_each;
use fa_back::ranked_insides;
use fa_box_rules::BoxRule;
use fa_boxes::{is_some_empty, signs};
use fa_core::{BoxFace, BoxTable, Forest, Signature};
use fa_giving::are_right;
use fa_reach::laws::choices_are_of_signatures;
use fa_reach::reach_all;
use fore_base::list::List;
use std::alloc::Global;
use ta_core::auto::Auto;

/// The face of the box with ports of these structs and this inside: exactly where it has a face by which it is a sound
/// box over the table, under any name. Else the least of the rules B4 to B7 that it breaks; where a component has no
/// tree, this is B7, and none of the others is looked for.
///
/// # Errors
///
/// The rule, or want of memory.
pub fn box_face(
    alloc: Global,
    table: &BoxTable,
    input: u32,
    output: Option<u32>,
    inside: &Forest,
) -> Result<BoxFace, FaceFault>
    requires named { IsWellNamed table.now.face (box_inside input output inside.now.autos) }
    requires count { length inside.now.autos < 2 ^ 32 }
    ensures face { IfOk result (IsUnbroken table.now.face table.now.defs (box_inside input output inside.now.autos)) }
    ensures breaks { IfErr result (IsFaultOf table.now.face table.now.defs (box_inside input output inside.now.autos)) }
    ensures ports { IfOk result (λ x. (x.input ≡ input) × (x.output ≡ output)) }
    ensures sound { IfOk result (λ x. (n : List ℕ)
        → SoundBox table.now.face table.now.defs (record { name = n; face = x; inside = inside.now })) }
    ensures one { (n : List ℕ) (x : BoxFace) → x.input ≡ input → x.output ≡ output
        → SoundBox table.now.face table.now.defs (record { name = n; face = x; inside = inside.now })
        → IfOk result (λ y. y ≡ x) }
    ensures none { (n : List ℕ) (x : BoxFace) → x.input ≡ input → x.output ≡ output
        → SoundBox table.now.face table.now.defs (record { name = n; face = x; inside = inside.now })
        → IfErr result (λ e. e ≡ FaceFault.Memory) }
{
    table.known();
    ranked_insides(table);
    decided(alloc, table, input, output, inside)
}

/// As `box_face`, without what the laws say.
fn decided(
    alloc: Global,
    table: &BoxTable,
    input: u32,
    output: Option<u32>,
    inside: &Forest,
) -> Result<BoxFace, FaceFault>
    requires named { IsWellNamed table.now.face (box_inside input output inside.now.autos) }
    requires count { length inside.now.autos < 2 ^ 32 }
    ensures face { IfOk result (IsUnbroken table.now.face table.now.defs (box_inside input output inside.now.autos)) }
    ensures breaks { IfErr result (IsFaultOf table.now.face table.now.defs (box_inside input output inside.now.autos)) }
{
    if is_some_empty(alloc, inside.autos.as_slice())? {
        return Err(FaceFault::Breaks(BoxRule::B7));
    }
    let trimmed = trim_each(alloc, inside.autos.as_slice())?;
    trimmed_face(alloc, table, input, output, trimmed.as_slice())
}

/// So for a box each of whose components has a tree, and is trimmed.
fn trimmed_face(
    alloc: Global,
    table: &BoxTable,
    input: u32,
    output: Option<u32>,
    autos: &[Auto],
) -> Result<BoxFace, FaceFault>
    requires { IsReady table.now.face (box_inside input output autos.now) }
    ensures face { IfOk result (IsUnbroken table.now.face table.now.defs (box_inside input output autos.now)) }
    ensures breaks { IfErr result (IsFaultOf table.now.face table.now.defs (box_inside input output autos.now)) }
{
    if !are_right(alloc, table.face(), input, output, autos)? {
        return Err(FaceFault::Breaks(BoxRule::B4));
    }
    if !are_tops_right(alloc, table.face(), input, output, autos)? {
        return Err(FaceFault::Breaks(BoxRule::B5));
    }
    signed_face(alloc, table, input, output, autos)
}

/// So where neither B4 nor what stands at the tops refuses it.
fn signed_face(
    alloc: Global,
    table: &BoxTable,
    input: u32,
    output: Option<u32>,
    autos: &[Auto],
) -> Result<BoxFace, FaceFault>
    requires ready { IsReady table.now.face (box_inside input output autos.now) }
    requires right { AllRight table.now.face (box_inside input output autos.now) }
    requires tops { AreTopsRight table.now.face.boxes (box_inside input output autos.now) }
    ensures face { IfOk result (IsUnbroken table.now.face table.now.defs (box_inside input output autos.now)) }
    ensures breaks { IfErr result (IsFaultOf table.now.face table.now.defs (box_inside input output autos.now)) }
{
    match signs(alloc, table.face().boxes.as_slice(), autos)? {
        Some(lists) => listed_face(alloc, table, input, output, autos, lists.as_slice()),
        None => Err(FaceFault::Breaks(BoxRule::B5)),
    }
}

/// So where the signatures of the components are these.
fn listed_face(
    alloc: Global,
    table: &BoxTable,
    input: u32,
    output: Option<u32>,
    autos: &[Auto],
    lists: &[List<Signature>],
) -> Result<BoxFace, FaceFault>
    requires ready { IsReady table.now.face (box_inside input output autos.now) }
    requires right { AllRight table.now.face (box_inside input output autos.now) }
    requires tops { AreTopsRight table.now.face.boxes (box_inside input output autos.now) }
    requires signed { AreSigned table.now.face.boxes autos.now lists.now }
    ensures face { IfOk result (IsUnbroken table.now.face table.now.defs (box_inside input output autos.now)) }
    ensures breaks { IfErr result (IsFaultOf table.now.face table.now.defs (box_inside input output autos.now)) }
{
    match shown_face(alloc, table, input, output, autos, lists)? {
        Some(face) => reached_face(alloc, table, input, output, autos, lists, face),
        None => Err(FaceFault::Breaks(BoxRule::B5)),
    }
}

/// The face that the trees show, if each cell is reached from the input.
fn reached_face(
    alloc: Global,
    table: &BoxTable,
    input: u32,
    output: Option<u32>,
    autos: &[Auto],
    lists: &[List<Signature>],
    face: BoxFace,
) -> Result<BoxFace, FaceFault>
    requires ready { IsReady table.now.face (box_inside input output autos.now) }
    requires shown { IsShown table.now.face table.now.defs (box_inside input output autos.now) face }
    requires signed { AreSigned table.now.face.boxes autos.now lists.now }
    ensures face { IfOk result (IsUnbroken table.now.face table.now.defs (box_inside input output autos.now)) }
    ensures breaks { IfErr result (IsFaultOf table.now.face table.now.defs (box_inside input output autos.now)) }
{
    table.known();
    ranked_insides(table);
    choices_are_of_signatures();
    if reach_all(alloc, lists, 0)? {
        Ok(face)
    } else {
        Err(FaceFault::Breaks(BoxRule::B6))
    }
}
