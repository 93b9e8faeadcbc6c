// What the trees of a box show outside: the fields of its ports, and whether it leads back.

ghost use Rattle.std.specs.Prelude.{◌≡◌, ◌<◌, ◌^◌, ℕ, List, length, IfOk, Some, MatchOption};
ghost use Rattle.fa_box_rules.specs.Rules.{Breaks5};
ghost use Rattle.fa_faces.specs.Faults.{box_inside};
ghost use Rattle.fa_faces.specs.inner.Parts.{IsReady, AllRight, AreTopsRight, AreSigned, IsGiven, IsShown};

use fa_back::ranked_insides;
use fa_boxes::fields_of_port;
use fa_core::{BoxFace, BoxTable, Signature};
use fa_reach::laws::choices_are_of_signatures;
use fa_reach::{Lead, lead};
use fore_base::list::List;
use fore_base::memory::Mem;
use std::alloc::Global;
use ta_core::auto::Auto;

/// The face that the trees of the box show, if they show one; else the box breaks B5.
///
/// # Errors
///
/// Want of memory.
pub fn shown_face(
    alloc: Global,
    table: &BoxTable,
    input: u32,
    output: Option<u32>,
    autos: &[Auto],
    lists: &[List<Signature>],
) -> Mem<Option<BoxFace>>
    requires ready { IsReady table.now.face (box_inside input output autos.now) }
    requires right { AllRight table.now.face (box_inside input output autos.now) }
    requires tops { AreTopsRight table.now.face.boxes (box_inside input output autos.now) }
    requires signed { AreSigned table.now.face.boxes autos.now lists.now }
    ensures { IfOk result (λ found. MatchOption found
        (Breaks5 table.now.face table.now.defs (box_inside input output autos.now))
        (IsShown table.now.face table.now.defs (box_inside input output autos.now))) }
{
    match fields_of_port(alloc, table.face(), autos, lists, output, 0)? {
        Some(gives_in) => match output {
            Some(shape) => two_shown(alloc, table, input, shape, autos, lists, gives_in),
            None => Ok(Some(BoxFace {
                input,
                output: None,
                gives_in,
                gives_out: List::new(alloc),
                back: false,
            })),
        },
        None => Ok(None),
    }
}

/// So for a box with an output, whose trees show these fields at its input.
fn two_shown(
    alloc: Global,
    table: &BoxTable,
    input: u32,
    shape: u32,
    autos: &[Auto],
    lists: &[List<Signature>],
    gives_in: List<u32>,
) -> Mem<Option<BoxFace>>
    requires ready { IsReady table.now.face (box_inside input (Some shape) autos.now) }
    requires right { AllRight table.now.face (box_inside input (Some shape) autos.now) }
    requires tops { AreTopsRight table.now.face.boxes (box_inside input (Some shape) autos.now) }
    requires signed { AreSigned table.now.face.boxes autos.now lists.now }
    requires input { IsGiven table.now.face.boxes autos.now 0 gives_in }
    ensures { IfOk result (λ found. MatchOption found
        (Breaks5 table.now.face table.now.defs (box_inside input (Some shape) autos.now))
        (IsShown table.now.face table.now.defs (box_inside input (Some shape) autos.now))) }
{
    match fields_of_port(alloc, table.face(), autos, lists, Some(shape), 1)? {
        Some(gives_out) => led_shown(
            alloc, table, input, shape, autos, lists, gives_in, gives_out,
        ),
        None => Ok(None),
    }
}

/// So where these are the fields of its output.
fn led_shown(
    alloc: Global,
    table: &BoxTable,
    input: u32,
    shape: u32,
    autos: &[Auto],
    lists: &[List<Signature>],
    gives_in: List<u32>,
    gives_out: List<u32>,
) -> Mem<Option<BoxFace>>
    requires ready { IsReady table.now.face (box_inside input (Some shape) autos.now) }
    requires right { AllRight table.now.face (box_inside input (Some shape) autos.now) }
    requires tops { AreTopsRight table.now.face.boxes (box_inside input (Some shape) autos.now) }
    requires signed { AreSigned table.now.face.boxes autos.now lists.now }
    requires input { IsGiven table.now.face.boxes autos.now 0 gives_in }
    requires output { IsGiven table.now.face.boxes autos.now 1 gives_out }
    ensures { IfOk result (λ found. MatchOption found
        (Breaks5 table.now.face table.now.defs (box_inside input (Some shape) autos.now))
        (IsShown table.now.face table.now.defs (box_inside input (Some shape) autos.now))) }
{
    table.known();
    ranked_insides(table);
    choices_are_of_signatures();
    match lead(alloc, lists, 1, 0)? {
        Lead::Always => Ok(Some(face_of(input, shape, gives_in, gives_out, true))),
        Lead::Never => Ok(Some(face_of(input, shape, gives_in, gives_out, false))),
        Lead::Sometimes => Ok(None),
    }
}

fn face_of(input: u32, shape: u32, gives_in: List<u32>, gives_out: List<u32>, back: bool) -> BoxFace
    ensures { result ≡ record {
      input = input;
      output = Some shape;
      gives_in = gives_in;
      gives_out = gives_out;
      back = back;
    } }
{
    BoxFace {
        input,
        output: Some(shape),
        gives_in,
        gives_out,
        back,
    }
}
