// Boxes over the structs of a program.
ghost use Rattle.std.specs.Prelude.{◌≡◌, ◌++◌, IfOk, IfErr};
ghost use Rattle.fa_named.specs.Breaks as breaks;
ghost use Rattle.fa_named.specs.Earlier.{no_boxes};
ghost use Rattle.fa_named.specs.Named as spec;
ghost use Rattle.fa_named.specs.Named.{AreNamed, IsFirst, first_of};

use crate::boxes::{none, with_box};
use crate::breaks::{box_fault, limit_fault};
use crate::fault::NameFault;
use crate::insides::autos_of;
use crate::known::known;
use crate::named::{Boxes, Known, NamedBox};
use crate::places::place;
use fa_core::forest::Forest;
use fa_written::BoxDraft;
use fore_base::list::{Copies, List};
use fore_base::memory::Mem;
use fore_base::shape::Shapes;
use fore_base::text::Text;
use std::alloc::Global;

fn output_of(names: &[Text], output: &Option<Text>) -> Mem<Option<u32>>
    ensures { IfOk result (λ n. n ≡ spec.output_of names.now output.now) }
{
    match output {
        None => Ok(None),
        Some(name) => {
            let number = place(names, name)?;
            Ok(Some(number))
        }
    }
}

fn box_of(alloc: Global, known: &Known, boxes: &Boxes, draft: &BoxDraft) -> Mem<NamedBox>
    ensures { IfOk result (λ b. b ≡ spec.box_of known.now boxes.now draft.now) }
{
    let name = draft.head.name.copy(alloc)?;
    let input = place(known.names.as_slice(), &draft.head.input)?;
    let output = output_of(known.names.as_slice(), &draft.head.output)?;
    let autos = autos_of(alloc, known, boxes.names.as_slice(), draft.parts.as_slice())?;
    Ok(NamedBox {
        name,
        input,
        output,
        inside: Forest {
            autos,
            vars: List::new(alloc),
            data_vars: List::new(alloc),
        },
    })
}

fn boxes_of(alloc: Global, known: &Known, drafts: &[BoxDraft]) -> Mem<List<NamedBox>>
    ensures { IfOk result (λ made. made ≡ spec.boxes_of known.now no_boxes drafts.now) }
{
    let mut made = List::new(alloc);
    let mut boxes = none(alloc);
    for draft in drafts {
        let next = box_of(alloc, known, &boxes, draft)?;
        made.push(next)?;
        boxes = with_box(alloc, boxes, &draft.head)?;
    }
    Ok(made)
}

#[tactic(auto, using(crate::proofs::FirstLemmas::first_here, crate::proofs::FirstLemmas::first_later))]
fn file_fault(alloc: Global, known: &Known, drafts: &[BoxDraft]) -> Mem<Option<NameFault>>
    ensures { IfOk result (λ r. r ≡ first_of (breaks.file_faults known.now no_boxes drafts.now)) }
{
    let mut boxes = none(alloc);
    for draft in drafts {
        let fault = box_fault(alloc, known, &boxes, draft)?;
        if let Some(fault) = fault {
            return Ok(Some(fault));
        }
        boxes = with_box(alloc, boxes, &draft.head)?;
    }
    Ok(None)
}

/// The first fault of a file.
#[tactic(auto, using(crate::proofs::FirstLemmas::first_here, crate::proofs::FirstLemmas::first_later))]
fn first_fault(alloc: Global, known: &Known, drafts: &[BoxDraft]) -> Mem<Option<NameFault>>
    ensures { IfOk result (λ r.
        r ≡ first_of (breaks.limit_faults drafts.now ++ breaks.file_faults known.now no_boxes drafts.now)) }
{
    match limit_fault(drafts) {
        Some(fault) => Ok(Some(fault)),
        None => file_fault(alloc, known, drafts),
    }
}

/// The boxes that are written, over the structs of a program: what their names stand for, and nothing else changed.
///
/// # Errors
///
/// `NameFault::K6` where there are more than 32 boxes, at the 33rd. Otherwise the first line that breaks B2 or B3, and
/// where it breaks both, B2. `NameFault::Memory` for want of memory.
#[tactic(auto, using(crate::proofs::FirstLemmas::none_first, crate::proofs::FirstLemmas::is_first))]
pub fn name_boxes(
    alloc: Global,
    shapes: &Shapes,
    drafts: &[BoxDraft],
) -> Result<List<NamedBox>, NameFault>
    ensures ok { IfOk result (AreNamed shapes.now drafts.now) }
    ensures err { IfErr result (IsFirst (spec.faults shapes.now drafts.now)) }
{
    let known = known(alloc, shapes)?;
    let fault = first_fault(alloc, &known, drafts)?;
    match fault {
        Some(fault) => Err(fault),
        None => {
            let boxes = boxes_of(alloc, &known, drafts)?;
            Ok(boxes)
        }
    }
}
