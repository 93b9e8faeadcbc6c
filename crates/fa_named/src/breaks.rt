// The first line that breaks a rule of names.
ghost use Rattle.std.specs.Prelude.{◌≡◌, ◌&&◌, Some, map, false, IfOk, slice_get, slice_index_or};
ghost use Rattle.std.specs.List.{list_all};
ghost use Rattle.fa_named.specs.Breaks as spec;
ghost use Rattle.fa_named.specs.Named.{first_of};
ghost use Rattle.fa_named.specs.Places as places;
ghost use Rattle.fa_written.specs.Forms as forms;

use crate::fault::NameFault;
use crate::named::{Boxes, Fields, Known};
use crate::places::{first_place, is_there};
use crate::states::{below_rules, marked};
use fa_lines::line::{DatumText, SlotText, Term};
use fa_written::{BoxDraft, Head, PartDraft, RuleDraft};
use fore_base::limits::BOXES;
use fore_base::list::{Copies, List};
use fore_base::marks::is_marked;
use fore_base::memory::Mem;
use fore_base::text::Text;
use std::alloc::Global;

fn is_field(pointers: &[Text], slot: &SlotText) -> bool
    ensures { result ≡ spec.is_field pointers.now slot.now }
{
    match slot {
        SlotText::Field(name, _) => is_there(pointers, name),
        SlotText::Link(_, _) | SlotText::Hook(_) => true,
    }
}

fn are_fields(pointers: &[Text], slots: &[SlotText]) -> bool
    ensures { result ≡ list_all (spec.is_field pointers.now) slots.now }
{
    for slot in slots {
        if !is_field(pointers, slot) {
            return false;
        }
    }
    true
}

fn data_names(alloc: Global, items: &[DatumText]) -> Mem<List<Text>>
    ensures { IfOk result (λ names. names ≡ map (λ d. d.name) items.now) }
{
    let mut names = List::new(alloc);
    for item in items {
        let name = item.name.copy(alloc)?;
        names.push(name)?;
    }
    Ok(names)
}

fn are_data(alloc: Global, names: &List<Text>, items: &[DatumText]) -> Mem<bool>
    ensures { IfOk result (λ same. same ≡ spec.are_data names.now items.now) }
{
    let written = data_names(alloc, items)?;
    let same = written == *names;
    Ok(same)
}

fn is_none(items: &[DatumText]) -> bool
    ensures { result ≡ spec.is_none items.now }
{
    match items {
        [] => true,
        [_, ..] => false,
    }
}

fn data_fit(
    alloc: Global,
    top: bool,
    inner: bool,
    items: &[DatumText],
    names: &List<Text>,
) -> Mem<bool>
    ensures { IfOk result (λ fit. fit ≡ spec.data_fit top inner items.now names.now) }
{
    let same = are_data(alloc, names, items)?;
    Ok((!top || is_none(items)) && (!inner || same))
}

fn says(boxes: &Boxes, name: &Text, output: bool) -> bool
    ensures { result ≡ spec.says output (slice_get boxes.now.outputs (places.place name.now boxes.now.names)) }
{
    match boxes.outputs.get(first_place(boxes.names.as_slice(), name)) {
        Some(has_one) => { if output { *has_one } else { !*has_one } }
        None => false,
    }
}

fn is_formed(boxes: &Boxes, slot: &SlotText) -> bool
    ensures { result ≡ spec.is_formed boxes.now slot.now }
{
    match slot {
        SlotText::Field(_, _) => true,
        SlotText::Link(name, _) => says(boxes, name, true),
        SlotText::Hook(name) => says(boxes, name, false),
    }
}

fn are_formed(boxes: &Boxes, slots: &[SlotText]) -> bool
    ensures { result ≡ list_all (spec.is_formed boxes.now) slots.now }
{
    for slot in slots {
        if !is_formed(boxes, slot) {
            return false;
        }
    }
    true
}

/// What the line of a cell breaks, whose struct has these fields.
fn cell_fault(
    alloc: Global,
    line: u32,
    fields: &Fields,
    boxes: &Boxes,
    top: bool,
    inner: bool,
    items: &[DatumText],
    slots: &[SlotText],
) -> Mem<Option<NameFault>>
    ensures { IfOk result (λ r.
        r ≡ first_of (spec.cell_faults line (Some fields.now) boxes.now top inner items.now slots.now)) }
{
    let fit = data_fit(alloc, top, inner, items, &fields.datums)?;
    if !(are_fields(fields.pointers.as_slice(), slots) && fit) {
        return Ok(Some(NameFault::B2 { line }));
    }
    if are_formed(boxes, slots) {
        Ok(None)
    } else {
        Ok(Some(NameFault::B3 { line }))
    }
}

fn term_fault(
    alloc: Global,
    line: u32,
    known: &Known,
    boxes: &Boxes,
    top: bool,
    inner: bool,
    term: &Term,
) -> Mem<Option<NameFault>>
    ensures { IfOk result (λ r. r ≡ first_of (spec.term_faults line known.now boxes.now top inner term.now)) }
{
    match term {
        Term::Null | Term::Uninit | Term::Dangling | Term::Ref(_) => Ok(None),
        Term::Cell {
            shape,
            data: items,
            slots,
        } => {
            let number = first_place(known.names.as_slice(), shape);
            match known.fields.get(number) {
                None => Ok(Some(NameFault::B2 { line })),
                Some(fields) => cell_fault(
                    alloc,
                    line,
                    fields,
                    boxes,
                    top,
                    inner,
                    items.as_slice(),
                    slots.as_slice(),
                ),
            }
        }
    }
}

#[tactic(auto, using(crate::proofs::FirstLemmas::first_here, crate::proofs::FirstLemmas::first_later))]
fn rules_fault(
    alloc: Global,
    known: &Known,
    boxes: &Boxes,
    port: bool,
    roots: &[bool],
    below: &[bool],
    rules: &[RuleDraft],
) -> Mem<Option<NameFault>>
    ensures { IfOk result (λ r. r ≡ first_of (spec.rules_faults known.now boxes.now
        (λ q. port && slice_index_or roots.now q false) (λ q. slice_index_or below.now q false) rules.now)) }
{
    for rule in rules {
        let top = port && is_marked(roots, rule.state);
        let inner = !top || is_marked(below, rule.state);
        let fault = term_fault(alloc, rule.line, known, boxes, top, inner, &rule.term)?;
        if let Some(fault) = fault {
            return Ok(Some(fault));
        }
    }
    Ok(None)
}

#[tactic(auto, using(crate::proofs::MarkedLemmas::part_by))]
fn part_fault(
    alloc: Global,
    known: &Known,
    boxes: &Boxes,
    port: bool,
    part: &PartDraft,
) -> Mem<Option<NameFault>>
    ensures { IfOk result (λ r. r ≡ first_of (spec.part_faults known.now boxes.now port part.now)) }
{
    let rules = part.rules.as_slice();
    let states = below_rules(alloc, rules)?;
    let below = marked(alloc, states.as_slice())?;
    let roots = marked(alloc, part.roots.as_slice())?;
    rules_fault(
        alloc,
        known,
        boxes,
        port,
        roots.as_slice(),
        below.as_slice(),
        rules,
    )
}

#[tactic(auto, using(crate::proofs::FirstLemmas::first_here, crate::proofs::FirstLemmas::first_later))]
fn parts_fault(
    alloc: Global,
    known: &Known,
    boxes: &Boxes,
    ports: usize,
    parts: &[PartDraft],
) -> Mem<Option<NameFault>>
    ensures { IfOk result (λ r. r ≡ first_of (spec.parts_faults known.now boxes.now ports 0 parts.now)) }
{
    for (i, part) in parts.iter().enumerate() {
        let fault = part_fault(alloc, known, boxes, i < ports, part)?;
        if let Some(fault) = fault {
            return Ok(Some(fault));
        }
    }
    Ok(None)
}

fn is_output(names: &[Text], output: &Option<Text>) -> bool
    ensures { result ≡ spec.is_output names.now output.now }
{
    match output {
        None => true,
        Some(name) => is_there(names, name),
    }
}

fn head_fault(known: &Known, boxes: &Boxes, head: &Head) -> Option<NameFault>
    ensures { result ≡ first_of (spec.head_faults known.now boxes.now head.now) }
{
    let names = known.names.as_slice();
    let line = head.line;
    if !(is_there(names, &head.input) && is_output(names, &head.output)) {
        return Some(NameFault::B2 { line });
    }
    if is_there(boxes.names.as_slice(), &head.name) {
        Some(NameFault::B3 { line })
    } else {
        None
    }
}

/// The first fault of a box over those before it.
#[tactic(auto, using(crate::proofs::FirstLemmas::first_here, crate::proofs::FirstLemmas::first_later))]
pub fn box_fault(
    alloc: Global,
    known: &Known,
    boxes: &Boxes,
    draft: &BoxDraft,
) -> Mem<Option<NameFault>>
    ensures { IfOk result (λ r. r ≡ first_of (spec.box_faults known.now boxes.now draft.now)) }
{
    match head_fault(known, boxes, &draft.head) {
        Some(fault) => Ok(Some(fault)),
        None => parts_fault(
            alloc,
            known,
            boxes,
            port_count(&draft.head.output),
            draft.parts.as_slice(),
        ),
    }
}

fn port_count(output: &Option<Text>) -> usize
    ensures { result ≡ forms.port_count output.now }
{
    match output {
        None => 1,
        Some(_) => 2,
    }
}

/// The fault of too many boxes.
pub fn limit_fault(drafts: &[BoxDraft]) -> Option<NameFault>
    ensures { result ≡ first_of (spec.limit_faults drafts.now) }
{
    match drafts.get(BOXES) {
        None => None,
        Some(draft) => Some(NameFault::K6 {
            line: draft.head.line,
        }),
    }
}
