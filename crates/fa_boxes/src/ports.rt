// The fields of a port: those that its own slots cover and those that box edges of the inside give it.

ghost use Rattle.std.specs.Prelude.{◌≡◌, ◌<◌, ◌≤◌, ℕ, List, [], map, length, slice_index_or, slice_get, Some};
ghost use Rattle.std.specs.Prelude.{IfOk, MatchBool, MatchOption};
ghost use Rattle.fore_base.specs.Lists.{Every};
ghost use Rattle.ta_core.specs.Language.{IsTrim};
ghost use Rattle.ta_core.specs.declared.tree.Tree.{Tree};
ghost use Rattle.fa_core.specs.declared.signature.Signature.{Signature};
ghost use Rattle.fa_core.specs.Cells.{mark_of};
ghost use Rattle.fa_core.specs.Filled.{Choice, HasSome};
ghost use Rattle.fa_core.specs.Rearranged.{Rearranged, IsRising};
ghost use Rattle.fa_box_rules.specs.Cells.{AreRight};
ghost use Rattle.fa_box_rules.specs.Rules.{port_count, HaveSignatures, Gives};
ghost use Rattle.fa_box_rules.specs.Signs.{AreSignsOf, AreSigns};
ghost use Rattle.fa_sound.specs.inner.Owned.{fields_of_mark};
ghost use Rattle.fa_boxes.specs.Ports.{GivesApart};
ghost use Rattle.fa_boxes.specs.Tops.{HasNoLeaf};
ghost use Rattle.fa_boxes.specs.inner.Parts.{parts_from, ArePartsOf, PartsApart, SomePartsApart, HaveApart};
ghost use Rattle.fa_boxes.specs.inner.Parts.{provided_by, rule_fields, IsTopAdded, AreTopFields, IsOther};

use crate::seeing::{Seen, marks_of, seen_each};
use crate::tops::covered_by;
use fa_core::faces::{BoxFace, Face};
use fa_core::ordering::in_order;
use fa_core::signature::{RefMark, Signature};
use fa_filling::{are_rearranged, is_one_of};
use fore_base::list::{Copies, List};
use fore_base::memory::Mem;
use std::alloc::Global;
use ta_core::auto::{Auto, Rule};

/// The fields that the port covers by its own slots and is given by box edges of the inside, in rising order, where
/// they are the same for each choice of trees. None where two choices differ. `lists` has the signatures of the
/// components, of which all trees of a state have one; each tree has a cell at its top, and no choice gives the port a
/// field twice.
///
/// # Errors
///
/// Want of memory.
pub fn fields_of_port(
    alloc: Global,
    face: &Face,
    autos: &[Auto],
    lists: &[List<Signature>],
    output: Option<u32>,
    port: u32,
) -> Mem<Option<List<u32>>>
    requires port { port < port_count output }
    requires ports { port_count output ≤ length autos.now }
    requires trim { Every IsTrim autos.now }
    requires full { Every HasSome autos.now }
    requires cells { Every HasNoLeaf autos.now }
    requires right { (ts : List Tree) → Choice autos.now ts → AreRight face.now ts 0 (port_count output) ts }
    requires signs { AreSigns face.now.boxes autos.now lists.now }
    requires uniform { Every (HaveSignatures face.now.boxes) autos.now }
    ensures { IfOk result
        (λ found. MatchOption found (GivesApart face.now.boxes autos.now port)
        (λ fields. Gives face.now.boxes autos.now port fields × IsRising fields)) }
{
    match all_fields(alloc, face.boxes.as_slice(), autos, lists, port)? {
        None => Ok(None),
        Some(fields) => {
            let fields = in_order(alloc, fields.as_slice())?;
            Ok(Some(fields))
        }
    }
}

/// What the trees of all components give the port, with what its own covers, in any order.
fn all_fields(
    alloc: Global,
    boxes: &[BoxFace],
    autos: &[Auto],
    lists: &[List<Signature>],
    port: u32,
) -> Mem<Option<List<u32>>>
    requires trim { Every IsTrim autos.now }
    requires signs { AreSigns boxes.now autos.now lists.now }
    requires uniform { Every (HaveSignatures boxes.now) autos.now }
    ensures { IfOk result
        (λ found. MatchOption found (SomePartsApart boxes.now port autos.now)
        (λ fields. (ts : List Tree) → Choice autos.now ts → Rearranged fields (parts_from boxes.now port 0 ts))) }
{
    let mut fields = List::new(alloc);
    for (place, auto) in autos.iter().enumerate() {
        match fields_at(alloc, boxes, auto, lists, place, port)? {
            None => return Ok(None),
            Some(more) => fields.append(more)?,
        }
    }
    Ok(Some(fields))
}

/// What the trees of the component at the place give the port, with what they cover where it is the port's own.
fn fields_at(
    alloc: Global,
    boxes: &[BoxFace],
    auto: &Auto,
    lists: &[List<Signature>],
    place: usize,
    port: u32,
) -> Mem<Option<List<u32>>>
    requires there { place < length lists.now }
    requires trim { IsTrim auto.now }
    requires signs { (list : List Signature) → slice_get lists.now place ≡ Some list
        → AreSignsOf boxes.now auto.now list }
    requires uniform { HaveSignatures boxes.now auto.now }
    ensures { IfOk result
        (λ found. MatchOption found (PartsApart boxes.now port place auto.now)
        (ArePartsOf boxes.now port place auto.now)) }
{
    if place == port as usize {
        own_fields(alloc, boxes, auto, port)
    } else {
        other_fields(alloc, lists[place].as_slice(), port)
    }
}

/// What the trees of the port's own component cover and give it.
fn own_fields(alloc: Global, boxes: &[BoxFace], auto: &Auto, port: u32) -> Mem<Option<List<u32>>>
    requires trim { IsTrim auto.now }
    requires uniform { HaveSignatures boxes.now auto.now }
    ensures { IfOk result
        (λ found. MatchOption found (PartsApart boxes.now port port auto.now)
        (ArePartsOf boxes.now port port auto.now)) }
{
    auto.known();
    match seen_each(alloc, boxes, auto)? {
        None => Ok(None),
        Some(table) => {
            let roots = auto.roots.as_slice();
            let all = top_fields(
                alloc,
                boxes,
                table.as_slice(),
                port,
                roots,
                auto.rules.as_slice(),
            )?;
            common(alloc, all.as_slice())
        }
    }
}

/// What trees of these signatures give the root.
fn other_fields(alloc: Global, list: &[Signature], root: u32) -> Mem<Option<List<u32>>>
    ensures { IfOk result
        (λ found. MatchOption found (HaveApart (map (provided_by root) list.now))
        (λ fields. Every (Rearranged fields) (map (provided_by root) list.now))) }
{
    let all = provided_each(alloc, list, root)?;
    common(alloc, all.as_slice())
}

/// For each rule of a root state the fields that it covers and that its trees give the root.
fn top_fields(
    alloc: Global,
    boxes: &[BoxFace],
    table: &[Option<Seen>],
    root: u32,
    roots: &[u32],
    rules: &[Rule],
) -> Mem<List<List<u32>>>
    ensures { IfOk result (AreTopFields boxes.now table.now root roots.now rules.now rules.now) }
{
    let mut all = List::new(alloc);
    for rule in rules {
        add_top(alloc, boxes, table, root, roots, rule, &mut all)?;
    }
    Ok(all)
}

fn add_top(
    alloc: Global,
    boxes: &[BoxFace],
    table: &[Option<Seen>],
    root: u32,
    roots: &[u32],
    rule: &Rule,
    all: &mut List<List<u32>>,
) -> Mem<()>
    ensures { IfOk result (λ _. IsTopAdded boxes.now table.now root roots.now rule.now all.old all.new) }
{
    if is_one_of(rule.state, roots) {
        let fields = rule_fields(alloc, boxes, table, root, rule)?;
        all.push(fields)?;
    }
    Ok(())
}

/// The fields that the rule covers and that its trees give the root.
fn rule_fields(
    alloc: Global,
    boxes: &[BoxFace],
    table: &[Option<Seen>],
    root: u32,
    rule: &Rule,
) -> Mem<List<u32>>
    ensures { IfOk result (λ fields. fields ≡ rule_fields boxes.now table.now root rule.now) }
{
    let mut fields = covered_by(alloc, boxes, &rule.symbol)?;
    let more = List::from_slice(alloc, provided_at(marks_of(table, rule.state), root))?;
    fields.append(more)?;
    Ok(fields)
}

/// For each of the signatures the fields that its trees give the root.
fn provided_each(alloc: Global, list: &[Signature], root: u32) -> Mem<List<List<u32>>>
    ensures { IfOk result (λ all. all ≡ map (provided_by root) list.now) }
{
    let mut all = List::new(alloc);
    for signature in list {
        let fields = List::from_slice(alloc, provided_at(signature.refs.as_slice(), root))?;
        all.push(fields)?;
    }
    Ok(all)
}

/// The fields of the root's mark; where there is none, none.
fn provided_at<'a>(marks: &'a [RefMark], root: u32) -> &'a [u32]
    ensures { result.now ≡ fields_of_mark (mark_of root marks.entry.now) }
{
    for mark in marks {
        if root == mark.root {
            return mark.provided.as_slice();
        }
    }
    &[]
}

/// The first of the lists, if each of the others has the same numbers, each as often.
fn common(alloc: Global, all: &[List<u32>]) -> Mem<Option<List<u32>>>
    ensures { IfOk result
        (λ found. MatchOption found (HaveApart all.now) (λ fields. Every (Rearranged fields) all.now)) }
{
    let fields = first_of(alloc, all)?;
    if !are_alike(fields.as_slice(), all) {
        return Ok(None);
    }
    Ok(Some(fields))
}

fn first_of(alloc: Global, all: &[List<u32>]) -> Mem<List<u32>>
    ensures { IfOk result (λ fields. fields ≡ slice_index_or all.now 0 []) }
{
    match all.get(0) {
        Some(first) => first.copy(alloc),
        None => Ok(List::new(alloc)),
    }
}

/// Whether each of the lists has these numbers, each as often.
fn are_alike(numbers: &[u32], all: &[List<u32>]) -> bool
    ensures { MatchBool result (Every (Rearranged numbers.now) all.now) (IsOther numbers.now all.now) }
{
    for other in all {
        if !are_rearranged(numbers, other.as_slice()) {
            return false;
        }
    }
    true
}
