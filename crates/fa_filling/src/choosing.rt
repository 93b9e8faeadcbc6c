// Whether each choice of a tree for each root is filled, from the parts of the components.

ghost use Rattle.std.specs.Prelude.{◌≡◌, ◌↔◌, ◌<◌, [], List, length, IsTrue, IfOk, MatchOption};
ghost use Rattle.fore_base.specs.Lists.{Every};
ghost use Rattle.ta_core.specs.declared.tree.Tree.{Tree};
ghost use Rattle.ta_core.specs.Language.{IsTrim};
ghost use Rattle.fa_core.specs.Filled.{Choice, ChoiceFilled, IsRoot, HasSome};
ghost use Rattle.fa_filling.specs.Parted.{HasLeafIn, AreParts, AreReady, AreFilledAt, ArePartsFilled, AreTopsBut};
ghost use Rattle.fa_filling.specs.Parted.{tops_of, all_tops};
ghost use Rattle.fa_filling.specs.Given.{given_to, IsGivenAt};

use crate::filling::is_filled_part;
use crate::parts::{Part, parts};
use fa_core::faces::Face;
use fa_core::forest::{Forest, Target};
use fore_base::list::List;
use fore_base::memory::Mem;
use std::alloc::Global;
use ta_core::auto::Auto;

/// Whether for each choice of a tree for each root each field of each cell is given exactly once; for each root `given`
/// has the fields that box edges give to its cell. Err is want of memory.
pub fn is_filled(alloc: Global, face: &Face, forest: &Forest, given: &[List<u32>]) -> Mem<bool>
    requires full { Every HasSome forest.now.autos }
    requires given { IsGivenAt face.now.boxes forest.now.autos (given_to given.now) }
    ensures { IfOk result (λ yes. IsTrue yes
        ↔ ((ts : List Tree) → Choice forest.now.autos ts → ChoiceFilled face.now forest.now ts)) }
{
    if !are_roots(forest.autos.len(), forest.vars.as_slice()) {
        return Ok(false);
    }
    match parts_each(alloc, forest.autos.as_slice())? {
        None => Ok(false),
        Some(parts) => are_parts_filled(alloc, face, given, parts.as_slice()),
    }
}

/// Whether each of the targets that names a root names one below the limit.
fn are_roots(limit: usize, targets: &[Target]) -> bool
    ensures { IsTrue result ↔ Every (IsRoot limit) targets.now }
{
    for target in targets {
        if !is_root(limit, *target) {
            return false;
        }
    }
    true
}

fn is_root(limit: usize, target: Target) -> bool
    ensures { IsTrue result ↔ IsRoot limit target }
{
    match target {
        Target::At(root) => (root as usize) < limit,
        _ => true,
    }
}

/// The parts of each component, None where one of these has a leaf.
fn parts_each(alloc: Global, autos: &[Auto]) -> Mem<Option<List<List<Part>>>>
    ensures { IfOk result (λ found. MatchOption found (HasLeafIn autos.now) (AreParts autos.now)) }
{
    let mut all = List::new(alloc);
    for auto in autos {
        match parts(alloc, auto)? {
            Some(parts) => all.push(parts)?,
            None => return Ok(None),
        }
    }
    Ok(Some(all))
}

/// Whether each part of each component is filled, whatever stands at the tops of the others.
fn are_parts_filled(
    alloc: Global,
    face: &Face,
    given: &[List<u32>],
    parts: &[List<Part>],
) -> Mem<bool>
    requires { Every AreReady parts.now }
    ensures { IfOk result (λ yes. IsTrue yes ↔ ArePartsFilled face.now (given_to given.now) 0 [] parts.now) }
{
    let mut tops = all_tops(alloc, parts)?;
    for (place, own) in parts.iter().enumerate() {
        let above = fields_given(given, place);
        if !are_filled_at(alloc, face, parts, &mut tops, place, above, own.as_slice())? {
            return Ok(false);
        }
        tops.set(place, tops_of(alloc, own.as_slice())?);
    }
    Ok(true)
}

/// Whether each of these parts, those of the component at the place, is filled, where the fields `above` are given to
/// its root. For each component `tops` has the structs that may stand at its top, but at the place it may have others,
/// and is left with others.
fn are_filled_at(
    alloc: Global,
    face: &Face,
    _parts: &[List<Part>],
    tops: &mut List<List<u32>>,
    place: usize,
    above: &[u32],
    own: &[Part],
) -> Mem<bool>
    requires there { place < length _parts.now }
    requires ready { Every AreReady _parts.now }
    requires own { Every (λ p. IsTrim p.auto) own.now }
    requires tops { AreTopsBut _parts.now place tops.old }
    ensures filled { IfOk result (λ yes. IsTrue yes ↔ AreFilledAt face.now _parts.now place above.now own.now) }
    ensures tops { IfOk result (λ _. AreTopsBut _parts.now place tops.new) }
{
    for part in own {
        let alone = List::filled(alloc, part.top, 1)?;
        tops.set(place, alone);
        if !is_filled_part(alloc, face, tops.as_slice(), above, &part.auto)? {
            return Ok(false);
        }
    }
    Ok(true)
}

/// The fields that are given to the root's cell.
fn fields_given<'a>(given: &'a [List<u32>], root: usize) -> &'a [u32]
    ensures { result.now ≡ given_to given.entry.now root }
{
    match given.get(root) {
        Some(fields) => fields.as_slice(),
        None => &[],
    }
}

/// For each component the structs that may stand at its top.
fn all_tops(alloc: Global, parts: &[List<Part>]) -> Mem<List<List<u32>>>
    ensures { IfOk result (λ tops. tops ≡ all_tops parts.now) }
{
    let mut all = List::new(alloc);
    for own in parts {
        let tops = tops_of(alloc, own.as_slice())?;
        all.push(tops)?;
    }
    Ok(all)
}

fn tops_of(alloc: Global, parts: &[Part]) -> Mem<List<u32>>
    ensures { IfOk result (λ tops. tops ≡ tops_of parts.now) }
{
    let mut tops = List::new(alloc);
    for part in parts {
        tops.push(part.top)?;
    }
    Ok(tops)
}
