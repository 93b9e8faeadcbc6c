// The signatures of each component, parted by how they lead back.

ghost use Rattle.std.specs.Prelude.{◌≡◌, ◌↔◌, ◌<◌, ◌^◌, true, false, length, map};
ghost use Rattle.std.specs.Prelude.{IsTrue, IfOk, OnOk};
ghost use Rattle.fore_base.specs.Lists.{IsIn, Every};
ghost use Rattle.fa_back.specs.Reached.{AllNameBelow};
ghost use Rattle.fa_reach.specs.Choices.{HasSign};
ghost use Rattle.fa_reach.specs.inner.Going.{AllFit};
ghost use Rattle.fa_reach.specs.inner.Parts.{hops_of, roots_of, AreDowns, AreParts, AllParted, AddsDown, AddsPart};
ghost use Rattle.fa_reach.specs.inner.Parts.{HasHops};

use crate::part::Part;
use fa_back::{Hop, push_backs};
use fa_core::signature::{RefMark, Signature};
use fore_base::list::List;
use fore_base::memory::Mem;
use std::alloc::Global;

/// The parts of each component, which fit where the marks name components.
pub fn fit_parts(alloc: Global, lists: &[List<Signature>]) -> Mem<List<List<Part>>>
    requires count { length lists.now < 2 ^ 32 }
    requires within { Every (AllNameBelow (length lists.now)) lists.now }
    requires full { Every HasSign lists.now }
    ensures parted { IfOk result (λ all. AllParted 0 lists.now all) }
    ensures long { IfOk result (λ all. length all ≡ length lists.now) }
    ensures fit { IfOk result (λ all. AllFit (length all) all) }
{
    let all = parted(alloc, lists)?;
    Ok(all)
}

/// The parts of each component.
fn parted(alloc: Global, lists: &[List<Signature>]) -> Mem<List<List<Part>>>
    requires { length lists.now < 2 ^ 32 }
    ensures { IfOk result (λ all. AllParted 0 lists.now all) }
{
    let mut all = List::new(alloc);
    let mut place: u32 = 0;
    for list in lists {
        let parts = parts_of(alloc, place, list.as_slice())?;
        all.push(parts)?;
        place += 1;
    }
    Ok(all)
}

/// The parts of the component at this place.
fn parts_of(alloc: Global, place: u32, signatures: &[Signature]) -> Mem<List<Part>>
    ensures { IfOk result (λ parts. AreParts place signatures.now signatures.now parts) }
{
    let mut parts = List::new(alloc);
    for signature in signatures {
        add_part(alloc, place, signatures, signature, &mut parts)?;
    }
    Ok(parts)
}

/// Adds the part of one of the signatures, if it is not there.
fn add_part(
    alloc: Global,
    place: u32,
    all: &[Signature],
    one: &Signature,
    parts: &mut List<Part>,
) -> Mem<()>
    requires { IsIn one.now all.now }
    ensures { OnOk result (AddsPart place all.now one.now parts.old parts.new) }
{
    let hops = hops_of(alloc, place, one)?;
    if has_hops(parts.as_slice(), hops.as_slice()) {
        return Ok(());
    }
    let downs = downs_of(alloc, place, hops.as_slice(), all)?;
    parts.push(Part { hops, downs })?;
    Ok(())
}

/// Whether some part leads back so.
fn has_hops(parts: &[Part], hops: &[Hop]) -> bool
    ensures { result ≡ true → HasHops parts.now hops.now }
{
    for part in parts {
        if same_hops(part.hops.as_slice(), hops) {
            return true;
        }
    }
    false
}

fn same_hops(left: &[Hop], right: &[Hop]) -> bool
    ensures { IsTrue result ↔ (left.now ≡ right.now) }
{
    left == right
}

/// The roots to which those signatures refer that lead back so.
fn downs_of(
    alloc: Global,
    place: u32,
    hops: &[Hop],
    signatures: &[Signature],
) -> Mem<List<List<u32>>>
    ensures { IfOk result (λ downs. AreDowns place hops.now signatures.now downs) }
{
    let mut downs = List::new(alloc);
    for signature in signatures {
        add_down(alloc, place, hops, signature, &mut downs)?;
    }
    Ok(downs)
}

fn add_down(
    alloc: Global,
    place: u32,
    hops: &[Hop],
    signature: &Signature,
    downs: &mut List<List<u32>>,
) -> Mem<()>
    ensures { OnOk result (AddsDown place hops.now signature.now downs.old downs.new) }
{
    let own = hops_of(alloc, place, signature)?;
    if same_hops(own.as_slice(), hops) {
        let roots = roots_of(alloc, signature.refs.as_slice())?;
        downs.push(roots)?;
    }
    Ok(())
}

/// The roots to which trees with the signature refer.
fn roots_of(alloc: Global, marks: &[RefMark]) -> Mem<List<u32>>
    ensures { IfOk result (λ roots. roots ≡ map (λ m. m.root) marks.now) }
{
    let mut roots = List::new(alloc);
    for mark in marks {
        roots.push(mark.root)?;
    }
    Ok(roots)
}

/// The ways back of trees of the component at this place with the signature.
fn hops_of(alloc: Global, place: u32, signature: &Signature) -> Mem<List<Hop>>
    ensures { IfOk result (λ hops. hops ≡ hops_of place signature.now) }
{
    let mut hops = List::new(alloc);
    for mark in signature.refs.as_slice() {
        push_backs(&mut hops, place, mark)?;
    }
    Ok(hops)
}
