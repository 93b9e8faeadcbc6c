// The signatures that the trees of components have.

ghost use Rattle.std.specs.Prelude.{◌≡◌, ◌↔◌, IsTrue, IfOk, IfSome, MatchOption};
ghost use Rattle.std.specs.Option.{option_copied};
ghost use Rattle.fore_base.specs.Lists.{IsIn, Every, IsDistinct};
ghost use Rattle.ta_core.specs.Language.{IsTrim};
ghost use Rattle.fa_box_rules.specs.Rules.{HaveSignatures};
ghost use Rattle.fa_box_rules.specs.Signs.{AreSignsOf, AreSigns};
ghost use Rattle.fa_boxes.specs.Signatures.{SignsApart, SomeSignsApart};
ghost use Rattle.fa_boxes.specs.inner.Signs.{sign, IsAdded, AreSignsIn};

use crate::seeing::{Seen, seen_each};
use fa_core::faces::BoxFace;
use fa_core::signature::{RefMark, Signature};
use fa_sound::are_same;
use fa_sound::entries::entry_at;
use fore_base::list::{Copies, List};
use fore_base::memory::Mem;
use std::alloc::Global;
use ta_core::auto::Auto;

/// For each component the signatures of its trees, each once. None where two trees of a state have different ones.
/// It is to be asked where each tree has a cell at its top and no choice of trees gives a field to a root twice: what
/// the trees of a state provide is then never longer than a struct. Where box edges may give a field more often, it can
/// double with each state.
///
/// # Errors
///
/// Want of memory.
pub fn signs(alloc: Global, boxes: &[BoxFace], autos: &[Auto]) -> Mem<Option<List<List<Signature>>>>
    requires { Every IsTrim autos.now }
    ensures signs { IfOk result
        (λ found. MatchOption found (SomeSignsApart boxes.now autos.now)
        (λ lists. AreSigns boxes.now autos.now lists × Every (HaveSignatures boxes.now) autos.now)) }
    ensures once { IfOk result (λ found. IfSome found (Every IsDistinct)) }
{
    let mut lists = List::new(alloc);
    for auto in autos {
        match signs_of(alloc, boxes, auto)? {
            None => return Ok(None),
            Some(list) => lists.push(list)?,
        }
    }
    Ok(Some(lists))
}

/// The signatures of the component's trees.
fn signs_of(alloc: Global, boxes: &[BoxFace], auto: &Auto) -> Mem<Option<List<Signature>>>
    requires { IsTrim auto.now }
    ensures { IfOk result
        (λ found. MatchOption found (SignsApart boxes.now auto.now)
        (λ list. AreSignsOf boxes.now auto.now list × HaveSignatures boxes.now auto.now × IsDistinct list)) }
{
    match seen_each(alloc, boxes, auto)? {
        None => Ok(None),
        Some(table) => {
            let list = signs_at(alloc, table.as_slice(), auto.roots.as_slice())?;
            Ok(Some(list))
        }
    }
}

/// The signatures that the table has for the states, each once.
fn signs_at(alloc: Global, table: &[Option<Seen>], states: &[u32]) -> Mem<List<Signature>>
    ensures { IfOk result (AreSignsIn table.now states.now states.now) }
{
    let mut list = List::new(alloc);
    for state in states {
        add_sign(alloc, &mut list, entry_at(table, *state))?;
    }
    Ok(list)
}

/// Adds the signature of what is known, where there is something and the signature is not there.
fn add_sign(alloc: Global, list: &mut List<Signature>, found: Option<&Seen>) -> Mem<()>
    ensures { IfOk result (λ _. IsAdded (option_copied found.entry) list.old list.new) }
{
    if let Some(seen) = found {
        if !is_sign(list.as_slice(), seen.marks.as_slice()) {
            let refs = seen.marks.copy(alloc)?;
            list.push(Signature { refs })?;
        }
    }
    Ok(())
}

/// Whether the list has a signature of these marks.
fn is_sign(list: &[Signature], marks: &[RefMark]) -> bool
    ensures { IsTrue result ↔ IsIn (sign marks.now) list.now }
{
    for other in list {
        if are_same(other.refs.as_slice(), marks) {
            return true;
        }
    }
    false
}
