// What box edges give to the cells of the roots, read off the signatures of the components.

ghost use Rattle.std.specs.Prelude.{◌≡◌, ◌<◌, ℕ, List, length, IfOk};
ghost use Rattle.fore_base.specs.Lists.{Every, Paired};
ghost use Rattle.ta_core.specs.Auto.{IsRanked};
ghost use Rattle.fa_core.specs.declared.faces.BoxFace.{BoxFace};
ghost use Rattle.fa_core.specs.Cells.{mark_of};
ghost use Rattle.fa_core.specs.Filled.{HasSignatures};
ghost use Rattle.fa_filling.specs.Given.{given_to, IsGivenAt};
ghost use Rattle.fa_sound.specs.Signatures.{AreSignatures};
ghost use Rattle.fa_sound.specs.inner.Owned.{fields_of_mark, given_of, marks_of, has_marks, own_of, owns_of};

use fa_core::signature::{RefMark, Signature};
use fore_base::list::{Copies, List};
use fore_base::memory::Mem;
use std::alloc::Global;
use ta_core::auto::Auto;

/// For each root the fields that box edges give to its cell, where `all` has the signatures of the states of each
/// component. Err is want of memory.
pub fn given_each(alloc: Global, autos: &[Auto], all: &[List<Signature>]) -> Mem<List<List<u32>>>
    requires { length all.now ≡ length autos.now }
    ensures { IfOk result (λ given. (bs : List BoxFace)
        → Every IsRanked autos.now
        → Every (HasSignatures bs) autos.now
        → Paired (AreSignatures bs) autos.now all.now
        → IsGivenAt bs autos.now (given_to given)) }
{
    let owns = owns_of(alloc, autos, all)?;
    let given = given_by(alloc, owns.as_slice(), autos.len())?;
    Ok(given)
}

/// The signature of each component.
fn owns_of(alloc: Global, autos: &[Auto], all: &[List<Signature>]) -> Mem<List<List<RefMark>>>
    requires { length all.now ≡ length autos.now }
    ensures { IfOk result (λ owns. owns ≡ owns_of autos.now all.now) }
{
    let mut owns = List::new(alloc);
    for (place, auto) in autos.iter().enumerate() {
        let own = own_of(all[place].as_slice(), auto.roots.as_slice());
        owns.push(List::from_slice(alloc, own)?)?;
    }
    Ok(owns)
}

/// The first of the states' signatures that has a mark; where none has, the empty one.
fn own_of<'a>(list: &'a [Signature], states: &[u32]) -> &'a [RefMark]
    ensures { result.now ≡ own_of list.entry.now states.now }
{
    for state in states {
        let marks = marks_of(list, *state);
        if has_marks(marks) {
            return marks;
        }
    }
    &[]
}

fn marks_of<'a>(list: &'a [Signature], state: u32) -> &'a [RefMark]
    ensures { result.now ≡ marks_of list.entry.now state }
{
    match list.get(state as usize) {
        Some(signature) => signature.refs.as_slice(),
        None => &[],
    }
}

fn has_marks(marks: &[RefMark]) -> bool
    ensures { result ≡ has_marks marks.now }
{
    marks.split_first().is_some()
}

/// For each root below the limit what is given there.
fn given_by(alloc: Global, owns: &[List<RefMark>], limit: usize) -> Mem<List<List<u32>>>
    ensures { IfOk result (λ given. (r : ℕ) → r < limit → given_to given r ≡ given_of owns.now r) }
{
    let mut given = List::new(alloc);
    for root in 0..limit {
        let fields = given_at(alloc, owns, root)?;
        given.push(fields)?;
    }
    Ok(given)
}

/// What is given at the root.
fn given_at(alloc: Global, owns: &[List<RefMark>], root: usize) -> Mem<List<u32>>
    ensures { IfOk result (λ fields. fields ≡ given_of owns.now root) }
{
    let mut fields = List::new(alloc);
    for marks in owns {
        let more = List::from_slice(alloc, fields_at(marks.as_slice(), root))?;
        fields.append(more)?;
    }
    Ok(fields)
}

/// The fields of the root's mark; where there is none, none.
fn fields_at<'a>(marks: &'a [RefMark], root: usize) -> &'a [u32]
    ensures { result.now ≡ fields_of_mark (mark_of root marks.entry.now) }
{
    for mark in marks {
        if root == mark.root as usize {
            return mark.provided.as_slice();
        }
    }
    &[]
}
