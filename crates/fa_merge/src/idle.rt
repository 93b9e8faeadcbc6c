// Roots at which box edges give nothing.

ghost use Rattle.std.specs.Prelude.{◌↔◌, ◌<◌, length, IsTrue, IfOk};
ghost use Rattle.fore_base.specs.Lists.{Every};
ghost use Rattle.fa_merge.specs.Dropped.{IsIdle};
ghost use Rattle.fa_merge.specs.inner.Idle.{GivesNone, GivesNoneTo};

use crate::signing::{component_signature, component_signatures};
use fa_core::signature::{RefMark, Signature};
use fa_sound::{Sound, count_roots};
use fore_base::memory::Mem;
use std::alloc::Global;

/// Whether the root is idle: no box edge gives its cell a field, and none of its own trees gives a cell of a root one.
/// It is the condition of `drop_dead`. Err is want of memory.
pub fn is_idle(alloc: Global, forest: &Sound, root: u32) -> Mem<bool>
    requires { root < length forest.now.forest.autos }
    ensures { IfOk result (λ yes. IsTrue yes ↔ IsIdle forest.now.face.boxes forest.now.forest root) }
{
    forest.known();
    let count = count_roots(forest.forest())?;
    let all = component_signatures(alloc, forest, count)?;
    let own = component_signature(alloc, forest, root)?;
    Ok(are_silent(own.refs.as_slice(), all.as_slice(), root))
}

/// Whether the root's own marks provide nothing, and none of the signatures provides anything there.
fn are_silent(own: &[RefMark], all: &[Signature], root: u32) -> bool
    ensures { IsTrue result ↔ (GivesNone own.now × Every (λ s. GivesNoneTo root s.refs) all.now) }
{
    gives_none(own) && give_none_to(all, root)
}

/// Whether no mark provides a field.
fn gives_none(marks: &[RefMark]) -> bool
    ensures { IsTrue result ↔ GivesNone marks.now }
{
    for mark in marks {
        if !mark.provided.as_slice().is_empty() {
            return false;
        }
    }
    true
}

/// Whether no mark of the root in these signatures provides a field.
fn give_none_to(signatures: &[Signature], root: u32) -> bool
    ensures { IsTrue result ↔ Every (λ s. GivesNoneTo root s.refs) signatures.now }
{
    for signature in signatures {
        if !gives_none_to(signature.refs.as_slice(), root) {
            return false;
        }
    }
    true
}

fn gives_none_to(marks: &[RefMark], root: u32) -> bool
    ensures { IsTrue result ↔ GivesNoneTo root marks.now }
{
    for mark in marks {
        if mark.root == root && !mark.provided.as_slice().is_empty() {
            return false;
        }
    }
    true
}
