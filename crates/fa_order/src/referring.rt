// The signatures of the trees of each root, and the roots to which these refer.

ghost use Rattle.std.specs.Prelude.{◌≡◌, ◌<◌, ◌^◌, ◌∷◌, [], length, map, IfOk};
ghost use Rattle.fore_base.specs.Lists.{Paired};
ghost use Rattle.ta_core.specs.Single.{HasOneTop};
ghost use Rattle.fa_core.specs.Cells.{roots_in};
ghost use Rattle.fa_core.specs.declared.signature.Signature.{Signature};
ghost use Rattle.fa_merge.specs.Signed.{IsSignatureOf};

use fa_core::signature::{RefMark, Signature};
use fa_merge::component_signatures;
use fa_sound::{Sound, count_roots};
use fore_base::list::List;
use fore_base::memory::Mem;
use std::alloc::Global;
use ta_core::auto::Auto;

/// The signature of the trees of each root. Err is want of memory.
pub fn root_signatures(alloc: Global, forest: &Sound) -> Mem<List<Signature>>
    ensures signed { IfOk result
        (λ all. Paired (IsSignatureOf forest.now.face.boxes) forest.now.forest.autos all) }
    ensures few { IfOk result (λ all. length all < 2 ^ 32) }
{
    let count = count_roots(forest.forest())?;
    component_signatures(alloc, forest, count)
}

/// The one root state.
pub fn root_state(auto: &Auto) -> u32
    requires { HasOneTop auto.now }
    ensures { auto.now.roots ≡ result ∷ [] }
{
    *auto.roots.at(0)
}

/// The roots to which the trees of these signatures refer, in the order of first visit. Err is want of memory.
pub fn references(alloc: Global, signatures: &[Signature]) -> Mem<List<List<u32>>>
    ensures { IfOk result (λ all. all ≡ map (λ (s : Signature). roots_in s.refs) signatures.now) }
{
    let mut all = List::new(alloc);
    for signature in signatures {
        all.push(marked_roots(alloc, signature.refs.as_slice())?)?;
    }
    Ok(all)
}

/// The roots of the marks. Err is want of memory.
pub fn marked_roots(alloc: Global, marks: &[RefMark]) -> Mem<List<u32>>
    ensures { IfOk result (λ made. made ≡ roots_in marks.now) }
{
    let mut made = List::new(alloc);
    for mark in marks {
        made.push(mark.root)?;
    }
    Ok(made)
}
