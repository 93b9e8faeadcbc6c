// Which roots are reached, and whether the members of a forest leak.

ghost use Rattle.std.specs.Prelude.{◌≡◌, ◌<◌, ◌++◌, ◌∷◌, [], ◌^◌, ℕ, List, length, IfOk, OnOk, IsNone, IsSome};
ghost use Rattle.std.specs.Prelude.{MatchOption};
ghost use Rattle.fore_base.specs.Lists.{Paired};
ghost use Rattle.fore_base.specs.Marks.{IsMarked};
ghost use Rattle.fa_core.specs.Boxes.{IsTableOf};
ghost use Rattle.fa_core.specs.Canonical.{var_roots};
ghost use Rattle.fa_core.specs.declared.boxes.BoxDef.{BoxDef};
ghost use Rattle.fa_back.specs.Insides.{AreRankedInsides};
ghost use Rattle.fa_merge.specs.Reached.{AlwaysLeaks, AreAllReached, DoAllLeak, DoesNoneLeak};
ghost use Rattle.fa_merge.specs.Reached.{IsLeastUnreached, NeverLeaks};
ghost use Rattle.fa_merge.specs.Signed.{IsSignatureOf};
ghost use Rattle.fa_merge.specs.inner.Signed.{AreReachMarks, IsFirstUnmarked};

use crate::signing::component_signatures;
use fa_back::closure::reached;
use fa_core::forest::Target;
use fa_core::signature::Signature;
use fa_sound::{Sound, count_roots};
use fore_base::list::List;
use fore_base::memory::Mem;
use std::alloc::Global;

/// The least root that is reached neither forward nor by a way back, if there is one. It is Some exactly where every
/// member leaks, and None exactly where no member does, by each table over the face; exact is said of those whose
/// insides have rules with as many children as their symbols, as each table that is built has
/// (`fa_back::ranked_insides`). Err is want of memory.
pub fn leaking_root(alloc: Global, forest: &Sound) -> Mem<Option<u32>>
    ensures root { IfOk result
        (λ found. MatchOption found (AreAllReached forest.now.face forest.now.forest)
        (IsLeastUnreached forest.now.face forest.now.forest)) }
    ensures leaks { IfOk result
        (λ found. MatchOption found (NeverLeaks forest.now.face forest.now.forest)
        (λ _. AlwaysLeaks forest.now.face forest.now.forest)) }
    ensures exact { IfOk result (λ found. (T : List BoxDef) → IsTableOf forest.now.face T → AreRankedInsides T
        → (DoAllLeak forest.now.face T forest.now.forest → IsSome found)
        × (DoesNoneLeak forest.now.face T forest.now.forest → IsNone found)) }
{
    forest.known();
    let marks = reached_roots(alloc, forest)?;
    Ok(first_unmarked(marks.as_slice()))
}

/// A mark for each root that is reached.
fn reached_roots(alloc: Global, forest: &Sound) -> Mem<List<bool>>
    ensures marks { IfOk result (λ marks. AreReachMarks forest.now.face forest.now.forest marks) }
    ensures few { IfOk result (λ marks. length marks < 2 ^ 32) }
{
    let count = count_roots(forest.forest())?;
    let signatures = component_signatures(alloc, forest, count)?;
    marks_by(alloc, forest, count, signatures.as_slice())
}

fn marks_by(alloc: Global, forest: &Sound, _count: u32, signatures: &[Signature]) -> Mem<List<bool>>
    requires count { _count ≡ length forest.now.forest.autos }
    requires signed { Paired (IsSignatureOf forest.now.face.boxes) forest.now.forest.autos signatures.now }
    ensures { IfOk result (λ marks. AreReachMarks forest.now.face forest.now.forest marks) }
{
    forest.known();
    let from = var_roots(alloc, forest.forest().vars.as_slice())?;
    reached(alloc, signatures, from.as_slice())
}

/// The roots at which variables are, in order. Err is want of memory.
pub fn var_roots(alloc: Global, vars: &[Target]) -> Mem<List<u32>>
    ensures { IfOk result (λ made. made ≡ var_roots vars.now) }
{
    let mut made = List::new(alloc);
    for target in vars {
        push_root(&mut made, *target)?;
    }
    Ok(made)
}

fn push_root(roots: &mut List<u32>, target: Target) -> Mem<()>
    ensures { OnOk result (roots.new ≡ roots.old ++ var_roots (target ∷ [])) }
{
    if let Target::At(root) = target {
        roots.push(root)?;
    }
    Ok(())
}

/// The first number that has no mark.
fn first_unmarked(marks: &[bool]) -> Option<u32>
    requires { length marks.now < 2 ^ 32 }
    ensures { MatchOption result ((k : ℕ) → k < length marks.now → IsMarked marks.now k) (IsFirstUnmarked marks.now) }
{
    for (place, marked) in marks.iter().enumerate() {
        if !*marked {
            return Some(place as u32);
        }
    }
    None
}
