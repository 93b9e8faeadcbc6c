// One rule chosen at each root at which a variable is.

ghost use Rattle.std.specs.Prelude.{◌≡◌, ◌<◌, false, List, length, IfOk, IsTrue};
ghost use Rattle.fore_base.specs.Lists.{IsIn, Every};
ghost use Rattle.ta_core.specs.Single.{HasOneTop};
ghost use Rattle.fa_core.specs.Member.{RegroupsInto};
ghost use Rattle.fa_core.specs.declared.boxes.BoxDef.{BoxDef};
ghost use Rattle.fa_sound.specs.Components.{component_at};
ghost use Rattle.fa_sound.specs.Soundness.{SoundForest};
ghost use Rattle.fa_split.specs.Divided.{forests};
ghost use Rattle.fa_opening.specs.Each.{OfSome};
ghost use Rattle.sym_step.specs.inner.Topping.{IsTopped, IsToppedAt};

use fa_opening::applying::{Step, as_it_is, on_each};
use fa_sound::{Sound, component};
use fa_split::choose_rule;
use fore_base::list::List;
use fore_base::memory::Mem;
use std::alloc::Global;
use ta_core::single::has_one_top;

/// The forests with each choice of one rule at each of the first roots, of which there are so many. Where a root has
/// one rule, its component stays. Err is want of memory.
pub fn top_roots(alloc: Global, parts: List<Sound>, count: u32) -> Mem<List<Sound>>
    ensures each { IfOk result (Every (OfSome (IsTopped count) parts)) }
    ensures whole { IfOk result (λ made. (S : SoundForest) → IsIn S parts
        → (T : List BoxDef) → RegroupsInto T S.forest (forests made)) }
{
    let mut made = parts;
    for root in 0..count {
        made = top_all(alloc, made, root)?;
    }
    Ok(made)
}

/// So at one root. Where each of the forests has one rule there, none is copied.
#[tactic(auto, using(crate::proofs::ToppedRoots::into_itself))]
fn top_all(alloc: Global, parts: List<Sound>, root: u32) -> Mem<List<Sound>>
    ensures each { IfOk result (Every (OfSome (IsToppedAt root) parts)) }
    ensures whole { IfOk result (λ made. (S : SoundForest) → IsIn S parts
        → (T : List BoxDef) → RegroupsInto T S.forest (forests made)) }
{
    if are_topped(parts.as_slice(), root) {
        return Ok(parts);
    }
    on_each(alloc, &Top { root }, parts.as_slice())
}

/// Whether each of the forests has one rule at the root, or no such root.
#[tactic(auto, using(fore_base::proofs::ListLemmas::every_push, fore_base::proofs::ListLemmas::take_item))]
fn are_topped(parts: &[Sound], root: u32) -> bool
    ensures { IsTrue result → Every (λ (S : SoundForest). IsToppedAt root S S) parts.now }
{
    for part in parts {
        if !is_topped(part, root) {
            return false;
        }
    }
    true
}

/// Whether the forest has one rule at the root, or no such root.
fn is_topped(part: &Sound, root: u32) -> bool
    ensures topped { IsTrue result → IsToppedAt root part.now part.now }
    ensures other { result ≡ false → (root < length part.now.forest.autos)
        × (HasOneTop (component_at part.now.forest.autos root) → ⊥) }
{
    part.known();
    if (root as usize) >= part.forest().autos.len() {
        return true;
    }
    has_one_top(component(part.forest(), root))
}

/// Each choice of one rule at the root, where there are several.
#[derive(Drop)]
struct Top {
    root: u32,
}

impl Step for Top {
    ghost use Rattle.std.specs.Prelude.{List};
    ghost use Rattle.fa_core.specs.Member.{RegroupsInto};
    ghost use Rattle.fa_core.specs.declared.boxes.BoxDef.{BoxDef};
    ghost use Rattle.sym_step.specs.inner.Topping.{IsToppedAt};

    ghost accepts = { λ step S. Unit {0} };

    ghost relates = { λ step. IsToppedAt step.root };

    ghost goes_into = { λ step S Gs. (T : List BoxDef) → RegroupsInto T S.forest Gs };

    ghost goes_on = { λ step S Gs Hs more k T d h. let w = k T d h in (w.0, more w.0 w.1, w.2) };

    fn apply(&self, alloc: Global, part: &Sound) -> Mem<List<Sound>> {
        if is_topped(part, self.root) {
            return as_it_is(alloc, part);
        }
        let made = choose_rule(alloc, part, self.root)?;
        Ok(made)
    }
}
