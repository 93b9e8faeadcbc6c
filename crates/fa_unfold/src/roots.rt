// Forests with a root that gains the slots of a port, and with further roots.

ghost use Rattle.std.specs.Prelude.{◌≡◌, ◌<◌, length, IfOk};
ghost use Rattle.ta_core.specs.Auto.{IsRanked};
ghost use Rattle.ta_core.specs.Single.{HasOneTop};
ghost use Rattle.fa_sound.specs.Components.{component_at};
ghost use Rattle.fa_split.specs.Split.{top_rule};
ghost use Rattle.fa_unfold.specs.Slots.{rule_places, without};
ghost use Rattle.fa_unfold.specs.Unfolding.{grow_root, grown, open_root, with_inner};

use crate::growing::grown;
use crate::slots::{rule_places, without};
use fa_core::faces::BoxFace;
use fa_core::forest::Forest;
use fa_sound::{component, replace};
use fa_split::rule_at_top;
use fore_base::list::{Copies, List};
use fore_base::memory::Mem;
use std::alloc::Global;
use ta_core::auto::{Auto, Rule};

/// The forest with the root, which has one rule, without the slot at the place, and with the slots of a rule of the
/// port. Err is want of memory, also where states do not fit 32 bits.
pub fn open_root(
    alloc: Global,
    boxes: &[BoxFace],
    forest: &Forest,
    root: u32,
    place: usize,
    port: &Auto,
    from: &Rule,
) -> Mem<Forest>
    requires root { root < length forest.now.autos }
    requires top { HasOneTop (component_at forest.now.autos root) }
    requires ranked { IsRanked (grown boxes.now (component_at forest.now.autos root)
        (top_rule (component_at forest.now.autos root))
        (without place (rule_places (top_rule (component_at forest.now.autos root)))) port.now from.now) }
    ensures { IfOk result (λ made. made ≡ open_root boxes.now forest.now root place port.now from.now) }
{
    let auto = component(forest, root);
    let top = rule_at_top(auto);
    let all = rule_places(alloc, top)?;
    let base = without(alloc, all.as_slice(), place)?;
    let more = grown(alloc, boxes, auto, top, base.as_slice(), port, from)?;
    replace(alloc, forest, root, more)
}

/// The forest with a rule of the root alone at the root, with its slots and those of a rule of the port. Err is want of
/// memory, also where states do not fit 32 bits.
pub fn grow_root(
    alloc: Global,
    boxes: &[BoxFace],
    forest: &Forest,
    root: u32,
    port: &Auto,
    own: &Rule,
    from: &Rule,
) -> Mem<Forest>
    requires root { root < length forest.now.autos }
    requires ranked { IsRanked (grown boxes.now (component_at forest.now.autos root) own.now (rule_places own.now)
        port.now from.now) }
    ensures { IfOk result (λ made. made ≡ grow_root boxes.now forest.now root port.now own.now from.now) }
{
    let auto = component(forest, root);
    let base = rule_places(alloc, own)?;
    let more = grown(alloc, boxes, auto, own, base.as_slice(), port, from)?;
    replace(alloc, forest, root, more)
}

/// The forest, with these components behind its own. Err is want of memory.
pub fn with_inner(alloc: Global, forest: Forest, inner: &List<Auto>) -> Mem<Forest>
    ensures { IfOk result (λ made. made ≡ with_inner inner.now forest) }
{
    let Forest {
        autos,
        vars,
        data_vars,
    } = forest;
    let mut autos = autos;
    let more = inner.copy(alloc)?;
    autos.append(more)?;
    Ok(Forest {
        autos,
        vars,
        data_vars,
    })
}
