// The lists of forests in which a box edge of a root is replaced.

ghost use Rattle.std.specs.Prelude.{◌≡◌, ◌<◌, length, map, IfOk};
ghost use Rattle.fore_base.specs.Lists.{Every};
ghost use Rattle.ta_core.specs.Auto.{IsRanked};
ghost use Rattle.ta_core.specs.Single.{HasOneTop};
ghost use Rattle.fa_sound.specs.Components.{component_at};
ghost use Rattle.fa_split.specs.Split.{top_rule};
ghost use Rattle.fa_unfold.specs.Slots.{rule_places, without};
ghost use Rattle.fa_unfold.specs.Unfolding.{grow_root, grown, grown_roots, open_root, with_inner};

use crate::roots::{grow_root, open_root, with_inner};
use fa_core::faces::BoxFace;
use fa_core::forest::Forest;
use fore_base::list::List;
use fore_base::memory::Mem;
use std::alloc::Global;
use ta_core::auto::{Auto, Rule};

/// For each of the rules of the port the forest with the root, which has one rule, without the slot at the place, with
/// the slots of the rule of the port, and with the inner components behind. Err is want of memory, also where states do
/// not fit 32 bits.
pub fn open_each(
    alloc: Global,
    boxes: &[BoxFace],
    forest: &Forest,
    root: u32,
    place: usize,
    port: &Auto,
    inner: &List<Auto>,
    rules: &[Rule],
) -> Mem<List<Forest>>
    requires root { root < length forest.now.autos }
    requires top { HasOneTop (component_at forest.now.autos root) }
    requires ranked { Every (λ z. IsRanked (grown boxes.now (component_at forest.now.autos root)
        (top_rule (component_at forest.now.autos root))
        (without place (rule_places (top_rule (component_at forest.now.autos root)))) port.now z)) rules.now }
    ensures { IfOk result (λ made. made
        ≡ map (λ z. with_inner inner.now (open_root boxes.now forest.now root place port.now z)) rules.now) }
{
    let mut made = List::new(alloc);
    for rule in rules {
        let opened = open_root(alloc, boxes, forest, root, place, port, rule)?;
        let whole = with_inner(alloc, opened, inner)?;
        made.push(whole)?;
    }
    Ok(made)
}

/// For each of the rules of the root, and each of those of the port, the forest with the rule of the root alone at it,
/// with its slots and those of the rule of the port. Err is want of memory, also where states do not fit 32 bits.
pub fn grown_roots(
    alloc: Global,
    boxes: &[BoxFace],
    forest: &Forest,
    root: u32,
    ends: &[Rule],
    port: &Auto,
    rules: &[Rule],
) -> Mem<List<Forest>>
    requires root { root < length forest.now.autos }
    requires ranked { Every (λ w. Every (λ z. IsRanked (grown boxes.now (component_at forest.now.autos root) w
        (rule_places w) port.now z)) rules.now) ends.now }
    ensures { IfOk result (λ made. made ≡ grown_roots boxes.now forest.now root ends.now port.now rules.now) }
{
    let mut made = List::new(alloc);
    for own in ends {
        let more = grow_each(alloc, boxes, forest, root, port, own, rules)?;
        made.append(more)?;
    }
    Ok(made)
}

fn grow_each(
    alloc: Global,
    boxes: &[BoxFace],
    forest: &Forest,
    root: u32,
    port: &Auto,
    own: &Rule,
    rules: &[Rule],
) -> Mem<List<Forest>>
    requires root { root < length forest.now.autos }
    requires ranked { Every (λ z. IsRanked (grown boxes.now (component_at forest.now.autos root) own.now
        (rule_places own.now) port.now z)) rules.now }
    ensures { IfOk result (λ made. made ≡ map (grow_root boxes.now forest.now root port.now own.now) rules.now) }
{
    let mut made = List::new(alloc);
    for rule in rules {
        let grown = grow_root(alloc, boxes, forest, root, port, own, rule)?;
        made.push(grown)?;
    }
    Ok(made)
}
