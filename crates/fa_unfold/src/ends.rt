// Forests in which the root at which a Link ends gains the slots of the rules of the output.

ghost use Rattle.std.specs.Prelude.{◌≡◌, ◌<◌, [], ◌∷◌, length, IfOk};
ghost use Rattle.ta_core.specs.Single.{HasOneTop};
ghost use Rattle.fa_core.specs.declared.forest.Target.TheVariants.{At};
ghost use Rattle.fa_sound.specs.Components.{component_at};
ghost use Rattle.fa_unfold.specs.Unfolding.{end_rules, with_end};
ghost use Rattle.fa_unfold.specs.inner.Ranges.{CanGrow};

use crate::lists::grown_roots;
use crate::tops::have_no_slots;
use fa_core::faces::BoxFace;
use fa_core::forest::{Forest, Target};
use fa_sound::component;
use fa_split::rule_at_top;
use fore_base::list::{Copies, List};
use fore_base::memory::Mem;
use std::alloc::Global;
use ta_core::auto::{Auto, Rule};

/// The forests in which the cell that the leaf names gains the slots of the rules of the port: the forest itself where
/// the leaf names none, or the rules have none. Err is want of memory, also where states do not fit 32 bits.
pub fn with_end(
    alloc: Global,
    boxes: &[BoxFace],
    forest: &Forest,
    root: u32,
    end: Target,
    ends: &List<Rule>,
    port: &Auto,
    rules: &[Rule],
) -> Mem<List<Forest>>
    requires { CanGrow boxes.now forest.now root end ends.now port.now rules.now }
    ensures { IfOk result (λ made. made ≡ with_end boxes.now forest.now root end ends.now port.now rules.now) }
{
    match end {
        Target::At(number) => grow_end(alloc, boxes, forest, root, number, ends, port, rules),
        _ => only(alloc, forest),
    }
}

fn grow_end(
    alloc: Global,
    boxes: &[BoxFace],
    forest: &Forest,
    root: u32,
    end: u32,
    ends: &List<Rule>,
    port: &Auto,
    rules: &[Rule],
) -> Mem<List<Forest>>
    requires { CanGrow boxes.now forest.now root (At end) ends.now port.now rules.now }
    ensures { IfOk result (λ made. made ≡ with_end boxes.now forest.now root (At end) ends.now port.now rules.now) }
{
    if have_no_slots(rules) {
        return only(alloc, forest);
    }
    let own = end_rules(alloc, forest, root, end, ends)?;
    grown_roots(alloc, boxes, forest, end, own.as_slice(), port, rules)
}

/// The item alone, as a list of its copy.
fn only<T: Copies>(alloc: Global, item: &T) -> Mem<List<T>>
    ensures { IfOk result (λ made. made ≡ item.now ∷ []) }
{
    let one = item.copy(alloc)?;
    let mut made = List::new(alloc);
    made.push(one)?;
    Ok(made)
}

/// The rules at the top of the end: the one of the root where it is the end, and those that are known of another.
fn end_rules(
    alloc: Global,
    forest: &Forest,
    root: u32,
    end: u32,
    ends: &List<Rule>,
) -> Mem<List<Rule>>
    requires root { root < length forest.now.autos }
    requires top { HasOneTop (component_at forest.now.autos root) }
    ensures { IfOk result (λ made. made ≡ end_rules forest.now root end ends.now) }
{
    if root == end {
        return only(alloc, rule_at_top(component(forest, root)));
    }
    ends.copy(alloc)
}
