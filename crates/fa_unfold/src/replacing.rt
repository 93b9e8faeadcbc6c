// The forests in which a box edge of a root, whose end is one leaf, is replaced by the inside of its box.

ghost use Rattle.std.specs.Prelude.{◌≡◌, ◌<◌, ℕ, ◌∷◌, length, map, flat_map, Some, IfOk};
ghost use Rattle.fore_base.specs.Lists.{Every};
ghost use Rattle.ta_core.specs.Single.{HasOneTop};
ghost use Rattle.fa_core.specs.declared.forest.Target.TheVariants.{At};
ghost use Rattle.fa_core.specs.Member.{inside_of};
ghost use Rattle.fa_core.specs.Placed.{placed_auto};
ghost use Rattle.fa_sound.specs.Components.{component_at};
ghost use Rattle.fa_unfold.specs.Outside.{outer};
ghost use Rattle.fa_unfold.specs.Sites.{IsHookAt, IsLinkAt, IsOver};
ghost use Rattle.fa_unfold.specs.Unfold.{AreHookUnfoldings, AreLinkUnfoldings};
ghost use Rattle.fa_unfold.specs.Unfolding.{AreTops, open_root, with_end, with_inner};
ghost use Rattle.fa_unfold.specs.inner.Ranges.{CanUnfoldBy};

use crate::ends::with_end;
use crate::lists::open_each;
use crate::placing::Site;
use crate::roots::{open_root, with_inner};
use crate::tops::tops;
use fa_core::faces::BoxFace;
use fa_core::forest::{Forest, Target};
use fa_core::table::BoxTable;
use fa_merge::placing::{place_auto, place_autos};
use fa_sound::{component, count_roots};
use fore_base::list::{Copies, List};
use fore_base::memory::Mem;
use std::alloc::Global;
use ta_core::auto::{Auto, Rule};

/// A port with the leaves outside, and the rules at the tops of its trees.
#[derive(Drop)]
pub struct Port {
    pub auto: Auto,
    pub tops: List<Rule>,
}

/// The components of the inside of the box.
pub fn inside(table: &BoxTable, number: u32) -> &[Auto]
    requires { number < length table.now.defs }
    ensures { inside_of table.now.defs number ≡ Some result.now }
{
    table.box_def(number).inside.autos.as_slice()
}

/// The forests in which the Link at the place of the root, whose end is the leaf alone, is replaced by the inside of
/// its box, which has these components. Err is want of memory, also where numbers of states and roots do not fit 32
/// bits.
pub fn unfold_link(
    alloc: Global,
    table: &BoxTable,
    forest: &Forest,
    root: u32,
    place: usize,
    _number: u32,
    end: Target,
    input: &Auto,
    output: &Auto,
    inner: &[Auto],
) -> Mem<List<Forest>>
    requires over { IsOver table.now forest.now }
    requires at { IsLinkAt forest.now root place _number end }
    requires is { inside_of table.now.defs _number ≡ Some (input.now ∷ (output.now ∷ inner.now)) }
    ensures { IfOk result (AreLinkUnfoldings table.now forest.now root place _number end) }
{
    let count = count_roots(forest)?;
    let site = Site {
        root,
        end: Some(end),
        count,
    };
    let first = port_at(alloc, input, &site)?;
    let last = port_at(alloc, output, &site)?;
    let more = place_autos(alloc, inner, &site)?;
    let ends = tops_of(alloc, forest, end)?;
    let boxes = table.face().boxes.as_slice();
    let rules = first.tops.as_slice();
    open_links(
        alloc,
        boxes,
        forest,
        root,
        place,
        end,
        &first.auto,
        rules,
        &last,
        &ends,
        &more,
    )
}

/// The forests in which the Hook at the place of the root is replaced by the inside of its box, which has these
/// components. Err is want of memory, also where numbers of states and roots do not fit 32 bits.
pub fn unfold_hook(
    alloc: Global,
    table: &BoxTable,
    forest: &Forest,
    root: u32,
    place: usize,
    _number: u32,
    input: &Auto,
    inner: &[Auto],
) -> Mem<List<Forest>>
    requires over { IsOver table.now forest.now }
    requires at { IsHookAt forest.now root place _number }
    requires is { inside_of table.now.defs _number ≡ Some (input.now ∷ inner.now) }
    ensures { IfOk result (AreHookUnfoldings table.now forest.now root place _number) }
{
    let count = count_roots(forest)?;
    let site = Site {
        root,
        end: None,
        count,
    };
    let port = port_at(alloc, input, &site)?;
    let more = place_autos(alloc, inner, &site)?;
    let boxes = table.face().boxes.as_slice();
    let rules = port.tops.as_slice();
    open_each(alloc, boxes, forest, root, place, &port.auto, &more, rules)
}

/// The port with the leaves outside. Err is want of memory, also where numbers of roots do not fit 32 bits.
fn port_at(alloc: Global, port: &Auto, site: &Site) -> Mem<Port>
    ensures auto { IfOk result
        (λ made. made.auto ≡ placed_auto (outer site.now.root site.now.end site.now.count) port.now) }
    ensures tops { IfOk result
        (λ made. AreTops (placed_auto (outer site.now.root site.now.end site.now.count) port.now) made.tops) }
{
    let placed = place_auto(alloc, port, site)?;
    let rules = tops(alloc, &placed)?;
    Ok(Port {
        auto: placed,
        tops: rules,
    })
}

/// The rules at the tops of the trees of the root that the leaf names, if it names one. Err is want of memory.
fn tops_of(alloc: Global, forest: &Forest, end: Target) -> Mem<List<Rule>>
    requires { (j : ℕ) → end ≡ At j → j < length forest.now.autos }
    ensures { IfOk result (λ made. (j : ℕ) → end ≡ At j → AreTops (component_at forest.now.autos j) made) }
{
    match end {
        Target::At(number) => tops(alloc, component(forest, number)),
        _ => Ok(List::new(alloc)),
    }
}

/// For each of the rules of the input the forests in which the Link is replaced.
fn open_links(
    alloc: Global,
    boxes: &[BoxFace],
    forest: &Forest,
    root: u32,
    place: usize,
    end: Target,
    input: &Auto,
    rules: &[Rule],
    output: &Port,
    ends: &List<Rule>,
    inner: &List<Auto>,
) -> Mem<List<Forest>>
    requires root { root < length forest.now.autos }
    requires top { HasOneTop (component_at forest.now.autos root) }
    requires by { Every (CanUnfoldBy boxes.now forest.now root place end ends.now input.now output.now.auto
        output.now.tops) rules.now }
    ensures { IfOk result (λ made. made ≡ flat_map (λ z. map (with_inner inner.now)
        (with_end boxes.now (open_root boxes.now forest.now root place input.now z) root end ends.now
        output.now.auto output.now.tops)) rules.now) }
{
    let mut made = List::new(alloc);
    for rule in rules {
        let more = open_link(
            alloc, boxes, forest, root, place, end, input, rule, output, ends, inner,
        )?;
        made.append(more)?;
    }
    Ok(made)
}

fn open_link(
    alloc: Global,
    boxes: &[BoxFace],
    forest: &Forest,
    root: u32,
    place: usize,
    end: Target,
    input: &Auto,
    rule: &Rule,
    output: &Port,
    ends: &List<Rule>,
    inner: &List<Auto>,
) -> Mem<List<Forest>>
    requires root { root < length forest.now.autos }
    requires top { HasOneTop (component_at forest.now.autos root) }
    requires by { CanUnfoldBy boxes.now forest.now root place end ends.now input.now output.now.auto output.now.tops
        rule.now }
    ensures { IfOk result (λ made. made ≡ map (with_inner inner.now)
        (with_end boxes.now (open_root boxes.now forest.now root place input.now rule.now) root end ends.now
        output.now.auto output.now.tops)) }
{
    let opened = open_root(alloc, boxes, forest, root, place, input, rule)?;
    let port = &output.auto;
    let rules = output.tops.as_slice();
    let made = with_end(alloc, boxes, &opened, root, end, ends, port, rules)?;
    all_with_inner(alloc, made.as_slice(), inner)
}

/// Each of the forests, with these components behind its own. Err is want of memory.
fn all_with_inner(alloc: Global, forests: &[Forest], inner: &List<Auto>) -> Mem<List<Forest>>
    ensures { IfOk result (λ made. made ≡ map (with_inner inner.now) forests.now) }
{
    let mut made = List::new(alloc);
    for forest in forests {
        let one = forest.copy(alloc)?;
        let whole = with_inner(alloc, one, inner)?;
        made.push(whole)?;
    }
    Ok(made)
}
