// Whether each field of each cell of an automaton's trees is given exactly once, from its rules.

ghost use Rattle.std.specs.Prelude.{◌↔◌, ℕ, IsTrue, IfOk};
ghost use Rattle.fore_base.specs.Lists.{IsIn, Every};
ghost use Rattle.ta_core.specs.Language.{IsTrim};
ghost use Rattle.fa_filling.specs.Ruled.{IsShapedCell, IsShapedRule, IsFilledPart};

use crate::covering::is_in_order;
use crate::ends::{are_ends_right, are_hooks_right};
use crate::giving::{are_edges_once, are_roots_once};
use fa_core::cells::edges;
use fa_core::faces::Face;
use fore_base::list::List;
use fore_base::memory::Mem;
use std::alloc::Global;
use ta_core::auto::{Auto, Rule};
use ta_core::symbol::{Slot, Symbol};

/// Whether the cells of all trees of the automaton are filled, whichever of these structs stand at the tops of the
/// roots, where the fields `above` are given to the cell at its root. Err is want of memory.
pub fn is_filled_part(
    alloc: Global,
    face: &Face,
    topss: &[List<u32>],
    above: &[u32],
    auto: &Auto,
) -> Mem<bool>
    requires trim { IsTrim auto.now }
    requires full { Every (λ ts. (t : ℕ) × IsIn t ts) topss.now }
    ensures { IfOk result (λ yes. IsTrue yes ↔ IsFilledPart face.now topss.now auto.now above.now) }
{
    let rules = auto.rules.as_slice();
    if !are_shaped_rules(alloc, face, topss, rules)? {
        return Ok(false);
    }
    if !are_roots_once(alloc, face, above, auto.roots.as_slice(), rules)? {
        return Ok(false);
    }
    are_edges_once(alloc, face, rules)
}

/// Whether the ends and the order of each rule's cell are right.
pub fn are_shaped_rules(
    alloc: Global,
    face: &Face,
    topss: &[List<u32>],
    rules: &[Rule],
) -> Mem<bool>
    ensures { IfOk result (λ yes. IsTrue yes ↔ Every (IsShapedRule face.now topss.now rules.now) rules.now) }
{
    for rule in rules {
        if !is_shaped_rule(alloc, face, topss, rules, rule)? {
            return Ok(false);
        }
    }
    Ok(true)
}

fn is_shaped_rule(
    alloc: Global,
    face: &Face,
    topss: &[List<u32>],
    rules: &[Rule],
    rule: &Rule,
) -> Mem<bool>
    ensures { IfOk result (λ yes. IsTrue yes ↔ IsShapedRule face.now topss.now rules.now rule.now) }
{
    match &rule.symbol {
        Symbol::Cell { shape, slots, .. } => {
            is_shaped_cell(
                alloc,
                face,
                topss,
                rules,
                *shape,
                slots.as_slice(),
                rule.children.as_slice(),
            )
        }
        _ => Ok(true),
    }
}

/// Whether the ends and the order of the cell of this struct, with these slots and children, are right.
fn is_shaped_cell(
    alloc: Global,
    face: &Face,
    topss: &[List<u32>],
    rules: &[Rule],
    shape: u32,
    slots: &[Slot],
    children: &[u32],
) -> Mem<bool>
    ensures { IfOk result (λ yes. IsTrue yes
        ↔ IsShapedCell face.now topss.now rules.now shape slots.now children.now) }
{
    let edges = edges(alloc, slots, children)?;
    if !are_ends_right(face, topss, rules, shape, edges.as_slice()) {
        return Ok(false);
    }
    if !are_hooks_right(face, shape, slots) {
        return Ok(false);
    }
    is_in_order(alloc, face.boxes.as_slice(), slots)
}
