// What stands at the tops of the trees of a component, from the rules of its root states.

ghost use Rattle.std.specs.Prelude.{◌≡◌, ◌↔◌, true, false, IsTrue, IfOk, flat_map, MatchBool};
ghost use Rattle.fore_base.specs.Lists.{IsIn, Every};
ghost use Rattle.ta_core.specs.Language.{IsTrim};
ghost use Rattle.fa_core.specs.Boxes.{CoverAlike, CoverSome};
ghost use Rattle.fa_core.specs.Filled.{covers};
ghost use Rattle.fa_core.specs.Folding.{symbol_slots};
ghost use Rattle.fa_boxes.specs.Tops.{HasNoLeaf, AreTopped, CoverApart};
ghost use Rattle.fa_boxes.specs.inner.TopRules.{AtTop, AtTops, IsCell, IsCellOf, CoversField, AllAlike, EachAlike};
ghost use Rattle.fa_boxes.specs.inner.TopRules.{IsLike, Differ, AreAmong, IsOneOut};

use fa_core::cells::is_leaf;
use fa_core::faces::BoxFace;
use fa_filling::{covered, has_field, is_one_of};
use fore_base::list::List;
use fore_base::memory::Mem;
use std::alloc::Global;
use ta_core::auto::{Auto, Rule};
use ta_core::symbol::Symbol;

/// Whether each tree of the component has a cell at its top.
pub fn are_cells(auto: &Auto) -> bool
    requires { IsTrim auto.now }
    ensures { IsTrue result ↔ HasNoLeaf auto.now }
{
    auto.known();
    each_is_cell(auto.roots.as_slice(), auto.rules.as_slice())
}

/// Whether each tree of the component has a cell of this struct at its top.
pub fn are_cells_of(auto: &Auto, shape: u32) -> bool
    requires { IsTrim auto.now }
    ensures { IsTrue result ↔ AreTopped shape auto.now }
{
    auto.known();
    each_is_cell_of(auto.roots.as_slice(), auto.rules.as_slice(), shape)
}

/// Whether each tree of the component covers some field by the slots at its top.
///
/// # Errors
///
/// Want of memory.
pub fn cover_some(alloc: Global, boxes: &[BoxFace], auto: &Auto) -> Mem<bool>
    requires { IsTrim auto.now }
    ensures { IfOk result (λ yes. IsTrue yes ↔ CoverSome boxes.now auto.now) }
{
    auto.known();
    each_covers(alloc, boxes, auto.roots.as_slice(), auto.rules.as_slice())
}

/// Whether all trees of the component cover the same fields by the slots at their tops. Where it says no, there are two
/// trees and a field that one covers and the other does not.
///
/// # Errors
///
/// Want of memory.
pub fn cover_alike(alloc: Global, boxes: &[BoxFace], auto: &Auto) -> Mem<bool>
    requires { IsTrim auto.now }
    ensures yes { IfOk result (λ yes. yes ≡ true → CoverAlike boxes.now auto.now) }
    ensures no { IfOk result (λ yes. yes ≡ false → CoverApart boxes.now auto.now) }
{
    auto.known();
    all_cover_alike(alloc, boxes, auto.roots.as_slice(), auto.rules.as_slice())
}

/// Whether all rules of root states cover the same fields. Each is compared with the first.
fn all_cover_alike(alloc: Global, boxes: &[BoxFace], roots: &[u32], rules: &[Rule]) -> Mem<bool>
    ensures { IfOk result (λ yes. AllAlike boxes.now roots.now rules.now yes) }
{
    for rule in rules {
        if is_one_of(rule.state, roots) {
            return each_covers_like(alloc, boxes, &rule.symbol, roots, rules);
        }
    }
    Ok(true)
}

/// Whether each rule of a root state covers the fields that the symbol covers.
fn each_covers_like(
    alloc: Global,
    boxes: &[BoxFace],
    symbol: &Symbol,
    roots: &[u32],
    rules: &[Rule],
) -> Mem<bool>
    ensures { IfOk result (λ yes. EachAlike boxes.now symbol.now roots.now rules.now yes) }
{
    for rule in rules {
        if !covers_like_at_top(alloc, boxes, symbol, roots, rule)? {
            return Ok(false);
        }
    }
    Ok(true)
}

fn covers_like_at_top(
    alloc: Global,
    boxes: &[BoxFace],
    symbol: &Symbol,
    roots: &[u32],
    rule: &Rule,
) -> Mem<bool>
    ensures { IfOk result (λ yes. MatchBool yes
        (AtTop (IsLike boxes.now symbol.now) roots.now rule.now)
        (IsIn rule.now.state roots.now × Differ boxes.now symbol.now rule.now.symbol)) }
{
    if !is_one_of(rule.state, roots) {
        return Ok(true);
    }
    covers_like(alloc, boxes, symbol, &rule.symbol)
}

/// Whether both symbols cover the same fields.
fn covers_like(alloc: Global, boxes: &[BoxFace], left: &Symbol, right: &Symbol) -> Mem<bool>
    ensures { IfOk result (λ yes. MatchBool yes
        (IsLike boxes.now left.now right.now)
        (Differ boxes.now left.now right.now)) }
{
    let own = covered_by(alloc, boxes, left)?;
    let other = covered_by(alloc, boxes, right)?;
    Ok(are_among(own.as_slice(), other.as_slice()) && are_among(other.as_slice(), own.as_slice()))
}

/// Whether each of the numbers is one of the others.
fn are_among(numbers: &[u32], others: &[u32]) -> bool
    ensures { MatchBool result (AreAmong numbers.now others.now) (IsOneOut numbers.now others.now) }
{
    for number in numbers {
        if !is_one_of(*number, others) {
            return false;
        }
    }
    true
}

fn each_is_cell(roots: &[u32], rules: &[Rule]) -> bool
    ensures { IsTrue result ↔ AtTops IsCell roots.now rules.now }
{
    for rule in rules {
        if !is_cell_at_top(roots, rule) {
            return false;
        }
    }
    true
}

fn is_cell_at_top(roots: &[u32], rule: &Rule) -> bool
    ensures { IsTrue result ↔ AtTop IsCell roots.now rule.now }
{
    !is_one_of(rule.state, roots) || !is_leaf(&rule.symbol)
}

fn each_is_cell_of(roots: &[u32], rules: &[Rule], shape: u32) -> bool
    ensures { IsTrue result ↔ AtTops (IsCellOf shape) roots.now rules.now }
{
    for rule in rules {
        if !is_cell_of_at_top(roots, rule, shape) {
            return false;
        }
    }
    true
}

fn is_cell_of_at_top(roots: &[u32], rule: &Rule, shape: u32) -> bool
    ensures { IsTrue result ↔ AtTop (IsCellOf shape) roots.now rule.now }
{
    !is_one_of(rule.state, roots) || is_cell_of(&rule.symbol, shape)
}

fn is_cell_of(symbol: &Symbol, wanted: u32) -> bool
    ensures { IsTrue result ↔ IsCellOf wanted symbol.now }
{
    match symbol {
        Symbol::Cell { shape, .. } => *shape == wanted,
        _ => false,
    }
}

fn each_covers(alloc: Global, boxes: &[BoxFace], roots: &[u32], rules: &[Rule]) -> Mem<bool>
    ensures { IfOk result (λ yes. IsTrue yes ↔ AtTops (CoversField boxes.now) roots.now rules.now) }
{
    for rule in rules {
        if !covers_at_top(alloc, boxes, roots, rule)? {
            return Ok(false);
        }
    }
    Ok(true)
}

fn covers_at_top(alloc: Global, boxes: &[BoxFace], roots: &[u32], rule: &Rule) -> Mem<bool>
    ensures { IfOk result (λ yes. IsTrue yes ↔ AtTop (CoversField boxes.now) roots.now rule.now) }
{
    if !is_one_of(rule.state, roots) {
        return Ok(true);
    }
    covers_field(alloc, boxes, &rule.symbol)
}

fn covers_field(alloc: Global, boxes: &[BoxFace], symbol: &Symbol) -> Mem<bool>
    ensures { IfOk result (λ yes. IsTrue yes ↔ CoversField boxes.now symbol.now) }
{
    let fields = covered_by(alloc, boxes, symbol)?;
    Ok(has_field(fields.as_slice()))
}

/// The fields that the slots of the symbol cover.
pub fn covered_by(alloc: Global, boxes: &[BoxFace], symbol: &Symbol) -> Mem<List<u32>>
    ensures { IfOk result (λ fields. fields ≡ flat_map (covers boxes.now) (symbol_slots symbol.now)) }
{
    match symbol {
        Symbol::Cell { slots, .. } => covered(alloc, boxes, slots.as_slice()),
        _ => Ok(List::new(alloc)),
    }
}
