// How often the trees of each state give a field at a root: the greatest number, counted up to 2, and whether one never
// does. What a state provides doubles with each state below it, so no list of it is made.

ghost use Rattle.std.specs.Prelude.{◌≡◌, ◌<◌, ◌+◌, ℕ, false, length, IfOk};
ghost use Rattle.ta_core.specs.Language.{HasTree};
ghost use Rattle.fa_core.specs.Rearranged.{often};
ghost use Rattle.fa_core.specs.Ways.{given_by};
ghost use Rattle.fa_giving.specs.inner.Worths.{weight, capped, greater, nothing, leaf_worth, worth_at, most_below};
ghost use Rattle.fa_giving.specs.inner.Worths.{none_below, with_edge, with_edges, rule_worth, joined, adds};
ghost use Rattle.fa_giving.specs.inner.Worths.{AreWorths, Takes};
ghost use Rattle.fa_core.specs.Cells.{edges};

use fa_core::faces::BoxFace;
use fa_filling::giving::{given_by, often};
use fore_base::list::List;
use fore_base::memory::Mem;
use std::alloc::Global;
use ta_core::auto::{Auto, Rule};
use ta_core::rounds::{Taker, take_all};
use ta_core::symbol::{Slot, Symbol};

/// What trees give at the root: whether one is the reference to it, how often one gives the field there at most,
/// counted up to 2, and whether one that is not the reference never does.
#[derive(Clone, Copy)]
pub struct Worth {
    pub leaf: bool,
    pub most: u32,
    pub none: bool,
}

/// For each state of a trimmed automaton what its trees give at the root. Err is want of memory.
pub fn worths(
    alloc: Global,
    boxes: &[BoxFace],
    auto: &Auto,
    root: u32,
    field: u32,
) -> Mem<List<Worth>>
    requires { (q : ℕ) → q < auto.now.states → HasTree auto.now.rules q }
    ensures { IfOk result (AreWorths boxes.now root field auto.now) }
{
    auto.known();
    let mut table = List::filled(alloc, nothing(), auto.states as usize)?;
    let weighing = Weighing {
        boxes,
        auto,
        root,
        field,
    };
    take_all(&weighing, auto.rules.as_slice(), &mut table)?;
    Ok(table)
}

/// What finds the worth of states by the rules.
#[derive(Clone, Copy)]
struct Weighing<'a> {
    boxes: &'a [BoxFace],
    auto: &'a Auto,
    root: u32,
    field: u32,
}

impl Taker<List<Worth>, Rule> for Weighing<'_> {
    ghost use Rattle.std.specs.Prelude.{◌≡◌, ◌<◌, ℕ, length};
    ghost use Rattle.fore_base.specs.Lists.{IsIn};
    ghost use Rattle.ta_core.specs.Language.{HasTree};
    ghost use Rattle.ta_core.specs.Auto.{IsRankedRule};
    ghost use Rattle.fa_giving.specs.inner.Worths.{AreReal, IsSettled, rooms};

    ghost accepts = { λ w rule. IsIn rule w.auto.now.rules × IsRankedRule w.auto.now.states rule };

    ghost keeps = { λ w table. ((q : ℕ) → q < w.auto.now.states → HasTree w.auto.now.rules q)
        × (length table ≡ w.auto.now.states) × AreReal w.boxes.now w.root w.field w.auto.now.rules table };

    ghost is_taken = { λ w table rule. IsSettled w.boxes.now w.root w.field table rule };

    ghost left = { λ w table. rooms table };

    fn take(&self, table: &mut List<Worth>, rule: &Rule) -> Mem<bool> {
        Ok(take(table, self.boxes, rule, self.root, self.field))
    }
}

/// Adds what the rule says of its state, if it is new, and says whether it is.
fn take(table: &mut List<Worth>, boxes: &[BoxFace], rule: &Rule, root: u32, field: u32) -> bool
    requires { rule.now.state < length table.old }
    ensures { Takes boxes.now root field rule.now table.old table.new result }
{
    let old = worth_at(table.as_slice(), rule.state);
    let shown = rule_worth(boxes, table.as_slice(), rule, root, field);
    if !adds(old, shown) {
        return false;
    }
    table.set(rule.state as usize, joined(old, shown));
    true
}

/// What the rule's trees give, by what the table says of its children.
pub fn rule_worth(boxes: &[BoxFace], table: &[Worth], rule: &Rule, root: u32, field: u32) -> Worth
    ensures { result ≡ rule_worth boxes.now root field table.now rule.now }
{
    match &rule.symbol {
        Symbol::Ref(number) => leaf_worth(root == *number),
        Symbol::Cell { slots, .. } => {
            cell_worth(
                boxes,
                table,
                slots.as_slice(),
                rule.children.as_slice(),
                field,
            )
        }
        _ => leaf_worth(false),
    }
}

fn cell_worth(
    boxes: &[BoxFace],
    table: &[Worth],
    slots: &[Slot],
    children: &[u32],
    field: u32,
) -> Worth
    ensures { result ≡ with_edges boxes.now field table.now (leaf_worth false) (edges slots.now children.now) }
{
    let mut worth = leaf_worth(false);
    let mut place: usize = 0;
    for slot in slots {
        match slot {
            Slot::Hook(_) => {}
            Slot::Field(_) | Slot::Link(_) => {
                if place >= children.len() {
                    return worth;
                }
                worth = with_edge(boxes, table, worth, *slot, children[place], field);
                place += 1;
            }
        }
    }
    worth
}

fn with_edge(
    boxes: &[BoxFace],
    table: &[Worth],
    worth: Worth,
    slot: Slot,
    child: u32,
    field: u32,
) -> Worth
    ensures { result ≡ with_edge boxes.now field table.now worth (slot, child) }
{
    let weight = often(field, given_by(boxes, slot));
    let below = worth_at(table, child);
    Worth {
        leaf: false,
        most: sum(worth.most, most_below(weight, below)),
        none: worth.none && none_below(weight, below),
    }
}

pub fn worth_at(table: &[Worth], state: u32) -> Worth
    ensures { result ≡ worth_at table.now state }
{
    match table.get(state as usize) {
        Some(worth) => *worth,
        None => nothing(),
    }
}

pub fn nothing() -> Worth
    ensures { result ≡ nothing }
{
    Worth {
        leaf: false,
        most: 0,
        none: false,
    }
}

fn leaf_worth(refers: bool) -> Worth
    ensures { result ≡ leaf_worth refers }
{
    Worth {
        leaf: refers,
        most: 0,
        none: !refers,
    }
}

/// The sum, counted up to 2.
pub fn sum(left: u32, right: u32) -> u32
    ensures { result ≡ capped (left + right) }
{
    match left.checked_add(right) {
        Some(sum) => if sum > 2 { 2 } else { sum },
        None => 2,
    }
}

fn capped(number: usize) -> u32
    ensures { result ≡ capped number }
{
    if number > 2 { 2 } else { number as u32 }
}

fn greater(left: u32, right: u32) -> u32
    ensures { result ≡ greater left right }
{
    if left < right { right } else { left }
}

/// The greatest number below an edge that gives the field so often.
pub fn most_below(weight: usize, worth: Worth) -> u32
    ensures { result ≡ most_below weight worth }
{
    if worth.leaf {
        greater(capped(weight), worth.most)
    } else {
        worth.most
    }
}

pub fn none_below(weight: usize, worth: Worth) -> bool
    ensures { result ≡ none_below weight worth }
{
    worth.none || (worth.leaf && weight == 0)
}

pub fn joined(left: Worth, right: Worth) -> Worth
    ensures { result ≡ joined left right }
{
    Worth {
        leaf: left.leaf || right.leaf,
        most: greater(left.most, right.most),
        none: left.none || right.none,
    }
}

/// Whether the second says something that the first does not.
fn adds(old: Worth, new: Worth) -> bool
    ensures { result ≡ adds old new }
{
    (new.leaf && !old.leaf) || (old.most < new.most || (new.none && !old.none))
}
