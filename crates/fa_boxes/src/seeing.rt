// For each state of a component what is known of its trees, found from the leaves upward, and whether all of them have
// one signature.

ghost use Rattle.std.specs.Prelude.{◌≡◌, ◌↔◌, ◌<◌, length, None, Some, map, replicate, IsTrue, IfOk, MatchBool};
ghost use Rattle.std.specs.Prelude.{MatchOption};
ghost use Rattle.std.specs.Option.{option_copied};
ghost use Rattle.fore_base.specs.Lists.{Every};
ghost use Rattle.ta_core.specs.Language.{IsTrim};
ghost use Rattle.fa_boxes.specs.Signatures.{SignsApart};
ghost use Rattle.fa_sound.specs.Entries.{entry};
ghost use Rattle.fa_boxes.specs.inner.Seeing.{said, below_at, own, marks_at, shows, Adds};
ghost use Rattle.fa_boxes.specs.inner.Seeing.{Learns, IsLearnt, IsSettled, IsUnlike};
ghost use Rattle.fa_boxes.specs.inner.Seeing.{IsUnsettled, IsTable};

use fa_core::cells::{is_leaf, marks_by};
use fa_core::faces::BoxFace;
use fa_core::signature::{Below, RefMark};
use fa_sound::are_same;
use fa_sound::entries::{are_known, entry_at, no_entries};
use fore_base::list::{Copies, List};
use fore_base::memory::Mem;
use std::alloc::Global;
use ta_core::auto::{Auto, Rule};
use ta_core::rounds::{Taker, take_all};

/// What is known of the trees of a state: whether some is a leaf, whether some has a cell at its top, and their
/// signature.
#[derive(Drop)]
pub struct Seen {
    pub leaf: bool,
    pub cell: bool,
    pub marks: List<RefMark>,
}

/// What is known of the trees of each state. None where two trees of a state have different signatures. Err is want of
/// memory.
pub fn seen_each(alloc: Global, boxes: &[BoxFace], auto: &Auto) -> Mem<Option<List<Option<Seen>>>>
    requires { IsTrim auto.now }
    ensures { IfOk result
        (λ found. MatchOption found (SignsApart boxes.now auto.now) (IsTable boxes.now auto.now)) }
{
    auto.known();
    let table = learn(alloc, boxes, auto.states, auto.rules.as_slice())?;
    if !are_settled(alloc, boxes, table.as_slice(), auto.rules.as_slice())? {
        return Ok(None);
    }
    Ok(Some(table))
}

/// What is known of trees of each state, where trees with another signature than the first of their state are left out.
fn learn(alloc: Global, boxes: &[BoxFace], states: u32, rules: &[Rule]) -> Mem<List<Option<Seen>>>
    requires { Every (λ r. r.state < states) rules.now }
    ensures { IfOk result (IsLearnt boxes.now states rules.now) }
{
    let mut table = no_entries(alloc, states)?;
    let learning = Learning {
        alloc,
        boxes,
        states,
        rules,
    };
    take_all(&learning, rules, &mut table)?;
    Ok(table)
}

/// What learns of the trees of each state by the rules.
#[derive(Clone, Copy)]
struct Learning<'a> {
    alloc: Global,
    boxes: &'a [BoxFace],
    states: u32,
    rules: &'a [Rule],
}

impl Taker<List<Option<Seen>>, Rule> for Learning<'_> {
    ghost use Rattle.std.specs.Prelude.{◌≡◌, ◌<◌, length};
    ghost use Rattle.fore_base.specs.Lists.{IsIn};
    ghost use Rattle.fa_boxes.specs.inner.Seeing.{AreSeen, IsTaken, missing};

    ghost accepts = { λ l rule. IsIn rule l.rules.now × (rule.state < l.states) };

    ghost keeps = { λ l table. (length table ≡ l.states) × AreSeen l.boxes.now l.rules.now table };

    ghost is_taken = { λ l table rule. IsTaken l.boxes.now table rule };

    ghost left = { λ l table. missing table };

    fn take(&self, table: &mut List<Option<Seen>>, rule: &Rule) -> Mem<bool> {
        let added = learn_rule(self.alloc, self.boxes, table, rule)?;
        Ok(added)
    }
}

/// Writes what a tree by the rule shows, if all its children are known, and says whether that is new.
fn learn_rule(
    alloc: Global,
    boxes: &[BoxFace],
    table: &mut List<Option<Seen>>,
    rule: &Rule,
) -> Mem<bool>
    requires { rule.now.state < length table.old }
    ensures { IfOk result (λ added. Learns boxes.now rule.now table.old table.new added) }
{
    let leaf = is_leaf(&rule.symbol);
    if shows(table.as_slice(), rule.state, leaf)
        || !are_known(table.as_slice(), rule.children.as_slice())
    {
        return Ok(false);
    }
    let marks = rule_marks(alloc, boxes, false, table.as_slice(), rule)?;
    match with_kind(entry_at(table.as_slice(), rule.state), leaf, marks) {
        None => Ok(false),
        Some(seen) => {
            table.set(rule.state as usize, Some(seen));
            Ok(true)
        }
    }
}

/// What is known with one more tree, a leaf or a cell as `leaf` says. None where its signature is another.
fn with_kind(found: Option<&Seen>, leaf: bool, marks: List<RefMark>) -> Option<Seen>
    ensures { Adds (option_copied found.entry) leaf marks result }
{
    match found {
        None => Some(Seen {
            leaf,
            cell: !leaf,
            marks,
        }),
        Some(seen) => {
            if !are_same(seen.marks.as_slice(), marks.as_slice()) {
                return None;
            }
            Some(Seen {
                leaf: seen.leaf || leaf,
                cell: seen.cell || !leaf,
                marks,
            })
        }
    }
}

/// Whether a leaf, or a cell, as `leaf` says, is known of the state.
fn shows(table: &[Option<Seen>], state: u32, leaf: bool) -> bool
    ensures { result ≡ shows leaf (entry table.now state) }
{
    match entry_at(table, state) {
        Some(seen) => { if leaf { seen.leaf } else { seen.cell } }
        None => false,
    }
}

/// The signature of a tree by the rule, where as many of the children as may be are leaves, or as few, as `most` says.
fn rule_marks(
    alloc: Global,
    boxes: &[BoxFace],
    most: bool,
    table: &[Option<Seen>],
    rule: &Rule,
) -> Mem<List<RefMark>>
    ensures { IfOk result (λ marks. marks ≡ marks_at boxes.now most table.now rule.now) }
{
    let belows = belows_at(alloc, most, table, rule.children.as_slice())?;
    marks_by(alloc, boxes, &rule.symbol, belows.as_slice())
}

fn belows_at(alloc: Global, most: bool, table: &[Option<Seen>], states: &[u32]) -> Mem<List<Below>>
    ensures { IfOk result (λ belows. belows ≡ map (below_at most table.now) states.now) }
{
    let mut belows = List::new(alloc);
    for state in states {
        let below = below_at(alloc, most, entry_at(table, *state))?;
        belows.push(below)?;
    }
    Ok(belows)
}

fn below_at(alloc: Global, most: bool, found: Option<&Seen>) -> Mem<Below>
    ensures { IfOk result (λ below. below ≡ said most (option_copied found.entry)) }
{
    match found {
        Some(seen) => {
            let marks = seen.marks.copy(alloc)?;
            let leaf = if most { seen.leaf } else { !seen.cell };
            Ok(Below { leaf, marks })
        }
        None => Ok(Below {
            leaf: true,
            marks: List::new(alloc),
        }),
    }
}

/// Whether each rule gives trees with the signature that its state has, whichever of their children are leaves.
fn are_settled(
    alloc: Global,
    boxes: &[BoxFace],
    table: &[Option<Seen>],
    rules: &[Rule],
) -> Mem<bool>
    ensures { IfOk result (λ yes. MatchBool yes
        (Every (IsSettled boxes.now table.now) rules.now)
        (IsUnsettled boxes.now table.now rules.now)) }
{
    for rule in rules {
        if !is_settled(alloc, boxes, table, rule)? {
            return Ok(false);
        }
    }
    Ok(true)
}

fn is_settled(alloc: Global, boxes: &[BoxFace], table: &[Option<Seen>], rule: &Rule) -> Mem<bool>
    ensures { IfOk result (λ yes. MatchBool yes
        (IsSettled boxes.now table.now rule.now)
        (IsUnlike boxes.now table.now rule.now)) }
{
    if !are_known(table, rule.children.as_slice()) {
        return Ok(true);
    }
    if !is_as(alloc, boxes, false, table, rule)? {
        return Ok(false);
    }
    is_as(alloc, boxes, true, table, rule)
}

/// Whether the tree by the rule has the signature of its state.
fn is_as(
    alloc: Global,
    boxes: &[BoxFace],
    most: bool,
    table: &[Option<Seen>],
    rule: &Rule,
) -> Mem<bool>
    ensures { IfOk result (λ yes. IsTrue yes
        ↔ (own table.now rule.now.state ≡ marks_at boxes.now most table.now rule.now)) }
{
    let marks = rule_marks(alloc, boxes, most, table, rule)?;
    Ok(are_same(marks_of(table, rule.state), marks.as_slice()))
}

/// The signature of the state's trees, empty where none is known.
pub fn marks_of<'a>(table: &'a [Option<Seen>], state: u32) -> &'a [RefMark]
    ensures { result.now ≡ own table.entry.now state }
{
    match entry_at(table, state) {
        Some(seen) => seen.marks.as_slice(),
        None => &[],
    }
}
