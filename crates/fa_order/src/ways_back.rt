// Where the walk goes on along a way back, by the signatures of the components.

ghost use Rattle.std.specs.Prelude.{◌≡◌, ◌<◌, ◌↔◌, ◌^◌, ◌++◌, ◌∷◌, [], ℕ, List, length, Some, IsTrue};
ghost use Rattle.std.specs.Prelude.{MatchBool, MatchOption};
ghost use Rattle.fore_base.specs.Lists.{IsIn, Every};
ghost use Rattle.fa_core.specs.References.{AllBelow};
ghost use Rattle.fa_order.specs.Placing.{GivesLeast, IsFirstLed, IsLedOn, IsLowestOpen, IsOpenAt, NoneOpen};
ghost use Rattle.fa_order.specs.inner.Backs.{AreLedWithin, GivesBy, IsAtEnd, LeadsBy, MarkLeads, SignGives, SignLeads};
ghost use Rattle.fa_order.specs.inner.Backs.{IsBetter, IsLeastIn, IsLedNext, IsLesser, SignOpen, fields_to};
ghost use Rattle.fa_order.specs.inner.Stacks.{nth_refs};

use fa_core::cells::has;
use fa_core::signature::{RefMark, Signature};
use fore_base::list::List;

/// The root at which the walk goes on, where these are placed and nothing is left to visit. None where it has ended.
pub fn next_led(signatures: &[Signature], refers: &List<List<u32>>, placed: &[u32]) -> Option<u32>
    requires long { length signatures.now ≡ length refers.now }
    requires few { length signatures.now < 2 ^ 32 }
    requires refers { Every (AllBelow (length refers.now)) refers.now }
    requires within { AreLedWithin signatures.now refers.now }
    ensures { MatchOption result (IsAtEnd signatures.now placed.now)
        (IsLedNext signatures.now refers.now placed.now) }
{
    match lowest_open(signatures, placed) {
        Some(from) => led_from(signatures, refers, placed, from),
        None => None,
    }
}

/// The root at which the walk goes on from the lowest that has an open way back. None where no field is given to it.
fn led_from(
    signatures: &[Signature],
    refers: &List<List<u32>>,
    placed: &[u32],
    from: u32,
) -> Option<u32>
    requires long { length signatures.now ≡ length refers.now }
    requires few { length signatures.now < 2 ^ 32 }
    requires refers { Every (AllBelow (length refers.now)) refers.now }
    requires within { AreLedWithin signatures.now refers.now }
    requires lowest { IsLowestOpen (LeadsBy signatures.now) placed.now from }
    ensures { MatchOption result (IsAtEnd signatures.now placed.now)
        (IsLedNext signatures.now refers.now placed.now) }
{
    match least_giving(signatures, placed, from) {
        Some(into) => Some(led_into(signatures, refers, placed, from, into)),
        None => None,
    }
}

/// The root to which the way back from the one root into the tree of the other goes on.
fn led_into(
    signatures: &[Signature],
    refers: &List<List<u32>>,
    placed: &[u32],
    from: u32,
    into: u32,
) -> u32
    requires long { length signatures.now ≡ length refers.now }
    requires refers { Every (AllBelow (length refers.now)) refers.now }
    requires within { AreLedWithin signatures.now refers.now }
    requires open { IsOpenAt (LeadsBy signatures.now) placed.now from into }
    ensures fresh { IsIn result placed.now → ⊥ }
    ensures low { result < length refers.now }
    ensures led { IsLedOn (nth_refs refers.now) (LeadsBy signatures.now) placed.now from into result }
{
    let marks = signatures[into as usize].refs.as_slice();
    if !is_in(into, placed) && does_lead(marks, from, into, into) {
        return into;
    }
    match first_led(
        marks,
        refers.at(into as usize).as_slice(),
        placed,
        from,
        into,
    ) {
        Some(root) => root,
        None => unreachable!(),
    }
}

/// The first of these roots that is not placed and to which the way back leads.
fn first_led(marks: &[RefMark], roots: &[u32], placed: &[u32], from: u32, into: u32) -> Option<u32>
    ensures { MatchOption result
        ((r : ℕ) → IsIn r roots.now → (IsIn r placed.now → ⊥) → SignLeads marks.now from into r → ⊥)
        (λ root. (IsIn root placed.now → ⊥)
        × IsFirstLed (λ x. SignLeads marks.now from into x) placed.now root roots.now) }
{
    for root in roots {
        if !is_in(*root, placed) && does_lead(marks, from, into, *root) {
            return Some(*root);
        }
    }
    None
}

/// Whether, by these marks, a way back from the one root into the tree of the other leads to the third.
fn does_lead(marks: &[RefMark], from: u32, into: u32, root: u32) -> bool
    ensures { IsTrue result ↔ SignLeads marks.now from into root }
{
    for mark in marks {
        if mark.root == from && does_mark_lead(mark, into, root) {
            return true;
        }
    }
    false
}

fn is_in(root: u32, roots: &[u32]) -> bool
    ensures { IsTrue result ↔ IsIn root roots.now }
{
    has(root, roots)
}

fn does_mark_lead(mark: &RefMark, into: u32, root: u32) -> bool
    ensures { IsTrue result ↔ MarkLeads into root mark.now }
{
    if root == into && mark.back {
        return true;
    }
    is_in(root, mark.reach.as_slice())
}

/// The first placed root from which a way back leads to a root that is not placed.
fn lowest_open(signatures: &[Signature], placed: &[u32]) -> Option<u32>
    requires few { length signatures.now < 2 ^ 32 }
    ensures { MatchOption result (NoneOpen (LeadsBy signatures.now) placed.now)
        (IsLowestOpen (LeadsBy signatures.now) placed.now) }
{
    for root in placed {
        if is_open_from(signatures, placed, *root) {
            return Some(*root);
        }
    }
    None
}

/// Whether from the root a way back into some tree leads to a root that is not placed.
fn is_open_from(signatures: &[Signature], placed: &[u32], from: u32) -> bool
    requires few { length signatures.now < 2 ^ 32 }
    ensures { IsTrue result ↔ ((j : ℕ) × IsOpenAt (LeadsBy signatures.now) placed.now from j) }
{
    for (place, signature) in signatures.iter().enumerate() {
        if is_open(signature.refs.as_slice(), placed, from, place as u32) {
            return true;
        }
    }
    false
}

/// Whether, by these marks, a way back from the one root into the tree of the other leads to a root that is not placed.
fn is_open(marks: &[RefMark], placed: &[u32], from: u32, into: u32) -> bool
    ensures { IsTrue result ↔ SignOpen marks.now placed.now from into }
{
    for mark in marks {
        if mark.root == from && is_open_mark(mark, placed, into) {
            return true;
        }
    }
    false
}

fn is_open_mark(mark: &RefMark, placed: &[u32], into: u32) -> bool
    ensures { IsTrue result ↔ ((r : ℕ) × (IsIn r placed.now → ⊥) × MarkLeads into r mark.now) }
{
    if mark.back && !is_in(into, placed) {
        return true;
    }
    !are_placed(mark.reach.as_slice(), placed)
}

fn are_placed(roots: &[u32], placed: &[u32]) -> bool
    ensures { MatchBool result ((r : ℕ) → IsIn r roots.now → IsIn r placed.now)
        ((r : ℕ) × IsIn r roots.now × (IsIn r placed.now → ⊥)) }
{
    for root in roots {
        if !is_in(*root, placed) {
            return false;
        }
    }
    true
}

/// A tree, and the least field that it gives to a root.
#[derive(Clone, Copy, Drop)]
pub struct Giver {
    pub into: u32,
    pub field: u32,
}

/// The tree that gives the root its least field, of those into which a way back from it is open.
fn least_giving(signatures: &[Signature], placed: &[u32], from: u32) -> Option<u32>
    requires few { length signatures.now < 2 ^ 32 }
    ensures { MatchOption result
        ((j f : ℕ) → IsOpenAt (LeadsBy signatures.now) placed.now from j → GivesBy signatures.now from j f → ⊥)
        (GivesLeast (LeadsBy signatures.now) (GivesBy signatures.now) placed.now from) }
{
    let mut best: Option<Giver> = None;
    for (place, signature) in signatures.iter().enumerate() {
        best = better(best, signature.refs.as_slice(), placed, from, place as u32);
    }
    match best {
        Some(giver) => Some(giver.into),
        None => None,
    }
}

/// The giver, or the tree with these marks, where a way back into it is open and it gives a lesser field.
fn better(
    best: Option<Giver>,
    marks: &[RefMark],
    placed: &[u32],
    from: u32,
    into: u32,
) -> Option<Giver>
    ensures { IsBetter marks.now placed.now from into best result }
{
    if !is_open(marks, placed, from, into) {
        return best;
    }
    match least_field(marks, from) {
        Some(field) => Some(lesser(best, Giver { into, field })),
        None => best,
    }
}

fn lesser(best: Option<Giver>, other: Giver) -> Giver
    ensures { IsLesser best other result }
{
    match best {
        Some(giver) => {
            if giver.field <= other.field {
                giver
            } else {
                other
            }
        }
        None => other,
    }
}

/// The least field that, by these marks, is given to the root.
fn least_field(marks: &[RefMark], root: u32) -> Option<u32>
    ensures { IsLeastIn (fields_to root marks.now) result }
{
    let mut least: Option<u32> = None;
    for mark in marks {
        if mark.root == root {
            least = least_with(least, mark.provided.as_slice());
        }
    }
    least
}

/// The least of the number and these fields.
fn least_with(least: Option<u32>, fields: &[u32]) -> Option<u32>
    ensures { (xs : List ℕ) → IsLeastIn xs least → IsLeastIn (xs ++ fields.now) result }
{
    let mut least = least;
    for field in fields {
        least = Some(lesser_number(least, *field));
    }
    least
}

fn lesser_number(least: Option<u32>, other: u32) -> u32
    ensures { (xs : List ℕ) → IsLeastIn xs least → IsLeastIn (xs ++ other ∷ []) (Some result) }
{
    match least {
        Some(number) => { if number <= other { number } else { other } }
        None => other,
    }
}
