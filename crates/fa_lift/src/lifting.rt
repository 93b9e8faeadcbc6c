// The cell with an edge that gives a field to a root, lifted out of its component.

ghost use Rattle.std.specs.Prelude.{◌≡◌, ◌↔◌, ◌<◌, ℕ, List, length, IsTrue, IfOk};
ghost use Rattle.fore_base.specs.Lists.{IsIn, Every};
ghost use Rattle.ta_core.specs.Auto.{Automaton};
ghost use Rattle.ta_core.specs.Language.{InLanguage};
ghost use Rattle.ta_core.specs.declared.auto.Rule.{Rule};
ghost use Rattle.ta_core.specs.declared.tree.Tree.{Tree};
ghost use Rattle.fa_core.specs.Cells.{edges};
ghost use Rattle.fa_core.specs.declared.boxes.BoxDef.{BoxDef};
ghost use Rattle.fa_core.specs.Filled.{HasSome, IsSound};
ghost use Rattle.fa_core.specs.Folding.{symbol_slots};
ghost use Rattle.fa_core.specs.Member.{Regroups, RegroupsInto};
ghost use Rattle.fa_sound.specs.Components.{component_at};
ghost use Rattle.fa_sound.specs.Unions.{forests, IsUnionOf};
ghost use Rattle.fa_signatures.specs.CutPieces.{IsPiece};
ghost use Rattle.fa_split.specs.Divided.{HasVarsOf};
ghost use Rattle.fa_lift.specs.Lift.{IsLiftOf, IsProvider, Owns, hatted, lift_in, lift_top, owner, with_two};
ghost use Rattle.fa_lift.specs.inner.Lifting.{Among, HasLifts, IsLift};

use crate::lifting_automata::{hatted, owner};
use crate::lifting_owners::{may_refer, provider, slot_gives};
use fa_core::cells::{edges, has};
use fa_core::forest::Forest;
use fa_signatures::cut_auto;
use fa_sound::{Sound, component, count_roots, replace};
use fa_split::{roots_of, rules_of, slots_of};
use fore_base::list::{Copies, List};
use fore_base::memory::Mem;
use std::alloc::Global;
use ta_core::auto::{Auto, Rule};
use ta_core::inhabited::is_empty;
use ta_core::symbol::Slot;

/// Whether a box edge gives the field to the root. Err is want of memory.
pub fn can_lift(forest: &Sound, root: u32, field: u32) -> Mem<bool>
    ensures { IfOk result (λ yes. IsTrue yes
        ↔ ((t : ℕ) × IsProvider forest.now.face.boxes forest.now.forest root field t)) }
{
    match provider(forest, root, field)? {
        Some(_from) => Ok(true),
        None => Ok(false),
    }
}

/// The forests in which the cell of the edge that gives the field to the root is a root with one rule: for each rule
/// and place that may own the edge one in which it stands at the top of its component, and those in which it is a new
/// last root, one for each signature of what is left. The root keeps its number. Err is want of memory.
pub fn lift_parent(alloc: Global, forest: &Sound, root: u32, field: u32) -> Mem<List<Sound>>
    requires { (t : ℕ) × IsProvider forest.now.face.boxes forest.now.forest root field t }
    ensures lifted { IfOk result (λ made. (t : ℕ) × IsProvider forest.now.face.boxes forest.now.forest root field t
        × Every (IsLiftOf forest.now.face.boxes forest.now.forest root field t) (forests made)) }
    ensures face { IfOk result (λ made. Every (λ s. s.face ≡ forest.now.face) made) }
    ensures vars { IfOk result (λ made. Every (HasVarsOf forest.now.forest) (forests made)) }
    ensures regroups { IfOk result (λ made. (T : List BoxDef) → Every (Regroups T forest.now.forest) (forests made)) }
    ensures whole { IfOk result (λ made. (T : List BoxDef) → RegroupsInto T forest.now.forest (forests made)) }
    ensures members { IfOk result (λ made. IsUnionOf forest.now.forest (forests made)) }
{
    forest.known();
    let from = provider_of(forest, root, field)?;
    let made = lift_from(alloc, forest, root, field, from)?;
    Ok(made)
}

/// The first component of which an edge gives the field to the root, which there is.
fn provider_of(forest: &Sound, root: u32, field: u32) -> Mem<u32>
    requires { (t : ℕ) × IsProvider forest.now.face.boxes forest.now.forest root field t }
    ensures { IfOk result (λ t. IsProvider forest.now.face.boxes forest.now.forest root field t) }
{
    match provider(forest, root, field)? {
        Some(from) => Ok(from),
        None => unreachable!(),
    }
}

/// So out of this component.
fn lift_from(alloc: Global, forest: &Sound, root: u32, field: u32, from: u32) -> Mem<List<Sound>>
    requires { from < length forest.now.forest.autos }
    ensures each { IfOk result (Every (IsLift forest.now.face forest.now.forest root field from)) }
    ensures all { IfOk result (λ made. (x : Rule) (p : ℕ)
        → Owns forest.now.face.boxes root field (component_at forest.now.forest.autos from) x p
        → HasLifts forest.now.forest root from x p made) }
{
    let auto = component(forest.forest(), from);
    let rules = rules_of(auto);
    let mut made = List::new(alloc);
    for rule in rules {
        let more = lift_rule(alloc, forest, root, field, from, rule)?;
        made.append(more)?;
    }
    Ok(made)
}

/// So by this rule.
fn lift_rule(
    alloc: Global,
    forest: &Sound,
    root: u32,
    field: u32,
    from: u32,
    rule: &Rule,
) -> Mem<List<Sound>>
    requires from { from < length forest.now.forest.autos }
    requires rule { IsIn rule.now (component_at forest.now.forest.autos from).rules }
    ensures each { IfOk result (Every (IsLift forest.now.face forest.now.forest root field from)) }
    ensures all { IfOk result (λ made. (p : ℕ)
        → Owns forest.now.face.boxes root field (component_at forest.now.forest.autos from) rule.now p
        → HasLifts forest.now.forest root from rule.now p made) }
{
    forest.known();
    let edges = edges_of(alloc, rule)?;
    let auto = component(forest.forest(), from);
    let boxes = forest.face().boxes.as_slice();
    let mut made = List::new(alloc);
    for place in 0..edges.len() {
        let edge = edges.at(place);
        if slot_gives(boxes, field, edge.0) && may_refer(rules_of(auto), root, edge.1) {
            let more = lift_at(alloc, forest, root, field, from, rule, place)?;
            made.append(more)?;
        }
    }
    Ok(made)
}

/// The slots of the rule that have a child, each with the state of the child.
fn edges_of(alloc: Global, rule: &Rule) -> Mem<List<(Slot, u32)>>
    ensures { IfOk result (λ made. made ≡ edges (symbol_slots rule.now.symbol) rule.now.children) }
{
    edges(alloc, slots_of(&rule.symbol), rule.children.as_slice())
}

/// So where the rule owns the edge at the place.
fn lift_at(
    alloc: Global,
    forest: &Sound,
    root: u32,
    _field: u32,
    from: u32,
    rule: &Rule,
    place: usize,
) -> Mem<List<Sound>>
    requires from { from < length forest.now.forest.autos }
    requires owns { Owns forest.now.face.boxes root _field (component_at forest.now.forest.autos from) rule.now place }
    ensures each { IfOk result (Every (IsLift forest.now.face forest.now.forest root _field from)) }
    ensures all { IfOk result (HasLifts forest.now.forest root from rule.now place) }
{
    let own = owner(alloc, component(forest.forest(), from), rule, place, root)?;
    if is_empty(alloc, &own)? {
        return Ok(List::new(alloc));
    }
    let mut made = with_top(alloc, forest, root, _field, from, rule, place, &own)?;
    let more = with_rest(alloc, forest, root, _field, from, rule, place, &own)?;
    made.append(more)?;
    Ok(made)
}

/// The forest in which the edge stands at the top of its component, where the rule may stand there.
fn with_top(
    alloc: Global,
    forest: &Sound,
    _root: u32,
    _field: u32,
    from: u32,
    rule: &Rule,
    _place: usize,
    own: &Auto,
) -> Mem<List<Sound>>
    requires from { from < length forest.now.forest.autos }
    requires owns { Owns forest.now.face.boxes _root _field (component_at forest.now.forest.autos from)
        rule.now _place }
    requires own { own.now ≡ owner (component_at forest.now.forest.autos from) rule.now _place _root }
    requires some { HasSome own.now }
    ensures each { IfOk result (Every (IsLift forest.now.face forest.now.forest _root _field from)) }
    ensures top { IfOk result (λ made. IsIn rule.now.state (component_at forest.now.forest.autos from).roots
        → Among made (lift_top forest.now.forest _root from rule.now _place)) }
{
    forest.known();
    let mut made = List::new(alloc);
    if has(rule.state, roots_of(component(forest.forest(), from))) {
        let top = own.copy(alloc)?;
        made.push(forest.with_component(alloc, from, top)?)?;
    }
    Ok(made)
}

/// The forests in which the cell of the edge is a new last root.
fn with_rest(
    alloc: Global,
    forest: &Sound,
    _root: u32,
    _field: u32,
    from: u32,
    rule: &Rule,
    _place: usize,
    own: &Auto,
) -> Mem<List<Sound>>
    requires from { from < length forest.now.forest.autos }
    requires owns { Owns forest.now.face.boxes _root _field (component_at forest.now.forest.autos from)
        rule.now _place }
    requires own { own.now ≡ owner (component_at forest.now.forest.autos from) rule.now _place _root }
    requires some { HasSome own.now }
    ensures each { IfOk result (Every (IsLift forest.now.face forest.now.forest _root _field from)) }
    ensures all { IfOk result (λ made. (k : Tree)
        → InLanguage (hatted (component_at forest.now.forest.autos from) rule.now.state
        (length forest.now.forest.autos)) k → (c : Automaton) × InLanguage c k
        × Among made (lift_in forest.now.forest _root from rule.now _place c)) }
{
    let rest = rest_of(alloc, forest, from, rule)?;
    let boxes = forest.face().boxes.as_slice();
    let pieces = cut_auto(alloc, boxes, &rest)?;
    let list = pieces.as_slice();
    with_pieces(alloc, forest, _root, _field, from, rule, _place, own, list)
}

/// What is left of the component without the cell.
fn rest_of(alloc: Global, forest: &Sound, from: u32, rule: &Rule) -> Mem<Auto>
    requires from { from < length forest.now.forest.autos }
    requires rule { IsIn rule.now (component_at forest.now.forest.autos from).rules }
    ensures { IfOk result (λ made. made
        ≡ hatted (component_at forest.now.forest.autos from) rule.now.state (length forest.now.forest.autos)) }
{
    let count = count_roots(forest.forest())?;
    let auto = component(forest.forest(), from);
    auto.known();
    hatted(alloc, auto, rule.state, count)
}

/// So with each of these pieces in the place of what is left.
fn with_pieces(
    alloc: Global,
    forest: &Sound,
    _root: u32,
    _field: u32,
    from: u32,
    _rule: &Rule,
    _place: usize,
    own: &Auto,
    pieces: &[Auto],
) -> Mem<List<Sound>>
    requires from { from < length forest.now.forest.autos }
    requires owns { Owns forest.now.face.boxes _root _field (component_at forest.now.forest.autos from)
        _rule.now _place }
    requires own { own.now ≡ owner (component_at forest.now.forest.autos from) _rule.now _place _root }
    requires some { HasSome own.now }
    requires pieces { Every (IsPiece forest.now.face.boxes
        (hatted (component_at forest.now.forest.autos from) _rule.now.state (length forest.now.forest.autos)))
        pieces.now }
    ensures each { IfOk result (Every (IsLift forest.now.face forest.now.forest _root _field from)) }
    ensures all { IfOk result (λ made. (c : Automaton) → IsIn c pieces.now
        → Among made (lift_in forest.now.forest _root from _rule.now _place c)) }
{
    forest.known();
    let mut made = List::new(alloc);
    for piece in pieces {
        piece.known();
        let one = with_piece(alloc, forest, from, piece, own)?;
        made.push(one)?;
    }
    Ok(made)
}

/// The forest with the piece as the component, and the cell's trees as a new last one, which is known to be sound.
fn with_piece(alloc: Global, forest: &Sound, from: u32, piece: &Auto, own: &Auto) -> Mem<Sound>
    requires from { from < length forest.now.forest.autos }
    requires sound { IsSound forest.now.face (with_two forest.now.forest from piece.now own.now) }
    ensures forest { IfOk result (λ made. made.forest ≡ with_two forest.now.forest from piece.now own.now) }
    ensures face { IfOk result (λ made. made.face ≡ forest.now.face) }
{
    let made = forest_with(alloc, forest.forest(), from, piece, own)?;
    Sound::of(alloc, made, forest.face())
}

fn forest_with(alloc: Global, forest: &Forest, from: u32, piece: &Auto, own: &Auto) -> Mem<Forest>
    requires { from < length forest.now.autos }
    ensures { IfOk result (λ made. made ≡ with_two forest.now from piece.now own.now) }
{
    let rest = piece.copy(alloc)?;
    let last = own.copy(alloc)?;
    let Forest {
        autos,
        vars,
        data_vars,
    } = replace(alloc, forest, from, rest)?;
    let mut autos = autos;
    autos.push(last)?;
    Ok(Forest {
        autos,
        vars,
        data_vars,
    })
}
