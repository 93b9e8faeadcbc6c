// A child of a root's one rule fixed as a leaf, or made a root of its own.

ghost use Rattle.std.specs.Prelude.{◌≡◌, List, ◌↔◌, map, IsTrue, IfOk};
ghost use Rattle.fore_base.specs.Lists.{Every};
ghost use Rattle.ta_core.specs.Single.{HasOneTop};
ghost use Rattle.fa_core.specs.Boxless.{HasNoBoxes};
ghost use Rattle.fa_core.specs.Filled.{IsSound};
ghost use Rattle.fa_core.specs.Member.{Regroups, RegroupsInto};
ghost use Rattle.fa_core.specs.declared.boxes.BoxDef.{BoxDef};
ghost use Rattle.fa_sound.specs.Components.{component_at};
ghost use Rattle.fa_split.specs.Divided.{HasVarsOf};
ghost use Rattle.fa_split.specs.Giving.{RulesGive};
ghost use Rattle.fa_sound.specs.Unions.{forests, IsUnionOf};
ghost use Rattle.fa_split.specs.Split.{AreSplit, AreThose, CanSplit, IsSplitOf, IsWhere, MayBeCell, MayBeLeaf};
ghost use Rattle.fa_split.specs.Split.{split_cells, split_leaf};

use crate::ending::{has_cell_at, leaves_at};
use crate::topping::{count_children, fix_child, lift_cells, rules_of, state_at, states_of};
use fa_core::forest::{Forest, Target};
use fa_sound::{Sound, component, count_roots, replace};
use fore_base::list::List;
use fore_base::memory::Mem;
use std::alloc::Global;
use ta_core::inhabited::inhabited;
use ta_core::single::has_one_top;

/// Whether the root is there and has one rule, and that a child at the place.
pub fn can_split(forest: &Sound, root: u32, place: usize) -> bool
    ensures { IsTrue result ↔ CanSplit forest.now.forest root place }
{
    let forest = forest.forest();
    if (root as usize) >= forest.autos.len() {
        return false;
    }
    let auto = component(forest, root);
    has_one_top(auto) && place < count_children(auto)
}

/// One forest for each leaf that the child at the place may be, in which it is that leaf, and behind them, where the
/// child may be a cell, one in which the child's cells are a new last root. The root has one rule, and that has a child
/// at the place. A box edge that leads back gives its end something, as each box of a table does: else a state could
/// get two signatures. Err is want of memory.
pub fn split_child(alloc: Global, forest: &Sound, root: u32, place: usize) -> Mem<List<Sound>>
    requires can { CanSplit forest.now.forest root place }
    requires gives { Every (RulesGive forest.now.face.boxes) forest.now.forest.autos }
    ensures value { IfOk result (λ made. AreSplit forest.now.forest root place (forests made)) }
    ensures face { IfOk result (λ made. Every (λ s. s.face ≡ forest.now.face) made) }
    ensures vars { IfOk result (λ made. Every (HasVarsOf forest.now.forest) (forests made)) }
    ensures plain { IfOk result
        (λ made. Every HasNoBoxes forest.now.forest.autos → Every (λ G. Every HasNoBoxes G.autos) (forests made)) }
    ensures tops { IfOk result (λ made. Every (λ G. HasOneTop (component_at G.autos root)) (forests made)) }
    ensures dressed { IfOk result (λ made. (T : List BoxDef)
        → Every (IsSplitOf T forest.now.forest root place) (forests made)) }
    ensures regroups { IfOk result (λ made. (T : List BoxDef) → Every (Regroups T forest.now.forest) (forests made)) }
    ensures whole { IfOk result (λ made. (T : List BoxDef) → RegroupsInto T forest.now.forest (forests made)) }
    ensures members { IfOk result (λ made. IsUnionOf forest.now.forest (forests made)) }
{
    forest.known();
    let made = forests_by_child(alloc, forest, root, place)?;
    Ok(made)
}

fn forests_by_child(alloc: Global, forest: &Sound, root: u32, place: usize) -> Mem<List<Sound>>
    requires can { CanSplit forest.now.forest root place }
    requires gives { Every (RulesGive forest.now.face.boxes) forest.now.forest.autos }
    ensures value { IfOk result (λ made. AreSplit forest.now.forest root place (forests made)) }
    ensures face { IfOk result (λ made. Every (λ s. s.face ≡ forest.now.face) made) }
{
    let leaves = leaves_of_child(alloc, forest, root, place)?;
    let mut made = with_leaves(alloc, forest, root, place, leaves.as_slice())?;
    made.append(with_cells(alloc, forest, root, place)?)?;
    Ok(made)
}

/// The leaves that the child may be, each once.
fn leaves_of_child(alloc: Global, forest: &Sound, root: u32, place: usize) -> Mem<List<Target>>
    requires { CanSplit forest.now.forest root place }
    ensures { IfOk result (AreThose (MayBeLeaf forest.now.forest root place)) }
{
    forest.known();
    let auto = component(forest.forest(), root);
    leaves_at(alloc, rules_of(auto), state_at(auto, place))
}

/// A forest for each of these leaves, in which the child is that leaf. Err is want of memory.
fn with_leaves(
    alloc: Global,
    forest: &Sound,
    root: u32,
    place: usize,
    leaves: &[Target],
) -> Mem<List<Sound>>
    requires can { CanSplit forest.now.forest root place }
    requires may { Every (MayBeLeaf forest.now.forest root place) leaves.now }
    ensures value { IfOk result (λ made. forests made ≡ map (split_leaf forest.now.forest root place) leaves.now) }
    ensures face { IfOk result (λ made. Every (λ s. s.face ≡ forest.now.face) made) }
{
    let mut made = List::new(alloc);
    for leaf in leaves {
        made.push(with_leaf(alloc, forest, root, place, *leaf)?)?;
    }
    Ok(made)
}

fn with_leaf(alloc: Global, forest: &Sound, root: u32, place: usize, leaf: Target) -> Mem<Sound>
    requires can { CanSplit forest.now.forest root place }
    requires may { MayBeLeaf forest.now.forest root place leaf }
    ensures forest { IfOk result (λ made. made.forest ≡ split_leaf forest.now.forest root place leaf) }
    ensures face { IfOk result (λ made. made.face ≡ forest.now.face) }
{
    forest.known();
    fix_leaf(alloc, forest, root, place, leaf)
}

/// The forest in which the child is the leaf, which is known to be sound: nothing is judged. Err is want of memory.
pub fn fix_leaf(alloc: Global, forest: &Sound, root: u32, place: usize, leaf: Target) -> Mem<Sound>
    requires can { CanSplit forest.now.forest root place }
    requires sound { IsSound forest.now.face (split_leaf forest.now.forest root place leaf) }
    ensures forest { IfOk result (λ made. made.forest ≡ split_leaf forest.now.forest root place leaf) }
    ensures face { IfOk result (λ made. made.face ≡ forest.now.face) }
{
    let auto = fix_child(alloc, component(forest.forest(), root), place, leaf)?;
    forest.with_component(alloc, root, auto)
}

/// The forest in which the child is the leaf. Err is want of memory.
pub fn fix_at(alloc: Global, forest: &Forest, root: u32, place: usize, leaf: Target) -> Mem<Forest>
    requires { CanSplit forest.now root place }
    ensures { IfOk result (λ made. made ≡ split_leaf forest.now root place leaf) }
{
    let auto = fix_child(alloc, component(forest, root), place, leaf)?;
    replace(alloc, forest, root, auto)
}

/// The forest in which the child's cells are a new last root, where it may be a cell, and no other. Err is want of
/// memory.
fn with_cells(alloc: Global, forest: &Sound, root: u32, place: usize) -> Mem<List<Sound>>
    requires can { CanSplit forest.now.forest root place }
    requires gives { Every (RulesGive forest.now.face.boxes) forest.now.forest.autos }
    ensures value { IfOk result
        (λ made. IsWhere (MayBeCell forest.now.forest root place) (split_cells forest.now.forest root place)
        (forests made)) }
    ensures face { IfOk result (λ made. Every (λ s. s.face ≡ forest.now.face) made) }
{
    let mut made = List::new(alloc);
    if may_be_cell(alloc, forest, root, place)? {
        made.push(with_new_root(alloc, forest, root, place)?)?;
    }
    Ok(made)
}

/// Whether the child may be a cell.
fn may_be_cell(alloc: Global, forest: &Sound, root: u32, place: usize) -> Mem<bool>
    requires { CanSplit forest.now.forest root place }
    ensures { IfOk result (λ yes. IsTrue yes ↔ MayBeCell forest.now.forest root place) }
{
    forest.known();
    let auto = component(forest.forest(), root);
    let marks = inhabited(alloc, auto)?;
    Ok(has_cell_at(
        rules_of(auto),
        marks.as_slice(),
        state_at(auto, place),
        states_of(auto),
    ))
}

fn with_new_root(alloc: Global, forest: &Sound, root: u32, place: usize) -> Mem<Sound>
    requires can { CanSplit forest.now.forest root place }
    requires gives { Every (RulesGive forest.now.face.boxes) forest.now.forest.autos }
    requires may { MayBeCell forest.now.forest root place }
    ensures forest { IfOk result (λ made. made.forest ≡ split_cells forest.now.forest root place) }
    ensures face { IfOk result (λ made. made.face ≡ forest.now.face) }
{
    forest.known();
    let made = lift_at(alloc, forest.forest(), root, place)?;
    Sound::of(alloc, made, forest.face())
}

/// The forest in which the child's cells are a new last root. Err is want of memory.
fn lift_at(alloc: Global, forest: &Forest, root: u32, place: usize) -> Mem<Forest>
    requires { CanSplit forest.now root place }
    ensures { IfOk result (λ made. made ≡ split_cells forest.now root place) }
{
    let new_root = count_roots(forest)?;
    let auto = component(forest, root);
    let cells = lift_cells(alloc, auto, state_at(auto, place))?;
    let Forest {
        autos,
        vars,
        data_vars,
    } = fix_at(alloc, forest, root, place, Target::At(new_root))?;
    let mut autos = autos;
    autos.push(cells)?;
    Ok(Forest {
        autos,
        vars,
        data_vars,
    })
}
