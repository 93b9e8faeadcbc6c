//! Leaves in pointer fields of roots.

ghost use Rattle.std.specs.Prelude.{◌≡◌, ◌<◌, ◌↔◌, ℕ, List, length, Some, None, IfOk, IsNone, IsTrue, MatchOption};
ghost use Rattle.std.specs.Prelude.{OnSome};
ghost use Rattle.fore_base.specs.Lists.{Every};
ghost use Rattle.ta_core.specs.Single.{HasOneTop};
ghost use Rattle.fa_core.specs.Boxless.{HasNoBoxes};
ghost use Rattle.fa_edit.specs.inner.Points.{PointsTo};
ghost use Rattle.fa_core.specs.declared.boxes.BoxDef.{BoxDef};
ghost use Rattle.fa_core.specs.declared.forest.Target.{Target};
ghost use Rattle.fa_edit.specs.Fits.{IsRootFor, LeafFits};
ghost use Rattle.fa_edit.specs.Leaves.{AllHaveLeaf, AllLackField, IsPut};
ghost use Rattle.fa_edit.specs.Plain.{HasPlace, IsPlainAt, StructLacks, place_at};
ghost use Rattle.fa_sound.specs.Components.{component_at};
ghost use Rattle.fa_split.specs.Giving.{RulesGive};
ghost use Rattle.fa_split.specs.Split.{split_leaf};

use crate::tops::{has_only_leaf, only_leaf, place_of, shape_of};
use fa_core::forest::Target;
use fa_filling::fields::target_of;
use fa_sound::{Sound, component};
use fa_split::{fix_leaf, rules_of, state_at};
use fore_base::memory::Mem;
use fore_base::shape::Shape;
use std::alloc::Global;
use ta_core::single::has_one_top;

/// Whether the root has one rule, and only one leaf may stand in the field there, or the struct has no such field: the
/// condition of `leaf_of` and `with_leaf`. A field that a box edge covers or gives is none of both. Takes no memory.
pub fn is_plain_at(forest: &Sound, root: u32, field: u32) -> bool
    ensures { IsTrue result ↔ IsPlainAt forest.now.face.shapes.structs forest.now.forest root field }
{
    if (root as usize) >= forest.forest().autos.len() {
        return false;
    }
    let auto = component(forest.forest(), root);
    if !has_one_top(auto) {
        return false;
    }
    match place_of(auto, field) {
        Some(place) => has_only_leaf(rules_of(auto), state_at(auto, place)),
        None => struct_lacks(
            forest.face().shapes.structs.as_slice(),
            shape_of(auto),
            field,
        ),
    }
}

/// Whether the struct has no such pointer field. A leaf, which is of no struct, has none.
fn struct_lacks(structs: &[Shape], shape: Option<u32>, field: u32) -> bool
    ensures { IsTrue result ↔ StructLacks structs.now shape field }
{
    match shape {
        Some(shape) => target_of(structs, shape, field).is_none(),
        None => true,
    }
}

/// The leaf in a pointer field of a root that has one rule, at which only one leaf may stand; None where the root has
/// no such field. Takes no memory.
pub fn leaf_of(forest: &Sound, root: u32, field: u32) -> Option<Target>
    requires at { IsPlainAt forest.now.face.shapes.structs forest.now.forest root field }
    ensures has { OnSome result (HasPlace forest.now.forest root field) }
    ensures lacks { IsNone result → place_at forest.now.forest root field ≡ None }
    ensures held { MatchOption result ((T : List BoxDef) → AllLackField T forest.now.forest root field)
        (λ leaf. (T : List BoxDef) → AllHaveLeaf T forest.now.forest root field leaf) }
{
    forest.known();
    let auto = component(forest.forest(), root);
    match place_of(auto, field) {
        Some(place) => Some(only_leaf(rules_of(auto), state_at(auto, place))),
        None => None,
    }
}

/// Whether the leaf may stand in a pointer field of a root that has one rule: it names no root, or one that has one
/// rule too and is of the struct to which the field points. Takes no memory.
pub fn leaf_fits(forest: &Sound, root: u32, field: u32, leaf: Target) -> bool
    requires root { root < length forest.now.forest.autos }
    requires top { HasOneTop (component_at forest.now.forest.autos root) }
    ensures { IsTrue result ↔ LeafFits forest.now.face.shapes.structs forest.now.forest root field leaf }
{
    match leaf {
        Target::At(other) => is_root_for(forest, root, field, other),
        _ => true,
    }
}

/// Whether the other is a root with one rule, of the struct to which the field points.
fn is_root_for(forest: &Sound, root: u32, field: u32, other: u32) -> bool
    requires root { root < length forest.now.forest.autos }
    requires top { HasOneTop (component_at forest.now.forest.autos root) }
    ensures { IsTrue result ↔ IsRootFor forest.now.face.shapes.structs forest.now.forest root field other }
{
    if (other as usize) >= forest.forest().autos.len() {
        return false;
    }
    let below = component(forest.forest(), other);
    if !has_one_top(below) {
        return false;
    }
    let above = component(forest.forest(), root);
    let structs = forest.face().shapes.structs.as_slice();
    points_to(structs, shape_of(above), field, shape_of(below))
}

/// Whether both are structs, and the field of the first points to the second.
fn points_to(structs: &[Shape], above: Option<u32>, field: u32, below: Option<u32>) -> bool
    ensures { IsTrue result ↔ PointsTo structs.now above field below }
{
    match (above, below) {
        (Some(above), Some(below)) => match target_of(structs, above, field) {
            Some(target) => target == below,
            None => false,
        },
        _ => false,
    }
}

/// The forest with another leaf in a pointer field of a root, at which only one leaf may stand. A box edge that leads
/// back gives its end something, as each box of a table does. Err is want of memory.
pub fn with_leaf(alloc: Global, forest: &Sound, root: u32, field: u32, leaf: Target) -> Mem<Sound>
    requires gives { Every (RulesGive forest.now.face.boxes) forest.now.forest.autos }
    requires at { IsPlainAt forest.now.face.shapes.structs forest.now.forest root field }
    requires has { HasPlace forest.now.forest root field }
    requires fits { LeafFits forest.now.face.shapes.structs forest.now.forest root field leaf }
    ensures put { IfOk result (λ made. (T : List BoxDef) (old : Target) → AllHaveLeaf T forest.now.forest root field old
        → IsPut T forest.now.forest made.forest root field old leaf) }
    ensures face { IfOk result (λ made. made.face ≡ forest.now.face) }
    ensures plain { Every HasNoBoxes forest.now.forest.autos
        → IfOk result (λ made. Every HasNoBoxes made.forest.autos) }
{
    forest.known();
    match place_of(component(forest.forest(), root), field) {
        Some(place) => with_leaf_at(alloc, forest, root, field, place, leaf),
        None => unreachable!(),
    }
}

/// The forest with the leaf at the place of the field. Err is want of memory.
fn with_leaf_at(
    alloc: Global,
    forest: &Sound,
    root: u32,
    field: u32,
    place: usize,
    leaf: Target,
) -> Mem<Sound>
    requires gives { Every (RulesGive forest.now.face.boxes) forest.now.forest.autos }
    requires at { IsPlainAt forest.now.face.shapes.structs forest.now.forest root field }
    requires place { place_at forest.now.forest root field ≡ Some place }
    requires fits { LeafFits forest.now.face.shapes.structs forest.now.forest root field leaf }
    ensures forest { IfOk result (λ made. made.forest ≡ split_leaf forest.now.forest root place leaf) }
    ensures face { IfOk result (λ made. made.face ≡ forest.now.face) }
{
    forest.known();
    fix_leaf(alloc, forest, root, place, leaf)
}
