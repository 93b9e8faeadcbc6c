// Box edges opened for a field of a root's cell.

ghost use Rattle.std.specs.Prelude.{◌≡◌, ◌↔◌, ℕ, false, slice_get, IsTrue, IfOk};
ghost use Rattle.fore_base.specs.Lists.{IsIn, Every};
ghost use Rattle.fa_core.specs.declared.forest.Target.TheVariants.{At};
ghost use Rattle.fa_sound.specs.Unions.{forests};
ghost use Rattle.fa_split.specs.Divided.{HasVarsOf};
ghost use Rattle.fa_lift.specs.Lift.{IsProvider};
ghost use Rattle.fa_unfold.specs.UnfoldingOf.{HaveMembersOf, root_slots};
ghost use Rattle.fa_opening.specs.Opened.{IsBared, IsThatField, OpensFrom, OpensInto, StaysPlain, slot_covers};
ghost use Rattle.fa_opening.specs.inner.Rounds.{IsCoverAt, IsReady, IsStepped};

use crate::applying::{Step, as_it_is, on_each};
use crate::choosing::known_each;
use crate::covering::covering_slot;
use crate::giving::giver;
use crate::unfolding::unfold_at;
use fa_back::ranked_insides;
use fa_core::table::BoxTable;
use fa_lift::{can_lift, lift_parent};
use fa_merge::is_target;
use fa_sound::Sound;
use fa_split::choose_rule;
use fore_base::list::List;
use fore_base::memory::Mem;
use std::alloc::Global;

/// Whether a variable is at the root.
pub fn can_open(forest: &Sound, root: u32) -> bool
    ensures { IsTrue result ↔ IsIn (At root) forest.now.forest.vars }
{
    is_target(forest.forest().vars.as_slice(), root)
}

/// The forests in which each box edge that covers the field at the root's cell, or gives it to that cell, is replaced
/// by the inside of its box, and so on while the inside of one has another: in the end the field is a slot of the
/// root's one rule, or none of its struct's. A variable is at the root. The root keeps its number, and so does each
/// other; further roots come behind. Where the forest has no box edge, whatever the table, none of these has one. Err
/// is want of memory, also where numbers of states and roots do not fit 32 bits.
pub fn open_edges(
    alloc: Global,
    forest: &Sound,
    table: &BoxTable,
    root: u32,
    field: u32,
) -> Mem<List<Sound>>
    requires face { table.now.face ≡ forest.now.face }
    requires target { IsIn (At root) forest.now.forest.vars }
    ensures bared { IfOk result
        (λ made. Every (IsBared forest.now.face.boxes root field) (forests made)) }
    ensures face { IfOk result (λ made. Every (λ s. s.face ≡ forest.now.face) made) }
    ensures vars { IfOk result (λ made. Every (HasVarsOf forest.now.forest) (forests made)) }
    ensures stays { IfOk result (λ made. Every (StaysPlain forest.now.forest) (forests made)) }
    ensures each { IfOk result (λ made.
        Every (OpensFrom forest.now.face.boxes table.now.defs root (IsThatField field) forest.now.forest)
        (forests made)) }
    ensures whole { IfOk result (λ made.
        OpensInto forest.now.face.boxes table.now.defs root (IsThatField field) forest.now.forest (forests made)) }
    ensures members { IfOk result (λ made. HaveMembersOf table.now.defs forest.now.forest (forests made)) }
{
    forest.known();
    table.known();
    ranked_insides(table);
    let mut made = choose_rule(alloc, forest, root)?;
    for _round in 0..table.len() {
        made = on_each(alloc, &ReplaceEdge { table, root, field }, made.as_slice())?;
    }
    known_each(made.as_slice());
    Ok(made)
}

/// One box edge for the field replaced, in a forest that has one.
#[derive(Drop)]
struct ReplaceEdge<'a> {
    table: &'a BoxTable,
    root: u32,
    field: u32,
}

impl<'a> Step for ReplaceEdge<'a> {
    ghost use Rattle.fa_opening.specs.Opened.{IsThatField, OpensInto};
    ghost use Rattle.fa_opening.specs.inner.Rounds.{IsReady, IsStepped};

    ghost accepts = { λ step. IsReady step.table.now step.root };

    ghost relates = { λ step S. IsStepped step.table.now step.root step.field S.forest };

    ghost goes_into = { λ step S.
        OpensInto step.table.now.face.boxes step.table.now.defs step.root (IsThatField step.field) S.forest };

    ghost goes_on = { λ step S Gs Hs more k d h. let w = k d h in (w.0, more w.0 w.1, w.2) };

    fn apply(&self, alloc: Global, part: &Sound) -> Mem<List<Sound>> {
        part.known();
        match covering_slot(part, self.root, self.field) {
            Some(slot) => step_covered(alloc, part, self.table, self.root, self.field, slot),
            None => step_given(alloc, part, self.table, self.root, self.field),
        }
    }
}

/// So where the box edge at the slot of the root covers the field.
fn step_covered(
    alloc: Global,
    forest: &Sound,
    table: &BoxTable,
    root: u32,
    field: u32,
    slot: usize,
) -> Mem<List<Sound>>
    requires ready { IsReady table.now root forest.now }
    requires covers { IsCoverAt forest.now.face.boxes field (slice_get (root_slots forest.now.forest root) slot) }
    ensures each { IfOk result (Every (IsStepped table.now root field forest.now.forest)) }
    ensures whole { IfOk result (λ made.
        OpensInto table.now.face.boxes table.now.defs root (IsThatField field) forest.now.forest (forests made)) }
{
    forest.known();
    let made = unfold_at(alloc, forest, table, root, slot, root, field)?;
    Ok(made)
}

/// So where none at the root does.
fn step_given(
    alloc: Global,
    forest: &Sound,
    table: &BoxTable,
    root: u32,
    field: u32,
) -> Mem<List<Sound>>
    requires ready { IsReady table.now root forest.now }
    requires covered { Every (λ s. slot_covers forest.now.face.boxes field s ≡ false)
        (root_slots forest.now.forest root) }
    ensures each { IfOk result (Every (IsStepped table.now root field forest.now.forest)) }
    ensures whole { IfOk result (λ made.
        OpensInto table.now.face.boxes table.now.defs root (IsThatField field) forest.now.forest (forests made)) }
{
    forest.known();
    if can_lift(forest, root, field)? {
        step_lifted(alloc, forest, table, root, field)
    } else {
        step_bared(alloc, forest, table, root, field)
    }
}

/// So where a box edge gives the field to the root: its cell is lifted first.
fn step_lifted(
    alloc: Global,
    forest: &Sound,
    table: &BoxTable,
    root: u32,
    field: u32,
) -> Mem<List<Sound>>
    requires ready { IsReady table.now root forest.now }
    requires given { (t : ℕ) × IsProvider forest.now.face.boxes forest.now.forest root field t }
    ensures each { IfOk result (Every (IsStepped table.now root field forest.now.forest)) }
    ensures whole { IfOk result (λ made.
        OpensInto table.now.face.boxes table.now.defs root (IsThatField field) forest.now.forest (forests made)) }
{
    forest.known();
    let lifted = lift_parent(alloc, forest, root, field)?;
    let made = on_each(
        alloc,
        &UnfoldGiver { table, root, field },
        lifted.as_slice(),
    )?;
    Ok(made)
}

/// So where there is no such edge: the forest stays.
fn step_bared(
    alloc: Global,
    forest: &Sound,
    _table: &BoxTable,
    _root: u32,
    _field: u32,
) -> Mem<List<Sound>>
    requires ready { IsReady _table.now _root forest.now }
    requires bared { IsBared forest.now.face.boxes _root _field forest.now.forest }
    ensures each { IfOk result (Every (IsStepped _table.now _root _field forest.now.forest)) }
    ensures whole { IfOk result (λ made.
        OpensInto _table.now.face.boxes _table.now.defs _root (IsThatField _field) forest.now.forest (forests made)) }
{
    let made = as_it_is(alloc, forest)?;
    Ok(made)
}

/// The edge that gives the field, of a root with one rule, replaced.
#[derive(Drop)]
struct UnfoldGiver<'a> {
    table: &'a BoxTable,
    root: u32,
    field: u32,
}

impl<'a> Step for UnfoldGiver<'a> {
    ghost use Rattle.fa_opening.specs.Opened.{IsThatField, OpensInto};
    ghost use Rattle.fa_opening.specs.inner.Rounds.{HasGiver, IsAtRoot, IsLowered};

    ghost accepts = { λ step S. IsAtRoot step.table.now step.root S
        × HasGiver step.table.now.face.boxes step.root step.field S.forest };

    ghost relates = { λ step S. IsLowered step.table.now step.root step.field S.forest };

    ghost goes_into = { λ step S.
        OpensInto step.table.now.face.boxes step.table.now.defs step.root (IsThatField step.field) S.forest };

    ghost goes_on = { λ step S Gs Hs more k d h. let w = k d h in (w.0, more w.0 w.1, w.2) };

    fn apply(&self, alloc: Global, part: &Sound) -> Mem<List<Sound>> {
        let found = giver(alloc, part, self.root, self.field)?;
        let made = unfold_at(
            alloc, part, self.table, found.0, found.1, self.root, self.field,
        )?;
        Ok(made)
    }
}
