// A field of a root's cell opened, until one leaf stands there.

ghost use Rattle.std.specs.Prelude.{◌≡◌, List, None, Some, IfOk};
ghost use Rattle.fore_base.specs.Lists.{IsIn, Every};
ghost use Rattle.fa_core.specs.Member.{RegroupsInto};
ghost use Rattle.fa_core.specs.declared.boxes.BoxDef.{BoxDef};
ghost use Rattle.fa_core.specs.declared.forest.Target.TheVariants.{At};
ghost use Rattle.fa_sound.specs.Unions.{forests};
ghost use Rattle.fa_split.specs.Divided.{HasVarsOf};
ghost use Rattle.fa_edit.specs.Plain.{IsPlainAt, place_at};
ghost use Rattle.fa_unfold.specs.UnfoldingOf.{HaveMembersOf};
ghost use Rattle.fa_opening.specs.Opened.{IsThatField, OpensFrom, OpensInto, StaysPlain};
ghost use Rattle.fa_opening.specs.inner.Showing.{IsBaredPart, IsShownOf};

use crate::applying::{Step, as_it_is, on_each};
use crate::opening::open_edges;
use fa_core::table::BoxTable;
use fa_edit::place_of;
use fa_sound::{Sound, component};
use fa_split::split_child;
use fore_base::list::List;
use fore_base::memory::Mem;
use std::alloc::Global;

/// The forests of `open_edges`, split at the field: one leaf stands there, or the struct has no such field. Where the
/// child may be a cell, its cells are a new last root. Where the forest has no box edge, none of these has one. Err is
/// want of memory, also where numbers of states and roots do not fit 32 bits.
pub fn open_field(
    alloc: Global,
    forest: &Sound,
    table: &BoxTable,
    root: u32,
    field: u32,
) -> Mem<List<Sound>>
    requires face { table.now.face ≡ forest.now.face }
    requires target { IsIn (At root) forest.now.forest.vars }
    ensures plain { IfOk result (λ made.
        Every (λ G. IsPlainAt forest.now.face.shapes.structs G root field) (forests made)) }
    ensures face { IfOk result (λ made. Every (λ s. s.face ≡ forest.now.face) made) }
    ensures vars { IfOk result (λ made. Every (HasVarsOf forest.now.forest) (forests made)) }
    ensures stays { IfOk result (λ made. Every (StaysPlain forest.now.forest) (forests made)) }
    ensures each { IfOk result (λ made.
        Every (OpensFrom forest.now.face.boxes table.now.defs root (IsThatField field) forest.now.forest)
        (forests made)) }
    ensures whole { IfOk result (λ made.
        OpensInto forest.now.face.boxes table.now.defs root (IsThatField field) forest.now.forest (forests made)) }
    ensures members { IfOk result (λ made. HaveMembersOf table.now.defs forest.now.forest (forests made)) }
{
    table.known();
    let bared = open_edges(alloc, forest, table, root, field)?;
    let made = on_each(alloc, &Split { root, field }, bared.as_slice())?;
    Ok(made)
}

/// A forest without box edges for the field, split at it.
#[derive(Drop)]
struct Split {
    root: u32,
    field: u32,
}

impl Step for Split {
    ghost use Rattle.std.specs.Prelude.{List};
    ghost use Rattle.fa_core.specs.Member.{RegroupsInto};
    ghost use Rattle.fa_core.specs.declared.boxes.BoxDef.{BoxDef};
    ghost use Rattle.fa_opening.specs.inner.Showing.{IsBaredPart, IsShownOf};

    ghost accepts = { λ step. IsBaredPart step.root step.field };

    ghost relates = { λ step. IsShownOf step.root step.field };

    ghost goes_into = { λ step S Gs. (T : List BoxDef) → RegroupsInto T S.forest Gs };

    ghost goes_on = { λ step S Gs Hs more k T d h. let w = k T d h in (w.0, more w.0 w.1, w.2) };

    fn apply(&self, alloc: Global, part: &Sound) -> Mem<List<Sound>> {
        match place_of(component(part.forest(), self.root), self.field) {
            Some(place) => split_at(alloc, part, self.root, self.field, place),
            None => stay(alloc, part, self.root, self.field),
        }
    }
}

/// So where the field is a slot.
fn split_at(alloc: Global, part: &Sound, root: u32, _field: u32, place: usize) -> Mem<List<Sound>>
    requires bared { IsBaredPart root _field part.now }
    requires place { place_at part.now.forest root _field ≡ Some place }
    ensures each { IfOk result (Every (IsShownOf root _field part.now)) }
    ensures whole { IfOk result (λ made. (T : List BoxDef) → RegroupsInto T part.now.forest (forests made)) }
{
    part.known();
    let made = split_child(alloc, part, root, place)?;
    Ok(made)
}

/// So where the struct has no such field: the forest stays.
fn stay(alloc: Global, part: &Sound, _root: u32, _field: u32) -> Mem<List<Sound>>
    requires bared { IsBaredPart _root _field part.now }
    requires none { place_at part.now.forest _root _field ≡ None }
    ensures each { IfOk result (Every (IsShownOf _root _field part.now)) }
    ensures whole { IfOk result (λ made. (T : List BoxDef) → RegroupsInto T part.now.forest (forests made)) }
{
    part.known();
    let made = as_it_is(alloc, part)?;
    Ok(made)
}
