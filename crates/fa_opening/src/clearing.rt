// The box edges for each field of a root's cell opened.

ghost use Rattle.std.specs.Prelude.{◌≡◌, ℕ, [], IfOk};
ghost use Rattle.fore_base.specs.Lists.{IsIn, Every};
ghost use Rattle.fa_core.specs.declared.forest.Target.TheVariants.{At};
ghost use Rattle.fa_sound.specs.Unions.{forests};
ghost use Rattle.fa_split.specs.Divided.{HasVarsOf};
ghost use Rattle.fa_unfold.specs.UnfoldingOf.{HaveMembersOf};
ghost use Rattle.fa_opening.specs.Opened.{HasFieldsAlone, IsAnyField, IsBared, OpensFrom, OpensInto, StaysPlain};
ghost use Rattle.fa_opening.specs.inner.Clearing.{AreIn, AreNamed, IsCleared};

use crate::applying::{Step, on_each};
use crate::choosing::known_each;
use crate::opening::open_edges;
use fa_back::ranked_insides;
use fa_core::BoxFace;
use fa_core::cells::has;
use fa_core::table::BoxTable;
use fa_sound::Sound;
use fa_split::choose_rule;
use fore_base::list::List;
use fore_base::memory::Mem;
use std::alloc::Global;

/// The forests in which each box edge that covers a field of the root's cell, or gives that cell one, is replaced by
/// the inside of its box, as `open_edges` does it for one field: in the end each field of the cell's struct is a slot
/// of the root's one rule. A variable is at the root. The root keeps its number, and so does each other; further roots
/// come behind. Where the forest has no box edge, none of these has one. Err is want of memory, also where numbers of
/// states and roots do not fit 32 bits.
pub fn open_cell(alloc: Global, forest: &Sound, table: &BoxTable, root: u32) -> Mem<List<Sound>>
    requires face { table.now.face ≡ forest.now.face }
    requires target { IsIn (At root) forest.now.forest.vars }
    ensures bared { IfOk result
        (λ made. (f : ℕ) → Every (IsBared forest.now.face.boxes root f) (forests made)) }
    ensures fields { IfOk result (λ made. Every (λ G. HasFieldsAlone G root) (forests made)) }
    ensures face { IfOk result (λ made. Every (λ s. s.face ≡ forest.now.face) made) }
    ensures vars { IfOk result (λ made. Every (HasVarsOf forest.now.forest) (forests made)) }
    ensures stays { IfOk result (λ made. Every (StaysPlain forest.now.forest) (forests made)) }
    ensures each { IfOk result (λ made.
        Every (OpensFrom forest.now.face.boxes table.now.defs root IsAnyField forest.now.forest) (forests made)) }
    ensures whole { IfOk result (λ made.
        OpensInto forest.now.face.boxes table.now.defs root IsAnyField forest.now.forest (forests made)) }
    ensures members { IfOk result (λ made. HaveMembersOf table.now.defs forest.now.forest (forests made)) }
{
    forest.known();
    table.known();
    ranked_insides(table);
    let fields = box_fields(alloc, forest.face().boxes.as_slice())?;
    let chosen = choose_rule(alloc, forest, root)?;
    known_each(chosen.as_slice());
    let made = open_fields(alloc, forest, chosen, table, root, fields.as_slice())?;
    Ok(made)
}

/// The forests with the box edges for each of the fields opened, one field after the other.
fn open_fields(
    alloc: Global,
    _forest: &Sound,
    parts: List<Sound>,
    table: &BoxTable,
    root: u32,
    fields: &[u32],
) -> Mem<List<Sound>>
    requires target { IsIn (At root) _forest.now.forest.vars }
    requires each { Every (IsCleared table.now root _forest.now.forest []) parts }
    requires whole { OpensInto table.now.face.boxes table.now.defs root IsAnyField _forest.now.forest (forests parts) }
    ensures each { IfOk result (Every (IsCleared table.now root _forest.now.forest fields.now)) }
    ensures whole { IfOk result (λ made.
        OpensInto table.now.face.boxes table.now.defs root IsAnyField _forest.now.forest (forests made)) }
{
    table.known();
    ranked_insides(table);
    let mut made = parts;
    for field in fields {
        let step = OpenField {
            table,
            root,
            field: *field,
        };
        made = on_each(alloc, &step, made.as_slice())?;
    }
    Ok(made)
}

/// The box edges for one field opened.
#[derive(Drop)]
struct OpenField<'a> {
    table: &'a BoxTable,
    root: u32,
    field: u32,
}

impl<'a> Step for OpenField<'a> {
    ghost use Rattle.fa_opening.specs.Opened.{IsThatField, OpensInto};
    ghost use Rattle.fa_opening.specs.inner.Clearing.{IsOpenedPart};
    ghost use Rattle.fa_opening.specs.inner.Rounds.{IsAtRoot};

    ghost accepts = { λ step. IsAtRoot step.table.now step.root };

    ghost relates = { λ step. IsOpenedPart step.table.now step.root step.field };

    ghost goes_into = { λ step S.
        OpensInto step.table.now.face.boxes step.table.now.defs step.root (IsThatField step.field) S.forest };

    ghost goes_on = { λ step S Gs Hs more k d h. let w = k d h in (w.0, more w.0 w.1, w.2) };

    fn apply(&self, alloc: Global, part: &Sound) -> Mem<List<Sound>> {
        let made = open_edges(alloc, part, self.table, self.root, self.field)?;
        known_each(made.as_slice());
        Ok(made)
    }
}

/// The fields that the boxes cover and give, each once.
fn box_fields(alloc: Global, boxes: &[BoxFace]) -> Mem<List<u32>>
    ensures { IfOk result (AreNamed boxes.now) }
{
    let mut fields = List::new(alloc);
    for face in boxes {
        let covered = add_fields(fields, face.gives_in.as_slice())?;
        fields = add_fields(covered, face.gives_out.as_slice())?;
    }
    Ok(fields)
}

/// The fields, and those of the others that are not among them.
fn add_fields(fields: List<u32>, more: &[u32]) -> Mem<List<u32>>
    ensures added { IfOk result (AreIn more.now) }
    ensures kept { IfOk result (AreIn fields) }
{
    let mut made = fields;
    for field in more {
        if !has(*field, made.as_slice()) {
            made.push(*field)?;
        }
    }
    Ok(made)
}
