// Box edges of a root that cover a field.

ghost use Rattle.std.specs.Prelude.{◌≡◌, ◌<◌, ℕ, false, length, slice_get, MatchOption};
ghost use Rattle.std.specs.Option.{option_copied};
ghost use Rattle.fore_base.specs.Lists.{Every};
ghost use Rattle.ta_core.specs.Single.{HasOneTop};
ghost use Rattle.fa_core.specs.Filled.{fields_in};
ghost use Rattle.fa_core.specs.Ways.{has};
ghost use Rattle.fa_sound.specs.Components.{component_at};
ghost use Rattle.fa_unfold.specs.UnfoldingOf.{root_slots};
ghost use Rattle.fa_opening.specs.Opened.{slot_covers};
ghost use Rattle.fa_opening.specs.inner.Rounds.{IsCoverAt};

use fa_core::cells::has;
use fa_core::faces::BoxFace;
use fa_sound::{Sound, component};
use fa_split::rule_at_top;
use fa_unfold::slots_of;
use ta_core::symbol::Slot;

/// The first slot of the root's one rule that is a box edge and covers the field, if there is one.
pub fn covering_slot(forest: &Sound, root: u32, field: u32) -> Option<usize>
    requires root { root < length forest.now.forest.autos }
    requires top { HasOneTop (component_at forest.now.forest.autos root) }
    ensures { MatchOption result
        (Every (λ s. slot_covers forest.now.face.boxes field s ≡ false) (root_slots forest.now.forest root))
        (λ p. IsCoverAt forest.now.face.boxes field (slice_get (root_slots forest.now.forest root) p)) }
{
    let boxes = forest.face().boxes.as_slice();
    let rule = rule_at_top(component(forest.forest(), root));
    first_cover(boxes, slots_of(&rule.symbol), field)
}

fn first_cover(boxes: &[BoxFace], slots: &[Slot], field: u32) -> Option<usize>
    ensures { MatchOption result (Every (λ s. slot_covers boxes.now field s ≡ false) slots.now)
        (λ p. IsCoverAt boxes.now field (slice_get slots.now p)) }
{
    for index in 0..slots.len() {
        if slot_covers(boxes, field, slots[index]) {
            return Some(index);
        }
    }
    None
}

/// Whether the slot is a box edge that covers the field.
fn slot_covers(boxes: &[BoxFace], field: u32, slot: Slot) -> bool
    ensures { result ≡ slot_covers boxes.now field slot }
{
    match slot {
        Slot::Field(_) => false,
        Slot::Link(number) => face_covers(boxes.get(number as usize), field),
        Slot::Hook(number) => face_covers(boxes.get(number as usize), field),
    }
}

fn face_covers(face: Option<&BoxFace>, field: u32) -> bool
    ensures { result ≡ has field (fields_in (option_copied face.entry)) }
{
    match face {
        Some(face) => has(field, face.gives_in.as_slice()),
        None => false,
    }
}
