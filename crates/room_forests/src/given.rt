// The forest of a row.
//
// Where the kind begins with `boxed-`, or is `lifted`, `split` or `chosen`, the forest may have box edges, and eight
// boxes stand beside its structs; else it has none, and no boxes stand there. For `turned` it is the other form of
// that which is written (`turning`).

ghost use Rattle.std.specs.Prelude.{IfOk};
ghost use Rattle.fore_base.specs.Lists.{Every};
ghost use Rattle.fa_core.specs.Boxless.{HasNoBoxes};
ghost use Rattle.fa_core.specs.Faces.{IsGiving};
ghost use Rattle.fa_order.specs.Placing.{DoEdgesGive};

use crate::turning::turned;
use anyhow::Result;
use fa_core::forest::Forest;
use fa_sound::Sound;
use row_forests::{boxed_from, face, face_with_boxes, forest_of, sound_from};
use row_kit::word_at;
use std::alloc::Global;

// The forest of this text, for this head.
pub fn forest_for(alloc: Global, head: &str, text: &str) -> Result<Sound>
    ensures { IfOk result (λ s. DoEdgesGive s.face s.forest) }
{
    let may = may_have_boxes(head)?;
    let forest = written(alloc, head, text)?;
    sound_of(alloc, &forest, may)
}

fn may_have_boxes(head: &str) -> Result<bool> {
    match word_at(head, 0)? {
        "lifted" | "split" | "chosen" => Ok(true),
        kind => Ok(kind.starts_with("boxed-")),
    }
}

fn written(alloc: Global, head: &str, text: &str) -> Result<Forest> {
    let forest = forest_of(alloc, text)?;
    match head {
        "turned" | "boxed-turned" => turned(alloc, &forest),
        _ => Ok(forest),
    }
}

fn sound_of(alloc: Global, forest: &Forest, may_have_boxes: bool) -> Result<Sound>
    ensures { IfOk result (λ s. DoEdgesGive s.face s.forest) }
{
    if may_have_boxes {
        let boxed = over_boxes(alloc, forest)?;
        Ok(boxed)
    } else {
        let plain = over_structs(alloc, forest)?;
        Ok(plain)
    }
}

fn over_boxes(alloc: Global, forest: &Forest) -> Result<Sound>
    ensures { IfOk result (λ s. Every IsGiving s.face.boxes) }
{
    let face = face_with_boxes(alloc)?;
    let made = boxed_from(alloc, &face, forest)?;
    Ok(made)
}

fn over_structs(alloc: Global, forest: &Forest) -> Result<Sound>
    ensures { IfOk result (λ s. Every HasNoBoxes s.forest.autos) }
{
    let face = face(alloc)?;
    sound_from(alloc, &face, forest)
}
