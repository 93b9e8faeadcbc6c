// Forests with box edges, and their face: the structs of all forests and eight boxes.

ghost use Rattle.std.specs.Prelude.{◌≡◌, IfOk};
ghost use Rattle.fore_base.specs.Lists.{Every};
ghost use Rattle.fa_core.specs.Faces.{IsGiving};

use crate::forests::{face, forest_of};
use anyhow::{Result, bail};
use fa_core::faces::{BoxFace, Face};
use fa_core::forest::Forest;
use fa_sound::Sound;
use fore_base::list::List;
use std::alloc::Global;

/// The sound forest of the text, which may have box edges, over the structs of all forests and eight boxes.
///
/// # Errors
///
/// A text that cannot be read, a forest that is not sound, and want of memory.
pub fn boxed(alloc: Global, text: &str) -> Result<Sound>
    ensures { IfOk result (λ s. Every IsGiving s.face.boxes) }
{
    let face = face_with_boxes(alloc)?;
    let forest = boxed_over(alloc, &face, text)?;
    Ok(forest)
}

/// The sound forest of the text, which may have box edges, over this face.
///
/// # Errors
///
/// A text that cannot be read, a forest that is not sound, and want of memory.
pub fn boxed_over(alloc: Global, face: &Face, text: &str) -> Result<Sound>
    ensures { IfOk result (λ s. s.face ≡ face.now) }
{
    let forest = forest_of(alloc, text)?;
    boxed_from(alloc, face, &forest)
}

/// The sound forest of this one, which may have box edges, over this face.
///
/// # Errors
///
/// A forest that is not sound, and want of memory.
pub fn boxed_from(alloc: Global, face: &Face, forest: &Forest) -> Result<Sound>
    ensures forest { IfOk result (λ s. s.forest ≡ forest.now) }
    ensures face { IfOk result (λ s. s.face ≡ face.now) }
{
    match Sound::make(alloc, forest, face)? {
        Some(made) => Ok(made),
        None => bail!("not sound"),
    }
}

/// The structs of all forests, and eight boxes. Box 0 is an edge of a list of pairs that leads back by the second
/// field, which it gives the pair at its end; box 4 gives it too, and does not lead back. Box 1 is an edge of nodes,
/// box 2 a ring of nodes, and box 3 an edge of trios: they give the cell at their end nothing. Boxes 5 to 7 are edges
/// of trios that lead back by the first, the second and the third field, which they give the trio at their end.
///
/// # Errors
///
/// Want of memory.
pub fn face_with_boxes(alloc: Global) -> Result<Face>
    ensures { IfOk result (λ face. Every IsGiving face.boxes) }
{
    let boxes = boxes(alloc)?;
    let plain = face(alloc)?;
    Ok(Face {
        shapes: plain.shapes,
        boxes,
    })
}

fn boxes(alloc: Global) -> Result<List<BoxFace>>
    ensures { IfOk result (Every IsGiving) }
{
    let mut boxes = edges_and_rings(alloc)?;
    boxes.push(giving_edge(alloc, 4, 0, true)?)?;
    boxes.push(giving_edge(alloc, 4, 1, true)?)?;
    boxes.push(giving_edge(alloc, 4, 2, true)?)?;
    Ok(boxes)
}

// The first five.
fn edges_and_rings(alloc: Global) -> Result<List<BoxFace>>
    ensures { IfOk result (Every IsGiving) }
{
    let mut boxes = List::new(alloc);
    boxes.push(giving_edge(alloc, 1, 1, true)?)?;
    boxes.push(edge(alloc, 0, Some(0))?)?;
    boxes.push(edge(alloc, 0, None)?)?;
    boxes.push(edge(alloc, 4, Some(4))?)?;
    boxes.push(giving_edge(alloc, 1, 1, false)?)?;
    Ok(boxes)
}

// From a cell of the struct, whose first field it covers, to one of the same struct, to which it gives the field.
fn giving_edge(alloc: Global, shape: u32, field: u32, back: bool) -> Result<BoxFace>
    ensures { IfOk result IsGiving }
{
    let gives_in = List::from_slice(alloc, &[0])?;
    let gives_out = List::from_slice(alloc, &[field])?;
    Ok(BoxFace {
        input: shape,
        output: Some(shape),
        gives_in,
        gives_out,
        back,
    })
}

fn edge(alloc: Global, input: u32, output: Option<u32>) -> Result<BoxFace>
    ensures { IfOk result IsGiving }
{
    let gives_in = List::from_slice(alloc, &[0])?;
    Ok(BoxFace {
        input,
        output,
        gives_in,
        gives_out: List::new(alloc),
        back: false,
    })
}
