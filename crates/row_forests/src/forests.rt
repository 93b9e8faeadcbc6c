// Forests from texts.

ghost use Rattle.std.specs.Prelude.{◌≡◌, IfOk};
ghost use Rattle.fore_base.specs.Lists.{Every};
ghost use Rattle.fa_core.specs.Boxless.{HasNoBoxes};

use crate::boxes::boxed_from;
use anyhow::{Context, Result, bail};
use fa_core::faces::Face;
use fa_core::forest::{Forest, Target};
use fa_sound::{Sound, have_no_boxes};
use fore_base::list::List;
use fore_base::shape::{FieldDef, FieldKind, Shape, Shapes};
use fore_base::text::Text;
use row_automata::{auto_of, datums, digit};
use std::alloc::Global;
use ta_core::auto::Auto;

// The fields of each struct.
const STRUCTS: &[&[FieldKind]] = &[
    &[FieldKind::Pointer(0)],
    &[FieldKind::Pointer(1), FieldKind::Pointer(1)],
    &[FieldKind::Datum, FieldKind::Pointer(2)],
    &[
        FieldKind::Pointer(3),
        FieldKind::Datum,
        FieldKind::Pointer(0),
    ],
    &[
        FieldKind::Pointer(4),
        FieldKind::Pointer(4),
        FieldKind::Pointer(4),
    ],
];

// The names of structs and of fields, by their numbers.
const STRUCT_NAMES: &[&str] = &["node", "pair", "item", "tree", "trio"];

const FIELD_NAMES: &[&str] = &["a", "b", "c", "d"];

/// The structs of all forests, and no boxes.
///
/// # Errors
///
/// Want of memory.
pub fn face(alloc: Global) -> Result<Face> {
    face_of(alloc, STRUCTS)
}

/// The structs with these fields, and no boxes.
///
/// # Errors
///
/// Want of memory.
pub fn face_of(alloc: Global, structs: &[&[FieldKind]]) -> Result<Face> {
    let structs = shapes(alloc, structs)?;
    Ok(Face {
        shapes: Shapes { structs },
        boxes: List::new(alloc),
    })
}

fn shapes(alloc: Global, structs: &[&[FieldKind]]) -> Result<List<Shape>> {
    let mut made = List::new(alloc);
    for (name, kinds) in STRUCT_NAMES.iter().zip(structs) {
        let shape = shape(alloc, name, kinds)?;
        made.push(shape)?;
    }
    Ok(made)
}

fn shape(alloc: Global, name: &str, kinds: &[FieldKind]) -> Result<Shape> {
    let fields = fields(alloc, kinds)?;
    let name = Text::from_slice(alloc, name.as_bytes())?;
    Ok(Shape { name, fields })
}

fn fields(alloc: Global, kinds: &[FieldKind]) -> Result<List<FieldDef>> {
    let mut fields = List::new(alloc);
    for (name, kind) in FIELD_NAMES.iter().zip(kinds) {
        let field = field(alloc, name, *kind)?;
        fields.push(field)?;
    }
    Ok(fields)
}

fn field(alloc: Global, name: &str, kind: FieldKind) -> Result<FieldDef> {
    let name = Text::from_slice(alloc, name.as_bytes())?;
    Ok(FieldDef { name, kind })
}

/// The sound forests of the texts.
///
/// # Errors
///
/// A text that cannot be read, a forest that is not sound or has boxes, and want of memory.
pub fn sounds_over(alloc: Global, face: &Face, texts: &[&str]) -> Result<List<Sound>>
    ensures face { IfOk result (Every (λ s. s.face ≡ face.now)) }
    ensures plain { IfOk result (Every (λ s. Every HasNoBoxes s.forest.autos)) }
{
    let mut made = List::new(alloc);
    for text in texts {
        let forest = sound_over(alloc, face, text)?;
        made.push(forest)?;
    }
    Ok(made)
}

/// The sound forest of the text.
///
/// # Errors
///
/// A text that cannot be read, a forest that is not sound or has boxes, and want of memory.
pub fn sound(alloc: Global, text: &str) -> Result<Sound>
    ensures { IfOk result (λ s. Every HasNoBoxes s.forest.autos) }
{
    let face = face(alloc)?;
    sound_over(alloc, &face, text)
}

/// The sound forest of the text, over this face.
///
/// # Errors
///
/// A text that cannot be read, a forest that is not sound or has boxes, and want of memory.
pub fn sound_over(alloc: Global, face: &Face, text: &str) -> Result<Sound>
    ensures face { IfOk result (λ s. s.face ≡ face.now) }
    ensures plain { IfOk result (λ s. Every HasNoBoxes s.forest.autos) }
{
    let forest = forest_of(alloc, text)?;
    sound_from(alloc, face, &forest)
}

/// The sound forest of this one, over this face.
///
/// # Errors
///
/// A forest that is not sound or has boxes, and want of memory.
pub fn sound_from(alloc: Global, face: &Face, forest: &Forest) -> Result<Sound>
    ensures face { IfOk result (λ s. s.face ≡ face.now) }
    ensures plain { IfOk result (λ s. Every HasNoBoxes s.forest.autos) }
{
    if !have_no_boxes(forest.autos.as_slice()) {
        bail!("a box edge");
    }
    let made = boxed_from(alloc, face, forest)?;
    Ok(made)
}

/// The forest of the text.
///
/// # Errors
///
/// A text that cannot be read, and want of memory.
pub fn forest_of(alloc: Global, text: &str) -> Result<Forest> {
    let first = text.split(" / ").next().context("no variables")?;
    let (vars, data) = first.split_once(' ').unwrap_or((first, ""));
    let vars = targets(alloc, vars)?;
    let data_vars = datums(alloc, data.as_bytes())?;
    let autos = autos(alloc, text)?;
    Ok(Forest {
        autos,
        vars,
        data_vars,
    })
}

// The components of the parts but the first.
fn autos(alloc: Global, text: &str) -> Result<List<Auto>> {
    let mut autos = List::new(alloc);
    for part in text.split(" / ").skip(1) {
        autos.push(auto_of(alloc, part)?)?;
    }
    Ok(autos)
}

fn targets(alloc: Global, text: &str) -> Result<List<Target>> {
    let mut targets = List::new(alloc);
    if text != "-" {
        for byte in text.as_bytes() {
            targets.push(target(*byte).context("no such target")?)?;
        }
    }
    Ok(targets)
}

fn target(byte: u8) -> Option<Target> {
    match byte {
        b'n' => Some(Target::Null),
        b'u' => Some(Target::Uninit),
        b'd' => Some(Target::Dangling),
        _ => digit(byte).map(Target::At),
    }
}
