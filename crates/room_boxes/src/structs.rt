// Structs as texts: item(next:item,key);bare() is a struct with a pointer to itself and a datum, and one without any.

use anyhow::{Context, Result, bail};
use fore_base::list::List;
use fore_base::shape::{FieldDef, FieldKind, Shape, Shapes};
use fore_base::text::Text;
use std::alloc::Global;

/// The structs of a text.
pub fn shapes_of(alloc: Global, all: &str) -> Result<Shapes> {
    let mut structs = List::new(alloc);
    for part in all.split(";") {
        let shape = shape_of(alloc, all, part)?;
        structs.push(shape)?;
    }
    Ok(Shapes { structs })
}

fn shape_of(alloc: Global, all: &str, part: &str) -> Result<Shape> {
    let (name, rest) = part.split_once("(").context("a struct without fields")?;
    let (words, _) = rest.split_once(")").context("fields without an end")?;
    let fields = fields_of(alloc, all, words)?;
    Ok(Shape {
        name: text_of(alloc, name)?,
        fields,
    })
}

fn fields_of(alloc: Global, all: &str, words: &str) -> Result<List<FieldDef>> {
    let mut fields = List::new(alloc);
    for word in words.split(",") {
        if !word.is_empty() {
            let field = field_of(alloc, all, word)?;
            fields.push(field)?;
        }
    }
    Ok(fields)
}

fn field_of(alloc: Global, all: &str, word: &str) -> Result<FieldDef> {
    match word.split_once(":") {
        Some((name, target)) => Ok(FieldDef {
            name: text_of(alloc, name)?,
            kind: FieldKind::Pointer(number_of(all, target)?),
        }),
        None => Ok(FieldDef {
            name: text_of(alloc, word)?,
            kind: FieldKind::Datum,
        }),
    }
}

/// The number of the struct of this name.
fn number_of(all: &str, target: &str) -> Result<u32> {
    let mut number: u32 = 0;
    for part in all.split(";") {
        if let Some((name, _)) = part.split_once("(") {
            if name == target {
                return Ok(number);
            }
        }
        number = number.saturating_add(1);
    }
    bail!("no such struct")
}

fn text_of(alloc: Global, word: &str) -> Result<Text> {
    let mut text = Text::new(alloc);
    text.put(word.as_bytes())?;
    Ok(text)
}
