// What names, paths and operands are.
ghost use Rattle.std.specs.Prelude.{◌≡◌, IfOk};
ghost use Rattle.c_typing.specs.Meanings.{variable, meaning_of_name, field_meaning, followed, meaning_of_path, numeral};
ghost use Rattle.c_typing.specs.Meanings.{number_meaning, meaning_of_operand, place_of_operand, longer};

use c_ast::{Operand, Path as Named};
use c_scopes::scopes::Scope;
use c_tables::tables::Tables;
use c_types::{DataPath, Path};
use c_typing::{FieldUse, Kind, Meaning};
use fore_base::list::List;
use fore_base::memory::Mem;
use fore_base::place::Place;
use std::alloc::Global;

/// The variable of this kind and number.
pub fn variable(alloc: Global, kind: Kind, number: u32) -> Meaning
    ensures { result ≡ variable kind number }
{
    match kind {
        Kind::Points(to) => {
            let path = Path {
                var: number,
                fields: List::new(alloc),
            };
            Meaning::Pointer { path, to }
        }
        Kind::Datum => Meaning::Datum(DataPath::Var(number)),
    }
}

/// What a name is: the innermost variable in scope, else the enumerator.
pub fn meaning_of_name(alloc: Global, tables: &Tables, scope: &Scope, name: &[u8]) -> Meaning
    ensures { result ≡ meaning_of_name tables.now scope.now name.now }
{
    match scope.find(name) {
        Some(found) => variable(alloc, found.kind, found.number),
        None => match tables.value_of(name) {
            Some(value) => Meaning::Known(value),
            None => Meaning::Broken,
        },
    }
}

/// The pointer that one more pointer field leads to.
fn longer(path: Path, field: u32) -> Mem<Path>
    ensures { IfOk result (λ more. more ≡ longer path field) }
{
    let Path { var, fields } = path;
    let mut fields = fields;
    fields.push(field)?;
    Ok(Path { var, fields })
}

fn field_meaning(path: Path, field: Option<FieldUse>) -> Mem<Meaning>
    ensures { IfOk result (λ meaning. meaning ≡ field_meaning path field) }
{
    match field {
        None => Ok(Meaning::Broken),
        Some(FieldUse::Pointer { number, to }) => {
            let path = longer(path, number)?;
            Ok(Meaning::Pointer { path, to })
        }
        Some(FieldUse::Datum { number }) => Ok(Meaning::Datum(DataPath::Field {
            base: path,
            field: number,
        })),
    }
}

/// What one arrow leads to.
pub fn followed(tables: &Tables, meaning: Meaning, name: &[u8]) -> Mem<Meaning>
    ensures { IfOk result (λ next. next ≡ followed tables.now meaning name.now) }
{
    match meaning {
        Meaning::Pointer { path, to } => match to {
            Some(shape) => field_meaning(path, tables.field_of(shape, name)),
            None => Ok(Meaning::Broken),
        },
        Meaning::Datum(_)
        | Meaning::Known(_)
        | Meaning::Zero
        | Meaning::Null
        | Meaning::Call
        | Meaning::Broken => Ok(Meaning::Broken),
    }
}

/// What a path is.
pub fn meaning_of_path(alloc: Global, tables: &Tables, scope: &Scope, path: &Named) -> Mem<Meaning>
    ensures { IfOk result (λ meaning. meaning ≡ meaning_of_path tables.now scope.now path.now) }
{
    let mut meaning = meaning_of_name(alloc, tables, scope, path.head.text.as_slice());
    for arrow in path.arrows.as_slice() {
        meaning = followed(tables, meaning, arrow.field.text.as_slice())?;
    }
    Ok(meaning)
}

/// The number that is written so, from 0 to 15.
fn numeral(text: &[u8]) -> u8
    ensures { result ≡ numeral text.now }
{
    match text {
        [digit] => if *digit >= 48 && *digit < 58 {
            *digit - 48
        } else {
            0
        },
        [first, digit] => if *first == 49 && *digit >= 48 && *digit < 54 {
            *digit - 38
        } else {
            0
        },
        _ => 0,
    }
}

fn number_meaning(number: u8) -> Meaning
    ensures { result ≡ number_meaning number }
{
    if number == 0 {
        Meaning::Zero
    } else {
        Meaning::Known(number)
    }
}

/// What an operand is.
#[tactic(auto, using(c_typing::proofs::ConditionLayers::condition_layers))]
pub fn meaning_of_operand(
    alloc: Global,
    tables: &Tables,
    scope: &Scope,
    operand: &Operand,
) -> Mem<Meaning>
    ensures { IfOk result (λ meaning. meaning ≡ meaning_of_operand tables.now scope.now operand.now) }
{
    match operand {
        Operand::Path(path) => meaning_of_path(alloc, tables, scope, path),
        Operand::Call(_) => Ok(Meaning::Call),
        Operand::Number(name) => Ok(number_meaning(numeral(name.text.as_slice()))),
        Operand::Null { .. } => Ok(Meaning::Null),
        Operand::True { .. } => Ok(Meaning::Known(1)),
        Operand::False { .. } => Ok(Meaning::Known(0)),
    }
}

/// The place of the first token of an operand.
#[tactic(auto, using(c_typing::proofs::ConditionLayers::condition_layers))]
pub fn place_of_operand(operand: &Operand) -> Place
    ensures { result ≡ place_of_operand operand.now }
{
    match operand {
        Operand::Path(path) => path.head.at,
        Operand::Call(call) => call.name.at,
        Operand::Number(name) => name.at,
        Operand::Null { at } | Operand::True { at } | Operand::False { at } => *at,
    }
}
