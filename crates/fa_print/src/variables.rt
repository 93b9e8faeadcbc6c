// The lines of variables.
ghost use Rattle.std.specs.Prelude.{◌≡◌, ◌++◌, ◌∷◌, [], codes, decimal, OnOk};
ghost use Rattle.fa_print.specs.Names as naming;
ghost use Rattle.fa_print.specs.Texts as spec;

use c_types::program::Typed;
use fa_core::forest::Target;
use fore_base::memory::Mem;
use fore_base::store::{Datum, Value};
use fore_base::text::Text;

/// The name of a temporary.
fn put_temporary(text: &mut Text, number: usize) -> Mem<()>
    ensures { OnOk result (text.new ≡ text.old ++ (codes "$" ++ decimal number)) }
{
    text.put(b"$")?;
    text.put_number(number as u64)?;
    Ok(())
}

/// The name of a pointer variable.
fn put_pointer_name(text: &mut Text, program: &Typed, number: usize) -> Mem<()>
    ensures { OnOk result
        (text.new ≡ text.old ++ naming.variable_name (naming.pointer_variables program.now) number) }
{
    let vars = program.vars.as_slice();
    if number < vars.len() {
        text.put(vars[number].name.as_slice())
    } else {
        put_temporary(text, number - vars.len())
    }
}

/// The name of a data variable.
fn put_datum_name(text: &mut Text, program: &Typed, number: usize) -> Mem<()>
    ensures { OnOk result (text.new ≡ text.old ++ naming.variable_name program.now.data_vars number) }
{
    let names = program.data_vars.as_slice();
    if number < names.len() {
        text.put(names[number].as_slice())
    } else {
        put_temporary(text, number - names.len())
    }
}

/// The beginning of a line of a pointer variable.
fn put_pointer(text: &mut Text, program: &Typed, number: usize) -> Mem<()>
    ensures { OnOk result (text.new ≡ text.old ++ (codes "var " ++ (decimal number ++ (codes " "
        ++ naming.variable_name (naming.pointer_variables program.now) number)))) }
{
    text.put(b"var ")?;
    text.put_number(number as u64)?;
    text.put(b" ")?;
    put_pointer_name(text, program, number)?;
    Ok(())
}

fn put_named(text: &mut Text, program: &Typed, number: usize, word: &[u8]) -> Mem<()>
    ensures { OnOk result (text.new ≡ text.old
        ++ spec.variable_line (codes "var") (naming.pointer_variables program.now) number (word.now ∷ [])) }
{
    put_pointer(text, program, number)?;
    text.put(b" ")?;
    text.put(word)?;
    text.put(b"\n")?;
    Ok(())
}

fn put_numbered(text: &mut Text, program: &Typed, number: usize, word: &[u8], value: u64) -> Mem<()>
    ensures { OnOk result (text.new ≡ text.old
        ++ spec.variable_line (codes "var") (naming.pointer_variables program.now) number
        (word.now ∷ decimal value ∷ [])) }
{
    put_pointer(text, program, number)?;
    text.put(b" ")?;
    text.put(word)?;
    text.put(b" ")?;
    text.put_number(value)?;
    text.put(b"\n")?;
    Ok(())
}

/// The line of a pointer variable of a forest.
fn put_target(text: &mut Text, program: &Typed, number: usize, target: Target) -> Mem<()>
    ensures { OnOk result (text.new ≡ text.old
        ++ spec.variable_line (codes "var") (naming.pointer_variables program.now) number (spec.target_words target)) }
{
    match target {
        Target::Uninit => Ok(()),
        Target::Null => put_named(text, program, number, b"null"),
        Target::Dangling => put_named(text, program, number, b"dangling"),
        Target::At(root) => put_numbered(text, program, number, b"ref", root as u64),
    }
}

/// The line of a pointer variable of a store.
fn put_pointer_value(text: &mut Text, program: &Typed, number: usize, value: Value) -> Mem<()>
    ensures { OnOk result (text.new ≡ text.old
        ++ spec.variable_line (codes "var") (naming.pointer_variables program.now) number (spec.value_words value)) }
{
    match value {
        Value::Uninit => Ok(()),
        Value::Null => put_named(text, program, number, b"null"),
        Value::Dangling => put_named(text, program, number, b"dangling"),
        Value::Cell(cell) => put_numbered(text, program, number, b"cell", cell),
    }
}

/// The line of a data variable that has a value.
fn put_known(text: &mut Text, program: &Typed, number: usize, known: u8) -> Mem<()>
    ensures { OnOk result (text.new ≡ text.old
        ++ spec.variable_line (codes "data") program.now.data_vars number (decimal known ∷ [])) }
{
    text.put(b"data ")?;
    text.put_number(number as u64)?;
    text.put(b" ")?;
    put_datum_name(text, program, number)?;
    text.put(b" ")?;
    text.put_number(known as u64)?;
    text.put(b"\n")?;
    Ok(())
}

/// The line of a data variable.
fn put_datum_line(text: &mut Text, program: &Typed, number: usize, datum: Datum) -> Mem<()>
    ensures { OnOk result (text.new ≡ text.old
        ++ spec.variable_line (codes "data") program.now.data_vars number (spec.datum_words datum)) }
{
    match datum {
        Datum::Undefined => Ok(()),
        Datum::Known(known) => put_known(text, program, number, known),
    }
}

/// The lines of the pointer variables of a forest.
pub fn put_targets(text: &mut Text, program: &Typed, targets: &[Target]) -> Mem<()>
    ensures { OnOk result
        (text.new ≡ text.old ++ spec.target_lines (naming.pointer_variables program.now) 0 targets.now) }
{
    for (i, target) in targets.iter().enumerate() {
        put_target(text, program, i, *target)?;
    }
    Ok(())
}

/// The lines of the pointer variables of a store.
pub fn put_values(text: &mut Text, program: &Typed, values: &[Value]) -> Mem<()>
    ensures { OnOk result
        (text.new ≡ text.old ++ spec.value_lines (naming.pointer_variables program.now) 0 values.now) }
{
    for (i, value) in values.iter().enumerate() {
        put_pointer_value(text, program, i, *value)?;
    }
    Ok(())
}

/// The lines of data variables.
pub fn put_datum_lines(text: &mut Text, program: &Typed, datums: &[Datum]) -> Mem<()>
    ensures { OnOk result (text.new ≡ text.old ++ spec.datum_lines program.now.data_vars 0 datums.now) }
{
    for (i, datum) in datums.iter().enumerate() {
        put_datum_line(text, program, i, *datum)?;
    }
    Ok(())
}
