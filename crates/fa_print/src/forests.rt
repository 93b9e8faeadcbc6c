// The texts of forests.
ghost use Rattle.std.specs.Prelude.{◌≡◌, IfOk};
ghost use Rattle.fa_print.specs.Conditions.{IsForestOf};
ghost use Rattle.fa_print.specs.Texts.{forest_text};

use crate::components::put_components;
use crate::variables::{put_datum_lines, put_targets};
use c_types::program::Typed;
use fa_core::table::BoxTable;
use fa_sound::sound::Sound;
use fore_base::memory::Mem;
use fore_base::text::Text;
use std::alloc::Global;

/// The text of a forest over the table, with the names of the program's variables: a line for each variable that is
/// initialised, and its components with their rules in order of state. The forest has the program's variables and two
/// temporaries of each kind, which are named `$0` and `$1`. Err is want of memory.
pub fn print_forest(alloc: Global, forest: &Sound, table: &BoxTable, program: &Typed) -> Mem<Text>
    requires { IsForestOf table.now program.now forest.now }
    ensures { IfOk result (λ text. text ≡ forest_text table.now program.now forest.now.forest) }
{
    let mut text = Text::new(alloc);
    let forest = forest.forest();
    text.put(b"forest\n")?;
    put_targets(&mut text, program, forest.vars.as_slice())?;
    put_datum_lines(&mut text, program, forest.data_vars.as_slice())?;
    put_components(alloc, &mut text, table, forest.autos.as_slice())?;
    Ok(text)
}
