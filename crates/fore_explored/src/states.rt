// The texts of abstract states, and of what a trace ends with.
ghost use Rattle.std.specs.Prelude.{◌≡◌, ◌++◌, ◌∷◌, [], codes, flat_map, OnOk};
ghost use Rattle.fa_print.specs.Conditions.{IsForestOf, IsStoreOf};
ghost use Rattle.fa_print.specs.Lines.{line};
ghost use Rattle.fa_print.specs.Texts.{forest_text, store_text};
ghost use Rattle.fore_explored.specs.Texts as spec;

use crate::heads::put_number_word;
use c_types::program::Typed;
use fa_core::folds::FoldStep;
use fa_core::table::BoxTable;
use fa_print::{box_name, print_forest, print_store};
use fa_sound::sound::Sound;
use fore_base::memory::Mem;
use fore_base::store::Store;
use fore_base::text::Text;
use std::alloc::Global;

/// The text of a forest.
pub fn put_forest(
    alloc: Global,
    text: &mut Text,
    table: &BoxTable,
    program: &Typed,
    forest: &Sound,
) -> Mem<()>
    requires { IsForestOf table.now program.now forest.now }
    ensures { OnOk result (text.new ≡ text.old ++ forest_text table.now program.now forest.now.forest) }
{
    let printed = print_forest(alloc, forest, table, program)?;
    text.put(printed.as_slice())?;
    Ok(())
}

/// The line of a fold.
fn put_fold(text: &mut Text, table: &BoxTable, fold: &FoldStep) -> Mem<()>
    ensures { OnOk result (text.new ≡ text.old ++ spec.fold_line table.now fold.now) }
{
    text.put(b"fold ")?;
    text.put(box_name(table, fold.box_no))?;
    text.put(b" ")?;
    text.put_number(fold.input as u64)?;
    text.put(b" ")?;
    put_number_word(text, fold.output)?;
    text.put(b"\n")?;
    Ok(())
}

/// The lines of folds, in order.
fn put_folds(text: &mut Text, table: &BoxTable, folds: &[FoldStep]) -> Mem<()>
    ensures { OnOk result (text.new ≡ text.old ++ flat_map (spec.fold_line table.now) folds.now) }
{
    for fold in folds {
        put_fold(text, table, fold)?;
    }
    Ok(())
}

/// The forest before a state was folded and abstracted, behind the folds.
pub fn put_settled(
    alloc: Global,
    text: &mut Text,
    table: &BoxTable,
    program: &Typed,
    folds: &[FoldStep],
    middle: &Sound,
) -> Mem<()>
    requires { IsForestOf table.now program.now middle.now }
    ensures { OnOk result (text.new ≡ text.old ++ (flat_map (spec.fold_line table.now) folds.now
        ++ (line (codes "middle" ∷ []) ++ forest_text table.now program.now middle.now.forest))) }
{
    put_folds(text, table, folds)?;
    text.put(b"middle\n")?;
    put_forest(alloc, text, table, program, middle)?;
    Ok(())
}

/// The text of a store.
fn put_store(alloc: Global, text: &mut Text, program: &Typed, store: &Store) -> Mem<()>
    requires { IsStoreOf program.now store.now }
    ensures { OnOk result (text.new ≡ text.old ++ store_text program.now store.now) }
{
    let printed = print_store(alloc, store, program)?;
    text.put(printed.as_slice())?;
    Ok(())
}

/// Adds the text of what a trace ends with: the members of its last node that meet the fault, and one of them. Err is
/// want of memory.
pub fn put_last(
    alloc: Global,
    text: &mut Text,
    table: &BoxTable,
    program: &Typed,
    last: &Sound,
    sample: &Store,
) -> Mem<()>
    requires forest { IsForestOf table.now program.now last.now }
    requires store { IsStoreOf program.now sample.now }
    ensures { OnOk result
        (text.new ≡ text.old ++ spec.last_text table.now program.now last.now.forest sample.now) }
{
    text.put(b"last\n")?;
    put_forest(alloc, text, table, program, last)?;
    put_store(alloc, text, program, sample)?;
    Ok(())
}
