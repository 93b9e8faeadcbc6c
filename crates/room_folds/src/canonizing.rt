// The canonical forms of the forest after all folds, and what an edge of them is unfolded into.

ghost use Rattle.std.specs.Prelude.{◌≡◌, IfOk};

use anyhow::{Result, bail};
use fa_canon::canonical;
use fa_core::laws::tables_give;
use fa_core::table::BoxTable;
use fa_fold::fold_all;
use fa_merge::leaking_root;
use fa_sound::Sound;
use fore_base::list::List;
use par_kit::crew::Crew;
use par_kit::gate::NoGate;
use row_boxes::unfolded_letters;
use row_forests::{boxed_from, letters};
use std::alloc::Global;
use std::thread::Threads;

// canonical: which of the wanted forests the canonical forms are.
pub fn canonical_letters<R: Threads + Sync>(
    rt: &R,
    alloc: Global,
    forest: &Sound,
    table: &BoxTable,
    wanted: &[&str],
) -> Result<String>
    requires { table.now.face ≡ forest.now.face }
{
    let made = canonical_folded(rt, alloc, forest, table)?;
    letters(alloc, made.as_slice(), wanted)
}

// unfolded ROOT SLOT: which of the wanted forests those are into which the edge at the slot of the root is unfolded,
// where there is one canonical form.
pub fn unfolded_answer<R: Threads + Sync>(
    rt: &R,
    alloc: Global,
    forest: &Sound,
    table: &BoxTable,
    root: u32,
    slot: u32,
    wanted: &[&str],
) -> Result<String>
    requires { table.now.face ≡ forest.now.face }
{
    let form = only_form(rt, alloc, forest, table)?;
    unfolded_letters(alloc, &form, table, root, slot, wanted)
}

// The canonical form, over the faces of the table, where there is one.
fn only_form<R: Threads + Sync>(
    rt: &R,
    alloc: Global,
    forest: &Sound,
    table: &BoxTable,
) -> Result<Sound>
    requires { table.now.face ≡ forest.now.face }
    ensures { IfOk result (λ s. s.face ≡ table.now.face) }
{
    let made = canonical_folded(rt, alloc, forest, table)?;
    if made.len() != 1 {
        bail!("not one canonical form");
    }
    boxed_from(alloc, table.face(), made.at(0).forest())
}

// The canonical forms of the forest after all folds, where none of its members leaks.
fn canonical_folded<R: Threads + Sync>(
    rt: &R,
    alloc: Global,
    forest: &Sound,
    table: &BoxTable,
) -> Result<List<Sound>>
    requires { table.now.face ≡ forest.now.face }
{
    table.known();
    tables_give();
    let (folded, _) = fold_all(alloc, forest, table)?;
    match leaking_root(alloc, &folded)? {
        Some(_) => bail!("a leak"),
        None => {
            let crew = Crew {
                jobs: 1,
                gate: &NoGate,
            };
            Ok(canonical(rt, alloc, &folded, &crew)?)
        }
    }
}
