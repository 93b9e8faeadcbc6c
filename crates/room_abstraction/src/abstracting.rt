// Kinds of rows on quotients by height. The forest of a row is canonical; its components are reduced first.
//
// - `quotient HEIGHT | FOREST | WANTED | ..`: the letter of the wanted forest that the quotient is like, a for the
//   first, and how many states each of its components has.
// - `abstracted HEIGHT | FOREST | WANTED | ..`: the letter alone, for the quotient with its components reduced.

ghost use Rattle.std.specs.Prelude.{◌≤◌, IfOk};
ghost use Rattle.fa_core.specs.Canonical.{IsCanonical};
ghost use Rattle.fa_core.specs.Covering.{Reduced};

use anyhow::{Result, bail};
use fa_abstract::abstracted;
use fa_core::forest::Forest;
use fa_height::abstract_height;
use fa_order::{is_canonical, reduce_forest};
use fa_sound::Sound;
use par_kit::crew::Crew;
use par_kit::gate::NoGate;
use row_forests::{boxed, letter};
use std::alloc::Global;
use std::thread::Threads;

// The answer to a row, by its kind.
pub fn answer_on_quotients<R: Threads + Sync>(
    rt: &R,
    alloc: Global,
    kind: &str,
    height: &str,
    first: &str,
    wanted: &[&str],
) -> Result<String> {
    let height = height.parse::<u32>()?;
    if height == 0 {
        bail!("no height");
    }
    let forest = canonical(rt, alloc, first)?;
    answer_on(rt, alloc, kind, &forest, height, wanted)
}

fn answer_on<R: Threads + Sync>(
    rt: &R,
    alloc: Global,
    kind: &str,
    forest: &Sound,
    height: u32,
    wanted: &[&str],
) -> Result<String>
    requires canonical { IsCanonical forest.now.face forest.now.forest }
    requires reduced { Reduced forest.now.forest }
    requires height { 1 ≤ height }
{
    match kind {
        "quotient" => quotient(alloc, forest, height, wanted),
        "abstracted" => reduced_quotient(rt, alloc, forest, height, wanted),
        _ => bail!("no such kind"),
    }
}

fn canonical<R: Threads + Sync>(rt: &R, alloc: Global, text: &str) -> Result<Sound>
    ensures canonical { IfOk result (λ s. IsCanonical s.face s.forest) }
    ensures reduced { IfOk result (λ s. Reduced s.forest) }
{
    let forest = boxed(alloc, text)?;
    reduced(rt, alloc, &forest)
}

fn reduced<R: Threads + Sync>(rt: &R, alloc: Global, forest: &Sound) -> Result<Sound>
    ensures canonical { IfOk result (λ s. IsCanonical s.face s.forest) }
    ensures reduced { IfOk result (λ s. Reduced s.forest) }
{
    let crew = Crew {
        jobs: 1,
        gate: &NoGate,
    };
    let made = reduce_forest(rt, alloc, forest, &crew)?;
    if !is_canonical(alloc, &made)? {
        bail!("not canonical");
    }
    Ok(made)
}

fn quotient(alloc: Global, forest: &Sound, height: u32, wanted: &[&str]) -> Result<String>
    requires canonical { IsCanonical forest.now.face forest.now.forest }
    requires reduced { Reduced forest.now.forest }
    requires height { 1 ≤ height }
{
    forest.known();
    let made = abstract_height(alloc, forest, height)?;
    sized_letter(alloc, made.forest(), wanted)
}

fn sized_letter(alloc: Global, made: &Forest, wanted: &[&str]) -> Result<String> {
    let letter = letter(alloc, made, wanted)?;
    let mut text = format!(in alloc; "{letter}")?;
    for auto in made.autos.as_slice() {
        write!(text, " {}", auto.states)?;
    }
    Ok(text)
}

fn reduced_quotient<R: Threads + Sync>(
    rt: &R,
    alloc: Global,
    forest: &Sound,
    height: u32,
    wanted: &[&str],
) -> Result<String>
    requires canonical { IsCanonical forest.now.face forest.now.forest }
    requires reduced { Reduced forest.now.forest }
    requires height { 1 ≤ height }
{
    let crew = Crew {
        jobs: 1,
        gate: &NoGate,
    };
    let made = abstracted(rt, alloc, forest, height, &crew)?;
    letter_text(alloc, made.forest(), wanted)
}

fn letter_text(alloc: Global, made: &Forest, wanted: &[&str]) -> Result<String> {
    let letter = letter(alloc, made, wanted)?;
    Ok(format!(in alloc; "{letter}")?)
}
