// join: what is left of canonical forests that are joined.

ghost use Rattle.std.specs.Prelude.{◌≡◌, IfOk};
ghost use Rattle.fore_base.specs.Lists.{Every};
ghost use Rattle.fa_core.specs.Canonical.{IsCanonical};
ghost use Rattle.fa_core.specs.Covering.{Reduced};
ghost use Rattle.fa_core.specs.Faces.{IsGiving};

use anyhow::{Context, Result, bail};
use fa_core::faces::Face;
use fa_join::join_all;
use fa_order::{is_canonical, reduce_forest};
use fa_sound::Sound;
use fore_base::list::List;
use par_kit::crew::Crew;
use par_kit::gate::NoGate;
use row_forests::{boxed_over, face_with_boxes, letters};
use std::alloc::Global;
use std::thread::Threads;

// The first so many texts are joined; which of the others the forests are that are left.
pub fn join<R: Threads + Sync>(
    rt: &R,
    alloc: Global,
    count: &str,
    texts: &[&str],
) -> Result<String> {
    let count = count.parse::<usize>()?;
    let (given, others) = texts.split_at_checked(count).context("too few forests")?;
    let face = face_with_boxes(alloc)?;
    join_over(rt, alloc, &face, given, others)
}

fn join_over<R: Threads + Sync>(
    rt: &R,
    alloc: Global,
    face: &Face,
    given: &[&str],
    others: &[&str],
) -> Result<String>
    requires { Every IsGiving face.now.boxes }
{
    let made = joined(rt, alloc, face, given)?;
    letters(alloc, made.as_slice(), others)
}

fn joined<R: Threads + Sync>(
    rt: &R,
    alloc: Global,
    face: &Face,
    texts: &[&str],
) -> Result<List<Sound>>
    requires { Every IsGiving face.now.boxes }
{
    let forests = all_ready(rt, alloc, face, texts)?;
    let crew = Crew {
        jobs: 1,
        gate: &NoGate,
    };
    Ok(join_all(rt, alloc, face, forests, &crew)?)
}

fn all_ready<R: Threads + Sync>(
    rt: &R,
    alloc: Global,
    face: &Face,
    texts: &[&str],
) -> Result<List<Sound>>
    ensures faces { IfOk result (Every (λ s. s.face ≡ face.now)) }
    ensures canonical { IfOk result (Every (λ s. IsCanonical s.face s.forest)) }
    ensures reduced { IfOk result (Every (λ s. Reduced s.forest)) }
{
    let mut all = List::new(alloc);
    for text in texts {
        let made = ready(rt, alloc, face, text)?;
        all.push(made)?;
    }
    Ok(all)
}

// The forest over the face, which is canonical, reduced.
fn ready<R: Threads + Sync>(rt: &R, alloc: Global, face: &Face, text: &str) -> Result<Sound>
    ensures face { IfOk result (λ s. s.face ≡ face.now) }
    ensures canonical { IfOk result (λ s. IsCanonical s.face s.forest) }
    ensures reduced { IfOk result (λ s. Reduced s.forest) }
{
    let forest = boxed_over(alloc, face, text)?;
    reduced(rt, alloc, &forest)
}

fn reduced<R: Threads + Sync>(rt: &R, alloc: Global, forest: &Sound) -> Result<Sound>
    ensures face { IfOk result (λ s. s.face ≡ forest.now.face) }
    ensures canonical { IfOk result (λ s. IsCanonical s.face s.forest) }
    ensures reduced { IfOk result (λ s. Reduced s.forest) }
{
    if !is_canonical(alloc, forest)? {
        bail!("not canonical");
    }
    let crew = Crew {
        jobs: 1,
        gate: &NoGate,
    };
    Ok(reduce_forest(rt, alloc, forest, &crew)?)
}
