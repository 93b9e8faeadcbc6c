// Which kept forests cover which, by a memo and by the forests themselves.
//
// - `first | FOREST | ..`: for each forest the place of the first of them all that covers it, 0 for the first; behind a
//   bar how many answers the memo has when each is asked, and how many when each is asked again.

ghost use Rattle.std.specs.Prelude.{◌≡◌};
ghost use Rattle.fore_base.specs.Lists.{Every};
ghost use Rattle.fa_pool.specs.Pools.{IsKeptIn};
ghost use Rattle.fa_kept.specs.Memos.{Agrees};

use crate::keeping::keep_sounds;
use crate::showing::are_kept_in;
use anyhow::{Context, Result, bail};
use fa_core::faces::Face;
use fa_cover::first_cover;
use fa_kept::{Memo, first_kept};
use fa_pool::{Kept, Pool};
use fa_sound::Sound;
use par_kit::crew::Crew;
use par_kit::gate::NoGate;
use row_forests::{face, sounds_over};
use std::alloc::Global;
use std::thread::Threads;

pub fn firsts<R: Threads + Sync>(rt: &R, alloc: Global, texts: &[&str]) -> Result<String> {
    let face = face(alloc)?;
    firsts_over(rt, alloc, &face, texts)
}

fn firsts_over<R: Threads + Sync>(
    rt: &R,
    alloc: Global,
    face: &Face,
    texts: &[&str],
) -> Result<String> {
    let forests = sounds_over(alloc, face, texts)?;
    firsts_of(rt, alloc, face, forests.as_slice())
}

fn firsts_of<R: Threads + Sync>(
    rt: &R,
    alloc: Global,
    face: &Face,
    forests: &[Sound],
) -> Result<String>
    requires faces { Every (λ s. s.face ≡ face.now) forests.now }
{
    let mut pool = Pool::new(alloc);
    let nodes = keep_sounds(alloc, &mut pool, forests)?;
    firsts_in(rt, alloc, face, &pool, nodes.as_slice(), forests)
}

fn firsts_in<R: Threads + Sync>(
    rt: &R,
    alloc: Global,
    face: &Face,
    pool: &Pool,
    nodes: &[Kept],
    forests: &[Sound],
) -> Result<String>
    requires faces { Every (λ s. s.face ≡ face.now) forests.now }
{
    if !are_kept_in(pool, nodes) {
        bail!("no such number");
    }
    asked_twice(rt, alloc, face, pool, nodes, forests)
}

fn asked_twice<R: Threads + Sync>(
    rt: &R,
    alloc: Global,
    face: &Face,
    pool: &Pool,
    nodes: &[Kept],
    forests: &[Sound],
) -> Result<String>
    requires nodes { Every (IsKeptIn pool.now) nodes.now }
    requires faces { Every (λ s. s.face ≡ face.now) forests.now }
{
    let mut memo = Memo::new(alloc);
    let first = asked(rt, alloc, face, pool, &mut memo, nodes, forests)?;
    let once = memo.len();
    let again = asked(rt, alloc, face, pool, &mut memo, nodes, forests)?;
    if first != again {
        bail!("another answer when asked again");
    }
    Ok(format!(in alloc; "{first}| {once} {}", memo.len())?)
}

// The places, by the memo and by the forests themselves.
fn asked<R: Threads + Sync>(
    rt: &R,
    alloc: Global,
    face: &Face,
    pool: &Pool,
    memo: &mut Memo,
    nodes: &[Kept],
    forests: &[Sound],
) -> Result<String>
    requires agrees { Agrees memo.old pool.now }
    requires nodes { Every (IsKeptIn pool.now) nodes.now }
    requires faces { Every (λ s. s.face ≡ face.now) forests.now }
    ensures agrees { Agrees memo.new pool.now }
{
    let mut text = String::new(alloc);
    for (place, node) in nodes.iter().enumerate() {
        let found = first_by_memo(rt, alloc, pool, memo, nodes, node)?;
        let wanted = first_by_forests(rt, alloc, face, forests, place)?;
        if found != wanted {
            bail!("the memo answers otherwise than the forests");
        }
        put_place(&mut text, found)?;
    }
    Ok(text)
}

pub fn first_by_memo<R: Threads + Sync>(
    rt: &R,
    alloc: Global,
    pool: &Pool,
    memo: &mut Memo,
    nodes: &[Kept],
    node: &Kept,
) -> Result<Option<usize>>
    requires agrees { Agrees memo.old pool.now }
    requires nodes { Every (IsKeptIn pool.now) nodes.now }
    requires node { IsKeptIn pool.now node.now }
    ensures agrees { Agrees memo.new pool.now }
{
    let crew = Crew {
        jobs: 1,
        gate: &NoGate,
    };
    Ok(first_kept(rt, alloc, pool, memo, nodes, node, &crew)?)
}

fn first_by_forests<R: Threads + Sync>(
    rt: &R,
    alloc: Global,
    face: &Face,
    forests: &[Sound],
    place: usize,
) -> Result<Option<usize>>
    requires { Every (λ s. s.face ≡ face.now) forests.now }
{
    let forest = forests.get(place).context("no such forest")?;
    let crew = Crew {
        jobs: 1,
        gate: &NoGate,
    };
    Ok(first_cover(rt, alloc, forests, forest, &crew)?)
}

// The place, and a blank; - for none.
pub fn put_place(text: &mut String, place: Option<usize>) -> Result<()> {
    match place {
        Some(place) => write!(text, "{place} ")?,
        None => text.push_str("- ")?,
    }
    Ok(())
}
