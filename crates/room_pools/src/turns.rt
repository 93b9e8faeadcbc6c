// Forests that are kept in turn, each asked among those before it, as the pool grows.
//
// - `turns | FOREST | ..`: for each forest, kept when its turn comes, the place of the first before it that covers it,
//   0 for the first and - where none does; behind a bar how many automata there are in the end, and how many answers.

ghost use Rattle.std.specs.Prelude.{IfOk, OnOk};
ghost use Rattle.fore_base.specs.Lists.{Every};
ghost use Rattle.fa_pool.specs.Pools.{IsKeptIn};
ghost use Rattle.fa_kept.specs.Memos.{Agrees};

use crate::asking::{first_by_memo, put_place};
use anyhow::Result;
use fa_core::faces::Face;
use fa_kept::Memo;
use fa_kept::laws::grown_agrees;
use fa_pool::{Kept, Pool};
use fa_sound::Sound;
use fore_base::list::List;
use row_forests::{face, sounds_over};
use std::alloc::Global;
use std::thread::Threads;

pub fn turns<R: Threads + Sync>(rt: &R, alloc: Global, texts: &[&str]) -> Result<String> {
    let face = face(alloc)?;
    turns_over(rt, alloc, &face, texts)
}

fn turns_over<R: Threads + Sync>(
    rt: &R,
    alloc: Global,
    face: &Face,
    texts: &[&str],
) -> Result<String> {
    let forests = sounds_over(alloc, face, texts)?;
    taken(rt, alloc, forests.as_slice())
}

fn taken<R: Threads + Sync>(rt: &R, alloc: Global, forests: &[Sound]) -> Result<String> {
    let mut pool = Pool::new(alloc);
    let mut memo = Memo::new(alloc);
    taken_into(rt, alloc, &mut pool, &mut memo, forests)
}

fn taken_into<R: Threads + Sync>(
    rt: &R,
    alloc: Global,
    pool: &mut Pool,
    memo: &mut Memo,
    forests: &[Sound],
) -> Result<String>
    requires { Agrees memo.old pool.old }
{
    let text = take_all(rt, alloc, pool, memo, forests)?;
    Ok(format!(in alloc; "{text}| {} {}", pool.len(), memo.len())?)
}

fn take_all<R: Threads + Sync>(
    rt: &R,
    alloc: Global,
    pool: &mut Pool,
    memo: &mut Memo,
    forests: &[Sound],
) -> Result<String>
    requires { Agrees memo.old pool.old }
{
    let mut nodes = List::new(alloc);
    let mut text = String::new(alloc);
    for forest in forests {
        let kept = keep(alloc, pool, memo, nodes.as_slice(), forest)?;
        let found = first_by_memo(rt, alloc, pool, memo, nodes.as_slice(), &kept)?;
        put_place(&mut text, found)?;
        nodes.push(kept)?;
    }
    Ok(text)
}

// What agreed with the pool and was kept in it still does and is.
fn keep(alloc: Global, pool: &mut Pool, memo: &Memo, nodes: &[Kept], forest: &Sound) -> Result<Kept>
    requires agrees { Agrees memo.now pool.old }
    requires nodes { Every (IsKeptIn pool.old) nodes.now }
    ensures agrees { OnOk result (Agrees memo.now pool.new) }
    ensures nodes { OnOk result (Every (IsKeptIn pool.new) nodes.now) }
    ensures node { IfOk result (IsKeptIn pool.new) }
{
    grown_agrees();
    Ok(pool.keep(alloc, forest)?)
}
