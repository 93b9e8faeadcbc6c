// The hops by which roots are reached: from a root to those to which its trees refer, and by ways back.

ghost use Rattle.std.specs.Prelude.{◌≡◌, ◌<◌, ◌++◌, ◌^◌, [], length, map, flat_map, replicate, IfOk, OnOk};
ghost use Rattle.fore_base.specs.Lists.{Every};
ghost use Rattle.fa_back.specs.BackHops.{hop, own_hops, back_hops};
ghost use Rattle.fa_back.specs.Reached.{AllNameBelow};
ghost use Rattle.fa_back.specs.inner.HopTables.{mark_hops, tree_hops, put_hop, put_hops, table_of};

use fa_core::signature::{RefMark, Signature};
use fore_base::list::{Copies, List};
use fore_base::memory::Mem;
use std::alloc::{AllocError, Global};

/// Where root `from` is reached, root `to` is too.
#[derive(Clone, Copy, PartialEq, Eq)]
pub struct Hop {
    pub from: u32,
    pub to: u32,
}

impl Copies for Hop {
    fn copy(&self, _alloc: Global) -> Result<Hop, AllocError> {
        Ok(*self)
    }
}

/// For each root those to which it leads at once.
pub fn hop_table(alloc: Global, signatures: &[Signature]) -> Mem<List<List<u32>>>
    requires count { length signatures.now < 2 ^ 32 }
    requires within { AllNameBelow (length signatures.now) signatures.now }
    ensures { IfOk result (λ table. table ≡ table_of signatures.now) }
{
    let hops = tree_hops(alloc, signatures)?;
    let mut table = empty_rows(alloc, signatures.len())?;
    put_hops(&mut table, hops.as_slice())?;
    Ok(table)
}

fn empty_rows(alloc: Global, count: usize) -> Mem<List<List<u32>>>
    ensures { IfOk result (λ rows. rows ≡ replicate count []) }
{
    let mut rows = List::new(alloc);
    for _place in 0..count {
        rows.push(List::new(alloc))?;
    }
    Ok(rows)
}

fn put_hops(table: &mut List<List<u32>>, hops: &[Hop]) -> Mem<()>
    requires { Every (λ h. h.from < length table.old) hops.now }
    ensures { OnOk result (table.new ≡ put_hops table.old hops.now) }
{
    for hop in hops {
        put_hop(table, hop)?;
    }
    Ok(())
}

fn put_hop(table: &mut List<List<u32>>, hop: &Hop) -> Mem<()>
    requires { hop.now.from < length table.old }
    ensures { OnOk result (table.new ≡ put_hop table.old hop.now) }
{
    let row = table.at_mut(hop.from as usize);
    row.push(hop.to)?;
    Ok(())
}

fn tree_hops(alloc: Global, signatures: &[Signature]) -> Mem<List<Hop>>
    requires { length signatures.now < 2 ^ 32 }
    ensures { IfOk result (λ hops. hops ≡ tree_hops 0 signatures.now) }
{
    let mut hops = List::new(alloc);
    let mut root: u32 = 0;
    for signature in signatures {
        push_marks(&mut hops, root, signature.refs.as_slice())?;
        root += 1;
    }
    Ok(hops)
}

fn push_marks(hops: &mut List<Hop>, root: u32, marks: &[RefMark]) -> Mem<()>
    ensures { OnOk result (hops.new ≡ hops.old ++ flat_map (mark_hops root) marks.now) }
{
    for mark in marks {
        push_mark(hops, root, mark)?;
    }
    Ok(())
}

fn push_mark(hops: &mut List<Hop>, root: u32, mark: &RefMark) -> Mem<()>
    ensures { OnOk result (hops.new ≡ hops.old ++ mark_hops root mark.now) }
{
    hops.push(Hop {
        from: root,
        to: mark.root,
    })?;
    push_backs(hops, root, mark)?;
    Ok(())
}

/// Adds the hops of the ways back by a mark of the trees of this root. Err is want of memory.
pub fn push_backs(hops: &mut List<Hop>, root: u32, mark: &RefMark) -> Mem<()>
    ensures { OnOk result (hops.new ≡ hops.old ++ back_hops root mark.now) }
{
    push_own(hops, root, mark)?;
    push_reach(hops, mark.root, mark.reach.as_slice())?;
    Ok(())
}

fn push_own(hops: &mut List<Hop>, root: u32, mark: &RefMark) -> Mem<()>
    ensures { OnOk result (hops.new ≡ hops.old ++ own_hops root mark.now) }
{
    if mark.back {
        hops.push(Hop {
            from: mark.root,
            to: root,
        })?;
    }
    Ok(())
}

fn push_reach(hops: &mut List<Hop>, from: u32, roots: &[u32]) -> Mem<()>
    ensures { OnOk result (hops.new ≡ hops.old ++ map (hop from) roots.now) }
{
    for root in roots {
        hops.push(Hop { from, to: *root })?;
    }
    Ok(())
}
