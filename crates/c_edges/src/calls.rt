// The links of the steps of a call: enter, leave and exit.
ghost use Rattle.std.specs.Prelude.{◌≡◌, ◌++◌, OnOk, IfOk};
ghost use Rattle.c_edges.specs.Calling.{enter_links, leave_links, exit_links, each_links, each_temps, end_temps};
ghost use Rattle.c_edges.specs.Calling.{back_links, over_links};

use crate::dying::end_vars;
use crate::giving::{add_nothing, give, hand, note_dest, note_given};
use c_cfg::link::Link;
use c_links::arrows::end_with;
use c_links::counts::Counts;
use c_types::program::{Arg, Dest, VarRef};
use fore_base::list::List;
use fore_base::memory::Mem;
use std::alloc::Global;

/// The links with which a call begins: each parameter is given its argument, from the left.
///
/// # Errors
///
/// Want of memory.
pub fn enter_links(
    alloc: Global,
    counts: &Counts,
    params: &[VarRef],
    args: &[Arg],
) -> Mem<List<Link>>
    ensures { IfOk result (λ links. links ≡ enter_links counts.now params.now args.now) }
{
    let mut links = List::new(alloc);
    add_enter(alloc, &mut links, counts, params, args)?;
    Ok(links)
}

#[tactic(auto, using(crate::proofs::Called::entering))]
fn add_enter(
    alloc: Global,
    links: &mut List<Link>,
    counts: &Counts,
    params: &[VarRef],
    args: &[Arg],
) -> Mem<()>
    ensures { OnOk result (links.new ≡ links.old ++ enter_links counts.now params.now args.now) }
{
    if params.is_empty() || args.is_empty() {
        return add_nothing(alloc, links);
    }
    give_each(alloc, links, counts, params, args)?;
    end_given(alloc, links, counts, args)
}

#[tactic(auto, using(crate::proofs::Called::giving))]
fn give_each(
    alloc: Global,
    links: &mut List<Link>,
    counts: &Counts,
    params: &[VarRef],
    args: &[Arg],
) -> Mem<()>
    ensures { OnOk result (links.new ≡ links.old ++ each_links counts.now params.now args.now) }
{
    for at in 0..params.len() {
        if at >= args.len() {
            return Ok(());
        }
        give(alloc, links, counts, &params[at], &args[at])?;
    }
    Ok(())
}

/// The temporary dies that the arguments used, if one did.
fn end_given(alloc: Global, links: &mut List<Link>, counts: &Counts, args: &[Arg]) -> Mem<()>
    ensures { OnOk result (links.new ≡ links.old ++ end_temps counts.now args.now) }
{
    let ptrs = each_used(alloc, counts, args)?;
    end_with(links, ptrs, List::new(alloc))
}

#[tactic(auto, using(crate::proofs::Called::using_temps))]
fn each_used(alloc: Global, counts: &Counts, args: &[Arg]) -> Mem<List<u32>>
    ensures { IfOk result (λ list. list ≡ each_temps counts.now args.now) }
{
    let mut list = List::new(alloc);
    for arg in args {
        note_given(&mut list, counts, arg)?;
        if !list.is_empty() {
            return Ok(list);
        }
    }
    Ok(list)
}

/// The links of a `return` of a function: its result is given what is returned, and its local variables die.
///
/// # Errors
///
/// Want of memory.
pub fn leave_links(
    alloc: Global,
    counts: &Counts,
    target: &Option<VarRef>,
    locals: &[VarRef],
    value: &Option<Arg>,
) -> Mem<List<Link>>
    ensures { IfOk result (λ links. links ≡ leave_links counts.now target.now locals.now value.now) }
{
    let mut links = List::new(alloc);
    add_leave(alloc, &mut links, counts, target, locals, value)?;
    Ok(links)
}

/// Adds them.
pub fn add_leave(
    alloc: Global,
    links: &mut List<Link>,
    counts: &Counts,
    target: &Option<VarRef>,
    locals: &[VarRef],
    value: &Option<Arg>,
) -> Mem<()>
    ensures { OnOk result (links.new ≡ links.old ++ leave_links counts.now target.now locals.now value.now) }
{
    match target {
        None => end_vars(alloc, links, &None, locals, List::new(alloc)),
        Some(to) => match value {
            None => end_vars(alloc, links, &None, locals, List::new(alloc)),
            Some(from) => give_back(alloc, links, counts, to, locals, from),
        },
    }
}

fn give_back(
    alloc: Global,
    links: &mut List<Link>,
    counts: &Counts,
    to: &VarRef,
    locals: &[VarRef],
    from: &Arg,
) -> Mem<()>
    ensures { OnOk result (links.new ≡ links.old ++ back_links counts.now to.now locals.now from.now) }
{
    give(alloc, links, counts, to, from)?;
    let mut temps = List::new(alloc);
    note_given(&mut temps, counts, from)?;
    end_vars(alloc, links, &None, locals, temps)
}

/// The links with which a call ends: the result is assigned, if it is wanted, and it and the parameters die.
///
/// # Errors
///
/// Want of memory.
pub fn exit_links(
    alloc: Global,
    counts: &Counts,
    source: &Option<VarRef>,
    params: &[VarRef],
    to: &Option<Dest>,
) -> Mem<List<Link>>
    ensures { IfOk result (λ links. links ≡ exit_links counts.now source.now params.now to.now) }
{
    let mut links = List::new(alloc);
    add_exit(alloc, &mut links, counts, source, params, to)?;
    Ok(links)
}

fn add_exit(
    alloc: Global,
    links: &mut List<Link>,
    counts: &Counts,
    source: &Option<VarRef>,
    params: &[VarRef],
    to: &Option<Dest>,
) -> Mem<()>
    ensures { OnOk result (links.new ≡ links.old ++ exit_links counts.now source.now params.now to.now) }
{
    match source {
        None => end_vars(alloc, links, source, params, List::new(alloc)),
        Some(from) => match to {
            None => end_vars(alloc, links, source, params, List::new(alloc)),
            Some(dest) => {
                hand(links, counts, from, dest)?;
                end_handed(alloc, links, counts, source, params, dest)
            }
        },
    }
}

/// The result and the parameters die, and the temporary that the target used.
fn end_handed(
    alloc: Global,
    links: &mut List<Link>,
    counts: &Counts,
    source: &Option<VarRef>,
    params: &[VarRef],
    to: &Dest,
) -> Mem<()>
    ensures { OnOk result (links.new ≡ links.old ++ over_links counts.now source.now params.now to.now) }
{
    let mut temps = List::new(alloc);
    note_dest(&mut temps, counts, to)?;
    end_vars(alloc, links, source, params, temps)
}
