// The links of acts.
ghost use Rattle.std.specs.Prelude.{◌≡◌, ◌+◌, ◌++◌, slice_get, OnOk, IfOk};
ghost use Rattle.c_types.specs.Steps.{below};
ghost use Rattle.c_edges.specs.ActLinks.{links_of};
ghost use Rattle.c_edges.specs.inner.Counted.{round_links, return_links, end_links, returned_links};

use crate::calls::add_leave;
use crate::data::set_data;
use crate::operands::load_datum;
use c_cfg::graph::Instr;
use c_cfg::link::Link;
use c_links::arrows::add;
use c_links::counts::Counts;
use c_links::pointers::{free, set_ptr};
use c_types::program::{Act, Arg, DataPath, Func};
use fore_base::list::{Copies, List};
use fore_base::memory::Mem;
use std::alloc::Global;

/// The links of an act of a program with these functions besides `main`. Where the round of its loop ends, these
/// pointers and data die.
///
/// # Errors
///
/// Want of memory.
pub fn act_links(
    alloc: Global,
    counts: &Counts,
    funcs: &List<Func>,
    act: &Act,
    ptrs: &List<u32>,
    datums: &List<u32>,
) -> Mem<List<Link>>
    ensures { IfOk result (λ links. links
        ≡ links_of funcs.now counts.now.ptrs counts.now.datums ptrs.now datums.now act.now) }
{
    let mut links = List::new(alloc);
    add_act(alloc, &mut links, counts, funcs, act, ptrs, datums)?;
    Ok(links)
}

fn add_act(
    alloc: Global,
    links: &mut List<Link>,
    counts: &Counts,
    funcs: &List<Func>,
    act: &Act,
    ptrs: &List<u32>,
    datums: &List<u32>,
) -> Mem<()>
    ensures { OnOk result (links.new
        ≡ links.old ++ links_of funcs.now counts.now.ptrs counts.now.datums ptrs.now datums.now act.now) }
{
    match act {
        Act::SetPtr { to, from } => set_ptr(alloc, links, counts, to, from),
        Act::SetData { to, from } => set_data(alloc, links, counts, to, from),
        Act::Free(path) => free(alloc, links, counts, path),
        Act::Error => add(links, Instr::Stop { error: true }),
        Act::Halt => add(links, Instr::Stop { error: false }),
        Act::Return(operand) => finish(alloc, links, counts, operand),
        Act::Leave { func, value } => go_back(alloc, links, counts, funcs, *func, value),
        Act::Break => end_round(alloc, links, ptrs, datums),
        Act::Continue => end_round(alloc, links, ptrs, datums),
    }
}

/// A `return` of a function; one of a function that is not there, which no program has, ends the run.
fn go_back(
    alloc: Global,
    links: &mut List<Link>,
    counts: &Counts,
    funcs: &List<Func>,
    func: u32,
    value: &Option<Arg>,
) -> Mem<()>
    ensures { OnOk result (links.new ≡ links.old ++ returned_links counts.now (slice_get funcs.now func) value.now) }
{
    match funcs.get(func as usize) {
        None => add(links, Instr::Stop { error: false }),
        Some(left) => add_leave(
            alloc,
            links,
            counts,
            &left.result,
            left.locals.as_slice(),
            value,
        ),
    }
}

/// The variables of the blocks up to the end of the round die.
fn end_round(alloc: Global, links: &mut List<Link>, ptrs: &List<u32>, datums: &List<u32>) -> Mem<()>
    ensures { OnOk result (links.new ≡ links.old ++ round_links ptrs.now datums.now) }
{
    let ptrs = ptrs.copy(alloc)?;
    let datums = datums.copy(alloc)?;
    add(links, Instr::Kill { ptrs, datums })
}

/// A `return` reads its operand, and then all variables die.
fn finish(
    alloc: Global,
    links: &mut List<Link>,
    counts: &Counts,
    operand: &Option<DataPath>,
) -> Mem<()>
    ensures { OnOk result (links.new ≡ links.old ++ return_links counts.now operand.now) }
{
    if let Some(path) = operand {
        load_datum(links, counts.first_ptr(), counts.first_datum(), path)?;
        return end_all(alloc, links, counts);
    }
    end_all(alloc, links, counts)
}

fn end_all(alloc: Global, links: &mut List<Link>, counts: &Counts) -> Mem<()>
    ensures { OnOk result (links.new ≡ links.old ++ end_links counts.now) }
{
    let ptrs = all_below(alloc, counts.all_ptrs())?;
    let datums = all_below(alloc, counts.all_datums())?;
    add(links, Instr::Kill { ptrs, datums })
}

/// The numbers below a number.
#[tactic(auto, using(crate::proofs::Counting::counting))]
fn all_below(alloc: Global, end: u32) -> Mem<List<u32>>
    ensures { IfOk result (λ list. list ≡ below end) }
{
    let mut list = List::new(alloc);
    for number in 0..end {
        list.push(number)?;
    }
    Ok(list)
}
