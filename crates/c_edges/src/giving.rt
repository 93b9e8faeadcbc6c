// The links by which a call gives a value to a variable, and hands the value of one over.
ghost use Rattle.std.specs.Prelude.{◌≡◌, ◌++◌, OnOk};
ghost use Rattle.c_edges.specs.Calling.{nothing_links, given_links, datum_given_links, given_temps, handed_links};
ghost use Rattle.c_edges.specs.Calling.{datum_handed_links, dest_temps};

use crate::data::store_from;
use crate::operands::{load_datum, note_base, note_op_base};
use c_cfg::graph::{DataArg, Instr};
use c_cfg::link::Link;
use c_links::arrows::{add, note_before};
use c_links::counts::Counts;
use c_links::giving::{give_ptr, hand_ptr};
use c_types::program::{Arg, DataOp, DataPath, Dest, PtrOp, VarRef};
use fore_base::list::List;
use fore_base::memory::Mem;
use std::alloc::Global;

/// Adds an edge that does nothing.
pub fn add_nothing(alloc: Global, links: &mut List<Link>) -> Mem<()>
    ensures { OnOk result (links.new ≡ links.old ++ nothing_links) }
{
    let ptrs = List::new(alloc);
    let datums = List::new(alloc);
    add(links, Instr::Kill { ptrs, datums })
}

/// A variable is given an operand of its kind; one of the other kind, which no program has, does nothing.
pub fn give(
    alloc: Global,
    links: &mut List<Link>,
    counts: &Counts,
    to: &VarRef,
    from: &Arg,
) -> Mem<()>
    ensures { OnOk result (links.new ≡ links.old ++ given_links counts.now to.now from.now) }
{
    match to {
        VarRef::Ptr(var) => match from {
            Arg::Ptr(op) => give_ptr(links, counts, *var, op),
            Arg::Data(_) => add_nothing(alloc, links),
        },
        VarRef::Data(var) => match from {
            Arg::Ptr(_) => add_nothing(alloc, links),
            Arg::Data(op) => give_datum(links, counts, *var, op),
        },
    }
}

fn give_datum(links: &mut List<Link>, counts: &Counts, to: u32, from: &DataOp) -> Mem<()>
    ensures { OnOk result (links.new ≡ links.old ++ datum_given_links counts.now to from.now) }
{
    match from {
        DataOp::Path(path) => match path {
            DataPath::Var(var) => add(
                links,
                Instr::CopyData {
                    to,
                    from: DataArg::Var(*var),
                },
            ),
            DataPath::Field { .. } => load_datum(links, counts.first_ptr(), to, path),
        },
        DataOp::Known(number) => add(
            links,
            Instr::CopyData {
                to,
                from: DataArg::Known(*number),
            },
        ),
    }
}

/// Notes the first pointer temporary, if reading the operand uses it.
pub fn note_given(list: &mut List<u32>, counts: &Counts, from: &Arg) -> Mem<()>
    ensures { OnOk result (list.new ≡ list.old ++ given_temps counts.now from.now) }
{
    match from {
        Arg::Ptr(op) => match op {
            PtrOp::Path(path) => note_before(list, counts.first_ptr(), path.fields.as_slice()),
            PtrOp::Null => Ok(()),
        },
        Arg::Data(op) => note_op_base(list, counts.first_ptr(), op),
    }
}

/// What a variable holds is assigned to a target of its kind; one of the other kind, which no program has, gets
/// nothing.
pub fn hand(links: &mut List<Link>, counts: &Counts, from: &VarRef, to: &Dest) -> Mem<()>
    ensures { OnOk result (links.new ≡ links.old ++ handed_links counts.now from.now to.now) }
{
    match from {
        VarRef::Ptr(var) => match to {
            Dest::Ptr(path) => hand_ptr(links, counts, *var, path),
            Dest::Data(_) => Ok(()),
        },
        VarRef::Data(var) => match to {
            Dest::Ptr(_) => Ok(()),
            Dest::Data(path) => hand_datum(links, counts, *var, path),
        },
    }
}

fn hand_datum(links: &mut List<Link>, counts: &Counts, from: u32, to: &DataPath) -> Mem<()>
    ensures { OnOk result (links.new ≡ links.old ++ datum_handed_links counts.now from to.now) }
{
    match to {
        DataPath::Var(var) => add(
            links,
            Instr::CopyData {
                to: *var,
                from: DataArg::Var(from),
            },
        ),
        DataPath::Field { base, field } => store_from(links, counts, base, *field, from),
    }
}

/// Notes the second pointer temporary, if reading the target uses it.
pub fn note_dest(list: &mut List<u32>, counts: &Counts, to: &Dest) -> Mem<()>
    ensures { OnOk result (list.new ≡ list.old ++ dest_temps counts.now to.now) }
{
    match to {
        Dest::Ptr(path) => note_before(list, counts.second_ptr(), path.fields.as_slice()),
        Dest::Data(path) => note_base(list, counts.second_ptr(), path),
    }
}
