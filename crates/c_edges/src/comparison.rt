// The edges of comparisons.
ghost use Rattle.std.specs.Prelude.{◌≡◌, ◌++◌, true, false, OnOk, IfOk};
ghost use Rattle.c_edges.specs.inner.Counted.{data_op_links};
ghost use Rattle.c_edges.specs.Comparing.{test_of, ptr_parts, data_parts, parts_edges, tests_of, end_of};

use crate::operands::{
    data_op_arg, load_data_op, load_op, note_op, note_op_base, note_op_datum, op_arg,
};
use c_cfg::graph::{DataArg, Edge, Instr, PtrArg};
use c_cfg::link::Link;
use c_links::chain::{add_chain, add_edge};
use c_links::counts::Counts;
use c_links::sums::{count, sum};
use c_types::program::{DataOp, PtrOp};
use fore_base::list::{Copies, List};
use fore_base::memory::Mem;
use std::alloc::Global;

/// Two operands.
#[derive(Clone, Copy)]
pub enum Compared {
    Ptrs(PtrArg, PtrArg),
    Data(DataArg, DataArg),
}

impl Compared {
    /// The test for equal, or the one for not equal.
    fn test(&self, equal: bool) -> Instr
        ensures { result ≡ test_of self.now equal }
    {
        match *self {
            Compared::Ptrs(left, right) => Instr::TestPtr { left, right, equal },
            Compared::Data(left, right) => Instr::TestData { left, right, equal },
        }
    }
}

/// A comparison: the loads before it, what is compared, and the temporaries that were used, which die on each branch.
#[derive(Drop)]
pub struct Comparison {
    pub loads: List<Link>,
    pub compared: Compared,
    pub ptrs: List<u32>,
    pub datums: List<u32>,
}

/// A comparison of pointers: the left one is read into the first temporary, the right one into the second.
pub fn of_ptrs(alloc: Global, counts: &Counts, left: &PtrOp, right: &PtrOp) -> Mem<Comparison>
    ensures { IfOk result (λ parts. parts ≡ ptr_parts counts.now left.now right.now) }
{
    let (first, second) = (counts.first_ptr(), counts.second_ptr());
    let mut loads = List::new(alloc);
    load_op(&mut loads, first, left)?;
    load_op(&mut loads, second, right)?;
    let mut ptrs = List::new(alloc);
    note_op(&mut ptrs, first, left)?;
    note_op(&mut ptrs, second, right)?;
    Ok(Comparison {
        loads,
        compared: Compared::Ptrs(op_arg(first, left), op_arg(second, right)),
        ptrs,
        datums: List::new(alloc),
    })
}

/// A comparison of data, in the same way.
pub fn of_data(alloc: Global, counts: &Counts, left: &DataOp, right: &DataOp) -> Mem<Comparison>
    ensures { IfOk result (λ parts. parts ≡ data_parts counts.now left.now right.now) }
{
    let (first, second) = (counts.first_datum(), counts.second_datum());
    let loads = data_loads(alloc, counts, left, right)?;
    let mut ptrs = List::new(alloc);
    note_op_base(&mut ptrs, counts.first_ptr(), left)?;
    note_op_base(&mut ptrs, counts.second_ptr(), right)?;
    let mut datums = List::new(alloc);
    note_op_datum(&mut datums, first, left)?;
    note_op_datum(&mut datums, second, right)?;
    Ok(Comparison {
        loads,
        compared: Compared::Data(data_op_arg(first, left), data_op_arg(second, right)),
        ptrs,
        datums,
    })
}

fn data_loads(alloc: Global, counts: &Counts, left: &DataOp, right: &DataOp) -> Mem<List<Link>>
    ensures { IfOk result (λ loads. loads ≡ data_op_links counts.now left.now right.now) }
{
    let mut loads = List::new(alloc);
    load_data_op(&mut loads, counts.first_ptr(), counts.first_datum(), left)?;
    load_data_op(
        &mut loads,
        counts.second_ptr(),
        counts.second_datum(),
        right,
    )?;
    Ok(loads)
}

impl Comparison {
    /// Adds its edges from a location on, to these locations.
    pub fn add_to(
        &self,
        alloc: Global,
        edges: &mut List<Edge>,
        line: u32,
        at: u32,
        same: u32,
        other: u32,
    ) -> Mem<()>
        ensures { OnOk result (edges.new ≡ edges.old ++ parts_edges self.now line at same other) }
    {
        let tested = sum(at, count(self.loads.len())?)?;
        add_chain(alloc, edges, line, self.loads.as_slice(), at, tested)?;
        if self.ptrs.is_empty() && self.datums.is_empty() {
            self.add_tests(edges, line, tested, same, other)
        } else {
            let (first, second) = (sum(tested, 1)?, sum(tested, 2)?);
            self.add_tests(edges, line, tested, first, second)?;
            self.add_end(alloc, edges, line, first, same)?;
            self.add_end(alloc, edges, line, second, other)
        }
    }

    fn add_tests(
        &self,
        edges: &mut List<Edge>,
        line: u32,
        at: u32,
        same: u32,
        other: u32,
    ) -> Mem<()>
        ensures { OnOk result (edges.new ≡ edges.old ++ tests_of self.now.compared line at same other) }
    {
        add_edge(edges, line, at, same, self.compared.test(true))?;
        add_edge(edges, line, at, other, self.compared.test(false))
    }

    fn add_end(&self, alloc: Global, edges: &mut List<Edge>, line: u32, at: u32, to: u32) -> Mem<()>
        ensures { OnOk result (edges.new ≡ edges.old ++ end_of self.now line at to) }
    {
        let ptrs = self.ptrs.copy(alloc)?;
        let datums = self.datums.copy(alloc)?;
        add_edge(edges, line, at, to, Instr::Kill { ptrs, datums })
    }
}
