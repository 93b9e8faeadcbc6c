// The links of assignments to data.
ghost use Rattle.std.specs.Prelude.{◌≡◌, ◌+◌, ◌++◌, Some, OnOk};
ghost use Rattle.c_types.specs.declared.program.DataRhs.TheVariants.{Path as RhsPath, Known as RhsKnown};
ghost use Rattle.c_types.specs.declared.program.DataRhs.TheVariants.{Choice as RhsChoice};
ghost use Rattle.c_edges.specs.inner.Counted.{data_links, data_var_links, data_field_links, store_links, choice_links};

use crate::operands::{datum_holder, load_datum, note_base, note_datum};
use c_cfg::graph::{Const, DataArg, Instr};
use c_cfg::link::Link;
use c_links::arrows::{add, end_used, end_with, holder, load_all, note_used};
use c_links::counts::Counts;
use c_types::program::{DataPath, DataRhs, Path};
use fore_base::list::List;
use fore_base::memory::Mem;
use std::alloc::Global;

/// An assignment to a datum.
pub fn set_data(
    alloc: Global,
    links: &mut List<Link>,
    counts: &Counts,
    to: &DataPath,
    from: &DataRhs,
) -> Mem<()>
    ensures { OnOk result (links.new ≡ links.old ++ data_links counts.now to.now from.now) }
{
    match to {
        DataPath::Var(var) => set_var(alloc, links, counts, *var, from),
        DataPath::Field { base, field } => set_field(alloc, links, counts, base, *field, from),
    }
}

fn choose(links: &mut List<Link>, to: u32) -> Mem<()>
    ensures { OnOk result (links.new ≡ links.old ++ choice_links to) }
{
    let zero = Instr::Choose { to: Some(to) };
    let one = Instr::Choose { to: Some(to) };
    links.push(Link::Two(zero, one))
}

fn set_var(
    alloc: Global,
    links: &mut List<Link>,
    counts: &Counts,
    to: u32,
    from: &DataRhs,
) -> Mem<()>
    ensures { OnOk result (links.new ≡ links.old ++ data_var_links counts.now to from.now) }
{
    match from {
        DataRhs::Path(path) => copy_datum(alloc, links, counts, to, path),
        DataRhs::Known(number) => add(
            links,
            Instr::CopyData {
                to,
                from: DataArg::Known(*number),
            },
        ),
        DataRhs::Choice => choose(links, to),
    }
}

fn copy_datum(
    alloc: Global,
    links: &mut List<Link>,
    counts: &Counts,
    to: u32,
    path: &DataPath,
) -> Mem<()>
    ensures { OnOk result (links.new ≡ links.old ++ data_var_links counts.now to (RhsPath path.now)) }
{
    match path {
        DataPath::Var(var) => add(
            links,
            Instr::CopyData {
                to,
                from: DataArg::Var(*var),
            },
        ),
        DataPath::Field { base, .. } => {
            let temp = counts.first_ptr();
            load_datum(links, temp, to, path)?;
            end_used(alloc, links, temp, base.fields.as_slice())
        }
    }
}

fn set_field(
    alloc: Global,
    links: &mut List<Link>,
    counts: &Counts,
    base: &Path,
    field: u32,
    from: &DataRhs,
) -> Mem<()>
    ensures { OnOk result (links.new ≡ links.old ++ data_field_links counts.now base.now field from.now) }
{
    match from {
        DataRhs::Path(path) => store_datum(alloc, links, counts, base, field, path),
        DataRhs::Known(number) => store_number(alloc, links, counts, base, field, *number),
        DataRhs::Choice => store_choice(alloc, links, counts, base, field),
    }
}

fn store_datum(
    alloc: Global,
    links: &mut List<Link>,
    counts: &Counts,
    base: &Path,
    field: u32,
    path: &DataPath,
) -> Mem<()>
    ensures { OnOk result (links.new ≡ links.old ++ data_field_links counts.now base.now field (RhsPath path.now)) }
{
    load_datum(links, counts.first_ptr(), counts.first_datum(), path)?;
    let datum = datum_holder(counts.first_datum(), path);
    store_from(links, counts, base, field, datum)?;
    let mut ptrs = List::new(alloc);
    note_base(&mut ptrs, counts.first_ptr(), path)?;
    note_used(&mut ptrs, counts.second_ptr(), base.fields.as_slice())?;
    let mut datums = List::new(alloc);
    note_datum(&mut datums, counts.first_datum(), path)?;
    end_with(links, ptrs, datums)
}

/// Stores a data variable in a field of the cell at the end of a path, whose arrows go into the second temporary.
pub fn store_from(
    links: &mut List<Link>,
    counts: &Counts,
    base: &Path,
    field: u32,
    from: u32,
) -> Mem<()>
    ensures { OnOk result (links.new ≡ links.old ++ store_links counts.now base.now field from) }
{
    let temp = counts.second_ptr();
    let fields = base.fields.as_slice();
    load_all(links, temp, base.var, fields)?;
    let to = holder(temp, base.var, fields);
    add(links, Instr::StoreData { to, field, from })
}

fn store_number(
    alloc: Global,
    links: &mut List<Link>,
    counts: &Counts,
    base: &Path,
    field: u32,
    number: u8,
) -> Mem<()>
    ensures { OnOk result (links.new ≡ links.old ++ data_field_links counts.now base.now field (RhsKnown number)) }
{
    let temp = counts.second_ptr();
    let fields = base.fields.as_slice();
    load_all(links, temp, base.var, fields)?;
    add(
        links,
        Instr::StoreConst {
            to: holder(temp, base.var, fields),
            field,
            value: Const::Known(number),
        },
    )?;
    end_used(alloc, links, temp, fields)
}

fn store_choice(
    alloc: Global,
    links: &mut List<Link>,
    counts: &Counts,
    base: &Path,
    field: u32,
) -> Mem<()>
    ensures { OnOk result (links.new ≡ links.old ++ data_field_links counts.now base.now field RhsChoice) }
{
    let datum = counts.first_datum();
    choose(links, datum)?;
    store_from(links, counts, base, field, datum)?;
    let mut ptrs = List::new(alloc);
    note_used(&mut ptrs, counts.second_ptr(), base.fields.as_slice())?;
    let mut datums = List::new(alloc);
    datums.push(datum)?;
    end_with(links, ptrs, datums)
}
