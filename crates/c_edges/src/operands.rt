// The links of data paths and of operands of comparisons.
ghost use Rattle.std.specs.Prelude.{◌≡◌, ◌++◌, OnOk};
ghost use Rattle.c_cfg.specs.Links.{data_loads, data_holder, base_used, data_used, op_loads, op_arg, op_used};
ghost use Rattle.c_cfg.specs.Links.{data_op_loads, data_op_arg, op_base_used, op_data_used};

use c_cfg::graph::{DataArg, Instr, PtrArg};
use c_cfg::link::Link;
use c_links::arrows::{add, holder, load_all, note_used};
use c_types::program::{DataOp, DataPath, PtrOp};
use fore_base::list::List;
use fore_base::memory::Mem;

/// Reads a data field into a data variable, its base into a pointer temporary. A data variable needs no edge.
pub fn load_datum(links: &mut List<Link>, temp: u32, to: u32, path: &DataPath) -> Mem<()>
    ensures { OnOk result (links.new ≡ links.old ++ data_loads temp to path.now) }
{
    match path {
        DataPath::Var(_) => Ok(()),
        DataPath::Field { base, field } => {
            let fields = base.fields.as_slice();
            load_all(links, temp, base.var, fields)?;
            add(
                links,
                Instr::LoadData {
                    to,
                    from: holder(temp, base.var, fields),
                    field: *field,
                },
            )
        }
    }
}

/// The data variable that then holds the datum.
pub fn datum_holder(temp: u32, path: &DataPath) -> u32
    ensures { result ≡ data_holder temp path.now }
{
    match path {
        DataPath::Var(var) => *var,
        DataPath::Field { .. } => temp,
    }
}

/// Notes the pointer temporary, if reading the base of a data field uses it.
pub fn note_base(list: &mut List<u32>, temp: u32, path: &DataPath) -> Mem<()>
    ensures { OnOk result (list.new ≡ list.old ++ base_used temp path.now) }
{
    match path {
        DataPath::Var(_) => Ok(()),
        DataPath::Field { base, .. } => note_used(list, temp, base.fields.as_slice()),
    }
}

/// Notes the data temporary, if a data field was read into it.
pub fn note_datum(list: &mut List<u32>, temp: u32, path: &DataPath) -> Mem<()>
    ensures { OnOk result (list.new ≡ list.old ++ data_used temp path.now) }
{
    match path {
        DataPath::Var(_) => Ok(()),
        DataPath::Field { .. } => list.push(temp),
    }
}

/// Reads a pointer that is compared into a temporary.
pub fn load_op(links: &mut List<Link>, temp: u32, op: &PtrOp) -> Mem<()>
    ensures { OnOk result (links.new ≡ links.old ++ op_loads temp op.now) }
{
    match op {
        PtrOp::Path(path) => load_all(links, temp, path.var, path.fields.as_slice()),
        PtrOp::Null => Ok(()),
    }
}

/// What is compared then.
pub fn op_arg(temp: u32, op: &PtrOp) -> PtrArg
    ensures { result ≡ op_arg temp op.now }
{
    match op {
        PtrOp::Path(path) => PtrArg::Var(holder(temp, path.var, path.fields.as_slice())),
        PtrOp::Null => PtrArg::Null,
    }
}

/// Notes the temporary, if reading the pointer uses it.
pub fn note_op(list: &mut List<u32>, temp: u32, op: &PtrOp) -> Mem<()>
    ensures { OnOk result (list.new ≡ list.old ++ op_used temp op.now) }
{
    match op {
        PtrOp::Path(path) => note_used(list, temp, path.fields.as_slice()),
        PtrOp::Null => Ok(()),
    }
}

/// Reads a datum that is compared into a temporary.
pub fn load_data_op(links: &mut List<Link>, temp: u32, to: u32, op: &DataOp) -> Mem<()>
    ensures { OnOk result (links.new ≡ links.old ++ data_op_loads temp to op.now) }
{
    match op {
        DataOp::Path(path) => load_datum(links, temp, to, path),
        DataOp::Known(_) => Ok(()),
    }
}

/// What is compared then.
pub fn data_op_arg(temp: u32, op: &DataOp) -> DataArg
    ensures { result ≡ data_op_arg temp op.now }
{
    match op {
        DataOp::Path(path) => DataArg::Var(datum_holder(temp, path)),
        DataOp::Known(number) => DataArg::Known(*number),
    }
}

/// Notes the pointer temporary, if reading the datum uses it.
pub fn note_op_base(list: &mut List<u32>, temp: u32, op: &DataOp) -> Mem<()>
    ensures { OnOk result (list.new ≡ list.old ++ op_base_used temp op.now) }
{
    match op {
        DataOp::Path(path) => note_base(list, temp, path),
        DataOp::Known(_) => Ok(()),
    }
}

/// Notes the data temporary, if the datum was read into it.
pub fn note_op_datum(list: &mut List<u32>, temp: u32, op: &DataOp) -> Mem<()>
    ensures { OnOk result (list.new ≡ list.old ++ op_data_used temp op.now) }
{
    match op {
        DataOp::Path(path) => note_datum(list, temp, path),
        DataOp::Known(_) => Ok(()),
    }
}
