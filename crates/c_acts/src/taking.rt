// Which steps take a choice.
ghost use Rattle.std.specs.Prelude.{◌≡◌};
ghost use Rattle.c_types.specs.Steps.{ptr_rhs_takes, act_takes, atom_takes};

use c_types::mode::MallocMode;
use c_types::program::{Act, Atom, DataRhs, PtrRhs};

/// Whether a test without parts takes a choice.
pub fn atom_takes(atom: &Atom) -> bool
    ensures { result ≡ atom_takes atom.now }
{
    match atom {
        Atom::Choice => true,
        _ => false,
    }
}

fn ptr_rhs_takes(mode: MallocMode, from: &PtrRhs) -> bool
    ensures { result ≡ ptr_rhs_takes mode from.now }
{
    match mode {
        MallocMode::Always => false,
        MallocMode::MayFail => match from {
            PtrRhs::New(_) => true,
            _ => false,
        },
    }
}

/// Whether an act takes a choice, where `malloc` has this mode.
pub fn act_takes(mode: MallocMode, act: &Act) -> bool
    ensures { result ≡ act_takes mode act.now }
{
    match act {
        Act::SetPtr { from, .. } => ptr_rhs_takes(mode, from),
        Act::SetData {
            from: DataRhs::Choice,
            ..
        } => true,
        _ => false,
    }
}
