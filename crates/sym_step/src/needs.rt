// Which pointer fields an edge needs.

ghost use Rattle.std.specs.Prelude.{◌≡◌, ◌<◌, ℕ, length, MatchOption};
ghost use Rattle.fa_core.specs.declared.forest.Target.TheVariants.{At};
ghost use Rattle.sym_core.specs.Explicit.{target_at};
ghost use Rattle.sym_step.specs.inner.Needing.{needs_of, needs_to_store, AreNeeds, HasNeeds};

use c_cfg::graph::{Const, Instr};
use fa_core::forest::{Forest, Target};

/// The pointer fields that an edge needs at the cell of a variable.
#[derive(Clone, Copy)]
pub enum Needed {
    Nothing,
    /// This field of the variable's cell.
    Field { base: u32, field: u32 },
    /// Each field of the variable's cell.
    Cell { base: u32 },
}

/// The pointer fields that the edge needs.
pub fn needs_of(instr: &Instr) -> Needed
    ensures value { result ≡ needs_of instr.now }
    ensures all { AreNeeds instr.now result }
    ensures has { HasNeeds instr.now result }
{
    match instr {
        Instr::LoadPtr { from, field, .. } => Needed::Field {
            base: *from,
            field: *field,
        },
        Instr::StorePtr { to, field, .. } => Needed::Field {
            base: *to,
            field: *field,
        },
        Instr::StoreConst { to, field, value } => needs_to_store(*to, *field, *value),
        Instr::Free { from } => Needed::Cell { base: *from },
        _ => Needed::Nothing,
    }
}

fn needs_to_store(base: u32, field: u32, value: Const) -> Needed
    ensures { result ≡ needs_to_store base field value }
{
    match value {
        Const::Null => Needed::Field { base, field },
        Const::Known(_) => Needed::Nothing,
    }
}

/// The root at which the variable is, if it is at one.
pub fn root_of(forest: &Forest, variable: u32) -> Option<u32>
    ensures { MatchOption result ((r : ℕ) → target_at forest.now variable ≡ At r → ⊥)
        (λ r. target_at forest.now variable ≡ At r) }
{
    match forest.vars.get_or(variable as usize, Target::Uninit) {
        Target::At(root) => Some(root),
        _ => None,
    }
}
