// Forests: a tree automaton for each root, and what the variables are.

ghost use Rattle.std.specs.Prelude.{◌≡◌, ◌↔◌, IsTrue};

use fore_base::list::{Copies, List};
use fore_base::store::Datum;
use std::alloc::{AllocError, Global};
use ta_core::auto::Auto;

/// What a pointer variable is.
#[derive(Clone, Copy, PartialEq, Eq)]
pub enum Target {
    Null,
    /// Never set: indeterminate (ISO/IEC 9899:2011, 6.7.9).
    Uninit,
    /// To an object whose lifetime has ended: indeterminate (6.2.4).
    Dangling,
    /// To the cell at the root of this number.
    At(u32),
}

/// A forest: its components, of which the number is that of their root, and what the pointer variables and the data
/// variables are (CAV 2011, section 3).
#[derive(Drop)]
pub struct Forest {
    pub autos: List<Auto>,
    pub vars: List<Target>,
    pub data_vars: List<Datum>,
}

/// Whether the pointer variables are at the same targets.
pub fn are_same_targets(left: &[Target], right: &[Target]) -> bool
    ensures { IsTrue result ↔ (left.now ≡ right.now) }
{
    left == right
}

/// Whether the data variables have the same values.
pub fn are_same_data(left: &[Datum], right: &[Datum]) -> bool
    ensures { IsTrue result ↔ (left.now ≡ right.now) }
{
    left == right
}

impl Copies for Target {
    fn copy(&self, _alloc: Global) -> Result<Target, AllocError> {
        Ok(*self)
    }
}

impl Copies for Forest {
    fn copy(&self, alloc: Global) -> Result<Forest, AllocError> {
        Ok(Forest {
            autos: self.autos.copy(alloc)?,
            vars: self.vars.copy(alloc)?,
            data_vars: self.data_vars.copy(alloc)?,
        })
    }
}
