// Why a box has no face.
use fa_box_rules::BoxRule;
use std::alloc::AllocError;
use thiserror::Error;

/// Why a box has no face.
#[derive(Clone, Copy, Debug, Drop, Error)]
pub enum FaceFault {
    /// This is the least rule that the box breaks; where a component has no tree, it is B7.
    #[error("the box breaks rule {:?}", .0)]
    Breaks(BoxRule),
    /// Want of memory.
    #[error("no memory")]
    Memory,
}

impl From<AllocError> for FaceFault {
    ghost use Rattle.std.specs.Prelude.{◌≡◌};
    ghost use Rattle.fa_faces.specs.declared.fault.FaceFault.TheVariants.{Memory};

    ghost from_gives = { λ _ fault. fault ≡ Memory };

    fn from(_error: AllocError) -> FaceFault {
        FaceFault::Memory
    }
}
