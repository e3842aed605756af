//! What a choice comes to.
ghost use Rattle.std.specs.Prelude.{◌≡◌};

use std::alloc::AllocError;
use thiserror::Error;
use xp_base::RowNo;

/// The record that is chosen.
#[derive(Clone, Copy, Debug, PartialEq, Eq)]
pub struct Picked {
    pub row: RowNo,
    /// How many inputs stand for the elements of a variadic parameter, and 0 where none do.
    pub expanded: u32,
}

/// Why no record is chosen.
#[derive(Clone, Copy, Debug, PartialEq, Eq, Error)]
pub enum Pick {
    /// No candidate accepts the inputs (42883).
    #[error("no candidate accepts these types")]
    Undefined,
    /// More than one candidate is left (42725). These are the first two, in file order.
    #[error("more than one candidate is left")]
    Ambiguous { first: RowNo, second: RowNo },
    #[error("out of memory")]
    Memory,
}

impl From<AllocError> for Pick {
    ghost use Rattle.xp_candidates.specs.declared.pick.Pick.TheVariants.{Memory};

    ghost from_gives = { λ _ pick. pick ≡ Memory };

    fn from(_error: AllocError) -> Pick {
        Pick::Memory
    }
}
