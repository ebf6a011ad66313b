//! Why a solve is refused.
ghost use Rattle.std.specs.Prelude.{◌≡◌};
ghost use Rattle.searcher.specs.declared.fault.SolveFault.TheVariants.{NoMemory as no_memory};

use std::alloc::AllocError;
use thiserror::Error;

/// Why a solve is refused: the first of these that holds.
#[derive(Clone, Copy, PartialEq, Eq, Debug, Error)]
pub enum SolveFault {
    #[error("the limit in plies is outside those that are searched")]
    Limit,
    #[error("the number of workers is outside those that are started")]
    Workers,
    #[error("the number of slots is outside those that a table has")]
    Slots,
    #[error("memory was refused")]
    NoMemory,
}

impl From<AllocError> for SolveFault {
    ghost from_gives = { λ _ fault. fault ≡ no_memory };

    fn from(_error: AllocError) -> SolveFault {
        SolveFault::NoMemory
    }
}
