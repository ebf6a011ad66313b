//! Why a search ended without an answer.
ghost use Rattle.std.specs.Prelude.{◌≡◌};
ghost use Rattle.searcher.specs.declared.halt.Halt.TheVariants.{NoMemory as want};

use std::alloc::AllocFailed;
use wintree::NoMemory;

/// Why a search ended without an answer.
#[derive(Clone, Copy, Debug)]
pub enum Halt {
    /// It was told to stop.
    Stopped,
    /// Memory was refused.
    NoMemory,
}

impl<T: Drop> From<AllocFailed<T>> for Halt {
    ghost from_gives = { λ _ halt. halt ≡ want };

    fn from(_refused: AllocFailed<T>) -> Halt {
        Halt::NoMemory
    }
}

impl From<NoMemory> for Halt {
    ghost from_gives = { λ _ halt. halt ≡ want };

    fn from(_refused: NoMemory) -> Halt {
        Halt::NoMemory
    }
}
