//! Why lines weren't told to their end.
ghost use Rattle.std.specs.Prelude.{◌≡◌};
ghost use Rattle.searcher.specs.declared.halt.Halt.TheVariants.{NoMemory as want};

use searcher::Halt;
use std::alloc::AllocError;

/// Why lines weren't told to their end: the search ended without an answer, or a text got no memory, which counts as such an end.
#[derive(Clone, Copy)]
pub(crate) struct Broken {
    pub(crate) halt: Halt,
}

impl From<Halt> for Broken {
    ghost from_gives = { λ halt broken. broken.halt ≡ halt };

    fn from(halt: Halt) -> Broken {
        Broken { halt }
    }
}

impl From<AllocError> for Broken {
    ghost from_gives = { λ _ broken. broken.halt ≡ want };

    fn from(_refused: AllocError) -> Broken {
        Broken {
            halt: Halt::NoMemory,
        }
    }
}
