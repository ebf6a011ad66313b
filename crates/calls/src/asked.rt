//! What a caller asks of the position of a text.
ghost use Rattle.std.specs.Prelude.{◌≡◌};
ghost use Rattle.calls.specs.Calls.{goal_of, limits_of};

use command_line::Limits;
use moves::Goal;

/// What a search is to find, and within what: whether stalemate is a goal too, the limit in plies, and the slots of its table.
#[derive(Clone, Copy)]
#[repr(C)]
pub struct SearchTerms {
    pub stale: bool,
    pub limit: u32,
    pub slots: u32,
}

/// What is asked. A search is the caller's own thread's alone.
#[derive(Clone, Copy)]
pub enum Call<'a> {
    /// What `minimate moves` writes.
    Moves,
    /// Why `minimate` would refuse the text, in a line and in a sentence; nothing where it wouldn't.
    Fault,
    /// The position after the lawful move that `minimate moves` writes by this name.
    After(&'a [u8]),
    /// What `minimate check` writes of this input, which is a tree's text.
    Check { stale: bool, tree: &'a [u8] },
    /// What `minimate verify` writes of this input, which is a certificate.
    Verify { stale: bool, certificate: &'a [u8] },
    /// What `minimate solve` writes.
    Solve(SearchTerms),
    /// What `minimate keys` writes.
    Keys(SearchTerms),
    /// What `minimate tree` writes.
    Tree(SearchTerms),
}

/// The goal that a caller names: mate, or stalemate too.
pub fn goal_of(stale: bool) -> Goal
    ensures { result ≡ goal_of stale }
{
    if stale { Goal::MateOrStale } else { Goal::Mate }
}

/// The limits of a search with one worker, by which the program would refuse none for its workers.
pub(crate) fn limits_of(terms: SearchTerms) -> Limits
    ensures { result ≡ limits_of terms }
{
    Limits {
        limit: terms.limit,
        workers: 1,
        slots: terms.slots,
    }
}
