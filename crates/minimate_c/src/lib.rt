//! The library for other languages: each call's text goes into room that its caller lends. include/minimate.h says what a caller owes.
#![tactic(auto)]

ghost use Rattle.std.specs.Prelude.{◌≡◌};
ghost use Rattle.calls.specs.Calls.{Answers, search_terms};
ghost use Rattle.calls.specs.declared.asked.Call.TheVariants.{After, Check, Fault, Keys, Moves, Solve, Tree, Verify};

mod asking;
mod found;
mod handle;
mod living;
mod parts;
mod solver_pointer;
mod stop_pointer;
#[cfg(test)]
mod tests;
mod writing;

use calls::{Call, SearchTerms, reply};
pub use found::{First, Win};
pub use handle::{SolverHandle, StopHandle};
pub use living::{
    minimate_solver_close, minimate_solver_keys, minimate_solver_open, minimate_solver_solve,
    minimate_solver_tree, minimate_stop_close, minimate_stop_place, minimate_stop_set,
};
use std::alloc::Global;

/// What `minimate moves` writes of the position.
#[unsafe(no_mangle)]
pub extern "C" fn minimate_moves(alloc: Global, fen: &[u8], room: &mut [u8]) -> usize
    ensures { Answers fen.entry Moves room.old room.new result }
{
    reply(alloc, fen, &Call::Moves, room)
}

/// Why `minimate` would refuse the position's text, in a line and in a sentence; nothing where it wouldn't.
#[unsafe(no_mangle)]
pub extern "C" fn minimate_fault(alloc: Global, fen: &[u8], room: &mut [u8]) -> usize
    ensures { Answers fen.entry Fault room.old room.new result }
{
    reply(alloc, fen, &Call::Fault, room)
}

/// The position after the lawful move that `minimate moves` writes by this name.
#[unsafe(no_mangle)]
pub extern "C" fn minimate_after(alloc: Global, fen: &[u8], name: &[u8], room: &mut [u8]) -> usize
    ensures { Answers fen.entry (After name.entry) room.old room.new result }
{
    reply(alloc, fen, &Call::After(name), room)
}

/// What `minimate check` writes of the position and this input, which is a tree's text.
#[unsafe(no_mangle)]
pub extern "C" fn minimate_check(
    alloc: Global,
    fen: &[u8],
    stale: bool,
    tree: &[u8],
    room: &mut [u8],
) -> usize
    ensures { Answers fen.entry (Check stale tree.entry) room.old room.new result }
{
    reply(alloc, fen, &Call::Check { stale, tree }, room)
}

/// What `minimate verify` writes of the position and this input, which is a certificate.
#[unsafe(no_mangle)]
pub extern "C" fn minimate_verify(
    alloc: Global,
    fen: &[u8],
    stale: bool,
    certificate: &[u8],
    room: &mut [u8],
) -> usize
    ensures { Answers fen.entry (Verify stale certificate.entry) room.old room.new result }
{
    reply(alloc, fen, &Call::Verify { stale, certificate }, room)
}

/// What `minimate solve` writes of the position, found by the caller's own thread alone.
#[unsafe(no_mangle)]
pub extern "C" fn minimate_solve(
    alloc: Global,
    fen: &[u8],
    stale: bool,
    limit: u32,
    slots: u32,
    room: &mut [u8],
) -> usize
    ensures { Answers fen.entry (Solve (search_terms stale limit slots)) room.old room.new result }
{
    let terms = SearchTerms {
        stale,
        limit,
        slots,
    };
    reply(alloc, fen, &Call::Solve(terms), room)
}

/// What `minimate keys` writes of the position, found by the caller's own thread alone.
#[unsafe(no_mangle)]
pub extern "C" fn minimate_keys(
    alloc: Global,
    fen: &[u8],
    stale: bool,
    limit: u32,
    slots: u32,
    room: &mut [u8],
) -> usize
    ensures { Answers fen.entry (Keys (search_terms stale limit slots)) room.old room.new result }
{
    let terms = SearchTerms {
        stale,
        limit,
        slots,
    };
    reply(alloc, fen, &Call::Keys(terms), room)
}

/// What `minimate tree` writes of the position, found by the caller's own thread alone.
#[unsafe(no_mangle)]
pub extern "C" fn minimate_tree(
    alloc: Global,
    fen: &[u8],
    stale: bool,
    limit: u32,
    slots: u32,
    room: &mut [u8],
) -> usize
    ensures { Answers fen.entry (Tree (search_terms stale limit slots)) room.old room.new result }
{
    let terms = SearchTerms {
        stale,
        limit,
        slots,
    };
    reply(alloc, fen, &Call::Tree(terms), room)
}

/// The version as one number, as the header's macro has it.
#[unsafe(no_mangle)]
pub extern "C" fn minimate_version() -> u32
    ensures { result ≡ 100 }
{
    100
}
