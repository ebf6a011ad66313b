//! The part of minimate that a browser loads: the eight calls over memory that the page lends, each from text into room that it lends too.
#![tactic(auto)]

ghost use Rattle.calls.specs.Calls.{Answers};
ghost use Rattle.calls.specs.declared.asked.Call.TheVariants.{After, Check, Fault, Keys, Moves, Solve, Tree, Verify};

mod arena;
#[cfg(test)]
mod tests;

use crate::arena::arena_over;
use calls::{Call, SearchTerms, no_memory, reply};
use lent_memory::Region;

/// The reply to a call, over the memory, which is the module's from then on.
fn reply_over(memory: Region, fen: &[u8], call: &Call<'_>, room: &mut [u8]) -> usize
    ensures { Answers fen.entry call.now room.old room.new result }
{
    match arena_over(memory) {
        Some(arena) => reply(&arena, fen, call, room),
        None => no_memory(room),
    }
}

/// What `minimate moves` writes of the position. The memory is the module's from then on, here and in each call below.
#[unsafe(no_mangle)]
pub extern "C" fn page_moves(memory: Region, fen: &[u8], room: &mut [u8]) -> usize
    ensures { Answers fen.entry Moves room.old room.new result }
{
    reply_over(memory, fen, &Call::Moves, room)
}

/// Why `minimate` would refuse the position's text, in a line and in a sentence; nothing where it wouldn't.
#[unsafe(no_mangle)]
pub extern "C" fn page_fault(memory: Region, fen: &[u8], room: &mut [u8]) -> usize
    ensures { Answers fen.entry Fault room.old room.new result }
{
    reply_over(memory, fen, &Call::Fault, room)
}

/// The position after the lawful move that `minimate moves` writes by this name.
#[unsafe(no_mangle)]
pub extern "C" fn page_after(memory: Region, fen: &[u8], name: &[u8], room: &mut [u8]) -> usize
    ensures { Answers fen.entry (After name.entry) room.old room.new result }
{
    reply_over(memory, fen, &Call::After(name), room)
}

/// What `minimate check` writes of the position and this input, which is a tree's text.
#[unsafe(no_mangle)]
pub extern "C" fn page_check(
    memory: Region,
    fen: &[u8],
    stale: bool,
    tree: &[u8],
    room: &mut [u8],
) -> usize
    ensures { Answers fen.entry (Check stale tree.entry) room.old room.new result }
{
    reply_over(memory, fen, &Call::Check { stale, tree }, room)
}

/// What `minimate verify` writes of the position and this input, which is a certificate.
#[unsafe(no_mangle)]
pub extern "C" fn page_verify(
    memory: Region,
    fen: &[u8],
    stale: bool,
    certificate: &[u8],
    room: &mut [u8],
) -> usize
    ensures { Answers fen.entry (Verify stale certificate.entry) room.old room.new result }
{
    reply_over(memory, fen, &Call::Verify { stale, certificate }, room)
}

/// What `minimate solve` writes of the position, found by one thread.
#[unsafe(no_mangle)]
pub extern "C" fn page_solve(
    memory: Region,
    fen: &[u8],
    terms: SearchTerms,
    room: &mut [u8],
) -> usize
    ensures { Answers fen.entry (Solve terms) room.old room.new result }
{
    reply_over(memory, fen, &Call::Solve(terms), room)
}

/// What `minimate keys` writes of the position, found by one thread.
#[unsafe(no_mangle)]
pub extern "C" fn page_keys(
    memory: Region,
    fen: &[u8],
    terms: SearchTerms,
    room: &mut [u8],
) -> usize
    ensures { Answers fen.entry (Keys terms) room.old room.new result }
{
    reply_over(memory, fen, &Call::Keys(terms), room)
}

/// What `minimate tree` writes of the position, found by one thread.
#[unsafe(no_mangle)]
pub extern "C" fn page_tree(
    memory: Region,
    fen: &[u8],
    terms: SearchTerms,
    room: &mut [u8],
) -> usize
    ensures { Answers fen.entry (Tree terms) room.old room.new result }
{
    reply_over(memory, fen, &Call::Tree(terms), room)
}
