//! The tree of a first move that is given.
ghost use Rattle.std.specs.Prelude.{◌≡◌, ◌≤◌, IfErr, IfOk};
ghost use Rattle.slots.specs.Promise.{IsSeatOf};
ghost use Rattle.decision.specs.Calls.{Continues};
ghost use Rattle.searcher.specs.declared.halt.Halt.TheVariants.{Stopped};
ghost use Rattle.problems.specs.Roots.{IsJobOf};
ghost use Rattle.searcher.specs.First.{IsOpenedJob};

use crate::building::{Builder, tree_behind};
use crate::decider::Decider;
use crate::halt::Halt;
use crate::keys::plies_of;
use crate::searcher::Searcher;
use decision::{Memory, Never, Scout};
use entry::MateLore;
use problems::Root;
use slots::{Seat, Slots};
use std::alloc::{AllocError, Allocator};
use wintree::Tree;

/// The tree of the root's move of this number, in the fewest plies that it takes, or `None` where these are beyond the limit: behind each
/// reply it takes at each turn of the attacker the fewest plies, and then the least move.
pub fn tree_of_first<D: Decider, B: Allocator + Copy>(
    alloc: B,
    decider: &mut D,
    root: &Root,
    job: u16,
) -> Result<Option<Tree<B>>, Halt>
    requires job { IsJobOf root.now job }
    ensures goes { D.goes decider.old decider.new }
    ensures found { IfOk result (IsOpenedJob root.now job) }
    ensures halt { IfErr result (λ halt. halt ≡ Stopped → D.told decider.new) }
{
    let Some(found) = plies_of(decider, root, job) else {
        return Err(Halt::Stopped);
    };
    let Some(plies) = found else {
        return Ok(None);
    };
    let first = root.moves[usize::from(job)];
    let builder = Builder {
        alloc,
        goal: root.goal,
    };
    Ok(Some(tree_behind(&builder, decider, &root.board, first, plies)?))
}

/// `tree_of_first`, by the caller's own thread over a table, where nothing stops it. The table and the seat serve the next call.
pub fn tree_of_alone<A: Allocator, B: Allocator + Copy>(
    alloc: B,
    slots: &Slots<MateLore, A>,
    seat: &mut Seat,
    root: &Root,
    job: u16,
) -> Result<Option<Tree<B>>, AllocError>
    requires seat { IsSeatOf slots.now seat.old }
    requires job { IsJobOf root.now job }
    ensures continues { Continues slots.now seat.old seat.new }
    ensures found { IfOk result (IsOpenedJob root.now job) }
{
    let mut scout = Scout {
        stop: Never,
        memory: Memory::new(),
    };
    let mut searcher = Searcher {
        slots,
        seat,
        scout: &mut scout,
    };
    match tree_of_first(alloc, &mut searcher, root, job) {
        Ok(tree) => Ok(tree),
        Err(Halt::NoMemory) => Err(AllocError),
        Err(Halt::Stopped) => unreachable!(),
    }
}
