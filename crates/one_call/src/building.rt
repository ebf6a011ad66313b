//! The building of a tree. After want of memory the table and the seat serve the next decision.
ghost use Rattle.std.specs.Prelude.{◌≤◌};
ghost use Rattle.slots.specs.Promise.{IsSeatOf};
ghost use Rattle.problems.specs.Answer.{IsFewest};

use crate::solving::root;
use board::{Position, Side};
use decision::decide;
use entry::MateLore;
use moves::Goal;
use problems::Answer;
use rounds::solve;
use searcher::{NoGate, build_tree};
use slots::{Seat, Slots};
use std::alloc::Global;
use std::sync::Wait;
use std::thread::Threads;
use wintree::check;

/// Builds the tree, or decides over the same table.
fn built(
    alloc: Global,
    slots: &Slots<MateLore>,
    mut seat: Seat,
    root: &Position,
    plies: u8,
) -> &'static str
    requires seat { IsSeatOf slots.now seat }
    requires plies { plies ≤ 63 }
    requires fewest { IsFewest Goal.Mate root.now plies }
{
    match build_tree(alloc, slots, &mut seat, root, Goal::Mate, plies) {
        Ok(tree) if check(root, &tree, Goal::Mate) == Some(3) => "built",
        Ok(_) => "wrong",
        Err(_) => {
            if decide(slots, &mut seat, root, Side::White, Goal::Mate, 3).yes {
                "no memory"
            } else {
                "no more decisions"
            }
        }
    }
}

pub(crate) fn answer<R: Threads + Wait + Sync>(rt: &R, alloc: Global) -> &'static str {
    let Some(root) = root() else {
        return "no position";
    };
    let Ok(Answer::Mate { plies, .. }) = solve(rt, alloc, &root, Goal::Mate, 3, 1, 64, &NoGate)
    else {
        return "no memory";
    };
    let Ok((slots, mut seats)) = Slots::<MateLore>::make(alloc, 64, 1) else {
        return "no memory";
    };
    match seats.pop() {
        Some(seat) => built(alloc, &slots, seat, &root, plies),
        None => "no seat",
    }
}
