//! The building of a tree.
ghost use Rattle.std.specs.Prelude.{◌≡◌, ◌<◌, ◌≤◌, ◌+◌, ◌*◌, IfErr, IfOk, All, map};
ghost use Rattle.rules.specs.Squares.{Ply};
ghost use Rattle.rules.specs.Moves.{IsMove, IsLawful};
ghost use Rattle.rules.specs.Order.{ListsLawful};
ghost use Rattle.rules.specs.Forces.{IsReached, Forces};
ghost use Rattle.slots.specs.Promise.{IsSeatOf};
ghost use Rattle.problems.specs.Answer.{IsFewest, Wins as WinsWithin};
ghost use Rattle.decision.specs.Calls.{Continues};
ghost use Rattle.wintree.specs.Plan.{depth};
ghost use Rattle.wintree.specs.Wins.{Wins, EndsAt, height};
ghost use Rattle.searcher.specs.declared.halt.Halt.TheVariants.{Stopped};
ghost use Rattle.searcher.specs.Best.{IsBest, IsBestAfter};
ghost use Rattle.searcher.specs.First.{IsBestOf};

use crate::best::best_move;
use crate::decider::Decider;
use crate::halt::Halt;
use crate::searcher::Searcher;
use board::Position;
use decision::{Memory, Never, Scout};
use entry::MateLore;
use moves::{Board, Goal, Move, after, has_lawful_move, lawful_on, mover_in_check};
use slots::{Seat, Slots};
use std::alloc::Allocator;
use wintree::{End, NoMemory, Tree};

/// How the line ends where the goal is reached.
fn end_at(board: &Board, goal: Goal) -> End
    requires { IsReached goal board.now }
    ensures { EndsAt goal board.now result }
{
    if mover_in_check(board) {
        End::Mate
    } else {
        End::Stale
    }
}

/// What each part of a tree is built with.
#[derive(Drop)]
pub(crate) struct Builder<B: Allocator> {
    pub(crate) alloc: B,
    pub(crate) goal: Goal,
}

/// The best tree, where the side to move forces the goal within the limit.
#[cycle(building)]
fn best_tree<D: Decider, B: Allocator + Copy>(
    builder: &Builder<B>,
    decider: &mut D,
    board: &Board,
    limit: u8,
) -> Result<Tree<B>, Halt>
    requires limit { limit ≤ 63 }
    requires forced { Forces builder.now.goal board.now.mover board.now limit }
    ensures goes { D.goes decider.old decider.new }
    ensures best { IfOk result (IsBest builder.now.goal board.now) }
    ensures depth { IfOk result (λ tree. 2 * depth tree ≤ limit + 1) }
    ensures halt { IfErr result (λ halt. halt ≡ Stopped → D.told decider.new) }
{
    let Some(attack) = best_move(decider, board, builder.goal, limit) else {
        return Err(Halt::Stopped);
    };
    tree_behind(builder, decider, board, attack, limit)
}

/// The tree of a first move that wins within the limit: behind each reply it is the best.
#[cycle(building)]
pub(crate) fn tree_behind<D: Decider, B: Allocator + Copy>(
    builder: &Builder<B>,
    decider: &mut D,
    board: &Board,
    first: Move,
    limit: u8,
) -> Result<Tree<B>, Halt>
    requires limit { (0 < limit) × (limit ≤ 63) }
    requires wins { WinsWithin builder.now.goal board.now limit first }
    ensures goes { D.goes decider.old decider.new }
    ensures best { IfOk result (IsBestOf builder.now.goal board.now first) }
    ensures depth { IfOk result (λ tree. 2 * depth tree ≤ limit + 1) }
    ensures halt { IfErr result (λ halt. halt ≡ Stopped → D.told decider.new) }
{
    let next = after(board, first);
    if !has_lawful_move(&next) {
        return Ok(Tree::end(builder.alloc, first, end_at(&next, builder.goal))?);
    }
    let replies = replies_to(builder, decider, &next, limit - 2)?;
    Ok(Tree::node(builder.alloc, first, replies)?)
}

/// Each lawful reply, in order, with the best tree that meets it, where each is met within so many plies.
#[cycle(building)]
fn replies_to<D: Decider, B: Allocator + Copy>(
    builder: &Builder<B>,
    decider: &mut D,
    board: &Board,
    n: u8,
) -> Result<Vec<(Move, Tree<B>), B>, Halt>
    requires plies { n ≤ 61 }
    requires some { (m : Ply) × IsLawful board.now m }
    requires forced { (m : Ply) (q : _) → IsMove board.now m q → Forces builder.now.goal q.mover q n }
    ensures goes { D.goes decider.old decider.new }
    ensures replies { IfOk result (λ replies. ListsLawful board.now (map (λ reply. reply.0) replies.items)) }
    ensures best { IfOk result (λ replies.
        All (λ reply. IsBestAfter builder.now.goal board.now reply.0 reply.1) replies.items) }
    ensures depth { IfOk result (λ replies. All (λ reply. 2 * depth reply.1 ≤ n + 1) replies.items) }
    ensures halt { IfErr result (λ halt. halt ≡ Stopped → D.told decider.new) }
{
    let mut replies = Vec::new(builder.alloc);
    let moves = lawful_on(board);
    for m in moves.as_slice() {
        let tree = best_tree(builder, decider, &after(board, *m), n)?;
        replies.push((*m, tree))?;
    }
    Ok(replies)
}

/// The tree of a position whose fewest plies to the goal these are: at each turn of the attacker it takes the fewest plies, and
/// then the least move; or that the decider was told to stop, or that memory is wanting.
pub fn tree_by<D: Decider, B: Allocator + Copy>(
    alloc: B,
    decider: &mut D,
    position: &Position,
    goal: Goal,
    plies: u8,
) -> Result<Tree<B>, Halt>
    requires plies { plies ≤ 63 }
    requires fewest { IsFewest goal position.now plies }
    ensures goes { D.goes decider.old decider.new }
    ensures best { IfOk result (IsBest goal position.now) }
    ensures wins { IfOk result (Wins goal position.now) }
    ensures height { IfOk result (λ tree. height tree ≡ plies) }
    ensures halt { IfErr result (λ halt. halt ≡ Stopped → D.told decider.new) }
{
    let builder = Builder { alloc, goal };
    best_tree(&builder, decider, &Board::of(position), plies)
}

/// `tree_by`, by the caller's own thread over a table, where nothing stops it. After a want of memory the table and the seat serve the
/// next call.
pub fn build_tree<A: Allocator, B: Allocator + Copy>(
    alloc: B,
    slots: &Slots<MateLore, A>,
    seat: &mut Seat,
    position: &Position,
    goal: Goal,
    plies: u8,
) -> Result<Tree<B>, NoMemory>
    requires seat { IsSeatOf slots.now seat.old }
    requires plies { plies ≤ 63 }
    requires fewest { IsFewest goal position.now plies }
    ensures continues { Continues slots.now seat.old seat.new }
    ensures best { IfOk result (IsBest goal position.now) }
    ensures wins { IfOk result (Wins goal position.now) }
    ensures height { IfOk result (λ tree. height tree ≡ plies) }
{
    let mut scout = Scout {
        stop: Never,
        memory: Memory::new(),
    };
    let mut searcher = Searcher {
        slots,
        seat,
        scout: &mut scout,
    };
    match tree_by(alloc, &mut searcher, position, goal, plies) {
        Ok(tree) => Ok(tree),
        Err(Halt::NoMemory) => Err(NoMemory),
        Err(Halt::Stopped) => unreachable!(),
    }
}
