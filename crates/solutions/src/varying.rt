//! The variations of a position in which the defender is to move.
ghost use Rattle.std.specs.Prelude.{◌≡◌, ◌≤◌, IfErr, IfOk, MatchOption};
ghost use Rattle.problems.specs.Answer.{IsFewest, ForcesNothing};
ghost use Rattle.searcher.specs.declared.halt.Halt.TheVariants.{Stopped};
ghost use Rattle.problems.specs.Roots.{IsRoot, IsLimit};
ghost use Rattle.solutions.specs.Solutions.{TellsVariation, ListsVariations};

use crate::continuing::continuations_of;
use crate::lines::best_line;
use crate::variation::Variation;
use moves::{Board, Goal, Move, after, lawful_on};
use problems::{Answer, Root};
use searcher::{Decider, Halt, solve_by};
use std::alloc::Allocator;

/// The variation of the reply that leads to the root, where these plies are the fewest there.
fn variation_in<D: Decider, A: Allocator + Copy>(
    alloc: A,
    decider: &mut D,
    root: &Root,
    reply: Move,
    plies: u8,
) -> Result<Variation<A>, Halt>
    requires root { IsRoot root.now }
    requires plies { IsLimit plies }
    requires fewest { IsFewest root.now.goal root.now.board plies }
    ensures goes { D.goes decider.old decider.new }
    ensures reply { IfOk result (λ v. v.reply ≡ reply) }
    ensures plies { IfOk result (λ v. v.plies ≡ plies) }
    ensures tells { IfOk result (TellsVariation root.now.goal root.now.board) }
    ensures halt { IfErr result (λ halt. halt ≡ Stopped → D.told decider.new) }
{
    let moves = continuations_of(alloc, decider, root, plies)?;
    let line = best_line(alloc, decider, &root.board, root.goal, plies)?;
    Ok(Variation {
        reply,
        plies,
        moves,
        line,
    })
}

/// The variation of the reply that leads to the root, where the goal is forced there within the limit.
fn variation_of<D: Decider, A: Allocator + Copy>(
    alloc: A,
    decider: &mut D,
    root: &Root,
    reply: Move,
) -> Result<Option<Variation<A>>, Halt>
    requires root { IsRoot root.now }
    ensures goes { D.goes decider.old decider.new }
    ensures found { IfOk result (λ found. MatchOption found (ForcesNothing root.now.goal root.now.board root.now.limit)
        (λ v. (v.reply ≡ reply) × (v.plies ≤ root.now.limit) × TellsVariation root.now.goal root.now.board v)) }
    ensures halt { IfErr result (λ halt. halt ≡ Stopped → D.told decider.new) }
{
    match solve_by(decider, root) {
        None => Err(Halt::Stopped),
        Some(Answer::NoneWithin(_)) => Ok(None),
        Some(Answer::Mate { plies, .. }) => {
            Ok(Some(variation_in(alloc, decider, root, reply, plies)?))
        }
    }
}

/// The variations of the replies behind which the goal is forced within the limit.
pub(crate) fn variations_of<D: Decider, A: Allocator + Copy>(
    alloc: A,
    decider: &mut D,
    board: &Board,
    goal: Goal,
    limit: u8,
) -> Result<Vec<Variation<A>, A>, Halt>
    requires limit { limit ≤ 63 }
    ensures goes { D.goes decider.old decider.new }
    ensures variations { IfOk result (λ variations. ListsVariations goal board.now limit variations.items) }
    ensures halt { IfErr result (λ halt. halt ≡ Stopped → D.told decider.new) }
{
    let mut variations = Vec::new(alloc);
    let replies = lawful_on(board);
    for reply in replies.as_slice() {
        let root = Root::on(after(board, *reply), goal, limit);
        if let Some(variation) = variation_of(alloc, decider, &root, *reply)? {
            variations.push(variation)?;
        }
    }
    Ok(variations)
}
