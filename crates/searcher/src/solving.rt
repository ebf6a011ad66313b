//! A solve by whoever decides: round after round, each by the root's moves in order.
ghost use Rattle.std.specs.Prelude.{MatchOption};
ghost use Rattle.problems.specs.Answer.{IsAnswer};
ghost use Rattle.problems.specs.Roots.{IsRoot, IsLimit, EndsRound};

use crate::decider::Decider;
use problems::{Answer, Root};

/// The least job that wins within so many plies, if one does; or `None` where the decider was told to stop.
pub fn least_win<D: Decider>(decider: &mut D, root: &Root, plies: u8) -> Option<Option<u16>>
    requires root { IsRoot root.now }
    requires plies { IsLimit plies }
    ensures goes { D.goes decider.old decider.new }
    ensures least { MatchOption result (D.told decider.new) (EndsRound root.now plies) }
{
    decider.begin(plies - 1, root.jobs());
    for job in 0..root.jobs() {
        if decider.wins(root, job, plies)? {
            return Some(Some(job));
        }
        decider.step();
    }
    Some(None)
}

/// The fewest plies in which the side to move forces the goal, with the least first move, or that there are none up to the limit; or
/// `None` where the decider was told to stop.
pub fn solve_by<D: Decider>(decider: &mut D, root: &Root) -> Option<Answer>
    requires root { IsRoot root.now }
    ensures goes { D.goes decider.old decider.new }
    ensures answer { MatchOption result (D.told decider.new) (IsAnswer root.now.goal root.now.board root.now.limit) }
{
    for number in 0..(root.limit + 1) / 2 {
        let plies = 2 * number + 1;
        if let Some(job) = least_win(decider, root, plies)? {
            let first = root.moves[usize::from(job)];
            return Some(Answer::Mate { plies, first });
        }
    }
    Some(Answer::NoneWithin(root.limit))
}
