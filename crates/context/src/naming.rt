//! The first moves of a root by their names.
ghost use Rattle.std.specs.Prelude.{MatchOption};
ghost use Rattle.problems.specs.Roots.{IsRoot, IsJobOf};
ghost use Rattle.context.specs.Naming.{NamesJob, NamesNone};

use moves::read_move;
use problems::Root;

/// The number of the lawful move of this name.
pub fn named_job(root: &Root, name: &[u8]) -> Option<u16>
    requires { IsRoot root.now }
    ensures { MatchOption result (NamesNone root.now.board name.now)
        (λ job. IsJobOf root.now job × NamesJob root.now.moves.items name.now job) }
{
    let named = read_move(name)?;
    for job in 0..root.jobs() {
        if root.moves[usize::from(job)] == named {
            return Some(job);
        }
    }
    None
}
