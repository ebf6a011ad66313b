//! The keys of a position: its first moves that force the goal, each with the plies that it takes.
ghost use Rattle.std.specs.Prelude.{◌≡◌, ℕ, ◌≤◌, IfErr, IfOk, MatchOption};
ghost use Rattle.searcher.specs.declared.halt.Halt.TheVariants.{Stopped};
ghost use Rattle.problems.specs.Keys.{ListsKeys};
ghost use Rattle.problems.specs.Roots.{IsRoot, IsJobOf, TakesIn};

use crate::decider::Decider;
use crate::halt::Halt;
use problems::{Key, Root};
use std::alloc::Allocator;

/// The fewest plies, up to the limit, within which the job wins, if it does: rounds of 1, 3, 5 and so on. `None` where the decider was
/// told to stop.
pub fn plies_of<D: Decider>(decider: &mut D, root: &Root, job: u16) -> Option<Option<u8>>
    requires job { IsJobOf root.now job }
    ensures goes { D.goes decider.old decider.new }
    ensures plies { MatchOption result (D.told decider.new)
        (λ found. MatchOption found ((n : ℕ) → n ≤ root.now.limit → TakesIn root.now n job → ⊥)
        (λ n. (n ≤ root.now.limit) × TakesIn root.now n job)) }
{
    for number in 0..(root.limit + 1) / 2 {
        let plies = 2 * number + 1;
        if decider.wins(root, job, plies)? {
            return Some(Some(plies));
        }
    }
    Some(None)
}

/// Each first move that forces the goal within the limit, in order, with the fewest plies that it takes; or that the decider was told to
/// stop, or that memory is wanting.
pub fn keys_of<D: Decider, A: Allocator>(
    alloc: A,
    decider: &mut D,
    root: &Root,
) -> Result<Vec<Key, A>, Halt>
    requires root { IsRoot root.now }
    ensures goes { D.goes decider.old decider.new }
    ensures keys { IfOk result (λ keys. ListsKeys root.now.goal root.now.board root.now.limit keys.items) }
    ensures halt { IfErr result (λ halt. halt ≡ Stopped → D.told decider.new) }
{
    let mut keys = Vec::new(alloc);
    decider.begin(0, root.jobs());
    for job in 0..root.jobs() {
        let first = root.moves[usize::from(job)];
        let Some(found) = plies_of(decider, root, job) else {
            return Err(Halt::Stopped);
        };
        if let Some(plies) = found {
            keys.push(Key { first, plies })?;
        }
        decider.step();
    }
    Ok(keys)
}
