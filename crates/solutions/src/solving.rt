//! The solution of a problem.
ghost use Rattle.std.specs.Prelude.{◌≡◌, ◌≤◌, IfErr, IfOk};
ghost use Rattle.problems.specs.Answer.{Wins, IsFewest};
ghost use Rattle.searcher.specs.declared.halt.Halt.TheVariants.{Stopped};
ghost use Rattle.problems.specs.Roots.{IsRoot, IsLimit};
ghost use Rattle.solutions.specs.Solutions.{IsKeyPlay, ListsKeyPlays, IsSetPlay, ListsTries, IsWhereAsked, IsSolution};

use crate::continuing::continuations_of;
use crate::extras::Extras;
use crate::first_try::Try;
use crate::key_play::KeyPlay;
use crate::passing::passed;
use crate::solution::Solution;
use crate::threatening::threats_of;
use crate::trying::tries_of;
use crate::variation::Variation;
use crate::varying::variations_of;
use moves::{Move, after};
use problems::Root;
use searcher::{Decider, Halt};
use std::alloc::Allocator;

/// The key's play.
fn key_play_of<D: Decider, A: Allocator + Copy>(
    alloc: A,
    decider: &mut D,
    root: &Root,
    first: Move,
    plies: u8,
) -> Result<KeyPlay<A>, Halt>
    requires plies { plies ≤ 63 }
    requires key { Wins root.now.goal root.now.board plies first }
    ensures goes { D.goes decider.old decider.new }
    ensures first { IfOk result (λ key. key.first ≡ first) }
    ensures play { IfOk result (IsKeyPlay root.now.goal root.now.board plies) }
    ensures halt { IfErr result (λ halt. halt ≡ Stopped → D.told decider.new) }
{
    let next = after(&root.board, first);
    let left = plies.saturating_sub(2);
    let threats = threats_of(alloc, decider, &next, root.goal, left)?;
    let variations = variations_of(alloc, decider, &next, root.goal, left)?;
    Ok(KeyPlay {
        first,
        threats,
        variations,
    })
}

/// The keys, each with its play.
fn key_plays_of<D: Decider, A: Allocator + Copy>(
    alloc: A,
    decider: &mut D,
    root: &Root,
    plies: u8,
) -> Result<Vec<KeyPlay<A>, A>, Halt>
    requires root { IsRoot root.now }
    requires plies { IsLimit plies }
    ensures goes { D.goes decider.old decider.new }
    ensures keys { IfOk result (λ keys. ListsKeyPlays root.now.goal root.now.board plies keys.items) }
    ensures halt { IfErr result (λ halt. halt ≡ Stopped → D.told decider.new) }
{
    let firsts = continuations_of(alloc, decider, root, plies)?;
    let mut keys = Vec::new(alloc);
    for first in firsts.as_slice() {
        let key = key_play_of(alloc, decider, root, *first, plies)?;
        keys.push(key)?;
    }
    Ok(keys)
}

/// The set play, if it is asked for.
fn set_play_of<D: Decider, A: Allocator + Copy>(
    alloc: A,
    decider: &mut D,
    root: &Root,
    plies: u8,
    asked: bool,
) -> Result<Option<Vec<Variation<A>, A>>, Halt>
    requires plies { plies ≤ 63 }
    ensures goes { D.goes decider.old decider.new }
    ensures play { IfOk result (IsWhereAsked (λ list. IsSetPlay root.now.goal root.now.board plies list.items) asked) }
    ensures halt { IfErr result (λ halt. halt ≡ Stopped → D.told decider.new) }
{
    if !asked {
        return Ok(None);
    }
    let Some(next) = passed(&root.board) else {
        return Ok(Some(Vec::new(alloc)));
    };
    let left = plies.saturating_sub(2);
    Ok(Some(variations_of(alloc, decider, &next, root.goal, left)?))
}

/// The tries, if they are asked for.
fn tries_if<D: Decider, A: Allocator>(
    alloc: A,
    decider: &mut D,
    root: &Root,
    plies: u8,
    asked: bool,
) -> Result<Option<Vec<Try, A>>, Halt>
    requires root { IsRoot root.now }
    requires plies { plies ≤ 63 }
    ensures goes { D.goes decider.old decider.new }
    ensures tries { IfOk result (IsWhereAsked
        (λ list. ListsTries root.now.goal root.now.board plies list.items) asked) }
    ensures halt { IfErr result (λ halt. halt ≡ Stopped → D.told decider.new) }
{
    if !asked {
        return Ok(None);
    }
    Ok(Some(tries_of(alloc, decider, root, plies)?))
}

/// The solution of a position, whose fewest plies to the goal these are; or that the decider was told to stop, or that memory is wanting.
pub fn solution_of<D: Decider, A: Allocator + Copy>(
    alloc: A,
    decider: &mut D,
    root: &Root,
    plies: u8,
    extras: Extras,
) -> Result<Solution<A>, Halt>
    requires root { IsRoot root.now }
    requires plies { plies ≤ 63 }
    requires fewest { IsFewest root.now.goal root.now.board plies }
    ensures goes { D.goes decider.old decider.new }
    ensures solution { IfOk result (IsSolution root.now.goal root.now.board extras) }
    ensures halt { IfErr result (λ halt. halt ≡ Stopped → D.told decider.new) }
{
    let keys = key_plays_of(alloc, decider, root, plies)?;
    let set_play = set_play_of(alloc, decider, root, plies, extras.set_play)?;
    let tries = tries_if(alloc, decider, root, plies, extras.tries)?;
    Ok(Solution {
        plies,
        keys,
        set_play,
        tries,
    })
}
