//! One line of claims, and what it shows.
ghost use Rattle.std.specs.Prelude.{◌≡◌, ◌≢◌, ◌<◌, ◌≤◌, ℕ, [], IfOk, length, slice_index_or};
ghost use Rattle.verifying.specs.Reading.{AreApart, IsLineAt};
ghost use Rattle.verifying.specs.Yielding.{YieldsOnly};
ghost use Rattle.verifying.specs.Certificate.{IsLesserLine, IsNoLine, IsSomeYesLine, IsYesLine, shorter_claim, with_claim};

use crate::claims::Claims;
use crate::no_claims::all_fail;
use crate::part::Mate;
use crate::words::Word;
use crate::yes_claims::winning_move;
use certificates::Claim;
use moves::{Board, Goal, Move, lawful_on};
use std::alloc::{AllocError, Allocator};

/// The place of the move in the list, or the list's length where it isn't there.
pub fn place_of(moves: &[Move], first: Move) -> usize
    ensures within { result ≤ length moves.now }
    ensures there { slice_index_or moves.now result first ≡ first }
    ensures least { (k : ℕ) → k < result → slice_index_or moves.now k first ≢ first }
{
    for at in 0..moves.len() {
        if moves[at] == first {
            return at;
        }
    }
    moves.len()
}

/// Whether the words show the no claim at this place.
pub(crate) fn shows_no<A: Allocator + Copy>(
    claims: &mut Claims<A>,
    goal: Goal,
    place: usize,
    words: &[Word],
) -> Result<bool, AllocError>
    requires within { place < length claims.old }
    requires apart { AreApart claims.old }
    ensures { IfOk result (λ yes. YieldsOnly (IsLineAt (IsNoLine goal) place words.now claims.old) yes claims.new) }
{
    let claim = claims.claim(place);
    let moves = lawful_on(&claim.position);
    all_fail(claims, goal, &claim, moves.as_slice(), words)
}

/// Whether the words show the yes claim at this place.
pub(crate) fn shows_yes<A: Allocator + Copy>(
    claims: &mut Claims<A>,
    goal: Goal,
    place: usize,
    words: &[Word],
) -> Result<bool, AllocError>
    requires within { place < length claims.old }
    requires apart { AreApart claims.old }
    ensures { IfOk result (λ yes.
        YieldsOnly (IsLineAt (IsSomeYesLine goal) place words.now claims.old) yes claims.new) }
{
    let claim = claims.claim(place);
    let found = winning_move(claims, goal, &claim, words)?;
    Ok(found.is_some())
}

/// Whether the words show the first yes claim, which is made here in place of the claims: that the answer's move wins within its
/// plies.
pub(crate) fn shows_win<A: Allocator + Copy>(
    claims: &mut Claims<A>,
    board: &Board,
    goal: Goal,
    mate: Mate,
    words: &[Word],
) -> Result<bool, AllocError>
    ensures { IfOk result (λ yes. YieldsOnly (IsYesLine goal (record { position = board.now; plies = mate.plies })
        mate.first words.now (with_claim [] board.now mate.plies)) yes claims.new) }
{
    claims.clear();
    claims.push(board, mate.plies)?;
    let claim = claims.claim(0);
    match winning_move(claims, goal, &claim, words)? {
        Some(m) => Ok(m == mate.first),
        None => Ok(false),
    }
}

/// Makes the no claim of two plies fewer, if there are any, in place of the claims.
fn begin_fewer<A: Allocator + Copy>(
    claims: &mut Claims<A>,
    board: &Board,
    plies: u8,
) -> Result<(), AllocError>
    ensures { IfOk result (λ done. claims.new ≡ shorter_claim board.now plies) }
{
    claims.clear();
    if plies > 2 {
        claims.push(board, plies - 2)?;
    }
    Ok(())
}

/// Begins the no claims of a mate, in place of the claims: whether the words show that no move before the answer's is as good.
pub(crate) fn shows_lesser<A: Allocator + Copy>(
    claims: &mut Claims<A>,
    board: &Board,
    goal: Goal,
    mate: Mate,
    words: &[Word],
) -> Result<bool, AllocError>
    ensures { IfOk result (λ yes. YieldsOnly (IsLesserLine goal board.now mate.plies mate.first words.now
        (shorter_claim board.now mate.plies)) yes claims.new) }
{
    begin_fewer(claims, board, mate.plies)?;
    let moves = lawful_on(board);
    let lesser = place_of(moves.as_slice(), mate.first);
    if lesser == moves.len() {
        return Ok(false);
    }
    let claim = Claim {
        position: board.copied(),
        plies: mate.plies,
    };
    all_fail(claims, goal, &claim, &moves.as_slice()[..lesser], words)
}
