//! The text of a solution.
ghost use Rattle.std.specs.Prelude.{◌≡◌, ℕ, All, IfOk, IfSome, string_bytes};
ghost use Rattle.solutions.specs.declared.extras.Extras.{Extras};
ghost use Rattle.solutions.specs.Solutions.{IsSetPlay, IsTry, IsSolution};
ghost use Rattle.solution_text.specs.Text.{headline_word, cooked_text, noted_text, headline, IsTextOf, IsSetPlayText, AreTriesText, IsSolutionText};

use crate::entries::texts;
use crate::tries::{set_play_text, tries_text};
use algebraic::Notation;
use moves::{Board, Goal};
use solutions::{Solution, Try, Variation};
use std::alloc::{AllocError, Allocator};

fn goal_word(goal: Goal) -> &'static str
    ensures { result.now ≡ headline_word goal }
{
    match goal {
        Goal::Mate => "mate",
        Goal::MateOrStale => "goal",
    }
}

/// How many keys there are beside the author's, if any.
fn cooked_text<A: Allocator>(alloc: A, keys: usize) -> Result<String<A>, AllocError>
    ensures { IfOk result (λ text. string_bytes text ≡ cooked_text keys) }
{
    match keys {
        0 | 1 => Ok(String::new(alloc)),
        2 => format!(in alloc; ", cooked by 1 key"),
        _ => {
            let others = keys - 1;
            format!(in alloc; ", cooked by {others} keys")
        },
    }
}

/// That the problem is short, or how many keys cook it, if it is either.
fn noted_text<A: Allocator>(alloc: A, sooner: bool, keys: usize) -> Result<String<A>, AllocError>
    ensures { IfOk result (λ text. string_bytes text ≡ noted_text sooner keys) }
{
    if sooner {
        format!(in alloc; ", short")
    } else {
        cooked_text(alloc, keys)
    }
}

/// The number of moves, and what is wrong with the problem.
pub(crate) fn headline<A: Allocator + Copy>(
    alloc: A,
    goal: Goal,
    sooner: bool,
    plies: u8,
    keys: usize,
) -> Result<String<A>, AllocError>
    ensures { IfOk result (λ text. string_bytes text ≡ headline goal sooner plies keys) }
{
    let word = goal_word(goal);
    let moves = (u16::from(plies) + 1) / 2;
    let noted = noted_text(alloc, sooner, keys)?;
    format!(in alloc; "{word} in {moves}{noted}\n")
}

/// The set play, where it was asked for.
fn set_play_if_asked<A: Allocator + Copy, B: Allocator>(
    alloc: A,
    notation: Notation,
    board: &Board,
    set_play: &Option<Vec<Variation<B>, B>>,
) -> Result<String<A>, AllocError>
    requires { (n : ℕ) × IfSome set_play.now (λ list. IsSetPlay notation.goal board.now n list.items) }
    ensures { IfOk result (λ text.
        IsTextOf (λ list. IsSetPlayText notation board.now list.items) set_play.now (string_bytes text)) }
{
    match set_play {
        Some(variations) => set_play_text(alloc, notation, board, variations.as_slice()),
        None => Ok(String::new(alloc)),
    }
}

/// The tries, where they were asked for.
fn tries_if_asked<A: Allocator + Copy, B: Allocator>(
    alloc: A,
    notation: Notation,
    board: &Board,
    tries: &Option<Vec<Try, B>>,
) -> Result<String<A>, AllocError>
    requires { (n : ℕ) × IfSome tries.now (λ list. All (IsTry notation.goal board.now n) list.items) }
    ensures { IfOk result (λ text.
        IsTextOf (λ list. AreTriesText notation board.now list.items) tries.now (string_bytes text)) }
{
    match tries {
        Some(tries) => tries_text(alloc, notation, board, tries.as_slice()),
        None => Ok(String::new(alloc)),
    }
}

/// What a composer publishes of the position on the board, and whether more moves were asked for.
pub fn solution_text<A: Allocator + Copy, B: Allocator>(
    alloc: A,
    notation: Notation,
    board: &Board,
    sooner: bool,
    solution: &Solution<B>,
) -> Result<String<A>, AllocError>
    requires { (extras : Extras) × IsSolution notation.goal board.now extras solution.now }
    ensures { IfOk result (λ text. IsSolutionText notation board.now sooner solution.now (string_bytes text)) }
{
    let keys = texts(alloc, notation, board, solution.keys.as_slice())?;
    let set_play = set_play_if_asked(alloc, notation, board, &solution.set_play)?;
    let tries = tries_if_asked(alloc, notation, board, &solution.tries)?;
    let head = headline(
        alloc,
        notation.goal,
        sooner,
        solution.plies,
        solution.keys.len(),
    )?;
    format!(in alloc; "{head}{set_play}{tries}{keys}")
}
