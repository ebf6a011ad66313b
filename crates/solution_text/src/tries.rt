//! The text of set play and of tries.
ghost use Rattle.std.specs.Prelude.{ℕ, All, IfOk, string_bytes};
ghost use Rattle.solutions.specs.Solutions.{IsSetPlay, IsTry};
ghost use Rattle.solution_text.specs.Text.{IsSetPlayText, IsTryText, AreTriesText};

use crate::entries::{Entry, texts};
use algebraic::Notation;
use moves::{Board, after};
use solutions::{Try, Variation, passed};
use std::alloc::{AllocError, Allocator};

/// The set play, under a heading.
pub(crate) fn set_play_text<A: Allocator + Copy, B: Allocator>(
    alloc: A,
    notation: Notation,
    board: &Board,
    variations: &[Variation<B>],
) -> Result<String<A>, AllocError>
    requires { (n : ℕ) × IsSetPlay notation.goal board.now n variations.now }
    ensures { IfOk result (λ text. IsSetPlayText notation board.now variations.now (string_bytes text)) }
{
    if variations.is_empty() {
        return format!(in alloc; "no set play\n");
    }
    let Some(passed) = passed(board) else {
        unreachable!()
    };
    let lines = texts(alloc, notation, &passed, variations)?;
    format!(in alloc; "set play\n{lines}")
}

/// A try and what refutes it, on a line of its own.
impl Entry for Try {
    ghost holds = { λ notation b first_try. (n : ℕ) × IsTry notation.goal b n first_try };

    ghost shows = { IsTryText };

    fn text<A: Allocator + Copy>(
        &self,
        alloc: A,
        notation: Notation,
        board: &Board,
    ) -> Result<String<A>, AllocError> {
        let Try { first, refutation } = *self;
        let next = after(board, first);
        let name = notation.name(board, first);
        let reply = notation.name(&next, refutation);
        format!(in alloc; "1.{name}? {reply}!\n")
    }
}

/// The tries, under a heading.
pub(crate) fn tries_text<A: Allocator + Copy>(
    alloc: A,
    notation: Notation,
    board: &Board,
    tries: &[Try],
) -> Result<String<A>, AllocError>
    requires { (n : ℕ) × All (IsTry notation.goal board.now n) tries.now }
    ensures { IfOk result (λ text. AreTriesText notation board.now tries.now (string_bytes text)) }
{
    if tries.is_empty() {
        return format!(in alloc; "no tries\n");
    }
    let lines = texts(alloc, notation, board, tries)?;
    format!(in alloc; "tries\n{lines}")
}
