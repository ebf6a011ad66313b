//! The text of variations.
ghost use Rattle.std.specs.Prelude.{All, IfOk, string_bytes};
ghost use Rattle.rules.specs.Moves.{IsLawful};
ghost use Rattle.solutions.specs.Solutions.{IsVariation};
ghost use Rattle.solution_text.specs.Text.{AreDualsText, IsVariationText};

use crate::entries::Entry;
use crate::lines::{line_text, numbered_moves};
use algebraic::Notation;
use moves::{Board, Move, after};
use solutions::Variation;
use std::alloc::{AllocError, Allocator};

/// The continuations but the first, each as the attacker's move of this number.
pub(crate) fn duals_text<A: Allocator + Copy>(
    alloc: A,
    notation: Notation,
    number: u16,
    board: &Board,
    moves: &[Move],
) -> Result<String<A>, AllocError>
    requires { All (IsLawful board.now) moves.now }
    ensures { IfOk result (λ text. AreDualsText notation number board.now moves.now (string_bytes text)) }
{
    match moves {
        [] | [_] => Ok(String::new(alloc)),
        [_, duals @ ..] => {
            let duals = numbered_moves(alloc, notation, number, board, duals)?;
            format!(in alloc; ", dual{duals}")
        }
    }
}

/// A variation, on a line of its own.
impl<B: Allocator> Entry for Variation<B> {
    ghost holds = { λ notation q variation. IsVariation notation.goal q variation };

    ghost shows = { IsVariationText };

    fn text<A: Allocator + Copy>(
        &self,
        alloc: A,
        notation: Notation,
        board: &Board,
    ) -> Result<String<A>, AllocError> {
        let _plies = self.plies;
        let next = after(board, self.reply);
        let reply = notation.name(board, self.reply);
        let line = line_text(alloc, notation, &next, 2, self.line.as_slice())?;
        let duals = duals_text(alloc, notation, 2, &next, self.moves.as_slice())?;
        format!(in alloc; "  1...{reply}{line}{duals}\n")
    }
}
