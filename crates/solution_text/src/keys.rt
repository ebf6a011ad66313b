//! The text of keys.
ghost use Rattle.std.specs.Prelude.{◌≡◌, ℕ, IfOk, string_bytes};
ghost use Rattle.solutions.specs.Solutions.{AreThreats, IsKeyPlay};
ghost use Rattle.solution_text.specs.Text.{threat_word, AreThreatsText, IsKeyText};

use crate::entries::{Entry, texts};
use crate::lines::numbered_moves;
use algebraic::Notation;
use moves::{Board, Move, after};
use solutions::{KeyPlay, Threats, passed};
use std::alloc::{AllocError, Allocator};

fn threat_word(moves: &[Move]) -> &'static str
    ensures { result.now ≡ threat_word moves.now }
{
    match moves {
        [_] => " threat",
        _ => " threats",
    }
}

/// What is threatened, with the attacker's move of this number, on the board that a move of his leads to.
pub(crate) fn threats_text<A: Allocator + Copy, B: Allocator>(
    alloc: A,
    notation: Notation,
    number: u16,
    board: &Board,
    threats: &Threats<B>,
) -> Result<String<A>, AllocError>
    requires { (n : ℕ) × AreThreats notation.goal board.now n threats.now }
    ensures { IfOk result (λ text. AreThreatsText notation number board.now threats.now (string_bytes text)) }
{
    match threats {
        Threats::End | Threats::Check => Ok(String::new(alloc)),
        Threats::Zugzwang => format!(in alloc; " zugzwang"),
        Threats::Moves { moves, .. } => {
            let Some(passed) = passed(board) else {
                unreachable!()
            };
            let word = threat_word(moves.as_slice());
            let moves = numbered_moves(alloc, notation, number, &passed, moves.as_slice())?;
            format!(in alloc; "{word}{moves}")
        }
    }
}

/// A key, what it threatens, and its variations.
impl<B: Allocator> Entry for KeyPlay<B> {
    ghost holds = { λ notation b key. (n : ℕ) × IsKeyPlay notation.goal b n key };

    ghost shows = { IsKeyText };

    fn text<A: Allocator + Copy>(
        &self,
        alloc: A,
        notation: Notation,
        board: &Board,
    ) -> Result<String<A>, AllocError> {
        let next = after(board, self.first);
        let name = notation.name(board, self.first);
        let threats = threats_text(alloc, notation, 2, &next, &self.threats)?;
        let variations = texts(alloc, notation, &next, self.variations.as_slice())?;
        format!(in alloc; "1.{name}!{threats}\n{variations}")
    }
}
