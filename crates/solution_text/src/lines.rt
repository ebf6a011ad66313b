//! The text of lines, and of moves beside one another.
ghost use Rattle.std.specs.Prelude.{◌≡◌, ◌+◌, ◌≤◌, ℕ, All, IfOk, string_bytes};
ghost use Rattle.rules.specs.Moves.{IsLawful};
ghost use Rattle.solutions.specs.Lines.{IsBestLine};
ghost use Rattle.solution_text.specs.Text.{AreTexts, IsNumbered, IsLineText};

use algebraic::Notation;
use moves::{Board, Move, after};
use std::alloc::{AllocError, Allocator};
use std::fmt::Write;

/// Each as the attacker's move of this number.
pub fn numbered_moves<A: Allocator>(
    alloc: A,
    notation: Notation,
    number: u16,
    board: &Board,
    moves: &[Move],
) -> Result<String<A>, AllocError>
    requires { All (IsLawful board.now) moves.now }
    ensures { IfOk result (λ text. AreTexts (IsNumbered notation number board.now) moves.now (string_bytes text)) }
{
    let mut text = String::new(alloc);
    for m in moves {
        let name = notation.name(board, *m);
        write!(text, " {number}.{name}")?;
    }
    Ok(text)
}

/// A best line from the attacker's move of this number.
pub(crate) fn line_text<A: Allocator + Copy>(
    alloc: A,
    notation: Notation,
    board: &Board,
    number: u16,
    line: &[Move],
) -> Result<String<A>, AllocError>
    requires { (n : ℕ) × (number + n ≤ 999) × IsBestLine notation.goal board.now n line.now }
    ensures { IfOk result (λ text. IsLineText notation number board.now line.now (string_bytes text)) }
{
    match line {
        [] => Ok(String::new(alloc)),
        [last] => {
            let name = notation.name(board, *last);
            format!(in alloc; " {number}.{name}")
        }
        [attack, reply, rest @ ..] => {
            let attacked = after(board, *attack);
            let next = after(&attacked, *reply);
            let rest = line_text(alloc, notation, &next, number + 1, rest)?;
            let attack = notation.name(board, *attack);
            let reply = notation.name(&attacked, *reply);
            format!(in alloc; " {number}.{attack} {reply}{rest}")
        }
    }
}
