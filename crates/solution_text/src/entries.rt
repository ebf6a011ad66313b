//! Texts one behind the other.
ghost use Rattle.std.specs.Prelude.{ℕ, All, IfOk, List, string_bytes};
ghost use Rattle.board.specs.Board.{PlainBoard};
ghost use Rattle.algebraic.specs.declared.naming.Notation.{Notation};
ghost use Rattle.solution_text.specs.Text.{AreTexts};

use algebraic::Notation;
use moves::Board;
use std::alloc::{AllocError, Allocator};

/// A key, a variation or a try, told with others of its kind, one behind the other.
pub(crate) trait Entry {
    /// On the board it is such a key, variation or try.
    ghost holds: { Notation → PlainBoard → Self → Type 0 };

    /// By this notation its text on the board is this one.
    ghost shows: { Notation → PlainBoard → Self → List ℕ → Type 0 };

    /// Its text on the board.
    fn text<A: Allocator + Copy>(
        &self,
        alloc: A,
        notation: Notation,
        board: &Board,
    ) -> Result<String<A>, AllocError>
        requires { holds notation board.now self.now }
        ensures { IfOk result (λ text. shows notation board.now self.now (string_bytes text)) };
}

/// The texts of all entries, one behind the other.
pub(crate) fn texts<A: Allocator + Copy, T: Entry>(
    alloc: A,
    notation: Notation,
    board: &Board,
    entries: &[T],
) -> Result<String<A>, AllocError>
    requires { All (T.holds notation board.now) entries.now }
    ensures { IfOk result (λ text. AreTexts (T.shows notation board.now) entries.now (string_bytes text)) }
{
    let mut text = String::new(alloc);
    for entry in entries {
        let one = entry.text(alloc, notation, board)?;
        text.push_str(one.as_str())?;
    }
    Ok(text)
}
