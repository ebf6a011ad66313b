//! Rays: the squares in one direction, up to the edge of the board.
ghost use Rattle.std.specs.Prelude.{◌≡◌, ◌<◌, ◌≤◌, ◌+◌, ◌++◌, ℕ, List};
ghost use Rattle.std.specs.Int.RustNames.{unsigned_abs};
ghost use Rattle.arrayvec.specs.ArrayVec.{array_vec_len};
ghost use Rattle.board.specs.Games.{squares_of};
ghost use Rattle.rules.specs.Squares.{Place, IsOnBoard, square_number};
ghost use Rattle.rules.specs.Rays.{IsRay, squares_left};

use crate::Square;
use crate::reach::next;
use arrayvec::ArrayVec;
use board::{Game, Mode, Side, Step};

/// Adds the squares that the step comes to, up to the edge.
fn extend(game: Game, step: &Step, from: Square, squares: &mut ArrayVec<u8, 5>)
    requires on_board { IsOnBoard game from }
    requires goes { 0 < unsigned_abs step.now.dx + unsigned_abs step.now.dy }
    requires room { array_vec_len squares.old + squares_left step.now.dx step.now.dy from ≤ 5 }
    ensures { (more : List ℕ) × (squares.new.items ≡ squares.old.items ++ more)
        × IsRay game step.now.dx step.now.dy from more }
{
    let Some(square) = next(game, Side::White, step, from) else {
        return;
    };
    squares.push(square.number(game));
    extend(game, step, square, squares);
}

/// The squares from the next one to the edge, by number. A direction is `dx` files to the right and `dy` ranks up; one of
/// more than a square leaps over those between.
pub fn ray(game: Game, square: u8, dx: i8, dy: i8) -> ArrayVec<u8, 5>
    requires square { square < squares_of game }
    requires goes { 0 < unsigned_abs dx + unsigned_abs dy }
    ensures { (s : Place) → IsOnBoard game s → square_number game s ≡ square → IsRay game dx dy s result.items }
{
    // A ray is the same for both sides: White counts its ranks from rank 1 up.
    let step = Step {
        dx,
        dy,
        rider: true,
        mode: Mode::Both,
    };
    let mut squares = ArrayVec::new();
    extend(game, &step, Square::of_number(game, square), &mut squares);
    squares
}
