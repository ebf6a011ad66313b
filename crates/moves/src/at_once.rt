//! What the side to move can reach with its next move.
ghost use Rattle.std.specs.Prelude.{◌≡◌, ◌↔◌, IsTrue, Some, true, false, ℕ};
ghost use Rattle.board.specs.Board.{IsPosition, is_of_side};
ghost use Rattle.rules.specs.declared.goal.Goal.TheVariants.{Mate};
ghost use Rattle.rules.specs.Squares.{Ply, unit_at};
ghost use Rattle.rules.specs.Moves.{IsPseudoLegal, IsLawful};
ghost use Rattle.rules.specs.Forces.{IsReached, Forces};
ghost use Rattle.cells.specs.Mailbox.{cell_of, place_in, IsCell};
ghost use Rattle.cells.specs.CellSets.{Has};
ghost use Rattle.moves.specs.Targets.{IsTarget};
ghost use Rattle.moves.specs.Safe.{IsNamed};
ghost use Rattle.moves.specs.Checking.{Attains, Seeks};

use crate::any_move::{has_move, is_mated};
use crate::board_list::{Guard, guard_of, promotion_count};
use crate::checks::{CheckInfo, check_info, checking};
use crate::escapes::held;
use crate::look::is_checked;
use crate::packed::Board;
use crate::safe::{is_calm, may_go};
use crate::sweep::any_cell;
use crate::targets::targets;
use board::Unit;
use cells::square_in;
use rules::{Goal, Move, PROMOTIONS, is_king, is_promoted_well};

/// The goal, by what checks to the other king are seen, if that isn't attacked already, and what the mover's king asks of each move, but
/// for a mate where they are: mates are so few that one is asked last whether it leaves the own king attacked.
#[derive(Clone, Copy)]
pub(crate) struct Quest {
    goal: Goal,
    guard: Option<Guard>,
    info: Option<CheckInfo>,
}

/// Whether the side to move is where the goal wants it.
fn is_reached(board: &Board, goal: Goal) -> bool
    requires { IsPosition board.now }
    ensures { IsTrue result ↔ IsReached goal board.now }
{
    match goal {
        Goal::Mate => is_mated(board),
        Goal::MateOrStale => {
            let guard = guard_of(board);
            !has_move(board, guard)
        }
    }
}

/// Whether the move, which but for its own king's safety is lawful if it names its promotion well, is lawful and brings the other
/// side where the goal wants it.
fn attains(board: &Board, quest: Quest, m: Move, unit: Unit) -> bool
    requires position { IsPosition board.now }
    requires seeks { Seeks board.now quest }
    requires stands { unit_at board.now m.from ≡ Some unit }
    requires pseudo { IsNamed board.now.game unit m → IsPseudoLegal board.now m unit }
    ensures { IsTrue result ↔ Attains quest.goal board.now m }
{
    if !is_promoted_well(board.game(), unit, m) {
        return false;
    }
    let next = board.moved(m, unit);
    is_reached(&next, quest.goal) && !is_checked(&next, unit.side)
}

/// Whether moves of the unit to a square that it reaches are to be tried: where there is a guard, those that it lets go, and else
/// those of a king to squares that aren't attacked, and all others.
fn is_open(board: &Board, quest: Quest, unit: Unit, from: u8, to: u8) -> bool
    requires position { IsPosition board.now }
    requires seeks { Seeks board.now quest }
    requires cell { IsCell board.now.game from }
    requires stands { unit_at board.now (place_in from) ≡ Some unit }
    requires owner { unit.side ≡ board.now.mover }
    requires target { IsTarget board.now unit (place_in from) to }
    ensures pseudo { IsTrue result → (m : Ply) → m.from ≡ place_in from → m.to ≡ place_in to
        → IsNamed board.now.game unit m → IsPseudoLegal board.now m unit }
    ensures none { result ≡ false → (m : Ply) → m.from ≡ place_in from → m.to ≡ place_in to
        → IsLawful board.now m → ⊥ }
{
    match quest.guard {
        Some(guard) => may_go(board, guard, unit, from, to),
        None => !is_king(Some(unit)) || is_calm(board, to, unit.side),
    }
}

/// Whether some move of the unit to a square that it reaches is lawful and brings the other side where the goal wants it.
fn attains_to(board: &Board, quest: Quest, unit: Unit, from: u8, to: u8) -> bool
    requires position { IsPosition board.now }
    requires seeks { Seeks board.now quest }
    requires cell { IsCell board.now.game from }
    requires stands { unit_at board.now (place_in from) ≡ Some unit }
    requires owner { unit.side ≡ board.now.mover }
    requires target { IsTarget board.now unit (place_in from) to }
    ensures found { IsTrue result → (m : Ply) × Attains quest.goal board.now m }
    ensures none { result ≡ false → (m : Ply) → m.from ≡ place_in from → m.to ≡ place_in to
        → Attains quest.goal board.now m → ⊥ }
{
    if !is_open(board, quest, unit, from, to) {
        return false;
    }
    let from = square_in(from);
    let to = square_in(to);
    for i in 0..promotion_count(board.game(), unit, to) {
        let m = Move {
            from,
            to,
            promotion: PROMOTIONS[i],
        };
        if attains(board, quest, m, unit) {
            return true;
        }
    }
    false
}

/// The cells that the unit reaches, without some to which no lawful move of it reaches the goal.
fn hopeful(board: &Board, quest: Quest, unit: Unit, from: u8) -> u64
    requires position { IsPosition board.now }
    requires seeks { Seeks board.now quest }
    requires cell { IsCell board.now.game from }
    requires stands { unit_at board.now (place_in from) ≡ Some unit }
    requires owner { unit.side ≡ board.now.mover }
    ensures reached { (i : ℕ) → Has result i → IsTarget board.now unit (place_in from) i }
    ensures all { (m : Ply) → m.from ≡ place_in from → Attains quest.goal board.now m → Has result (cell_of m.to) }
{
    match (quest.goal, quest.info) {
        (Goal::Mate, Some(info)) => held(
            board,
            info,
            unit,
            from,
            checking(board, info, unit, from),
        ),
        (_, Some(info)) => held(board, info, unit, from, targets(board, unit, from)),
        _ => targets(board, unit, from),
    }
}

/// Whether some lawful move of the mover's unit in the cell brings the other side where the goal wants it.
fn attains_in(board: &Board, quest: Quest, cell: u8) -> bool
    requires position { IsPosition board.now }
    requires seeks { Seeks board.now quest }
    requires cell { IsCell board.now.game cell }
    requires own { is_of_side board.now.mover (unit_at board.now (place_in cell)) ≡ true }
    ensures found { IsTrue result → (m : Ply) × Attains quest.goal board.now m }
    ensures none { result ≡ false → (m : Ply) → m.from ≡ place_in cell → Attains quest.goal board.now m → ⊥ }
{
    let Some(unit) = board.unit_in(cell) else {
        unreachable!()
    };
    any_cell(hopeful(board, quest, unit, cell), |to| {
        attains_to(board, quest, unit, cell, to)
    })
}

/// Whether some lawful move of the side to move brings the other side where the goal wants it.
pub fn reaches_at_once(board: &Board, goal: Goal) -> bool
    ensures { IsTrue result ↔ Forces goal board.now.mover board.now 1 }
{
    let info = check_info(board);
    let guard = match (goal, info) {
        (Goal::Mate, Some(_)) => None,
        _ => Some(guard_of(board)),
    };
    let quest = Quest { goal, guard, info };
    any_cell(board.own(), |cell| { attains_in(board, quest, cell) })
}

/// Whether some lawful move of the side to move mates.
pub fn mates_at_once(board: &Board) -> bool
    ensures { IsTrue result ↔ Forces Mate board.now.mover board.now 1 }
{
    reaches_at_once(board, Goal::Mate)
}
