//! All cells that a side attacks.
ghost use Rattle.std.specs.Prelude.{◌↔◌, ℕ};
ghost use Rattle.board.specs.declared.game.Kind.TheVariants.{King};
ghost use Rattle.board.specs.Board.{IsPosition};
ghost use Rattle.board.specs.Games.{other_side};
ghost use Rattle.cells.specs.Mailbox.{place_in, IsCell};
ghost use Rattle.cells.specs.CellSets.{Has};
ghost use Rattle.moves.specs.Looking.{IsSwept, AreAttacked};
ghost use Rattle.moves.specs.Sets.{Owns};
ghost use Rattle.moves.specs.Safe.{IsCalm};
ghost use Rattle.moves.specs.Targets.{IsTarget};

use crate::packed::Board;
use crate::seen::seen;
use crate::sets::class_of;
use crate::sweep::take_lowest;
use crate::targets::targets;
use board::{Kind, Side, Unit};
use cells::except;

/// The cells on which those of the side's units that go as the kind does would take so.
// One kind a call, so that no turn of the loop asks which.
#[inline(always)]
fn swept(board: &Board, side: Side, kind: Kind, own: u64) -> u64
    requires { Owns board.now side own }
    ensures { (j : ℕ) → Has result j ↔ IsSwept board.now side kind j }
{
    let units = own & board.set(class_of(kind));
    let mut left = units;
    let mut set = 0;
    'units: while left != 0 {
        let cell = take_lowest(&mut left);
        set |= seen(board, side, kind, cell);
    }
    set
}

/// The cells that the other side's units attack.
pub(crate) fn attacked(board: &Board, side: Side) -> u64
    requires { IsPosition board.now }
    ensures { AreAttacked board.now (other_side side) result }
{
    let other = side.other();
    let foes = board.of_side(other);
    swept(board, other, Kind::Rook, foes)
        | swept(board, other, Kind::Bishop, foes)
        | swept(board, other, Kind::Knight, foes)
        | swept(board, other, Kind::King, foes)
        | swept(board, other, Kind::Pawn, foes)
}

/// Of the cells that the side's king reaches from this one, those where no king stands and that the other side doesn't attack.
pub(crate) fn calm_steps(board: &Board, side: Side, king: u8, attacked: u64) -> u64
    requires cell { IsCell board.now.game king }
    requires position { IsPosition board.now }
    requires attacked { AreAttacked board.now (other_side side) attacked }
    ensures { (i : ℕ) → Has result i ↔ (IsTarget board.now (record { side = side; kind = King }) (place_in king) i
        × IsCalm board.now (place_in i) side) }
{
    let unit = Unit {
        side,
        kind: Kind::King,
    };
    except(targets(board, unit, king), attacked | board.kings())
}
