//! Laws of boards that are turned about. The functions do nothing: their contracts are the laws.
ghost use Rattle.board.specs.Board.{IsPosition};
ghost use Rattle.rules.specs.Moves.{IsMated, IsStalemated};
ghost use Rattle.rules.specs.Reach.{IsSound};
ghost use Rattle.answer_laws.specs.TurnedPlay.{HasTurned, HasOneTurned, TurnsBack, TurnsTwice, StaysTurned, MovesTurn, MovesTurnBack, ChecksTurn, ForcedTurns, MoverForcesTurned, FilesMirror, SidesMirror, EightWays};

/// A board that is turned about becomes one board, and a position a position. Each turning is undone by one, and two, one after
/// the other, are one.
pub fn turned_board_laws()
    ensures some { HasTurned }
    ensures one { HasOneTurned }
    ensures back { TurnsBack }
    ensures twice { TurnsTwice }
    ensures position { StaysTurned IsPosition }
    ensures sound { StaysTurned IsSound }
{}

/// Play on a board that is turned about is the play on the board, turned: its moves, check, mate, stalemate, and what is
/// forced within how many plies.
pub fn turned_play_laws()
    ensures moves { MovesTurn }
    ensures no_others { MovesTurnBack }
    ensures check { ChecksTurn }
    ensures mated { StaysTurned IsMated }
    ensures stalemated { StaysTurned IsStalemated }
    ensures forced { ForcedTurns }
    ensures plies { MoverForcesTurned }
{}

/// The same is forced with left and right exchanged; with White and Black exchanged, and top and bottom; and without pawns in
/// each of the eight ways to lay the board.
pub fn mirror_laws()
    ensures files { FilesMirror }
    ensures sides { SidesMirror }
    ensures eight { EightWays }
{}
