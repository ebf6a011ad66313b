//! A lawful move's name on its board.
ghost use Rattle.std.specs.Prelude.{◌≡◌, ◌↔◌, Some, IsTrue};
ghost use Rattle.rules.specs.Moves.{IsLawful};
ghost use Rattle.rules.specs.Order.{ListsLawful};
ghost use Rattle.algebraic.specs.Naming.{kind_at, LooksAlike, IsRival, TellsApart, IsLeastOrigin, TellsOrigin, IsName};

use crate::ending::ending_of;
use crate::name::Name;
use crate::origin::Origin;
use crate::symbols::Symbols;
use board::Kind;
use moves::{Board, Goal, Move, Square, after, lawful_on};

/// How moves are named: by which symbols, and for which goal.
#[derive(Clone, Copy)]
pub struct Notation {
    pub symbols: Symbols,
    pub goal: Goal,
}

/// What makes the move.
fn kind_of(board: &Board, m: Move) -> Kind
    requires { IsLawful board.now m }
    ensures { kind_at board.now m.from ≡ Some result }
{
    let Some(unit) = board.unit_at(m.from) else {
        unreachable!()
    };
    unit.kind
}

/// Whether the two squares are alike in what is told.
fn looks_alike(origin: Origin, a: Square, b: Square) -> bool
    ensures { IsTrue result ↔ LooksAlike origin a b }
{
    match origin {
        Origin::Nothing => true,
        Origin::File => a.file == b.file,
        Origin::Rank => a.rank == b.rank,
        Origin::Both => a == b,
    }
}

/// Whether another unit of the kind makes this lawful move to the same square.
fn is_rival(board: &Board, kind: Kind, m: Move, other: Move) -> bool
    requires { IsLawful board.now other }
    ensures { IsTrue result ↔ IsRival board.now kind m other }
{
    other.to == m.to && other.from != m.from && kind_of(board, other) == kind
}

/// Whether the lawful move is a rival that what is told doesn't tell apart.
fn confuses(board: &Board, kind: Kind, m: Move, origin: Origin, other: Move) -> bool
    requires { IsLawful board.now other }
    ensures { IsTrue result ↔ (IsRival board.now kind m other × LooksAlike origin other.from m.from) }
{
    is_rival(board, kind, m, other) && looks_alike(origin, other.from, m.from)
}

/// Whether what is told of the origin tells the move from all its rivals.
fn tells_apart(board: &Board, kind: Kind, m: Move, moves: &[Move], origin: Origin) -> bool
    requires { ListsLawful board.now moves.now }
    ensures { IsTrue result ↔ TellsApart board.now kind m origin }
{
    for other in moves {
        if confuses(board, kind, m, origin, *other) {
            return false;
        }
    }
    true
}

/// What is told of a piece's origin: as few letters as tell it apart.
fn least_origin(board: &Board, kind: Kind, m: Move) -> Origin
    ensures { IsLeastOrigin board.now kind m result }
{
    let all = lawful_on(board);
    let moves = all.as_slice();
    if tells_apart(board, kind, m, moves, Origin::Nothing) {
        Origin::Nothing
    } else if tells_apart(board, kind, m, moves, Origin::File) {
        Origin::File
    } else if tells_apart(board, kind, m, moves, Origin::Rank) {
        Origin::Rank
    } else {
        Origin::Both
    }
}

/// What is told of a unit's origin: a pawn tells its file where it captures.
fn origin_of(board: &Board, kind: Kind, m: Move, captures: bool) -> Origin
    ensures { TellsOrigin board.now kind m captures result }
{
    match (kind, captures) {
        (Kind::Pawn, true) => Origin::File,
        (Kind::Pawn, false) => Origin::Nothing,
        _ => least_origin(board, kind, m),
    }
}

impl Notation {
    /// The name of a lawful move.
    pub fn name(self, board: &Board, m: Move) -> Name
        requires { IsLawful board.now m }
        ensures { IsName self board.now m result }
    {
        let kind = kind_of(board, m);
        let captures = board.unit_at(m.to).is_some();
        Name {
            symbols: self.symbols,
            kind,
            origin: origin_of(board, kind, m, captures),
            from: m.from,
            captures,
            to: m.to,
            promotion: m.promotion,
            ending: ending_of(self.goal, &after(board, m)),
        }
    }
}
