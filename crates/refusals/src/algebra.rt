//! A move by its name in algebraic notation, as a solution prints it.
use board::{Kind, Position};
use moves::{Move, Square};

/// What such a name tells.
#[derive(Clone, Copy)]
struct Written<'a> {
    kind: Kind,
    /// Letters of the square that the unit leaves, and the sign of a capture.
    hints: &'a [u8],
    /// The file and the rank that it comes to.
    to: (u8, u8),
    promotion: Option<u8>,
}

/// The kind of a letter; a pawn has none.
fn kind_of(letter: u8) -> Kind {
    match letter {
        b'K' => Kind::King,
        b'Q' => Kind::Queen,
        b'R' => Kind::Rook,
        b'B' => Kind::Bishop,
        b'N' => Kind::Knight,
        _ => Kind::Pawn,
    }
}

/// The name without a sign behind it, for check, mate, stalemate, a key or a try.
fn without_sign(name: &[u8]) -> &[u8] {
    match name {
        [front @ .., b'+' | b'#' | b'=' | b'!' | b'?'] => front,
        _ => name,
    }
}

/// What the name tells, where it ends in a square.
fn read_name(name: &[u8]) -> Option<Written<'_>> {
    let (name, promotion) = match without_sign(without_sign(name)) {
        [front @ .., b'=', letter] => (front, Some(*letter)),
        plain => (plain, None),
    };
    let [front @ .., file, rank] = name else {
        return None;
    };
    let (kind, hints) = match front {
        [letter @ (b'K' | b'Q' | b'R' | b'B' | b'N'), hints @ ..] => (kind_of(*letter), hints),
        _ => (Kind::Pawn, front),
    };
    Some(Written {
        kind,
        hints,
        to: (*file, *rank),
        promotion,
    })
}

/// The letters of a square: its file's and its rank's.
fn letters_of(square: Square) -> (u8, u8) {
    (b'a' + square.file, b'1' + square.rank)
}

/// Whether each letter is one of the square, or the sign of a capture.
fn hint_at(hints: &[u8], square: Square) -> bool {
    let (file, rank) = letters_of(square);
    for hint in hints {
        if *hint != file && *hint != rank && *hint != b'x' {
            return false;
        }
    }
    true
}

/// Whether the move of a unit of this kind is written so.
fn is_written(written: &Written<'_>, kind: Kind, m: Move) -> bool {
    let promoted = match (m.promotion, written.promotion) {
        (Some(kind), Some(letter)) => kind == kind_of(letter),
        (None, None) => true,
        _ => false,
    };
    promoted
        && kind == written.kind
        && letters_of(m.to) == written.to
        && hint_at(written.hints, m.from)
}

/// The first of the moves that has this name.
pub fn named_so(position: &Position, moves: &[Move], name: &[u8]) -> Option<Move> {
    let (written, game) = (read_name(name)?, position.game());
    for m in moves {
        if !m.from.is_on_board(game) {
            continue;
        }
        let Some(unit) = position.unit(m.from.number(game)) else {
            continue;
        };
        if is_written(&written, unit.kind, *m) {
            return Some(*m);
        }
    }
    None
}
