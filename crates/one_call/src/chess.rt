//! Calls of `board`, `moves` and `entry`, which take no memory. Each is made once or more.
use arrayvec::{ArrayString, ArrayVec};
use board::{Game, Kind, Position, Side, fen_text, parse_betza, pieces, read_fen};
use entry::{
    Entry, Interval, MateLore, interval_laws, interval_of, key_of, meet, pack, pack_board, prefers,
    slot_of, unpack,
};
use moves::{
    Board, Goal, Move, Square, after, apply, count_lawful, gives_check, has_lawful_move, in_check,
    is_lawful, is_lawful_on, lawful, lawful_on, list_lawful, mates_at_once, mover_in_check, ray,
    reaches_at_once, read_sound, sound,
};
use slots::Lore;
use std::fmt::Write;

/// White mates by f1f6.
const TEXT: &[u8] = b"k5/6/1K4/6/6/5R w";

const F1: Square = Square { file: 5, rank: 0 };

const F1F6: Move = Move {
    from: F1,
    to: Square { file: 5, rank: 5 },
    promotion: None,
};

const NOTHING: Interval = Interval {
    below: 0,
    upto: None,
};

/// Whether the positions have one text.
fn is_same(one: &Position, other: &Position) -> bool {
    fen_text(one).as_bytes() == fen_text(other).as_bytes()
}

/// The calls of `board`.
fn of_board(root: &Position) -> bool {
    let game = root.game();
    let Some(again) = Position::of(game, root.mover(), &root.units()) else {
        return false;
    };
    if game.squares() != 36 || game.width() != 6 || game.most_units() != 12 {
        return false;
    }
    let steps = pieces(game).steps(Kind::Rook).is_some() && parse_betza(b"R").is_ok();
    let text = fen_text(root).as_bytes() == TEXT && read_fen(b"").is_err();
    let sides = root.mover().other() == Side::Black && root.unit(0).is_none();
    steps && text && sides && is_same(&again, root)
}

/// The calls of `moves` on positions.
fn of_positions(root: &Position) -> bool {
    let listed = lawful(root).len() == 16 && sound(root) && !in_check(root, Side::Black);
    let far = ray(Game::LosAlamos, 5, 0, 1).len() == 5;
    let mut text = ArrayString::<8>::new();
    let shown = write!(text, "{F1F6}").is_ok() && text.as_bytes() == b"f1f6".as_slice();
    let mut square = Square::of_number(Game::LosAlamos, 5) == F1;
    if F1.is_on_board(Game::LosAlamos) {
        square = square && F1.number(Game::LosAlamos) == 5;
    }
    let mut mates = false;
    if is_lawful(root, F1F6) {
        mates = in_check(&apply(root, F1F6), Side::Black);
    }
    listed && far && square && shown && mates && read_sound(TEXT).is_ok()
}

/// The calls of `moves` on boards.
fn of_boards(root: &Position) -> bool {
    let board = Board::of(root);
    let mut lent = ArrayVec::new();
    list_lawful(&board, &mut lent);
    let counts = count_lawful(&board) == 16 && lawful_on(&board).len() == lent.len();
    let goals = mates_at_once(&board) && reaches_at_once(&board, Goal::MateOrStale);
    let mut mates = false;
    if is_lawful_on(&board, F1F6) {
        let next = after(&board, F1F6);
        mates = gives_check(&board, F1F6) && !has_lawful_move(&next) && mover_in_check(&next);
    }
    if board.game().squares() != 36 || board.unit(5).is_none() {
        return false;
    }
    let same = is_same(&board.position(), root) && board.game() == root.game();
    counts && goals && mates && same && board.mover() == Side::White && board.words()[2] != 0
}

/// The calls of `entry`.
fn of_entries(root: &Position) -> bool {
    interval_laws();
    let entry = Entry {
        position: *root,
        attacker: Side::White,
        goal: Goal::Mate,
        interval: meet(NOTHING, NOTHING),
    };
    let words = pack(&entry);
    let same = pack_board(&Board::of(root), Side::White, Goal::Mate, NOTHING) == words;
    let kept = MateLore::key_of(words) == key_of(words);
    let first = MateLore::prefers(words, words) == prefers(words, words);
    let read = unpack(words).is_some() && interval_of(words) == Some(NOTHING);
    same && kept && first && read && slot_of(&words, 1) == 0
}

pub(crate) fn answer() -> &'static str {
    let Ok(root) = read_fen(TEXT) else {
        return "no position";
    };
    if of_board(&root) && of_positions(&root) && of_boards(&root) && of_entries(&root) {
        "done"
    } else {
        "wrong"
    }
}
