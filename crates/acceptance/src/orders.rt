//! Moves are ordered as at first: `order_at_first` is the plain body, which sorts the moves alone, by a table of costs.
ghost use Rattle.std.specs.Prelude.{◌<◌};

use crate::order_at_first;
use crate::order_at_first::pair_of;
use arrayvec::ArrayVec;
use board::{Game, Kind, Position, Side, Unit};
use decision::{Memory, in_order};
use moves::{Board, Goal, Move, Square, read_sound};
use problems::Question;
use std::process::Abort;

/// Of many boards with queens alone the one with most moves, by another program, which counted 102.
const QUEENS: &[u8] = b"Q1QQKQ/Q5/4Q1/1k4/3Q1Q/Q1Q2Q w";

/// Numbers without an order that shows, the same on each run.
#[derive(Drop)]
struct Dice {
    state: u64,
}

impl Dice {
    /// One of the numbers below `count`.
    fn below(&mut self, count: u8) -> u8
        requires { 0 < count }
        ensures { result < count }
    {
        self.state = self.state.wrapping_add(0x9E3779B97F4A7C15);
        let mixed = (self.state ^ (self.state >> 30)).wrapping_mul(0xBF58476D1CE4E5B9);
        let mixed = (mixed ^ (mixed >> 27)).wrapping_mul(0x94D049BB133111EB);
        ((mixed ^ (mixed >> 31)) % u64::from(count)) as u8
    }

    fn square(&mut self) -> Square {
        Square {
            file: self.below(6),
            rank: self.below(6),
        }
    }

    fn kind(&mut self, game: Game, only_queens: bool) -> Kind {
        if only_queens {
            return Kind::Queen;
        }
        match self.below(7) {
            0 => Kind::Queen,
            1 => Kind::Rook,
            2 => Kind::Knight,
            3 if game == Game::Gardner => Kind::Bishop,
            _ => Kind::Pawn,
        }
    }
}

/// Units that are laid down on a board.
#[derive(Drop)]
struct Laid {
    game: Game,
    units: [Option<Unit>; 36],
}

impl Laid {
    /// Puts a unit on some square, if that is free, and if a pawn may stand there.
    fn put(&mut self, dice: &mut Dice, side: Side, kind: Kind) {
        let width = self.game.width();
        let number = dice.below(36);
        let is_inside = width <= number && number < width * (width - 1);
        let place = &mut self.units[number as usize];
        if place.is_none() && (is_inside || kind != Kind::Pawn && number < width * width) {
            *place = Some(Unit { side, kind });
        }
    }

    /// Puts up to so many units of a side.
    fn put_all(&mut self, dice: &mut Dice, side: Side, count: u8, only_queens: bool) {
        for _ in 0..count {
            let kind = dice.kind(self.game, only_queens);
            self.put(dice, side, kind);
        }
    }
}

/// A board with the kings and some units, or `None` where the kings found no place or a side has too many units.
fn dealt(dice: &mut Dice, game: Game, only_queens: bool) -> Option<Board> {
    let mut laid = Laid {
        game,
        units: [None; 36],
    };
    laid.put(dice, Side::White, Kind::King);
    laid.put(dice, Side::Black, Kind::King);
    let [white, black] = if only_queens {
        [14, 0]
    } else {
        [dice.below(14), dice.below(14)]
    };
    laid.put_all(dice, Side::White, white, only_queens);
    laid.put_all(dice, Side::Black, black, only_queens);
    let mover = if only_queens || dice.below(2) == 0 {
        Side::White
    } else {
        Side::Black
    };
    Some(Board::of(&Position::of(game, mover, &laid.units)?))
}

/// How often each pair of squares has won: many have, and many as often as others.
fn some_won(dice: &mut Dice) -> [u8; 1296] {
    let mut won = [0u8; 1296];
    for _ in 0..600 {
        let m = Move {
            from: dice.square(),
            to: dice.square(),
            promotion: None,
        };
        let plies = 1 + 2 * dice.below(4);
        won[pair_of(m)] = won[pair_of(m)].saturating_add(plies);
    }
    won
}

/// What has been compared so far, and the lists for it, which are used again as a search does.
#[derive(Drop)]
struct Comparison {
    first: ArrayVec<Move, 512>,
    now: ArrayVec<Move, 512>,
    own: [u32; 3],
    other: [u32; 3],
    promotions: u32,
    equals: u32,
    longest: usize,
    boards: u32,
}

impl Comparison {
    fn new() -> Comparison {
        Comparison {
            first: ArrayVec::new(),
            now: ArrayVec::new(),
            own: [0; 3],
            other: [0; 3],
            promotions: 0,
            equals: 0,
            longest: 0,
            boards: 0,
        }
    }

    /// Notes of what kind the list is.
    fn note(&mut self, own: bool, has_equals: bool) {
        let count = self.now.len();
        let class = if count <= 20 {
            0
        } else if count <= 64 {
            1
        } else {
            2
        };
        let met = if own { &mut self.own } else { &mut self.other };
        met[class] = met[class].saturating_add(1);
        if self.now.iter().any(|m| m.promotion.is_some()) {
            self.promotions = self.promotions.saturating_add(1);
        }
        if has_equals {
            self.equals = self.equals.saturating_add(1);
        }
        self.longest = self.longest.max(count);
    }

    /// Orders the moves in each way.
    fn compare(&mut self, rt: &impl Abort, won: &[u8; 1296], q: &Question, n: u8) {
        let has_equals = order_at_first::in_order(won, q, n, &mut self.first);
        in_order(&Memory::of(*won), q, n, &mut self.now);
        assert_eq!(rt; self.now.as_slice(), self.first.as_slice());
        self.note(q.is_own_turn(), has_equals);
    }

    /// Orders a board's moves as the attacker's and as the defender's, for some numbers of plies.
    fn compare_all(&mut self, rt: &impl Abort, won: &[u8; 1296], board: &Board) {
        self.boards = self.boards.saturating_add(1);
        for (attacker, n) in [
            (Side::White, 1),
            (Side::Black, 3),
            (Side::White, 3),
            (Side::Black, 4),
            (Side::White, 4),
            (Side::Black, 9),
            (Side::White, 12),
        ] {
            let q = Question {
                position: board.copied(),
                attacker,
                goal: Goal::Mate,
            };
            self.compare(rt, won, &q, n);
        }
    }
}

#[test]
fn orders_moves_as_at_first(rt: HostRuntime) {
    let mut dice = Dice { state: 1896 };
    let mut comparison = Comparison::new();
    for number in 0..600 {
        let game = if number % 2 == 0 {
            Game::LosAlamos
        } else {
            Game::Gardner
        };
        if let Some(board) = dealt(&mut dice, game, number % 8 < 2) {
            let won = some_won(&mut dice);
            comparison.compare_all(&rt, &won, &board);
        }
    }
    let longest = Board::of(&read_sound(QUEENS).expect(&rt, "a position"));
    comparison.compare_all(&rt, &some_won(&mut dice), &longest);
    assert_eq!(rt; comparison.longest, 102);
    assert!(rt; comparison.boards > 300, "boards");
    let [few, some, many] = comparison.own;
    assert!(rt;
        few > 0 && some > 0 && many > 0,
        "the attacker's: {few}, {some}, {many}"
    );
    let [few, some, many] = comparison.other;
    assert!(rt;
        few > 0 && some > 0 && many > 0,
        "the defender's: {few}, {some}, {many}"
    );
    assert!(rt; comparison.promotions > 0, "promotions");
    assert!(rt; comparison.equals > 0, "equal costs");
}
