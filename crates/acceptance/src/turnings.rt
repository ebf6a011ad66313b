//! Boards that are turned about: worked out by hand, and the same mates in each way. The mates are an independent solver's.
use crate::tables::{Table, position};
use board::Position;
use decision::{Turning, turned};
use moves::{Board, Goal};
use std::alloc::Global;
use std::process::Abort;

// A position without pawns, and how it lies with left and right exchanged, with top and bottom, with files and ranks, and with all.
const CORNERED: &str = "k5/6/2K3/6/6/1R4 w";

const LEFT_RIGHT: &str = "5k/6/3K2/6/6/4R1 w";

const TOP_BOTTOM: &str = "1R4/6/6/2K3/6/k5 w";

const DIAGONAL: &str = "6/6/6/3K2/R5/5k w";

const ALL_WAYS: &str = "k5/5R/2K3/6/6/6 w";

// Mates of so many plies without pawns, and with them.
const WITHOUT_PAWNS: [(&str, u8); 2] = [("1K1k1/qR3/5/5/5 w", 7), ("4B/kB3/2K2/B4/B4 w", 9)];

const WITH_PAWNS: [(&str, u8); 2] = [("1k4/5P/6/PpP1KP/1R4/1N4 w", 7), ("2b2/4k/PRP2/5/Q3K w", 7)];

/// The way of a number below eight.
fn way(number: u8) -> Turning {
    Turning {
        left_right: number % 2 == 1,
        top_bottom: number / 2 % 2 == 1,
        diagonal: number / 4 % 2 == 1,
    }
}

fn lies_as(position: &Position, number: u8, other: &Position) -> bool {
    match turned(&Board::of(position), way(number)) {
        Some(board) => {
            board.position().units() == other.units() && board.mover() == other.mover()
        }
        None => false,
    }
}

#[test]
fn turns_a_board_as_by_hand(rt: HostRuntime) {
    let cornered = position(&rt, CORNERED);
    assert!(rt; lies_as(&cornered, 0, &cornered));
    assert!(rt; lies_as(&cornered, 1, &position(&rt, LEFT_RIGHT)));
    assert!(rt; lies_as(&cornered, 2, &position(&rt, TOP_BOTTOM)));
    assert!(rt; lies_as(&cornered, 4, &position(&rt, DIAGONAL)));
    assert!(rt; lies_as(&cornered, 7, &position(&rt, ALL_WAYS)));
    assert!(rt; !lies_as(&cornered, 1, &cornered));
}

#[test]
fn turns_no_pawns_another_way(rt: HostRuntime) {
    for (text, _) in WITH_PAWNS {
        let board = Board::of(&position(&rt, text));
        assert!(rt; board.has_pawn());
        for number in 2..8 {
            assert!(rt; turned(&board, way(number)).is_none(), "{text} {number}");
        }
    }
    assert!(rt; !Board::of(&position(&rt, CORNERED)).has_pawn());
}

// Whether White mates in each of so many ways within the plies, and in none within two fewer.
fn mates_in_each(rt: &impl Abort, alloc: Global, text: &str, plies: u8, ways: u8) -> bool {
    if plies < 2 || 63 < plies {
        return false;
    }
    let mut table = Table::make(rt, alloc, 4096);
    let board = Board::of(&position(rt, text));
    for number in 0..ways {
        let Some(other) = turned(&board, way(number)) else {
            return false;
        };
        let there = other.position();
        if table.decide(&there, Goal::Mate, plies - 2).yes
            || !table.decide(&there, Goal::Mate, plies).yes
        {
            return false;
        }
    }
    true
}

#[test]
fn mates_in_as_many_plies_however_the_board_lies(rt: HostRuntime) {
    for (text, plies) in WITHOUT_PAWNS {
        assert!(rt; mates_in_each(&rt, rt.alloc(), text, plies, 8), "{text}");
    }
    for (text, plies) in WITH_PAWNS {
        assert!(rt; mates_in_each(&rt, rt.alloc(), text, plies, 2), "{text}");
    }
}
