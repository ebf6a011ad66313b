//! Names of moves in algebraic notation, worked out by hand.

use algebraic::{Notation, Symbols};
use moves::{Board, Goal, is_lawful_on, read_move, read_sound};
use std::process::Abort;

const PLAIN: Notation = Notation {
    symbols: Symbols::Letters,
    goal: Goal::Mate,
};

const STALE: Notation = Notation {
    symbols: Symbols::Letters,
    goal: Goal::MateOrStale,
};

const DRAWN: Notation = Notation {
    symbols: Symbols::Figurines,
    goal: Goal::Mate,
};

fn name_of<R: Abort + AllocGlobal>(rt: &R, notation: Notation, fen: &str, written: &str) -> String {
    let board = Board::of(&read_sound(fen.as_bytes()).expect(rt, "sound"));
    let m = read_move(written.as_bytes()).expect(rt, "a move's name");
    if !is_lawful_on(&board, m) {
        panic!(rt; "no lawful move")
    }
    let name = notation.name(&board, m);
    name.to_string(rt.alloc()).expect(rt, "memory")
}

fn expect_names<R: Abort + AllocGlobal>(
    rt: &R,
    notation: Notation,
    fen: &str,
    names: &[(&str, &str)],
) {
    for (written, name) in names {
        assert_eq!(rt; name_of(rt, notation, fen, *written).as_str(), *name);
    }
}

#[test]
fn rooks_on_a_rank_tell_their_files(rt: HostRuntime) {
    let names = [
        ("a1d1", "Rad1"),
        ("f1d1", "Rfd1"),
        ("a1a6", "Ra6+"),
        ("c3c4", "Kc4"),
    ];
    expect_names(&rt, PLAIN, "1k4/6/6/2K3/6/R4R w", &names);
    expect_names(&rt, PLAIN, "1k4/6/6/2K3/6/R4R b", &[("b6b5", "Kb5")]);
}

#[test]
fn rooks_on_a_file_tell_their_ranks(rt: HostRuntime) {
    let names = [("a1a3", "R1a3"), ("a5a3", "R5a3"), ("a5e5", "Re5+")];
    expect_names(&rt, PLAIN, "4k1/R5/6/6/2K3/R5 w", &names);
}

#[test]
fn one_of_three_queens_tells_both(rt: HostRuntime) {
    let names = [("a1c3", "Qa1c3"), ("a3c3", "Q3c3"), ("c1c3", "Qcc3")];
    expect_names(&rt, PLAIN, "6/5k/6/Q5/6/Q1Q2K w", &names);
}

#[test]
fn a_pinned_knight_is_no_rival(rt: HostRuntime) {
    expect_names(&rt, PLAIN, "r4k/6/6/N3N1/6/K5 w", &[("e3c4", "Nc4")]);
    expect_names(&rt, PLAIN, "5k/6/6/N3N1/6/K5 w", &[("e3c4", "Nec4")]);
}

#[test]
fn pawns_tell_their_files_where_they_capture(rt: HostRuntime) {
    let names = [("b2c3", "bxc3"), ("d2c3", "dxc3"), ("b2b3", "b3")];
    expect_names(&rt, PLAIN, "k5/6/6/2p3/1P1P2/5K w", &names);
}

#[test]
fn promotions_are_named(rt: HostRuntime) {
    let names = [
        ("b5a6q", "bxa6=Q+"),
        ("b5a6n", "bxa6=N"),
        ("b5b6q", "b6=Q+"),
        ("b5b6n", "b6=N"),
    ];
    expect_names(&rt, PLAIN, "r2k2/1P4/6/6/6/5K w", &names);
    let mates = [("c5c6q", "c6=Q#"), ("c5c6r", "c6=R#"), ("c5c6n", "c6=N")];
    expect_names(&rt, PLAIN, "k5/2P3/1K4/6/6/6 w", &mates);
    expect_names(
        &rt,
        DRAWN,
        "k5/2P3/1K4/6/6/6 w",
        &[("c5c6q", "c6=\u{2655}#"), ("b4c4", "\u{2654}c4")],
    );
}

#[test]
fn mate_and_stalemate_have_signs(rt: HostRuntime) {
    expect_names(&rt, PLAIN, "k5/6/1K4/6/6/5R w", &[("f1f6", "Rf6#")]);
    expect_names(
        &rt,
        DRAWN,
        "k5/6/1K4/6/6/5R w",
        &[("f1f6", "\u{2656}f6#"), ("f1f5", "\u{2656}f5")],
    );
    expect_names(&rt, PLAIN, "k5/6/2K3/6/6/1R4 w", &[("b1b5", "Rb5")]);
    expect_names(
        &rt,
        STALE,
        "k5/6/2K3/6/6/1R4 w",
        &[("b1b5", "Rb5="), ("b1a1", "Ra1+")],
    );
}

#[test]
fn gardner_has_bishops(rt: HostRuntime) {
    expect_names(
        &rt,
        PLAIN,
        "k4/5/5/5/B3K w",
        &[("a1c3", "Bc3+"), ("e1d2", "Kd2")],
    );
    expect_names(
        &rt,
        DRAWN,
        "k4/5/5/5/B1N1K w",
        &[("a1c3", "\u{2657}c3+"), ("c1d3", "\u{2658}d3")],
    );
}
