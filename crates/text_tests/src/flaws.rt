//! Trees that don't win, each with the line to its flaw and what is wrong there, by hand from the rules.

use board::read_fen;
use moves::{Goal, Move, read_move};
use std::fmt::Write;
use std::process::Abort;
use wintree::{Flaw, Wrong, find_flaw, read_tree};

/// Two rooks and the king against a king, which c1e1 mates in 3 plies.
const ROOKS: &[u8] = b"1k4/5R/6/6/6/2R2K w";

/// The flaw of a tree's text at a position.
fn flaw_of<R: Abort + AllocGlobal>(rt: &R, fen: &[u8], text: &[u8], goal: Goal) -> Option<Flaw> {
    let position = read_fen(fen).expect(rt, "a position");
    let tree = read_tree(rt.alloc(), text).expect(rt, "a tree");
    find_flaw(&position, &tree, goal)
}

/// The moves of a line, each with a blank behind it.
fn line_text<R: Abort + AllocGlobal>(rt: &R, line: &[Move]) -> String {
    let mut text = String::new(rt.alloc());
    for m in line {
        write!(text, "{m} ").expect(rt, "memory");
    }
    text
}

/// Expects a tree's flaw at the position of the rooks: the line to it, and what is wrong.
fn expect_flaw<R: Abort + AllocGlobal>(rt: &R, text: &[u8], goal: Goal, line: &str, wrong: Wrong) {
    let flaw = flaw_of(rt, ROOKS, text, goal).expect(rt, "a flaw");
    assert!(rt; line_text(rt, flaw.line.as_slice()).as_str() == line);
    assert!(rt; flaw.wrong == wrong);
}

/// The move of this name.
fn named<R: Abort>(rt: &R, name: &[u8]) -> Move {
    read_move(name).expect(rt, "a move")
}

#[test]
fn a_tree_that_wins_has_no_flaw(rt: HostRuntime) {
    let text = b"c1e1{b6a6:e1e6#,b6c6:e1e6#}".as_slice();
    for goal in [Goal::Mate, Goal::MateOrStale] {
        assert!(rt; flaw_of(&rt, ROOKS, text, goal).is_none());
    }
}

#[test]
fn an_attack_is_not_lawful(rt: HostRuntime) {
    for (text, line) in [
        (b"c1f2{b6a6:e1e6#,b6c6:e1e6#}".as_slice(), "c1f2 "),
        (b"c1e1{b6a6:e1e6#,b6c6:e1d6#}".as_slice(), "c1e1 b6c6 e1d6 "),
    ] {
        expect_flaw(&rt, text, Goal::Mate, line, Wrong::Unlawful);
    }
}

#[test]
fn a_line_ends_wrongly(rt: HostRuntime) {
    let (mate, stale) = (Goal::Mate, Goal::MateOrStale);
    for (text, goal, line, wrong) in [
        (b"c1e1#".as_slice(), mate, "c1e1 ", Wrong::NotMate),
        (b"c1e1=".as_slice(), stale, "c1e1 ", Wrong::NotStale),
        (b"c1e1=".as_slice(), mate, "c1e1 ", Wrong::StaleForMate),
        (
            b"c1e1{b6a6:e1e6#,b6c6:e1e5#}".as_slice(),
            stale,
            "c1e1 b6c6 e1e5 ",
            Wrong::NotMate,
        ),
        // The defender has no lawful move there, and is in check.
        (
            b"c1e1{b6a6:e1e6=,b6c6:e1e6#}".as_slice(),
            stale,
            "c1e1 b6a6 e1e6 ",
            Wrong::NotStale,
        ),
        (
            b"c1e1{b6a6:e1e6#,b6c6:e1e6=}".as_slice(),
            mate,
            "c1e1 b6c6 e1e6 ",
            Wrong::StaleForMate,
        ),
    ] {
        expect_flaw(&rt, text, goal, line, wrong);
    }
}

#[test]
fn a_stalemate_is_not_mate(rt: HostRuntime) {
    let fen = b"k5/6/2K3/6/6/1R4 w";
    for (text, goal, wrong) in [
        (b"b1b5#".as_slice(), Goal::MateOrStale, Wrong::NotMate),
        (b"b1b5=".as_slice(), Goal::Mate, Wrong::StaleForMate),
    ] {
        let flaw = flaw_of(&rt, fen, text, goal).expect(&rt, "a flaw");
        assert!(rt; flaw.wrong == wrong);
    }
    assert!(rt; flaw_of(&rt, fen, b"b1b5=", Goal::MateOrStale).is_none());
}

#[test]
fn first_replies_are_wrong(rt: HostRuntime) {
    let (left, right) = (named(&rt, b"b6a6"), named(&rt, b"b6c6"));
    let foreign = named(&rt, b"b6d6");
    for (text, wrong) in [
        (b"c1e1{b6a6:e1e6#}".as_slice(), Wrong::LeftOut(right)),
        (b"c1e1{b6c6:e1e6#}".as_slice(), Wrong::LeftOut(left)),
        (
            b"c1e1{b6a6:e1e6#,b6a6:e1e6#}".as_slice(),
            Wrong::LeftOut(right),
        ),
        (
            b"c1e1{b6a6:e1e6#,b6d6:e1e6#}".as_slice(),
            Wrong::UnlawfulReply(foreign),
        ),
        (
            b"c1e1{b6a6:e1e6#,b6c6:e1e6#,b6d6:e1e6#}".as_slice(),
            Wrong::UnlawfulReply(foreign),
        ),
        (
            b"c1e1{b6c6:e1e6#,b6a6:e1e6#}".as_slice(),
            Wrong::OutOfPlace(right),
        ),
        (
            b"c1e1{b6a6:e1e6#,b6c6:e1e6#,b6c6:e1e6#}".as_slice(),
            Wrong::OutOfPlace(right),
        ),
        // The first trees of these don't win either: the replies are looked at before them.
        (b"c1e1{b6a6:e1e5#}".as_slice(), Wrong::LeftOut(right)),
    ] {
        expect_flaw(&rt, text, Goal::Mate, "c1e1 ", wrong);
    }
}

// After e1e5 the king on c6 may go to b6 and d6.
#[test]
fn later_replies_are_wrong(rt: HostRuntime) {
    let (left, right) = (named(&rt, b"c6b6"), named(&rt, b"c6d6"));
    let foreign = named(&rt, b"c6d5");
    for (text, wrong) in [
        (
            b"c1e1{b6a6:e1e6#,b6c6:e1e5{c6b6:e5e6#}}".as_slice(),
            Wrong::LeftOut(right),
        ),
        (
            b"c1e1{b6a6:e1e6#,b6c6:e1e5{c6d6:e5e6#}}".as_slice(),
            Wrong::LeftOut(left),
        ),
        (
            b"c1e1{b6a6:e1e6#,b6c6:e1e5{c6b6:e5e6#,c6d5:e5e6#,c6d6:e5e6#}}".as_slice(),
            Wrong::UnlawfulReply(foreign),
        ),
        (
            b"c1e1{b6a6:e1e6#,b6c6:e1e5{c6d6:e5e6#,c6b6:e5e6#}}".as_slice(),
            Wrong::OutOfPlace(right),
        ),
    ] {
        expect_flaw(&rt, text, Goal::Mate, "c1e1 b6c6 e1e5 ", wrong);
    }
}

/// So many times the front of a node, and as many ends of it.
fn shuttle<R: Abort + AllocGlobal>(rt: &R, turns: usize) -> Vec<u8> {
    let mut text = Vec::new(rt.alloc());
    for _ in 0..turns {
        let turn = b"f1e1{a6a5:e1f1{a5a6:".as_slice();
        text.extend_from_slice(turn).expect(rt, "memory");
    }
    text.extend_from_slice(b"f1e1{a6a5:e1f1#}")
        .expect(rt, "memory");
    for _ in 0..turns {
        text.extend_from_slice(b"}}").expect(rt, "memory");
    }
    text
}

// The king has one move each time, between a6 and a5, as the rook goes to and fro: 32 attacks, and 31 replies.
#[test]
fn the_longest_line_has_63_moves(rt: HostRuntime) {
    let fen = b"k5/2K3/6/1P4/6/5R w";
    let flaw = flaw_of(&rt, fen, shuttle(&rt, 15).as_slice(), Goal::Mate);
    let flaw = flaw.expect(&rt, "a flaw");
    assert!(rt; flaw.line.len() == 63);
    assert!(rt; flaw.wrong == Wrong::NotMate);
}
