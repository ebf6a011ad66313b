//! One solver, asked again and again, stopped, and asked on. The answers are worked out by hand.
use board::{Position, read_fen};
use moves::{Goal, Move, Square};
use problems::{Answer, Key, Problem};
use searcher::Halt;
use solver::{Place, Solver, StopSource};
use std::alloc::Global;
use std::process::Abort;
use std::test::*;
use wintree::{Tree, tree_text};

/// Of 17 lawful moves, of which the rook b1 has ten and the king c4 seven, fifteen come before c4c5, which mates.
pub(crate) const ROOK_MATES_IN_THREE: &[u8] = b"k5/6/2K3/6/6/1R4 w";

/// The king a1 has two lawful moves, to b1 and a2, since a pawn guards b2.
const NONE_MATES: &[u8] = b"2k2/2p2/2p2/3pp/K4 w";

pub(crate) fn read<R: Abort>(rt: &R, text: &[u8]) -> Position {
    let Ok(position) = read_fen(text) else {
        panic!(rt; "no position")
    };
    position
}

/// Whether the side to move mates within so many plies.
pub(crate) fn problem<R: Abort>(rt: &R, position: &Position, limit: u8) -> Problem {
    let Some(problem) = Problem::of(position, Goal::Mate, limit) else {
        panic!(rt; "no problem")
    };
    problem
}

pub(crate) fn made<R: Abort>(rt: &R, alloc: Global) -> (Solver, StopSource) {
    let Ok(ends) = Solver::make(alloc, 64) else {
        panic!(rt; "no solver")
    };
    ends
}

pub(crate) fn text_of<R: Abort>(rt: &R, alloc: Global, tree: &Tree) -> Vec<u8> {
    let Ok(text) = tree_text(alloc, tree) else {
        panic!(rt; "no text")
    };
    text
}

/// The text of the tree that shows the mate.
fn tree_of<R: Abort>(rt: &R, alloc: Global, solver: &mut Solver, problem: &Problem) -> Vec<u8> {
    let Some(Answer::Mate { plies, .. }) = solver.solve(problem) else {
        panic!(rt; "no mate")
    };
    let Ok(tree) = solver.tree(alloc, &problem.position, problem.goal, plies) else {
        panic!(rt; "no tree")
    };
    text_of(rt, alloc, &tree)
}

pub(crate) const KEY: Move = Move {
    from: Square { file: 2, rank: 3 },
    to: Square { file: 2, rank: 4 },
    promotion: None,
};

/// Of so many moves so many are tried, and nothing is forced within so many plies.
pub(crate) fn at(none_within: u32, tried: u32, moves: u32) -> Place {
    Place {
        none_within,
        tried,
        moves,
    }
}

#[test]
fn answers_again_and_again(rt: HostRuntime) {
    let (mut solver, source) = made(&rt, rt.alloc());
    assert_eq!(rt; source.place(), at(0, 0, 0));
    let third = read(&rt, ROOK_MATES_IN_THREE);
    let mate = Some(Answer::Mate {
        plies: 3,
        first: KEY,
    });
    assert!(rt; solver.solve(&problem(&rt, &third, 3)) == mate);
    assert_eq!(rt; source.place(), at(2, 15, 17));
    assert!(rt; solver.solve(&problem(&rt, &third, 1)) == Some(Answer::NoneWithin(1)));
    assert_eq!(rt; source.place(), at(0, 17, 17));
    assert!(rt; solver.solve(&problem(&rt, &third, 5)) == mate);
    let none = read(&rt, NONE_MATES);
    assert!(rt; solver.solve(&problem(&rt, &none, 9)) == Some(Answer::NoneWithin(9)));
    assert_eq!(rt; source.place(), at(8, 2, 2));
}

#[test]
fn finds_keys(rt: HostRuntime) {
    let (mut solver, source) = made(&rt, rt.alloc());
    let third = read(&rt, ROOK_MATES_IN_THREE);
    let Ok(keys) = solver.keys(rt.alloc(), &problem(&rt, &third, 3)) else {
        panic!(rt; "no keys")
    };
    let expected = [Key {
        first: KEY,
        plies: 3,
    }];
    assert!(rt; keys.as_slice() == expected.as_slice());
    assert_eq!(rt; source.place(), at(0, 17, 17));
}

// The king a6 may go to a5 alone, where the rook mates it from a1.
#[test]
fn builds_a_tree(rt: HostRuntime) {
    let (mut solver, _source) = made(&rt, rt.alloc());
    let third = problem(&rt, &read(&rt, ROOK_MATES_IN_THREE), 5);
    let text = tree_of(&rt, rt.alloc(), &mut solver, &third);
    assert_eq!(rt; text.as_slice(), "c4c5{a6a5:b1a1#}".as_bytes());
}

#[test]
fn is_stopped_until_it_may_go_on(rt: HostRuntime) {
    let (mut solver, mut source) = made(&rt, rt.alloc());
    let none = read(&rt, NONE_MATES);
    source.stop();
    assert!(rt; solver.solve(&problem(&rt, &none, 9)) == None);
    // a stop is heard where four plies are left, so first in the round of five, at its first move
    assert_eq!(rt; source.place(), at(4, 0, 2));
    let keys = solver.keys(rt.alloc(), &problem(&rt, &none, 9));
    assert!(rt; matches!(&keys, Err(Halt::Stopped)));
    source.go_on();
    assert!(rt; solver.solve(&problem(&rt, &none, 9)) == Some(Answer::NoneWithin(9)));
}
