//! Winning trees that the search built: their texts, and what the checker says of them.
ghost use Rattle.std.specs.Prelude.{◌<◌, ◌≤◌};

use crate::solving::solved;
use crate::tables::position;
use board::Position;
use entry::MateLore;
use moves::Goal;
use problems::{Answer, Problem};
use rounds::{Task, make_table, solve_over};
use searcher::{NoGate, Table, build_tree, build_tree_over};
use slots::Slots;
use std::alloc::Global;
use std::process::Abort;
use std::sync::Wait;
use std::test::Fail;
use std::thread::Threads;
use wintree::{NoMemory, Tree, check, tree_text};

/// The text of a tree, and in how many plies it wins, if it does.
#[derive(Drop)]
struct Shown {
    text: Vec<u8>,
    plies: Option<u8>,
}

fn shown_of(
    alloc: Global,
    position: &Position,
    goal: Goal,
    tree: &Tree,
) -> Result<Shown, NoMemory> {
    let text = tree_text(alloc, tree)?;
    let plies = check(position, tree, goal);
    Ok(Shown { text, plies })
}

/// The tree of a position where the side to move forces the goal within nine plies.
fn tree_of<R: Threads + Wait + Abort + AllocGlobal + Sync>(
    rt: &R,
    position: &Position,
    goal: Goal,
    slots: usize,
) -> Result<Shown, NoMemory>
    requires { (0 < slots) × (slots ≤ 1048576) }
{
    let Ok(Answer::Mate { plies, .. }) = solved(rt, rt.alloc(), position, goal, 9, 64) else {
        panic!(rt; "no mate")
    };
    let (table, mut seats) = Slots::<MateLore>::make(rt.alloc(), slots, 1).expect(rt, "a table");
    let Some(mut seat) = seats.pop() else {
        panic!(rt; "no seat")
    };
    let tree = build_tree(rt.alloc(), &table, &mut seat, position, goal, plies)?;
    shown_of(rt.alloc(), position, goal, &tree)
}

/// The tree of the problem, by the threads of a table, over which they have solved it.
fn tree_over<R: Threads + Wait + Abort + AllocGlobal + Sync>(
    rt: &R,
    problem: &Problem,
    table: &mut Table,
) -> Result<Tree, NoMemory> {
    let task = Task {
        problem,
        slots: &table.slots,
        gate: &NoGate,
    };
    let Ok(Answer::Mate { plies, .. }) = solve_over(rt, rt.alloc(), &task, &mut table.seats) else {
        panic!(rt; "no mate")
    };
    build_tree_over(rt, rt.alloc(), problem, plies, table)
}

/// The tree, by so many workers and the caller's own thread.
fn tree_by<R: Threads + Wait + Abort + AllocGlobal + Sync>(
    rt: &R,
    position: &Position,
    goal: Goal,
    workers: u8,
) -> Result<Shown, NoMemory> {
    let problem = Problem::of(position, goal, 9).expect(rt, "a limit");
    let mut table = make_table(rt.alloc(), workers, 4096).expect(rt, "a table");
    let tree = tree_over(rt, &problem, &mut table)?;
    shown_of(rt.alloc(), position, goal, &tree)
}

// Each of these positions has one reply at most to its best move; the trees were worked out by hand.
#[test]
fn trees_of_worked_positions(rt: HostRuntime) -> Result<(), Fail> {
    for (text, goal, tree, plies) in [
        ("k5/6/1K4/6/6/5R w", Goal::Mate, "f1f6#", 1),
        ("k4/2P2/1K3/5/5 w", Goal::Mate, "c4c5q#", 1),
        ("k5/6/2K3/6/6/1R4 w", Goal::Mate, "c4c5{a6a5:b1a1#}", 3),
        ("k5/6/2K3/6/6/1R4 w", Goal::MateOrStale, "b1b5=", 1),
        // c1a1 leaves b6c6 alone, and comes before the other moves of the rook that mate in three too
        ("1k4/5R/6/6/6/2R2K w", Goal::Mate, "c1a1{b6c6:a1a6#}", 3),
    ] {
        let root = position(&rt, text);
        for slots in [1, 2, 64] {
            let built = tree_of(&rt, &root, goal, slots)?;
            assert_eq!(rt; built.text.as_slice(), tree.as_bytes(), "{text}");
            assert_eq!(rt; built.plies, Some(plies), "{text}");
        }
    }
    Ok(())
}

// Mates in five and seven plies, with the answers of an independent program.
#[test]
fn trees_of_longer_mates_win(rt: HostRuntime) -> Result<(), Fail> {
    for (text, plies) in [
        ("2qK1/3B1/1k1NQ/3b1/r1Q2 w", 5),
        ("4r/P1pk1/B1N2/3b1/3K1 b", 5),
        ("1n1K1/kN3/5/3N1/4q b", 5),
        ("5k/3K2/6/6/1q4/r5 b", 5),
        ("1K1k1/qR3/5/5/5 w", 7),
        ("6/5q/6/6/1k4/4K1 b", 7),
    ] {
        let root = position(&rt, text);
        let built = tree_of(&rt, &root, Goal::Mate, 4096)?;
        assert_eq!(rt; built.plies, Some(plies), "{text}");
    }
    Ok(())
}

/// How many replies the tree's text has to its first move.
fn replies_in(text: &[u8]) -> u8 {
    let mut depth: u8 = 0;
    let mut replies: u8 = 1;
    for byte in text {
        match *byte {
            b'{' => depth = depth.saturating_add(1),
            b'}' => depth = depth.saturating_sub(1),
            b',' if depth == 1 => replies = replies.saturating_add(1),
            _ => {}
        }
    }
    replies
}

// The defender has 62 replies to b5a3. Another program counts them, finds no mate in three plies, and says yes to the tree's five.
#[test]
fn a_tree_of_many_replies_wins(rt: HostRuntime) -> Result<(), Fail> {
    let root = position(&rt, "k1KRQq/pNnQ2/PPq3/4q1/pppppp/1RNRN1 w");
    let built = tree_of(&rt, &root, Goal::Mate, 65536)?;
    assert_eq!(rt; built.plies, Some(5));
    assert_eq!(rt; replies_in(built.text.as_slice()), 62);
    Ok(())
}

// A position has one best tree, so several threads give the one that a single thread gives. Mates of an independent program.
#[test]
fn threads_build_the_tree_that_one_builds(rt: HostRuntime) -> Result<(), Fail> {
    for (text, plies) in [
        ("1K1k1/qR3/5/5/5 w", 7),
        ("5/3k1/2R2/1KP1P/5 w", 9),
        ("R1b1N/3qk/2N2/5/4K b", 9),
    ] {
        let root = position(&rt, text);
        let alone = tree_of(&rt, &root, Goal::Mate, 4096)?;
        for workers in [1, 4] {
            let built = tree_by(&rt, &root, Goal::Mate, workers)?;
            assert_eq!(rt; built.text.as_slice(), alone.text.as_slice(), "{text}");
            assert_eq!(rt; built.plies, Some(plies), "{text}");
        }
    }
    Ok(())
}
