//! The caller's own thread as a crew, over one table. The answers are worked out by hand.
ghost use Rattle.problems.specs.Roots.{IsRoot};

use crate::stopped::{KEY, ROOK_MATES_IN_THREE, problem, read, text_of};
use problems::{Answer, Key, Problem, Root};
use searcher::{Crew, Table, make_table};
use solver::Alone;
use std::alloc::{AllocError, Global};
use std::process::Abort;
use std::test::*;
use wintree::Tree;

/// A table of 64 slots, with a seat for one worker and one for the caller's own thread.
fn table<R: Abort>(rt: &R, alloc: Global) -> Table {
    let Ok(table) = make_table(alloc, 1, 64) else {
        panic!(rt; "no table")
    };
    table
}

fn third<R: Abort>(rt: &R) -> Problem {
    problem(rt, &read(rt, ROOK_MATES_IN_THREE), 3)
}

#[test]
fn answers_and_lists_keys(rt: HostRuntime) {
    let crew = Alone { alloc: rt.alloc() };
    let mut table = table(&rt, rt.alloc());
    let Ok(answer) = crew.solve(&mut table, &third(&rt), None) else {
        panic!(rt; "no answer")
    };
    assert!(rt;
        answer
            == Answer::Mate {
                plies: 3,
                first: KEY
            }
    );
    let Ok(keys) = crew.keys(&mut table, &third(&rt), None) else {
        panic!(rt; "no keys")
    };
    let expected = [Key {
        first: KEY,
        plies: 3,
    }];
    assert!(rt; keys.as_slice() == expected.as_slice());
}

/// The text of a tree that was found, or nothing where none was.
fn shown<R: Abort>(rt: &R, alloc: Global, found: Result<Option<Tree>, AllocError>) -> Vec<u8> {
    match found {
        Ok(Some(tree)) => text_of(rt, alloc, &tree),
        Ok(None) => Vec::new(alloc),
        Err(_) => panic!(rt; "no memory"),
    }
}

/// The text of the tree of the root's move of this number.
fn shown_behind<R: Abort>(
    rt: &R,
    crew: &Alone<Global>,
    table: &mut Table,
    root: &Root,
    job: u16,
) -> Vec<u8>
    requires { IsRoot root.now }
{
    if root.jobs() <= job {
        panic!(rt; "no such move")
    }
    shown(rt, crew.alloc, crew.tree_of(table, root, job))
}

const WINS: &[u8] = b"c4c5{a6a5:b1a1#}";

// The king a6 may go to a5 alone, where the rook mates it from a1.
#[test]
fn builds_a_tree(rt: HostRuntime) {
    let crew = Alone { alloc: rt.alloc() };
    let mut table = table(&rt, rt.alloc());
    let found = shown(&rt, rt.alloc(), crew.tree(&mut table, &third(&rt), None));
    assert!(rt; found.as_slice() == WINS);
    let first = problem(&rt, &read(&rt, ROOK_MATES_IN_THREE), 1);
    let none = shown(&rt, rt.alloc(), crew.tree(&mut table, &first, None));
    assert!(rt; none.is_empty());
}

// Fifteen of the root's moves come before the key, and the first of them wins within no three plies.
#[test]
fn builds_the_tree_of_a_first_move(rt: HostRuntime) {
    let crew = Alone { alloc: rt.alloc() };
    let mut table = table(&rt, rt.alloc());
    let root = Root::of(&third(&rt));
    assert!(rt; shown_behind(&rt, &crew, &mut table, &root, 15).as_slice() == WINS);
    assert!(rt; shown_behind(&rt, &crew, &mut table, &root, 0).is_empty());
}
