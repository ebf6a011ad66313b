//! The questions, asked over one table, and their replies in a digest.
use crate::digest::Digest;
use crate::question::{Kind, Question};
use search::{Answer, NoGate, Problem, Table, Task, build_tree_over, keys_over, solve_over};
use std::sync::Wait;
use std::thread::Threads;
use wintree::{Tree, check, read_tree, tree_text};

/// What is asked of a position.
fn problem_of(question: &Question) -> Option<Problem> {
    Problem::of(&question.position, question.goal, question.limit)
}

/// The digest with the answer of a solve.
fn solved<R: Threads + Wait + AllocGlobal + Sync>(
    rt: &R,
    table: &mut Table,
    question: &Question,
    digest: Digest,
) -> Option<Digest> {
    let problem = problem_of(question)?;
    let task = Task {
        problem: &problem,
        slots: &table.slots,
        gate: &NoGate,
    };
    match solve_over(rt, rt.alloc(), &task, &mut table.seats).ok()? {
        Answer::Mate { plies, first } => Some(digest.line(first, plies).reply(true)),
        Answer::NoneWithin(plies) => Some(digest.byte(plies).reply(false)),
    }
}

/// The digest with all keys.
fn keyed<R: Threads + Wait + AllocGlobal + Sync>(
    rt: &R,
    table: &mut Table,
    question: &Question,
    digest: Digest,
) -> Option<Digest> {
    let problem = problem_of(question)?;
    let task = Task {
        problem: &problem,
        slots: &table.slots,
        gate: &NoGate,
    };
    let keys = keys_over(rt, rt.alloc(), &task, &mut table.seats).ok()?;
    let mut told = digest;
    for key in keys.as_slice() {
        told = told.line(key.first, key.plies);
    }
    Some(told.reply(!keys.is_empty()))
}

/// The digest with a tree's text, and whether the tree that is read from it wins.
fn read_back<R: AllocGlobal>(
    rt: &R,
    question: &Question,
    tree: &Tree,
    digest: Digest,
) -> Option<Digest> {
    let text = tree_text(rt.alloc(), tree).ok()?;
    let mut told = digest;
    for byte in text.as_slice() {
        told = told.byte(*byte);
    }
    let read = read_tree(rt.alloc(), text.as_slice()).ok()?;
    let won = check(&question.position, &read, question.goal);
    Some(told.reply(won.is_some()))
}

/// The digest with the tree of the answer, if there is one.
fn grown<R: Threads + Wait + AllocGlobal + Sync>(
    rt: &R,
    table: &mut Table,
    question: &Question,
    digest: Digest,
) -> Option<Digest> {
    let problem = problem_of(question)?;
    let task = Task {
        problem: &problem,
        slots: &table.slots,
        gate: &NoGate,
    };
    let Answer::Mate { plies, .. } = solve_over(rt, rt.alloc(), &task, &mut table.seats).ok()?
    else {
        return Some(digest.byte(question.limit).reply(false));
    };
    let tree = build_tree_over(rt, rt.alloc(), &problem, plies, table).ok()?;
    read_back(rt, question, &tree, digest)
}

/// The digest with the reply to a question of the kind, or none where memory is wanting.
pub(crate) fn asked<R: Threads + Wait + AllocGlobal + Sync>(
    rt: &R,
    table: &mut Table,
    question: &Question,
    digest: Digest,
) -> Option<Digest> {
    match question.kind {
        Kind::Keys => keyed(rt, table, question, digest),
        Kind::Trees => grown(rt, table, question, digest),
        Kind::Games | Kind::Boards | Kind::Endings => solved(rt, table, question, digest),
    }
}
