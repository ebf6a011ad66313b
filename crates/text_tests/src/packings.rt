//! The packings that an independent program made, both ways.

use crate::made_rows::{ROWS, Row};
use board::read_fen;
use entry::{Entry, Interval, key_of, pack, pack_board, slot_of, unpack};
use moves::Board;
use std::process::Abort;

/// The interval of two ends, if it is one's.
fn interval(below: u8, upto: Option<u8>) -> Option<Interval> {
    if below > 64 {
        return None;
    }
    let Some(end) = upto else {
        return Some(Interval { below, upto: None });
    };
    if end > 63 || end < below {
        return None;
    }
    Some(Interval {
        below,
        upto: Some(end),
    })
}

/// The row's entry.
fn entry(row: &Row) -> Option<Entry> {
    let position = read_fen(row.0.as_bytes()).ok()?;
    let interval = interval(row.3, row.4)?;
    Some(Entry {
        position,
        attacker: row.1,
        goal: row.2,
        interval,
    })
}

/// Whether two entries have the same fields.
fn is_same(a: &Entry, b: &Entry) -> bool {
    a.position.game() == b.position.game()
        && a.position.mover() == b.position.mover()
        && a.position.units() == b.position.units()
        && a.attacker == b.attacker
        && a.goal == b.goal
        && a.interval == b.interval
}

fn check_row(rt: &impl Abort, row: &Row) {
    let Some(entry) = entry(row) else {
        panic!(rt; "no entry")
    };
    let words = row.5;
    assert!(rt; pack(&entry) == words);
    let board = Board::of(&entry.position);
    assert!(rt; pack_board(&board, entry.attacker, entry.goal, entry.interval) == words);
    let Some(read) = unpack(words) else {
        panic!(rt; "no packing")
    };
    assert!(rt; is_same(&read, &entry));
    for (slots, number) in row.6 {
        assert!(rt; slots > 0 && slot_of(&words, slots) == number);
        assert!(rt; slots > 0 && slot_of(&key_of(words), slots) == number);
    }
}

#[test]
fn made_rows(rt: HostRuntime) {
    for row in &ROWS {
        check_row(&rt, row);
    }
}
