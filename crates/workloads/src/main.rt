//! What users wait for, measured: `workloads KIND LIMIT THROWS SEED` throws dice for positions of a kind, asks each its question within
//! so many plies over one table, and writes a digest of the replies. `bench/workloads.txt` has the lines.
#![tactic(auto)]

mod asking;
mod dice;
mod digest;
mod placing;
mod playing;
mod question;

use asking::asked;
use dice::Dice;
use digest::Digest;
use question::{Kind, drawn};
use search::{Table, make_table};
use std::sync::Wait;
use std::thread::Threads;
use std::{env, io};

/// The slots of the table, as many as the launcher gives.
const SLOTS: usize = 1048573;

/// The program's words.
fn words(rt: &HostRuntime) -> io::Result<Vec<String>> {
    let words = env::args(rt)?.collect(rt.alloc())?;
    Ok(words)
}

/// The number that a word says, or 0.
fn number_of(words: &[String], place: usize) -> u32 {
    match words.get(place) {
        Some(word) => word.as_str().parse::<u32>().unwrap_or(0),
        None => 0,
    }
}

/// What the words want: so many throws of the dice for questions of a kind.
#[derive(Clone, Copy)]
struct Order {
    kind: Kind,
    limit: u8,
    throws: u32,
    seed: u32,
}

/// What the words want, or none.
fn order_of(words: &[String]) -> Option<Order> {
    Some(Order {
        kind: Kind::of(words.get(1)?.as_str())?,
        limit: number_of(words, 2).min(63) as u8,
        throws: number_of(words, 3),
        seed: number_of(words, 4),
    })
}

/// The digest of the replies, or none where memory is wanting.
fn digest_over<R: Threads + Wait + AllocGlobal + Sync>(
    rt: &R,
    table: &mut Table,
    order: Order,
) -> Option<Digest> {
    let mut dice = Dice::new(order.seed);
    let mut digest = Digest::new();
    for _ in 0..order.throws {
        if let Some(question) = drawn(&mut dice, order.kind, order.limit) {
            digest = asked(rt, table, &question, digest)?;
        }
    }
    Some(digest)
}

/// The digest of the replies, by a table of its own.
fn digest_of<R: Threads + Wait + AllocGlobal + Sync>(rt: &R, order: Order) -> Option<Digest> {
    let mut table = make_table(rt.alloc(), 1, SLOTS).ok()?;
    digest_over(rt, &mut table, order)
}

fn main(rt: HostRuntime) -> io::Result<()> {
    let words = words(&rt)?;
    let Some(order) = order_of(words.as_slice()) else {
        return println!(rt;
            "wanted: games, boards, endings, keys or trees, then a limit, a number of throws and a seed"
        );
    };
    match digest_of(&rt, order) {
        Some(Digest { asked, won, sum }) => println!(rt; "{asked} asked, {won} won, digest {sum}"),
        None => println!(rt; "no memory, or no limit"),
    }
}
