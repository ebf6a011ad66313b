//! Makes one call, the one that its word names, and says how it ended: `one_call solve`. tests/behaviour/test_memory.py refuses each request
//! for memory of such a call in turn, and counts that calls which take none make none: of two words the one makes the same calls as
//! the other, and others besides. The call is `table` where none is named.
#![tactic(auto)]

mod building;
mod chess;
mod deciding;
mod job_board;
mod solving;
mod table;
mod texts;

use std::alloc::Global;
use std::sync::Wait;
use std::thread::Threads;
use std::{env, io};

/// What the call that the word names ended in: `no memory`, or what stands here beside it.
fn said<R: Threads + Wait + Sync>(rt: &R, alloc: Global, call: &str) -> &'static str {
    match call {
        "nothing" => "done",
        "chess" => chess::answer(),
        "table_alone" => table::make(alloc),
        "table" => table::answer(alloc),
        "job_board_alone" => job_board::make(alloc),
        "job_board" => job_board::answer(alloc),
        "solve" => solving::answer(rt, alloc),
        "solve_over" => solving::answer_over(rt, alloc),
        "build_tree" => building::answer(rt, alloc),
        "entries_alone" => deciding::answer(alloc, false),
        "decide" => deciding::answer(alloc, true),
        "parse" => texts::parse(alloc),
        "check" => texts::check_read(alloc),
        "tree_text" => texts::written(alloc),
        "read_tree" => texts::read(alloc),
        _ => "no such call",
    }
}

/// The program's words.
fn words(rt: &HostRuntime) -> io::Result<Vec<String>> {
    let words = env::args(rt)?.collect(rt.alloc())?;
    Ok(words)
}

/// The call that the second word names.
fn call_of(words: &[String]) -> &str {
    match words.get(1) {
        Some(word) => word.as_str(),
        None => "table",
    }
}

fn main(rt: HostRuntime) -> io::Result<()> {
    let said = match words(&rt) {
        Ok(words) => said(&rt, rt.alloc(), call_of(words.as_slice())),
        Err(_) => "no memory",
    };
    println!(rt; "{said}")
}
