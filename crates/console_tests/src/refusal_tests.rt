//! What is refused by name, and words that mean no line.
use crate::whole_runs::{expect_runs, expect_with, words_of};
use std::process::Abort;
use std::sync::Wait;
use std::thread::Threads;
use std::time::Clock;

/// Expects each command to refuse the position, whatever the limit and the input.
fn expect_refused<R: Threads + Wait + Abort + AllocGlobal + Eprint + Clock + Sync>(
    rt: &R,
    fen: &str,
    output: &str,
) {
    for command in [
        "minimate,moves",
        "minimate,show",
        "minimate,solve,--limit,0",
        "minimate,tree,--limit,0",
        "minimate,keys,--limit,0",
        "minimate,check",
        // a position is refused before any search
        "minimate,solve,--limit,1",
        "minimate,tree,--limit,1",
    ] {
        let mut words = words_of(rt, command);
        words.push(fen).expect(rt, "memory");
        expect_with(rt, words.as_slice(), b"", 1, output);
    }
}

#[test]
fn refuses_positions_by_name(rt: HostRuntime) {
    for (fen, output) in [
        ("", "refused: Fields\n"),
        ("k5/6/6/6/6/5K", "refused: Fields\n"),
        ("k5/6/6/6/5K w", "refused: Shape\n"),
        ("k5/6/6/6/6/B4K w", "refused: Letter\n"),
        ("k5/6/33/6/6/5K w", "refused: Run\n"),
        ("k5/6/6/6/6/5K x", "refused: Side\n"),
        ("6/6/6/6/6/5K w", "refused: Kings\n"),
        ("k5/QQQQQQ/QQQQQQ/6/6/K5 w", "refused: Units\n"),
        ("k5/6/6/6/6/P4K w", "refused: PawnRank\n"),
        ("k4R/6/1K4/6/6/6 w", "refused: OtherInCheck\n"),
    ] {
        expect_refused(&rt, fen, output);
    }
}

// 257 and 4294967295 end in bytes that a number of 8 bits would have read as 1 and 255.
#[test]
fn refuses_limits_and_workers(rt: HostRuntime) {
    expect_runs(
        &rt,
        1,
        "minimate,solve,--limit,0,k5/6/1K4/6/6/5R w||refused: Limit;
minimate,solve,--limit,64,k5/6/1K4/6/6/5R w||refused: Limit;
minimate,solve,--limit,257,k5/6/1K4/6/6/5R w||refused: Limit;
minimate,solve,--limit,4294967295,k5/6/1K4/6/6/5R w||refused: Limit;
minimate,solve,--limit,1,--workers,0,k5/6/1K4/6/6/5R w||refused: Workers;
minimate,tree,--limit,1,--workers,0,k5/6/1K4/6/6/5R w||refused: Workers;
minimate,solve,--limit,1,--workers,17,k5/6/1K4/6/6/5R w||refused: Workers;
minimate,tree,--limit,1,--workers,17,k5/6/1K4/6/6/5R w||refused: Workers;
minimate,solve,--limit,1,--workers,257,k5/6/1K4/6/6/5R w||refused: Workers;
minimate,tree,--limit,1,--workers,257,k5/6/1K4/6/6/5R w||refused: Workers;
minimate,solve,--limit,1,--workers,4294967295,k5/6/1K4/6/6/5R w||refused: Workers;
minimate,tree,--limit,1,--workers,4294967295,k5/6/1K4/6/6/5R w||refused: Workers;",
    );
}

#[test]
fn refuses_slots(rt: HostRuntime) {
    expect_runs(
        &rt,
        1,
        "minimate,solve,--limit,1,--slots,0,k5/6/1K4/6/6/5R w||refused: Slots;
minimate,solve,--limit,1,--slots,1048577,k5/6/1K4/6/6/5R w||refused: Slots;
minimate,solve,--limit,1,--slots,4294967295,k5/6/1K4/6/6/5R w||refused: Slots;",
    );
}

#[test]
fn refuses_in_order(rt: HostRuntime) {
    expect_runs(
        &rt,
        1,
        "minimate,solve,--slots,0,--workers,0,--limit,0,k4R/6/1K4/6/6/6 w||refused: OtherInCheck;
minimate,tree,--slots,0,--workers,0,--limit,0,k4R/6/1K4/6/6/6 w||refused: OtherInCheck;
minimate,solve,--slots,0,--workers,17,--limit,64,k5/6/1K4/6/6/5R w||refused: Limit;
minimate,tree,--slots,0,--workers,17,--limit,64,k5/6/1K4/6/6/5R w||refused: Limit;
minimate,solve,--slots,0,--workers,0,--limit,1,k5/6/1K4/6/6/5R w||refused: Workers;
minimate,tree,--slots,0,--workers,0,--limit,1,k5/6/1K4/6/6/5R w||refused: Workers;
minimate,solve,--slots,0,--workers,1,--limit,1,k5/6/1K4/6/6/5R w||refused: Slots;
minimate,tree,--slots,0,--workers,1,--limit,1,k5/6/1K4/6/6/5R w||refused: Slots;",
    );
}

// 4294967297 ends in a word that 32 bits would have read as 1, and so is no number of 32 bits.
#[test]
fn refuses_words(rt: HostRuntime) {
    expect_with(&rt, &[], b"", 2, "");
    expect_runs(
        &rt,
        2,
        "minimate||
minimate,--help||
minimate,--version||
minimate,solve,--help||
minimate,play,rnqknr/pppppp/6/6/PPPPPP/RNQKNR w||
minimate,moves||
minimate,show||
minimate,moves,rnqknr/pppppp/6/6/PPPPPP/RNQKNR w,rnqknr/pppppp/6/6/PPPPPP/RNQKNR w||
minimate,check||
minimate,check,--limit,1,rnqknr/pppppp/6/6/PPPPPP/RNQKNR w||
minimate,solve,rnqknr/pppppp/6/6/PPPPPP/RNQKNR w||
minimate,tree,rnqknr/pppppp/6/6/PPPPPP/RNQKNR w||
minimate,batch|k5/6/1K4/6/6/5R w|
minimate,solve,--limit,1,--mate,1,k5/6/1K4/6/6/5R w||
minimate,keys,--mate,1,--limit,64,k5/6/1K4/6/6/5R w||
minimate,solve,--mate,1,--mate,1,k5/6/1K4/6/6/5R w||
minimate,solve,--mate,x,k5/6/1K4/6/6/5R w||
minimate,check,--mate,1,k5/6/1K4/6/6/5R w||
minimate,after,k5/6/2K3/6/6/1R4 w||
minimate,after,k5/6/2K3/6/6/1R4 w,c4c5,a6a5||
minimate,moves,--workers,1,rnqknr/pppppp/6/6/PPPPPP/RNQKNR w||
minimate,solve,--limit,x,rnqknr/pppppp/6/6/PPPPPP/RNQKNR w||
minimate,solve,--limit,,rnqknr/pppppp/6/6/PPPPPP/RNQKNR w||
minimate,solve,--limit,-1,rnqknr/pppppp/6/6/PPPPPP/RNQKNR w||
minimate,solve,--limit,1.0,rnqknr/pppppp/6/6/PPPPPP/RNQKNR w||
minimate,solve,--limit,4294967296,rnqknr/pppppp/6/6/PPPPPP/RNQKNR w||
minimate,solve,--limit,1,--workers,4294967296,k5/6/1K4/6/6/5R w||
minimate,tree,--limit,1,--workers,4294967296,k5/6/1K4/6/6/5R w||
minimate,solve,--limit,1,--workers,x,k5/6/1K4/6/6/5R w||
minimate,tree,--limit,1,--workers,x,k5/6/1K4/6/6/5R w||
minimate,solve,--limit,1,--slots,4294967297,k5/6/1K4/6/6/5R w||
minimate,solve,--limit,1,--slots,x,k5/6/1K4/6/6/5R w||",
    );
}

#[test]
fn refuses_goals(rt: HostRuntime) {
    expect_runs(
        &rt,
        2,
        "minimate,solve,--limit,1,--goal,,rnqknr/pppppp/6/6/PPPPPP/RNQKNR w||
minimate,tree,--limit,1,--goal,,rnqknr/pppppp/6/6/PPPPPP/RNQKNR w||
minimate,check,--goal,,rnqknr/pppppp/6/6/PPPPPP/RNQKNR w||
minimate,solve,--limit,1,--goal,Mate,rnqknr/pppppp/6/6/PPPPPP/RNQKNR w||
minimate,tree,--limit,1,--goal,Mate,rnqknr/pppppp/6/6/PPPPPP/RNQKNR w||
minimate,check,--goal,Mate,rnqknr/pppppp/6/6/PPPPPP/RNQKNR w||
minimate,solve,--limit,1,--goal,mates,rnqknr/pppppp/6/6/PPPPPP/RNQKNR w||
minimate,tree,--limit,1,--goal,mates,rnqknr/pppppp/6/6/PPPPPP/RNQKNR w||
minimate,check,--goal,mates,rnqknr/pppppp/6/6/PPPPPP/RNQKNR w||
minimate,solve,--limit,1,--goal,stalemate,rnqknr/pppppp/6/6/PPPPPP/RNQKNR w||
minimate,tree,--limit,1,--goal,stalemate,rnqknr/pppppp/6/6/PPPPPP/RNQKNR w||
minimate,check,--goal,stalemate,rnqknr/pppppp/6/6/PPPPPP/RNQKNR w||
minimate,solve,--limit,1,--goal,1,rnqknr/pppppp/6/6/PPPPPP/RNQKNR w||
minimate,tree,--limit,1,--goal,1,rnqknr/pppppp/6/6/PPPPPP/RNQKNR w||
minimate,check,--goal,1,rnqknr/pppppp/6/6/PPPPPP/RNQKNR w||",
    );
}

/// So many moves of the attacker, each in braces after the one before.
fn nested<R: Abort + AllocGlobal>(rt: &R, moves: usize) -> Vec<u8> {
    let mut text = Vec::new(rt.alloc());
    for _ in 0..moves {
        text.extend_from_slice(b"a1a2{a3a4:").expect(rt, "memory");
    }
    text
}

#[test]
fn refuses_what_is_no_tree(rt: HostRuntime) {
    let words = ["minimate", "check", "k5/6/2K3/6/6/1R4 w"];
    let no_reply = "refused: Grammar at offset 5\n";
    expect_with(&rt, &words, b"c4c5{}", 1, no_reply);
    let cut = "refused: Grammar at offset 310\n";
    expect_with(&rt, &words, nested(&rt, 31).as_slice(), 1, cut);
    let deep = "refused: Deep\n";
    expect_with(&rt, &words, nested(&rt, 32).as_slice(), 1, deep);
}

#[test]
fn takes_at_most_a_mebibyte(rt: HostRuntime) {
    let words = ["minimate", "check", "k5/6/2K3/6/6/1R4 w"];
    let most = vec![in rt.alloc(); b'x'; 1_048_576].expect(&rt, "memory");
    let first = "refused: Grammar at offset 0\n";
    expect_with(&rt, &words, most.as_slice(), 1, first);
    let above = vec![in rt.alloc(); b'\n'; 1_048_577].expect(&rt, "memory");
    let long = "refused: TooLong\n";
    expect_with(&rt, &words, above.as_slice(), 1, long);
}
