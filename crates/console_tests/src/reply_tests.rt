//! Replies at worked positions: answers, keys, trees, moves and boards.
use crate::whole_runs::{expect_runs, expect_with, run_quietly};
use command_line::{Action, Limits, Line};
use console::run_line;
use devices::Counted;
use moves::Goal;
use std::process::Abort;
use std::sync::Wait;
use std::thread::Threads;
use std::time::Clock;

// The positions of the tables: the rook mates on the last rank; it waits on the last rank but one, where b1b5 would be stalemate;
// queen and rook both mate on the last rank; the side to move is mated; it is stalemated; the kings are alone; the start of each game.

#[test]
fn finds_mates_in_one(rt: HostRuntime) {
    expect_runs(
        &rt,
        0,
        "minimate,solve,--limit,1,k5/6/1K4/6/6/5R w||mate 1 f1f6;
minimate,solve,--limit,1,5r/6/6/1k4/6/K5 b||mate 1 f6f1;
minimate,solve,--limit,1,k4/2P2/1K3/5/5 w||mate 1 c4c5q;",
    );
}

#[test]
fn answers_a_line(rt: HostRuntime) {
    let limits = Limits {
        limit: 1,
        workers: 2,
        slots: 64,
    };
    let line = Line {
        fen: b"k5/6/1K4/6/6/5R w",
        action: Action::Solve(Goal::Mate, limits),
    };
    let mut reader = Counted::new(b"".as_slice());
    let mut writer = Counted::new(Vec::new(rt.alloc()));
    let status = run_line(&rt, &line, &mut reader, &mut writer);
    assert_eq!(rt; status, 0);
    assert_eq!(rt; writer.device.as_slice(), b"mate 1 f1f6\n".as_slice());
}

#[test]
fn finds_mates_in_three_or_none(rt: HostRuntime) {
    expect_runs(
        &rt,
        0,
        "minimate,solve,--limit,1,k5/6/2K3/6/6/1R4 w||none within 1;
minimate,solve,--limit,1,k5/2Q3/6/6/6/5K b||none within 1;
minimate,solve,--limit,1,k4R/6/1K4/6/6/6 b||none within 1;
minimate,solve,--limit,1,rnqknr/pppppp/6/6/PPPPPP/RNQKNR w||none within 1;
minimate,solve,--limit,2,k5/6/2K3/6/6/1R4 w||none within 2;
minimate,solve,--limit,3,k5/6/2K3/6/6/1R4 w||mate 3 c4c5;
minimate,solve,--limit,4,k5/6/2K3/6/6/1R4 w||mate 3 c4c5;
minimate,solve,--limit,5,k5/2Q3/6/6/6/5K b||none within 5;",
    );
}

// A mate in M moves is one within 2M-1 plies.
#[test]
fn takes_the_limit_in_moves(rt: HostRuntime) {
    expect_runs(
        &rt,
        0,
        "minimate,solve,--mate,1,k5/6/2K3/6/6/1R4 w||none within 1;
minimate,solve,--mate=2,k5/6/2K3/6/6/1R4 w||mate 3 c4c5;
minimate,solve,k5/6/2K3/6/6/1R4 w,--mate,+2||mate 3 c4c5;
minimate,tree,--mate,2,k5/6/2K3/6/6/1R4 w||c4c5{a6a5:b1a1#};
minimate,keys,--mate,1,--goal,stale,k5/6/2K3/6/6/1R4 w||b1b5 1;
minimate,solve,--mate,3,k5/2Q3/6/6/6/5K b||none within 5;
minimate,batch,--mate,2|k5/6/2K3/6/6/1R4 w|mate 3 c4c5;",
    );
    expect_runs(
        &rt,
        1,
        "minimate,solve,--mate,0,k5/6/1K4/6/6/5R w||refused: Limit;
minimate,solve,--mate,33,k5/6/1K4/6/6/5R w||refused: Limit;
minimate,keys,--mate,129,k5/6/1K4/6/6/5R w||refused: Limit;
minimate,tree,--mate,2147483649,k5/6/1K4/6/6/5R w||refused: Limit;
minimate,solve,--mate,4294967295,k5/6/1K4/6/6/5R w||refused: Limit;",
    );
}

// A pawn takes, and one becomes a queen or a rook; Gardner's king moves; a king leaves check.
#[test]
fn plays_a_move(rt: HostRuntime) {
    expect_runs(
        &rt,
        0,
        "minimate,after,k5/6/2K3/6/6/1R4 w,c4c5||k5/2K3/6/6/6/1R4 b;
minimate,after,k4/2P2/1K3/5/5 w,c4c5q||k1Q2/5/1K3/5/5 b;
minimate,after,k4/2P2/1K3/5/5 w,c4c5r||k1R2/5/1K3/5/5 b;
minimate,after,k5/6/6/1p4/P5/5K b,b3a2||k5/6/6/6/p5/5K w;
minimate,after,k4R/6/6/6/6/K5 b,a6a5||5R/k5/6/6/6/K5 w;",
    );
    expect_runs(
        &rt,
        1,
        "minimate,after,k5/6/2K3/6/6/1R4 w,c4c6||refused: Move;
minimate,after,k5/6/2K3/6/6/1R4 w,c4c5q||refused: Move;
minimate,after,k5/6/2K3/6/6/1R4 w,a6a5||refused: Move;
minimate,after,k4/2P2/1K3/5/5 w,c4c5||refused: Move;
minimate,after,k5/6/2K3/6/6/1R4 w,||refused: Move;
minimate,after,k5/6/2K3/6/6/1R4 w,C4C5||refused: Move;
minimate,after,k5/6/2K3/6/6/1R4 x,c4c5||refused: Side;",
    );
}

#[test]
fn plays_for_the_goal(rt: HostRuntime) {
    expect_runs(
        &rt,
        0,
        "minimate,solve,--goal,stale,--limit,1,k5/6/2K3/6/6/1R4 w||goal 1 b1b5;
minimate,solve,--goal,stale,--limit,3,k5/6/2K3/6/6/1R4 w||goal 1 b1b5;
minimate,solve,--goal,mate,--limit,1,k5/6/2K3/6/6/1R4 w||none within 1;
minimate,solve,--goal,mate,--limit,3,k5/6/2K3/6/6/1R4 w||mate 3 c4c5;
minimate,solve,--goal,stale,--limit,5,k5/2Q3/6/6/6/5K b||none within 5;",
    );
}

#[test]
fn answers_the_same_with_any_slots_and_workers(rt: HostRuntime) {
    expect_runs(
        &rt,
        0,
        "minimate,solve,--limit,3,--slots,1,k5/6/2K3/6/6/1R4 w||mate 3 c4c5;
minimate,solve,--limit,3,--slots,2,k5/6/2K3/6/6/1R4 w||mate 3 c4c5;
minimate,solve,--limit,3,--slots,64,k5/6/2K3/6/6/1R4 w||mate 3 c4c5;
minimate,solve,--limit,3,--slots,65,k5/6/2K3/6/6/1R4 w||mate 3 c4c5;
minimate,solve,--limit,3,--slots,4096,k5/6/2K3/6/6/1R4 w||mate 3 c4c5;
minimate,solve,--limit,3,--workers,1,--slots,1,k5/6/2K3/6/6/1R4 w||mate 3 c4c5;
minimate,solve,--limit,3,--workers,2,--slots,1,k5/6/2K3/6/6/1R4 w||mate 3 c4c5;
minimate,solve,--limit,3,--workers,3,--slots,1,k5/6/2K3/6/6/1R4 w||mate 3 c4c5;
minimate,solve,--limit,3,--workers,4,--slots,1,k5/6/2K3/6/6/1R4 w||mate 3 c4c5;
minimate,solve,--limit,3,--workers,5,--slots,1,k5/6/2K3/6/6/1R4 w||mate 3 c4c5;
minimate,solve,--limit,3,--workers,6,--slots,1,k5/6/2K3/6/6/1R4 w||mate 3 c4c5;
minimate,solve,--limit,3,--workers,7,--slots,1,k5/6/2K3/6/6/1R4 w||mate 3 c4c5;
minimate,solve,--limit,3,--workers,8,--slots,1,k5/6/2K3/6/6/1R4 w||mate 3 c4c5;
minimate,solve,--limit,3,--workers,9,--slots,1,k5/6/2K3/6/6/1R4 w||mate 3 c4c5;
minimate,solve,--limit,3,--workers,10,--slots,1,k5/6/2K3/6/6/1R4 w||mate 3 c4c5;
minimate,solve,--limit,3,--workers,11,--slots,1,k5/6/2K3/6/6/1R4 w||mate 3 c4c5;
minimate,solve,--limit,3,--workers,12,--slots,1,k5/6/2K3/6/6/1R4 w||mate 3 c4c5;
minimate,solve,--limit,3,--workers,13,--slots,1,k5/6/2K3/6/6/1R4 w||mate 3 c4c5;
minimate,solve,--limit,3,--workers,14,--slots,1,k5/6/2K3/6/6/1R4 w||mate 3 c4c5;
minimate,solve,--limit,3,--workers,15,--slots,1,k5/6/2K3/6/6/1R4 w||mate 3 c4c5;
minimate,solve,--limit,3,--workers,16,--slots,1,k5/6/2K3/6/6/1R4 w||mate 3 c4c5;",
    );
}

// The keys are those that a second reading of the rules finds.
#[test]
fn lists_keys(rt: HostRuntime) {
    expect_runs(
        &rt,
        0,
        "minimate,keys,--goal,mate,--limit,1,k5/6/1K4/6/6/5R w||f1f6 1;
minimate,keys,--goal,mate,--limit,3,k5/6/1K4/6/6/5R w||f1d1 3;f1e1 3;f1f2 3;f1f3 3;f1f4 3;f1f5 3;f1f6 1;b4c5 3;
minimate,keys,--goal,mate,--limit,4,k5/6/1K4/6/6/5R w||f1d1 3;f1e1 3;f1f2 3;f1f3 3;f1f4 3;f1f5 3;f1f6 1;b4c5 3;
minimate,keys,--goal,mate,--limit,3,k5/6/2K3/6/6/1R4 w||c4c5 3;
minimate,keys,--goal,stale,--limit,2,k5/6/2K3/6/6/1R4 w||b1b5 1;
minimate,keys,--goal,mate,--limit,1,k4/2P2/1K3/5/5 w||c4c5q 1;c4c5r 1;
minimate,keys,--goal,mate,--limit,2,k5/6/2K3/6/6/1R4 w||none within 2;
minimate,keys,--goal,mate,--limit,5,k5/2Q3/6/6/6/5K b||none within 5;
minimate,keys,--goal,mate,--limit,5,k4/5/5/5/4K w||none within 5;",
    );
}

#[test]
fn writes_trees(rt: HostRuntime) {
    expect_runs(
        &rt,
        0,
        "minimate,tree,--goal,mate,--limit,1,k5/6/1K4/6/6/5R w||f1f6#;
minimate,tree,--goal,mate,--limit,1,k4/2P2/1K3/5/5 w||c4c5q#;
minimate,tree,--goal,mate,--limit,3,k5/6/2K3/6/6/1R4 w||c4c5{a6a5:b1a1#};
minimate,check,k5/6/2K3/6/6/1R4 w|c4c5{a6a5:b1a1#};|yes 3;
minimate,tree,--goal,mate,--limit,4,k5/6/2K3/6/6/1R4 w||c4c5{a6a5:b1a1#};
minimate,tree,--limit,3,k5/6/2K3/6/6/1R4 w||c4c5{a6a5:b1a1#};
minimate,tree,--goal,mate,--limit,2,k5/6/2K3/6/6/1R4 w||none within 2;
minimate,tree,--goal,mate,--limit,5,k5/2Q3/6/6/6/5K b||none within 5;
minimate,tree,--goal,stale,--limit,3,k5/6/2K3/6/6/1R4 w||b1b5=;
minimate,check,--goal,stale,k5/6/2K3/6/6/1R4 w|b1b5=;|yes 1;",
    );
}

// What tools/check_tree.py's rules make of these first moves.
#[test]
fn writes_trees_of_first_moves(rt: HostRuntime) {
    expect_runs(
        &rt,
        0,
        "minimate,tree,--limit,3,--first,f1f2,k5/6/1K4/6/6/5R w||f1f2{a6b6:f2f6#};
minimate,tree,--first,b4c5,--mate,2,k5/6/1K4/6/6/5R w||b4c5{a6a5:f1a1#};
minimate,tree,--first=f1f6,--limit,3,k5/6/1K4/6/6/5R w||f1f6#;
minimate,tree,--first,f1a1,--limit,3,k5/6/1K4/6/6/5R w||none within 3;
minimate,tree,--first,c4c5,--limit,2,k5/6/2K3/6/6/1R4 w||none within 2;
minimate,tree,--first,b1b5,--limit,3,--goal,stale,k5/6/2K3/6/6/1R4 w||b1b5=;
minimate,tree,--first,c4c5,--limit,3,--goal,stale,k5/6/2K3/6/6/1R4 w||c4c5{a6a5:b1a1#};
minimate,tree,--first,c4c5r,--limit,1,k4/2P2/1K3/5/5 w||c4c5r#;
minimate,check,k5/6/1K4/6/6/5R w|f1f2{a6b6:f2f6#};|yes 3;",
    );
    expect_runs(
        &rt,
        1,
        "minimate,tree,--limit,3,--first,c4c6,k5/6/2K3/6/6/1R4 w||refused: Move;
minimate,tree,--limit,64,--first,c4c6,k5/6/2K3/6/6/1R4 w||refused: Move;
minimate,tree,--limit,64,--first,c4c5,k5/6/2K3/6/6/1R4 w||refused: Limit;
minimate,tree,--limit,3,--slots,0,--first,c4c5,k5/6/2K3/6/6/1R4 w||refused: Slots;
minimate,tree,--limit,3,--first,c4c5,k5 w||refused: Shape;",
    );
}

// After 1.Kc5 the rook threatens mate on the a-file, and Black's king has one move; with Black to move there is no mate at once.
#[test]
fn writes_solutions(rt: HostRuntime) {
    expect_runs(
        &rt,
        0,
        "minimate,solution,--mate,2,k5/6/2K3/6/6/1R4 w||mate in 2;1.Kc5! threat 2.Ra1#;  1...Ka5 2.Ra1#;
minimate,solution,--limit,3,--set,k5/6/2K3/6/6/1R4 w||mate in 2;no set play;1.Kc5! threat 2.Ra1#;  1...Ka5 2.Ra1#;
minimate,solution,--limit,3,--figurines,k5/6/2K3/6/6/1R4 w||mate in 2;1.\u{2654}c5! threat 2.\u{2656}a1#;  1...\u{2654}a5 2.\u{2656}a1#;
minimate,solution,--limit,1,k4/2P2/1K3/5/5 w||mate in 1, cooked by 1 key;1.c5=Q#!;1.c5=R#!;
minimate,solution,--limit,1,--goal,stale,k5/6/2K3/6/6/1R4 w||goal in 1;1.Rb5=!;
minimate,solution,--limit,2,--tries,k5/6/2K3/6/6/1R4 w||none within 2;
minimate,solution,--mate,3,k5/6/2K3/6/6/1R4 w||mate in 2, short;1.Kc5! threat 2.Ra1#;  1...Ka5 2.Ra1#;
minimate,solution,--limit,4,k5/6/2K3/6/6/1R4 w||mate in 2;1.Kc5! threat 2.Ra1#;  1...Ka5 2.Ra1#;
minimate,solution,--mate,2,k4/2P2/1K3/5/5 w||mate in 1, short;1.c5=Q#!;1.c5=R#!;
minimate,solution,--json,--set,--mate,2,k5/6/2K3/6/6/1R4 w||{\"position\":\"k5/6/2K3/6/6/1R4 w\",\"goal\":\"mate\",\"plies\":3,\"short\":false,\"keys\":[{\"first\":\"c4c5\",\"threats\":{\"plies\":1,\"moves\":[\"b1a1\"]},\"variations\":[{\"reply\":\"a6a5\",\"plies\":1,\"moves\":[\"b1a1\"],\"line\":[\"b1a1\"]}]}],\"set_play\":[],\"tries\":null};
minimate,solution,--json,--limit,2,k5/6/2K3/6/6/1R4 w||{\"position\":\"k5/6/2K3/6/6/1R4 w\",\"goal\":\"mate\",\"plies\":null,\"short\":false,\"keys\":[],\"set_play\":null,\"tries\":null};
minimate,solution,--mate,3,2k2/5/5/2K2/4R w||mate in 3;1.Kc3! threat 2.Re5#;  1...Kb5 2.Ra1 zugzwang;    2...Kc5 3.Ra5#;  1...Kd5 2.Re2 zugzwang, dual 2.Re3;    2...Kc5 3.Re5#;
minimate,solution,--mate,3,--short,2k2/5/5/2K2/4R w||mate in 3;1.Kc3! threat 2.Re5#;  1...Kb5 2.Ra1 Kc5 3.Ra5#;  1...Kd5 2.Re2 Kc5 3.Re5#, dual 2.Re3;
minimate,solution,--mate,2,--short,k5/6/2K3/6/6/1R4 w||mate in 2;1.Kc5! threat 2.Ra1#;  1...Ka5 2.Ra1#;
minimate,solution,--mate,2,--first,c4c5,k5/6/2K3/6/6/1R4 w||1.Kc5! threat 2.Ra1#;  1...Ka5 2.Ra1#;
minimate,solution,--mate,2,--first,b1b2,k5/6/2K3/6/6/1R4 w||1.Rb2? zugzwang;  but 1...Ka5!;
minimate,solution,--mate,2,--first,b1c1,k5/6/2K3/6/6/1R4 w||1.Rc1? zugzwang;  but 1...Ka5!;  but 1...Kb6!;
minimate,solution,--mate,2,--figurines,--first,b1b5,k5/6/2K3/6/6/1R4 w||1.\u{2656}b5? stalemate;
minimate,solution,--limit,2,--first,c4c5,k5/6/2K3/6/6/1R4 w||none within 2;
minimate,solution,--limit,2,--svg,k5/6/2K3/6/6/1R4 w||none within 2;",
    );
    expect_runs(
        &rt,
        1,
        "minimate,solution,--limit,64,k5/6/2K3/6/6/1R4 w||refused: Limit;
minimate,solution,--limit,64,--first,c4c6,k5/6/2K3/6/6/1R4 w||refused: Move;
minimate,solution,--limit,64,--first,c4c5,k5/6/2K3/6/6/1R4 w||refused: Limit;
minimate,solution,--limit,64,k5 w||refused: Shape;",
    );
}

/// Writes the tree of a line to the input of a `check`, and gives the second run's output.
fn checked_tree<R: Threads + Wait + Abort + AllocGlobal + Eprint + Clock + Sync>(
    rt: &R,
    limit: &str,
    fen: &str,
) -> Vec<u8> {
    let mut nothing = Counted::new(b"".as_slice());
    let mut written = Counted::new(Vec::new(rt.alloc()));
    let tree = ["minimate", "tree", "--limit", limit, fen];
    assert_eq!(rt; run_quietly(rt, &tree, &mut nothing, &mut written), 0);
    let mut reader = Counted::new(written.device.as_slice());
    let mut writer = Counted::new(Vec::new(rt.alloc()));
    let check = ["minimate", "check", fen];
    assert_eq!(rt; run_quietly(rt, &check, &mut reader, &mut writer), 0);
    writer.device
}

// Two replies, met by one move each; forty replies; and a mate whose fewest plies are another program's.
#[test]
fn checks_the_trees_that_it_writes(rt: HostRuntime) {
    for (limit, fen, output) in [
        ("3", "k5/6/2K3/6/6/1R4 w", "yes 3\n"),
        ("3", "1k4/5R/6/6/6/2R2K w", "yes 3\n"),
        ("1", "5r/6/6/1k4/6/K5 b", "yes 1\n"),
        ("3", "1qQqRq/3q1q/QN1QRN/q4k/R1QQR1/3q1K w", "yes 3\n"),
        ("11", "3k1/1K1R1/1p3/2q1R/1b2n b", "yes 11\n"),
    ] {
        let checked = checked_tree(&rt, limit, fen);
        assert_eq!(rt; checked.as_slice(), output.as_bytes());
    }
}

/// How often the byte stands in the text.
fn count_of(text: &[u8], wanted: u8) -> u64 {
    let mut count = 0u64;
    for byte in text {
        if *byte == wanted {
            count = count.saturating_add(1);
        }
    }
    count
}

// Black has forty lawful replies to the first move, by the count of another program. In a tree of three plies one node has replies,
// each of which is met by a mate.
#[test]
fn writes_a_node_of_forty_replies(rt: HostRuntime) {
    let fen = "1qQqRq/3q1q/QN1QRN/q4k/R1QQR1/3q1K w";
    let words = ["minimate", "tree", "--limit", "3", fen];
    let mut reader = Counted::new(b"".as_slice());
    let mut writer = Counted::new(Vec::new(rt.alloc()));
    assert_eq!(rt; run_quietly(&rt, &words, &mut reader, &mut writer), 0);
    let text = writer.device.as_slice();
    assert_eq!(rt; (count_of(text, b','), count_of(text, b'#')), (39, 40));
}

#[test]
fn checks_trees(rt: HostRuntime) {
    expect_runs(
        &rt,
        0,
        "minimate,check,k5/6/2K3/6/6/1R4 w|c4c5{a6a5:b1a1#}|yes 3;
minimate,check,k5/6/2K3/6/6/1R4 w|c4c5#|no;
minimate,check,k4/2P2/1K3/5/5 w|c4c5q#|yes 1;
minimate,check,k4/2P2/1K3/5/5 w|c4c5r#|yes 1;
minimate,check,1k4/5R/6/6/6/2R2K w|c1e1{b6a6:e1e6#,b6c6:e1e6#}|yes 3;
minimate,check,1k4/5R/6/6/6/2R2K w|c1e1{b6a6:e1e6#}|no;
minimate,check,--goal,stale,k5/6/2K3/6/6/1R4 w|b1b5=|yes 1;
minimate,check,--goal,mate,k5/6/2K3/6/6/1R4 w|b1b5=|no;
minimate,check,--goal,stale,k5/6/2K3/6/6/1R4 w|b1b5#|no;
minimate,check,--goal,stale,k5/6/2K3/6/6/1R4 w|c4c5{a6a5:b1a1#}|yes 3;
minimate,check,k5/6/2K3/6/6/1R4 w|b1b5=|no;",
    );
}

#[test]
fn takes_one_line_feed_off_the_end(rt: HostRuntime) {
    expect_runs(
        &rt,
        0,
        "minimate,check,k5/6/2K3/6/6/1R4 w|c4c5{a6a5:b1a1#};|yes 3;",
    );
    expect_runs(
        &rt,
        1,
        "minimate,check,k5/6/2K3/6/6/1R4 w|c4c5{a6a5:b1a1#};;|refused: Grammar at offset 16;
minimate,check,k5/6/2K3/6/6/1R4 w|;c4c5#|refused: Grammar at offset 0;
minimate,check,k5/6/2K3/6/6/1R4 w|;|refused: Grammar at offset 0;
minimate,check,k5/6/2K3/6/6/1R4 w||refused: Grammar at offset 0;",
    );
}

// Bare kings mate nobody.
#[test]
fn searches_to_the_greatest_limit(rt: HostRuntime) {
    expect_runs(
        &rt,
        0,
        "minimate,solve,--limit,63,--slots,65521,k4/5/5/5/4K w||none within 63;
minimate,tree,--limit,63,--slots,65521,k4/5/5/5/4K w||none within 63;
minimate,solve,--limit,63,k5/6/2K3/6/6/1R4 w||mate 3 c4c5;
minimate,tree,--goal,mate,--limit,63,k5/6/2K3/6/6/1R4 w||c4c5{a6a5:b1a1#};",
    );
}

#[test]
fn lists_moves_in_order(rt: HostRuntime) {
    expect_runs(
        &rt,
        0,
        "minimate,moves,rnqknr/pppppp/6/6/PPPPPP/RNQKNR w||b1a3;b1c3;e1d3;e1f3;a2a3;b2b3;c2c3;d2d3;e2e3;f2f3;
minimate,moves,rnbqk/ppppp/5/PPPPP/RNBQK w||b1a3;b1c3;a2a3;b2b3;c2c3;d2d3;e2e3;
minimate,moves,k5/2P3/6/6/6/5K w||f1e1;f1e2;f1f2;c5c6q;c5c6r;c5c6n;
minimate,moves,k4/2P2/1K3/5/5 w||b3a2;b3b2;b3c2;b3a3;b3c3;c4c5q;c4c5r;c4c5b;c4c5n;
minimate,moves,k5/2Q3/6/6/6/5K b||",
    );
}

#[test]
fn draws_the_board(rt: HostRuntime) {
    let los_alamos = " 6  k . . . . .
 5  . . . . . .
 4  . K . . . .
 3  . . . . . .
 2  . . . . . .
 1  . . . . . R
    a b c d e f      White to move
";
    let words = ["minimate", "show", "k5/6/1K4/6/6/5R w"];
    expect_with(&rt, &words, b"", 0, los_alamos);
    let gardner = " 5  r n b q k
 4  . . p . p
 3  P P . p .
 2  . . . P P
 1  K Q B N R
    a b c d e      Black to move
";
    let words = ["minimate", "show", "rnbqk/2p1p/PP1p1/3PP/KQBNR b"];
    expect_with(&rt, &words, b"", 0, gardner);
}

// Each command that searches answers as it does without a sign of life.
#[test]
fn answers_beside_a_sign(rt: HostRuntime) {
    expect_runs(
        &rt,
        0,
        "minimate,solve,--progress,--limit,3,k5/6/2K3/6/6/1R4 w||mate 3 c4c5;
minimate,keys,--limit,1,k4/2P2/1K3/5/5 w,--progress||c4c5q 1;c4c5r 1;
minimate,tree,--limit,3,--progress,k5/6/2K3/6/6/1R4 w||c4c5{a6a5:b1a1#};
minimate,batch,--progress,--limit,2|k5/6/2K3/6/6/1R4 w;# two;k5/6/1K4/6/6/5R w|none within 2;# two;mate 1 f1f6;",
    );
}
