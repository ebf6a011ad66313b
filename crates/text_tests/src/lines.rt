//! The line of some words, and words that mean none.
use command_line::{Action, Drawing, Limits, LineFault, Order, asks_progress, matches, read_order};
use moves::Goal;
use std::process::Abort;

const FEN: &str = "k5/6/1K4/6/6/5R w";

/// Expects the words to mean a command at the position of `FEN`.
fn expect_action<R: Abort + AllocGlobal>(rt: &R, words: &[&str], action: Action) {
    match read_order(rt.alloc(), words) {
        Ok(Order::One(line)) => {
            assert_eq!(rt; line.fen, FEN.as_bytes());
            assert!(rt; line.action == action);
        }
        _ => panic!(rt; "no command at a position"),
    }
}

/// Expects the words to mean no line.
fn expect_none<R: Abort + AllocGlobal>(rt: &R, words: &[&str]) {
    match read_order(rt.alloc(), words) {
        Err(LineFault::Words) => {}
        _ => panic!(rt; "a line, or no memory"),
    }
}

/// Expects the words to mean this drawing of the position of `FEN`.
fn expect_drawing<R: Abort + AllocGlobal>(rt: &R, words: &[&str], drawing: Drawing) {
    match read_order(rt.alloc(), words) {
        Ok(Order::Show(fen, asked)) => {
            assert_eq!(rt; fen, FEN.as_bytes());
            assert!(rt; asked == drawing);
        }
        _ => panic!(rt; "no drawing"),
    }
}

#[test]
fn shows_as_it_is_asked(rt: HostRuntime) {
    let plain = Drawing {
        svg: false,
        unicode: false,
        black: false,
    };
    expect_drawing(&rt, &["minimate", "show", FEN], plain);
    let turned = Drawing {
        unicode: true,
        black: true,
        ..plain
    };
    let words = ["minimate", "show", "--black", "--unicode", FEN];
    expect_drawing(&rt, &words, turned);
    let picture = Drawing { svg: true, ..plain };
    let words = ["minimate", "show", "--svg", FEN];
    expect_drawing(&rt, &words, picture);
}

#[test]
fn reads_each_command(rt: HostRuntime) {
    let least = Limits {
        limit: 1,
        workers: 2,
        slots: 64,
    };
    let solve = ["minimate", "solve", "--limit", "1", FEN];
    expect_action(&rt, &solve, Action::Solve(Goal::Mate, least));
    let all = [
        "minimate",
        "solve",
        "--workers",
        "0",
        FEN,
        "--slots",
        "7",
        "--goal=stale",
        "--limit=4294967295",
    ];
    let greatest = Limits {
        limit: 4_294_967_295,
        workers: 0,
        slots: 7,
    };
    expect_action(&rt, &all, Action::Solve(Goal::MateOrStale, greatest));
    expect_action(&rt, &["minimate", "moves", FEN], Action::Moves);
    let tree = ["minimate", "tree", "--limit", "1", FEN];
    expect_action(&rt, &tree, Action::Tree(Goal::Mate, least));
    let keys = ["minimate", "keys", "--goal", "stale", "--limit", "1", FEN];
    expect_action(&rt, &keys, Action::Keys(Goal::MateOrStale, least));
    expect_action(&rt, &["minimate", "check", FEN], Action::Check(Goal::Mate));
    let stale = ["minimate", "check", "--goal", "stale", FEN];
    expect_action(&rt, &stale, Action::Check(Goal::MateOrStale));
}

#[test]
fn reads_a_batch(rt: HostRuntime) {
    let words = ["minimate", "batch", "--goal", "stale", "--limit", "5"];
    match read_order(rt.alloc(), &words) {
        Ok(Order::Batch(goal, limits, manner)) => {
            assert!(rt; goal == Goal::MateOrStale);
            assert_eq!(rt; limits.limit, 5);
            assert_eq!(rt; limits.slots, 64);
            assert!(rt; !manner.echo && manner.lines.is_none() && manner.skip.is_none());
        }
        _ => panic!(rt; "no batch"),
    }
    let told = [
        "minimate",
        "batch",
        "--echo",
        "--mate",
        "3",
        "--lines",
        "1500",
        "--skip=93",
    ];
    match read_order(rt.alloc(), &told) {
        Ok(Order::Batch(_, limits, manner)) => {
            assert_eq!(rt; limits.limit, 5);
            assert!(rt; manner.echo && !manner.keys && !manner.json);
            assert_eq!(rt; manner.lines, Some(1500));
            assert_eq!(rt; manner.skip, Some(93));
        }
        _ => panic!(rt; "no batch"),
    }
    let written = ["minimate", "batch", "--keys", "--json", "--limit", "5"];
    match read_order(rt.alloc(), &written) {
        Ok(Order::Batch(_, _, manner)) => {
            assert!(rt; manner.keys && manner.json && !manner.echo);
        }
        _ => panic!(rt; "no batch"),
    }
    expect_none(&rt, &["minimate", "solve", "--echo", "--limit", "5", FEN]);
    expect_none(
        &rt,
        &["minimate", "batch", "--limit", "5", "--lines", "many"],
    );
    for number in ["x", "", "-1", "4294967296"] {
        let words = ["minimate", "batch", "--limit", "5", "--skip", number];
        expect_none(&rt, &words);
    }
    let solve = ["minimate", "solve", "--skip", "1", "--limit", "5", FEN];
    expect_none(&rt, &solve);
}

#[test]
fn reads_a_move(rt: HostRuntime) {
    match read_order(rt.alloc(), &["minimate", "after", FEN, "f1f6"]) {
        Ok(Order::After(played)) => {
            assert_eq!(rt; played.fen, FEN.as_bytes());
            assert_eq!(rt; played.name, b"f1f6".as_slice());
        }
        _ => panic!(rt; "no move"),
    }
}

#[test]
fn reads_a_first_move(rt: HostRuntime) {
    let words = [
        "minimate", "tree", "--first", "f1f2", "--goal", "stale", "--limit", "3", FEN,
    ];
    match read_order(rt.alloc(), &words) {
        Ok(Order::TreeAfter(played, goal, limits)) => {
            assert_eq!(rt; played.fen, FEN.as_bytes());
            assert_eq!(rt; played.name, b"f1f2".as_slice());
            assert!(rt; goal == Goal::MateOrStale);
            assert_eq!(rt; limits.limit, 3);
        }
        _ => panic!(rt; "no first move"),
    }
    expect_none(&rt, &["minimate", "tree", "--first", "f1f2", FEN]);
    expect_none(
        &rt,
        &["minimate", "keys", "--first", "f1f2", "--limit", "3", FEN],
    );
}

#[test]
fn reads_a_solution(rt: HostRuntime) {
    let words = [
        "minimate",
        "solution",
        "--mate",
        "2",
        FEN,
        "--tries",
        "--figurines",
        "--json",
    ];
    match read_order(rt.alloc(), &words) {
        Ok(Order::Solution(subject, limits, telling)) => {
            assert_eq!(rt; subject.fen, FEN.as_bytes());
            assert!(rt; subject.goal == Goal::Mate);
            assert_eq!(rt; limits.limit, 3);
            assert!(rt; telling.tries && telling.figurines && telling.json);
            assert!(rt; !telling.set_play && !telling.short && !telling.svg);
            assert!(rt; telling.first.is_none());
        }
        _ => panic!(rt; "no solution"),
    }
    let words = [
        "minimate", "solution", "--mate", "2", "--svg", "--first", "c4c5", FEN,
    ];
    match read_order(rt.alloc(), &words) {
        Ok(Order::Solution(_, _, telling)) => {
            assert!(rt; telling.svg && !telling.json);
            assert_eq!(rt; telling.first, Some(b"c4c5".as_slice()));
        }
        _ => panic!(rt; "no solution"),
    }
    expect_none(&rt, &["minimate", "solution", "--set", FEN]);
    expect_none(&rt, &["minimate", "solve", "--set", "--limit", "1", FEN]);
}

#[test]
fn refuses_what_is_no_line(rt: HostRuntime) {
    expect_none(&rt, &["minimate", "solve", FEN]);
    expect_none(&rt, &["minimate", "solve", "--limit", "4294967296", FEN]);
    expect_none(&rt, &["minimate", "keys", FEN]);
    expect_none(&rt, &["minimate", "check", "--goal", "Mate", FEN]);
    expect_none(&rt, &["minimate", "moves"]);
    expect_none(&rt, &["minimate", "show"]);
    expect_none(&rt, &["minimate", "batch"]);
    expect_none(&rt, &["minimate", "batch", "--limit", "1", FEN]);
    expect_none(&rt, &["minimate", "moves", "--progress", FEN]);
    expect_none(&rt, &["minimate", "show", "--progress", FEN]);
    expect_none(&rt, &["minimate", "check", FEN, "--progress"]);
    let twice = ["minimate", "batch", "--progress", "--limit=1", "--progress"];
    expect_none(&rt, &twice);
    expect_none(
        &rt,
        &["minimate", "solve", "--progress=yes", "--limit=1", FEN],
    );
    expect_none(&rt, &["minimate", "show", "--goal", "mate", FEN]);
    expect_none(&rt, &["minimate", "moves", FEN, "x"]);
    expect_none(&rt, &["minimate", "--version"]);
    expect_none(&rt, &["minimate", "--help"]);
    expect_none(&rt, &["minimate", "moves", "--help"]);
}

// The parser takes any word for a goal, and refuses an option that a command doesn't have.
#[test]
fn tells_what_the_parser_refuses(rt: HostRuntime) {
    let any_goal = ["minimate", "check", "--goal", "x", FEN];
    assert!(rt; matches(rt.alloc(), any_goal.as_slice()).is_ok());
    let foreign = ["minimate", "moves", "--goal", "mate", FEN];
    assert!(rt; matches(rt.alloc(), foreign.as_slice()).is_err());
}

#[test]
fn hears_of_a_sign_of_life(rt: HostRuntime) {
    let least = Limits {
        limit: 1,
        workers: 2,
        slots: 64,
    };
    let asked = ["minimate", "solve", FEN, "--progress", "--limit", "1"];
    expect_action(&rt, &asked, Action::Solve(Goal::Mate, least));
    assert!(rt; asks_progress(asked.as_slice()));
    let first = ["minimate", "keys", "--progress", "--limit", "1", FEN];
    expect_action(&rt, &first, Action::Keys(Goal::Mate, least));
    assert!(rt; asks_progress(first.as_slice()));
    let unasked = ["minimate", "tree", "--limit", "1", FEN];
    assert!(rt; !asks_progress(unasked.as_slice()));
}
