//! Certificates on the input, made by hand. Their letters are places among lawful moves.
use crate::whole_runs::{expect_with, run};
use devices::Counted;
use std::process::Abort;
use std::sync::Wait;
use std::thread::Threads;
use std::time::Clock;
use verdicts::Keeping;

// White's king comes to c5, the move p; Black's has a5 alone, and the rook mates on a1. The moves before it are a to o; i, the rook's
// to b5, stalemates, and each other has a first reply that escapes.
const ROOK: &str = "k5/6/2K3/6/6/1R4 w";

const MATE: &[u8] = b"mate 3 c4c5\np.\naaaaaaaa-aaaaaa\n\n";

#[test]
fn answers_what_a_certificate_proves(rt: HostRuntime) {
    let words = ["minimate", "verify", ROOK];
    expect_with(&rt, &words, MATE, 0, "mate 3 c4c5\n");
    expect_with(&rt, &words, b"none within 2\n\n", 0, "none within 2\n");
    let stale = ["minimate", "verify", ROOK, "--goal", "stale"];
    expect_with(&rt, &stale, b"goal 1 b1b5\ni\n\n", 0, "goal 1 b1b5\n");
}

#[test]
fn refuses_what_proves_nothing(rt: HostRuntime) {
    let words = ["minimate", "verify", ROOK];
    let long = [b'a'; 8193];
    for (text, output) in [
        (b"".as_slice(), "refused: Answer\n"),
        (b"goal 1 b1b5\ni\n\n", "refused: Answer\n"),
        (b"mate 3 c4c6\np.\n", "refused: Claim at line 2\n"),
        (
            b"none within 3\naaaaaaaa-aaaaaaaa\n",
            "refused: Claim at line 2\n",
        ),
        (
            b"mate 3 c4c5\np.\naaaaaaaa-aaaaaa\n\n\n",
            "refused: Claim at line 5\n",
        ),
        (&long, "refused: TooLong\n"),
    ] {
        expect_with(&rt, &words, text, 1, output);
    }
    let other_position = ["minimate", "verify", "k5/6/6/6/6/5K w"];
    expect_with(&rt, &other_position, MATE, 1, "refused: Claim at line 2\n");
    let no_position = ["minimate", "verify", "k5 w"];
    expect_with(&rt, &no_position, MATE, 1, "refused: Shape\n");
}

// A line has at most 8,192 bytes before its feed, whether a feed or the end of the input ends it.
#[test]
fn reads_a_first_line_of_the_most_bytes(rt: HostRuntime) {
    let words = ["minimate", "verify", ROOK];
    for (count, output) in [(8192, "refused: Answer\n"), (8193, "refused: TooLong\n")] {
        let mut text = Vec::new(rt.alloc());
        for _ in 0..count {
            text.push(b'a').expect(&rt, "memory");
        }
        expect_with(&rt, &words, text.as_slice(), 1, output);
        text.push(b'\n').expect(&rt, "memory");
        expect_with(&rt, &words, text.as_slice(), 1, output);
    }
}

#[test]
fn writes_certificates(rt: HostRuntime) {
    let stale = [
        "minimate", "certify", "--limit", "3", "--goal", "stale", ROOK,
    ];
    expect_with(&rt, &stale, b"", 0, "goal 1 b1b5\ni\n\n");
    let none = ["minimate", "certify", "--limit", "2", ROOK];
    expect_with(&rt, &none, b"", 0, "none within 2\n\n");
    let limit = ["minimate", "certify", "--limit", "64", ROOK];
    expect_with(&rt, &limit, b"", 1, "refused: Limit\n");
    let no_position = ["minimate", "certify", "--limit", "64", "k5 w"];
    expect_with(&rt, &no_position, b"", 1, "refused: Shape\n");
}

/// Expects a certificate to be refused for its first line, and what standard error is told.
fn expect_sentence<R: Threads + Wait + Abort + AllocGlobal + Eprint + Clock + Sync>(
    rt: &R,
    words: &[&str],
    text: &[u8],
    sentence: &str,
) {
    let mut reader = Keeping::new(Counted::new(text));
    let mut writer = Counted::new(Vec::new(rt.alloc()));
    let mut errors = Vec::new(rt.alloc());
    let status = run(rt, words, &mut reader, &mut writer, &mut errors);
    assert_eq!(rt; status, 1);
    assert_eq!(rt; writer.device.as_slice(), b"refused: Answer\n".as_slice());
    let wanted = format!(in rt.alloc(); "error: {sentence}\n").expect(rt, "memory");
    assert_eq!(rt; errors.as_slice(), wanted.as_bytes());
}

// What is to be changed is told of each first line that is none: the goal, the ends of the lines, or the line.
#[test]
fn explains_first_lines(rt: HostRuntime) {
    let mate = ["minimate", "verify", ROOK];
    for (text, sentence) in [
        (
            b"goal 1 b1b5\ni\n\n".as_slice(),
            "the first line is an answer for the other goal: add --goal stale",
        ),
        (
            b"mate 3 c4c5\r\np.\r\naaaaaaaa-aaaaaa\r\n\r\n",
            "the first line ends with a carriage return: end each line with a line feed only",
        ),
        (
            b"mate 3 c4c5",
            "the first line has no line feed: write one after it",
        ),
        (
            b"mate 2 c4c5\n",
            "the first line is no answer: write it as `solve` prints it for this goal, as mate 3 c4c5",
        ),
        (
            b"",
            "the first line is no answer: write it as `solve` prints it for this goal, as mate 3 c4c5",
        ),
    ] {
        expect_sentence(&rt, &mate, text, sentence);
    }
    let stale = ["minimate", "verify", "--goal", "stale", ROOK];
    for (text, sentence) in [
        (
            MATE,
            "the first line is an answer for the other goal: leave out --goal stale",
        ),
        (
            b"goal 1\n",
            "the first line is no answer: write it as `solve` prints it for this goal, as goal 1 b1b5",
        ),
    ] {
        expect_sentence(&rt, &stale, text, sentence);
    }
}

/// Expects a program to do nothing for words that are another's.
fn expect_nothing<R: Abort>(rt: &R, status: u8, written: &[u8], told: &[u8]) {
    assert_eq!(rt; status, 2);
    assert_eq!(rt; written, b"".as_slice());
    assert_eq!(rt; told, b"".as_slice());
}

// Of a certificate 64 bytes are kept. A line that fills them may have its feed behind them, so that its feed isn't said to be missing.
#[test]
fn explains_a_first_line_of_the_most_kept_bytes(rt: HostRuntime) {
    let words = ["minimate", "verify", ROOK];
    let line = [b'a'; 65];
    let no_feed = "the first line has no line feed: write one after it";
    let no_answer =
        "the first line is no answer: write it as `solve` prints it for this goal, as mate 3 c4c5";
    for (count, unfed) in [(63, no_feed), (64, no_answer), (65, no_answer)] {
        let mut text = Vec::new(rt.alloc());
        text.extend_from_slice(&line[..count]).expect(&rt, "memory");
        expect_sentence(&rt, &words, text.as_slice(), unfed);
        text.push(b'\n').expect(&rt, "memory");
        expect_sentence(&rt, &words, text.as_slice(), no_answer);
    }
}

// Each command is one program's.
#[test]
fn does_nothing_for_another_programs_words(rt: HostRuntime) {
    let verify = ["minimate", "verify", ROOK];
    let solve = ["minimate", "solve", "--limit", "1", ROOK];
    let solution = ["minimate", "solution", "--limit", "1", ROOK];
    let certify = ["minimate", "certify", "--limit", "1", ROOK];
    let batch = ["minimate", "batch", "--limit", "1"];
    for words in [verify.as_slice(), &solution, &certify, &batch] {
        let mut reader = Counted::new(MATE);
        let mut writer = Counted::new(Vec::new(rt.alloc()));
        let mut errors = Vec::new(rt.alloc());
        let status = console::run(&rt, words, &mut reader, &mut writer, &mut errors);
        expect_nothing(&rt, status, writer.device.as_slice(), errors.as_slice());
    }
    for words in [solve.as_slice(), &verify, &solution, &certify] {
        let mut reader = Counted::new(MATE);
        let mut writer = Counted::new(Vec::new(rt.alloc()));
        let mut errors = Vec::new(rt.alloc());
        let status = batches::run(&rt, words, &mut reader, &mut writer, &mut errors);
        expect_nothing(&rt, status, writer.device.as_slice(), errors.as_slice());
    }
    for words in [solve.as_slice(), &solution, &certify, &batch] {
        let mut reader = Counted::new(MATE);
        let mut writer = Counted::new(Vec::new(rt.alloc()));
        let mut errors = Vec::new(rt.alloc());
        let status = verdicts::run(&rt, words, &mut reader, &mut writer, &mut errors);
        expect_nothing(&rt, status, writer.device.as_slice(), errors.as_slice());
    }
    for words in [solve.as_slice(), &verify, &batch] {
        let mut writer = Counted::new(Vec::new(rt.alloc()));
        let mut errors = Vec::new(rt.alloc());
        let status = composing::run(&rt, words, &mut writer, &mut errors);
        expect_nothing(&rt, status, writer.device.as_slice(), errors.as_slice());
    }
}
