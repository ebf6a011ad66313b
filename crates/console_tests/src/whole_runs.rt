//! Whole runs over devices in memory, as the tests expect them, and tables of them.
ghost use Rattle.std.specs.Prelude.{◌<◌};

use devices::{Counted, Sink, Source};
use std::io::Write;
use std::process::Abort;
use std::sync::Wait;
use std::thread::Threads;
use std::time::Clock;
use verdicts::Input;

/// Runs the words by the program that answers their command, as the launcher does.
pub fn run<
    R: Threads + Wait + AllocGlobal + Eprint + Clock + Sync,
    S: Source + Input,
    K: Sink,
    E: Write,
>(rt: &R, words: &[&str], reader: &mut S, writer: &mut K, errors: &mut E) -> u8
    requires reads { S.failures reader.old < u64.MAX }
    requires writes { K.failures writer.old < u64.MAX }
{
    match words.get(1) {
        Some(word) if *word == "verify" => verdicts::run(rt, words, reader, writer, errors),
        Some(word) if matches!(*word, "solution" | "certify" | "show") => {
            composing::run(rt, words, writer, errors)
        }
        Some(word) if *word == "batch" => batches::run(rt, words, reader, writer, errors),
        _ => console::run(rt, words, reader, writer, errors),
    }
}

/// Runs the words, whatever standard error is told.
pub fn run_quietly<
    R: Threads + Wait + AllocGlobal + Eprint + Clock + Sync,
    S: Source + Input,
    K: Sink,
>(rt: &R, words: &[&str], reader: &mut S, writer: &mut K) -> u8
    requires reads { S.failures reader.old < u64.MAX }
    requires writes { K.failures writer.old < u64.MAX }
{
    run(rt, words, reader, writer, &mut Vec::new(rt.alloc()))
}

/// Runs the words over an input, and expects a status and an output.
pub fn expect_with<R: Threads + Wait + Abort + AllocGlobal + Eprint + Clock + Sync>(
    rt: &R,
    words: &[&str],
    input: &[u8],
    status: u8,
    output: &str,
) {
    let mut reader = Counted::new(input);
    let mut writer = Counted::new(Vec::new(rt.alloc()));
    let answered = run_quietly(rt, words, &mut reader, &mut writer);
    assert_eq!(rt; answered, status);
    assert_eq!(rt; writer.device.as_slice(), output.as_bytes());
}

/// The words between the commas.
pub fn words_of<'a, R: Abort + AllocGlobal>(rt: &R, words: &'a str) -> Vec<&'a str> {
    let mut all = Vec::new(rt.alloc());
    for word in words.split(',') {
        all.push(word).expect(rt, "memory");
    }
    all
}

/// Runs the words of a row over its input, and expects the status and the row's output. A semicolon is a line feed.
fn expect_row<R: Threads + Wait + Abort + AllocGlobal + Eprint + Clock + Sync>(
    rt: &R,
    words: &str,
    input: &str,
    status: u8,
    output: &str,
) {
    let words = words_of(rt, words);
    let input = input.replace(rt.alloc(), ';', "\n").expect(rt, "memory");
    let output = output.replace(rt.alloc(), ';', "\n").expect(rt, "memory");
    expect_with(
        rt,
        words.as_slice(),
        input.as_bytes(),
        status,
        output.as_str(),
    );
}

/// Runs each row of a table, `WORD,WORD,..|INPUT|OUTPUT`, and expects the status and its output. A semicolon is a line feed.
pub fn expect_runs<R: Threads + Wait + Abort + AllocGlobal + Eprint + Clock + Sync>(
    rt: &R,
    status: u8,
    table: &str,
) {
    for row in table.lines() {
        let (words, rest) = row.split_once('|').expect(rt, "an input");
        let (input, output) = rest.split_once('|').expect(rt, "an output");
        expect_row(rt, words, input, status, output);
    }
}
