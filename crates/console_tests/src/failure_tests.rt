//! Readers and writers that fail, that take little, or that are not to be asked.
ghost use Rattle.std.specs.Prelude.{◌≡◌, None, Some};

use crate::whole_runs::{run, run_quietly, words_of};
use devices::{Counted, Failed, Sink, Source};
use std::process::Abort;
use std::sync::Wait;
use std::thread::Threads;
use std::time::Clock;
use verdicts::Input;

const START_MOVES: &str = "b1a3\nb1c3\ne1d3\ne1f3\na2a3\nb2b3\nc2c3\nd2d3\ne2e3\nf2f3\n";

/// A reader that gives `left` of its bytes, and then fails.
#[derive(Drop)]
struct Breaking<'a> {
    bytes: &'a [u8],
    left: usize,
    failures: u64,
}

impl Source for Breaking<'_> {
    ghost remaining = { λ reader. Some reader.bytes.now };

    ghost failures = { λ reader. reader.failures };

    fn read(&mut self, buffer: &mut [u8]) -> Result<usize, Failed> {
        if self.left == 0 {
            self.failures += 1;
            return Err(Failed);
        }
        let most = self.left.min(buffer.len()).min(self.bytes.len());
        let (given, rest) = self.bytes.split_at(most);
        buffer[..most].copy_from_slice(given);
        self.bytes = rest;
        self.left -= most;
        Ok(most)
    }
}

impl Input for Breaking<'_> {
    fn beginning(&self) -> &[u8] {
        b""
    }
}

/// A writer that takes at most `most` bytes a call, and `left` in all, and then fails.
#[derive(Drop)]
struct Dripping {
    taken: Vec<u8>,
    most: usize,
    left: usize,
    failures: u64,
}

impl Dripping {
    fn new<R: AllocGlobal>(rt: &R, most: usize, left: usize) -> Dripping
        ensures { result.failures ≡ 0 }
    {
        Dripping {
            taken: Vec::new(rt.alloc()),
            most,
            left,
            failures: 0,
        }
    }
}

impl Sink for Dripping {
    ghost contents = { λ writer. Some writer.taken.items };

    ghost failures = { λ writer. writer.failures };

    fn write(&mut self, bytes: &[u8]) -> Result<usize, Failed> {
        let count = self.left.min(self.most).min(bytes.len());
        if count == 0 || self.taken.extend_from_slice(&bytes[..count]).is_err() {
            self.failures += 1;
            return Err(Failed);
        }
        self.left -= count;
        Ok(count)
    }
}

/// A writer that takes `left` writes, each whole, and then fails.
#[derive(Drop)]
struct Closing {
    taken: Vec<u8>,
    left: usize,
    failures: u64,
}

impl Sink for Closing {
    ghost contents = { λ writer. Some writer.taken.items };

    ghost failures = { λ writer. writer.failures };

    fn write(&mut self, bytes: &[u8]) -> Result<usize, Failed> {
        if self.left == 0 || self.taken.extend_from_slice(bytes).is_err() {
            self.failures += 1;
            return Err(Failed);
        }
        self.left -= 1;
        Ok(bytes.len())
    }
}

/// A writer that takes no byte and reports no error.
#[derive(Drop)]
struct Deaf;

impl std::io::Write for Deaf {
    ghost contents = { λ _. None };

    fn write(&mut self, _bytes: &[u8]) -> std::io::Result<usize> {
        Ok(0)
    }

    fn flush(&mut self) -> std::io::Result<()> {
        Ok(())
    }
}

/// Runs the words between the commas over an input, and expects that the writer fails once and has taken so much.
fn expect_taken<R: Threads + Wait + Abort + AllocGlobal + Eprint + Clock + Sync>(
    rt: &R,
    words: &str,
    input: &[u8],
    left: usize,
    taken: &[u8],
) {
    let words = words_of(rt, words);
    let mut reader = Counted::new(input);
    let mut writer = Dripping::new(rt, 100, left);
    let status = run_quietly(rt, words.as_slice(), &mut reader, &mut writer);
    assert_eq!(rt; (status, writer.failures), (4, 1));
    assert_eq!(rt; writer.taken.as_slice(), taken);
}

#[test]
fn stops_at_a_failed_write(rt: HostRuntime) {
    let solve = "minimate,solve,--limit,1,k5/6/1K4/6/6/5R w";
    expect_taken(&rt, solve, b"", 4, b"mate");
    let two = b"k5/6/1K4/6/6/5R w\nk5/6/1K4/6/6/5R w\n";
    expect_taken(
        &rt,
        "minimate,batch,--limit,1",
        two,
        16,
        b"mate 1 f1f6\nmate",
    );
}

#[test]
fn stops_at_a_writer_that_takes_nothing(rt: HostRuntime) {
    let words = ["minimate", "solve", "--limit", "1", "k5/6/1K4/6/6/5R w"];
    let mut reader = Counted::new(b"".as_slice());
    let mut deaf = Counted::new(Deaf);
    let status = run_quietly(&rt, &words, &mut reader, &mut deaf);
    assert_eq!(rt; (status, deaf.failures), (4, 1));
}

#[test]
fn writes_on_where_a_writer_takes_little(rt: HostRuntime) {
    let words = ["minimate", "moves", "rnqknr/pppppp/6/6/PPPPPP/RNQKNR w"];
    let mut reader = Counted::new(b"".as_slice());
    let mut writer = Dripping::new(&rt, 3, 100);
    assert_eq!(rt; run_quietly(&rt, &words, &mut reader, &mut writer), 0);
    assert_eq!(rt; writer.taken.as_slice(), START_MOVES.as_bytes());
}

/// Runs the words between the commas over a reader that gives so many of its bytes and then fails, and expects a status, how often
/// it failed, and an output.
fn expect_read<R: Threads + Wait + Abort + AllocGlobal + Eprint + Clock + Sync>(
    rt: &R,
    words: &str,
    (bytes, left): (&[u8], usize),
    (status, failures): (u8, u64),
    output: &str,
) {
    let words = words_of(rt, words);
    let mut reader = Breaking {
        bytes,
        left,
        failures: 0,
    };
    let mut writer = Counted::new(Vec::new(rt.alloc()));
    let answered = run_quietly(rt, words.as_slice(), &mut reader, &mut writer);
    assert_eq!(rt; (answered, reader.failures), (status, failures));
    assert_eq!(rt; writer.device.as_slice(), output.as_bytes());
}

#[test]
fn stops_at_a_failed_read(rt: HostRuntime) {
    let tree = b"c4c5{a6a5:b1a1#}".as_slice();
    for left in [0, 3, 16] {
        let check = "minimate,check,k5/6/2K3/6/6/1R4 w";
        expect_read(&rt, check, (tree, left), (4, 1), "");
    }
}

#[test]
fn keeps_the_replies_before_a_failed_read(rt: HostRuntime) {
    let two = b"k5/6/1K4/6/6/5R w\nk5/6/1K4/6/6/5R w\n".as_slice();
    expect_read(
        &rt,
        "minimate,batch,--limit,1",
        (two, 30),
        (4, 1),
        "mate 1 f1f6\n",
    );
    for (left, output) in [(10, ""), (30, ""), (36, "mate 1 f1f6\n")] {
        let skipping = "minimate,batch,--limit,1,--skip,1";
        expect_read(&rt, skipping, (two, left), (4, 1), output);
    }
}

/// Runs the words between the commas over an input that breaks off behind so many bytes and an output that takes so many, and expects
/// status 4 and what standard error is told.
fn expect_told<R: Threads + Wait + Abort + AllocGlobal + Eprint + Clock + Sync>(
    rt: &R,
    words: &str,
    (bytes, left): (&[u8], usize),
    taken: usize,
    sentence: &str,
) {
    let words = words_of(rt, words);
    let mut reader = Breaking {
        bytes,
        left,
        failures: 0,
    };
    let mut writer = Dripping::new(rt, 100, taken);
    let mut errors = Vec::new(rt.alloc());
    let status = run(rt, words.as_slice(), &mut reader, &mut writer, &mut errors);
    assert_eq!(rt; status, 4);
    assert_eq!(rt; errors.as_slice(), sentence.as_bytes());
}

const UNWRITTEN: &str = "error: the output could not be written to its end\n";

const UNREAD: &str = "error: the input could not be read to its end\n";

// The headline is written first, and then each key as soon as its lines are made.
#[test]
fn writes_a_solution_key_by_key(rt: HostRuntime) {
    let words = words_of(&rt, "minimate,solution,--limit,1,k4/2P2/1K3/5/5 w");
    for (left, output) in [
        (0, ""),
        (1, "mate in 1, cooked by 1 key\n"),
        (2, "mate in 1, cooked by 1 key\n1.c5=Q#!\n"),
    ] {
        let mut reader = Counted::new(b"".as_slice());
        let mut writer = Closing {
            taken: Vec::new(rt.alloc()),
            left,
            failures: 0,
        };
        let status = run_quietly(&rt, words.as_slice(), &mut reader, &mut writer);
        assert_eq!(rt; (status, writer.failures), (4, 1));
        assert_eq!(rt; writer.taken.as_slice(), output.as_bytes());
    }
}

// Of a full disk one sentence is told, and none on what could not be written.
#[test]
fn tells_of_a_failed_write(rt: HostRuntime) {
    for words in [
        "minimate,solve,--limit,1,k5/6/1K4/6/6/5R w",
        "minimate,solution,--limit,1,k5/6/1K4/6/6/5R w",
        "minimate,certify,--limit,1,k5/6/1K4/6/6/5R w",
        "minimate,tree,--limit,3,--first,f1f2,k5/6/1K4/6/6/5R w",
        "minimate,after,k5/6/1K4/6/6/5R w,f1f6",
        "minimate,moves,k5 w",
        "minimate,after,k5/6/1K4/6/6/5R w,f1a2",
    ] {
        expect_told(&rt, words, (b"", 0), 4, UNWRITTEN);
    }
    let one = b"k5/6/1K4/6/6/5R w\n".as_slice();
    expect_told(&rt, "minimate,batch,--limit,1", (one, 18), 4, UNWRITTEN);
    let certificate = b"mate 1 f1f6\nj\n\n".as_slice();
    let verify = "minimate,verify,k5/6/1K4/6/6/5R w";
    expect_told(&rt, verify, (certificate, 16), 4, UNWRITTEN);
}

#[test]
fn tells_of_a_failed_read(rt: HostRuntime) {
    for words in [
        "minimate,check,k5/6/1K4/6/6/5R w",
        "minimate,verify,k5/6/1K4/6/6/5R w",
        "minimate,batch,--limit,1",
        "minimate,batch,--limit,1,--skip,2",
    ] {
        expect_told(&rt, words, (b"f1f", 2), 100, UNREAD);
    }
}

#[test]
fn asks_the_reader_for_nothing(rt: HostRuntime) {
    for (words, status, output) in [
        (
            "minimate,solve,--limit,1,k5/6/1K4/6/6/5R w",
            0,
            "mate 1 f1f6\n",
        ),
        ("minimate,tree,--limit,1,k5/6/1K4/6/6/5R w", 0, "f1f6#\n"),
        (
            "minimate,moves,rnqknr/pppppp/6/6/PPPPPP/RNQKNR w",
            0,
            START_MOVES,
        ),
        ("minimate,show,k5 w", 1, "refused: Shape\n"),
        (
            "minimate,check,k4R/6/1K4/6/6/6 w",
            1,
            "refused: OtherInCheck\n",
        ),
        ("minimate,check,--goal,x,k5/6/1K4/6/6/5R w", 2, ""),
    ] {
        expect_read(&rt, words, (b"", 0), (status, 0), output);
    }
}
