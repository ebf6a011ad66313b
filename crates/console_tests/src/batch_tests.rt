//! Batches: each line of the input has its reply.
ghost use Rattle.std.specs.Prelude.{None};

use crate::whole_runs::{expect_runs, expect_with, run};
use devices::{Counted, Failed, Source};
use std::process::Abort;
use std::sync::Wait;
use std::thread::{Parker, Threads};
use std::time::{Clock, Duration};
use verdicts::Input;

#[test]
fn answers_a_batch(rt: HostRuntime) {
    expect_runs(
        &rt,
        0,
        "minimate,batch,--limit,3|k5/6/2K3/6/6/1R4 w;k5/6/1K4/6/6/5R w;5r/6/6/1k4/6/K5 b;|mate 3 c4c5;mate 1 f1f6;mate 1 f6f1;
minimate,batch,--limit,3||
minimate,batch,--limit,1|k5/6/2K3/6/6/1R4 w|none within 1;
minimate,batch,--limit,1|# two lines;;k5/6/1K4/6/6/5R w\r;#\r;|# two lines;;mate 1 f1f6;#;
minimate,batch,--limit,1|k5 w;k5/6/1K4/6/6/5R w;k5/6/1K4/6/6/5R w\r|refused: Shape;mate 1 f1f6;refused: Side;",
    );
    expect_runs(
        &rt,
        1,
        "minimate,batch,--limit,0|k5/6/2K3/6/6/1R4 w;k5/6/1K4/6/6/5R w;5r/6/6/1k4/6/K5 b;|refused: Limit;",
    );
}

// A remark and a line that is too long have no position.
#[test]
fn writes_positions_beside_their_answers(rt: HostRuntime) {
    expect_runs(
        &rt,
        0,
        "minimate,batch,--echo,--limit,3|k5/6/2K3/6/6/1R4 w;k5/6/1K4/6/6/5R w\r;|k5/6/2K3/6/6/1R4 w\tmate 3 c4c5;k5/6/1K4/6/6/5R w\tmate 1 f1f6;
minimate,batch,--limit,1,--echo|# one;;k5 w;x|# one;;k5 w\trefused: Shape;x\trefused: Fields;",
    );
    let words = ["minimate", "batch", "--limit", "1", "--echo"];
    let input = long_line(&rt, 257, b'x', b"\n#");
    expect_with(&rt, &words, input.as_slice(), 0, "refused: TooLong\n#\n");
}

// Lines that are left out have no reply, whatever they say; the others have theirs, as without the option.
#[test]
fn leaves_lines_out(rt: HostRuntime) {
    expect_runs(
        &rt,
        0,
        "minimate,batch,--limit,3,--skip,0|k5/6/2K3/6/6/1R4 w;k5/6/1K4/6/6/5R w;5r/6/6/1k4/6/K5 b;|mate 3 c4c5;mate 1 f1f6;mate 1 f6f1;
minimate,batch,--limit,3,--skip,1|k5/6/2K3/6/6/1R4 w;k5/6/1K4/6/6/5R w;5r/6/6/1k4/6/K5 b;|mate 1 f1f6;mate 1 f6f1;
minimate,batch,--skip=2,--limit,3|k5/6/2K3/6/6/1R4 w;k5/6/1K4/6/6/5R w;5r/6/6/1k4/6/K5 b|mate 1 f6f1;
minimate,batch,--limit,3,--skip,3|k5/6/2K3/6/6/1R4 w;k5/6/1K4/6/6/5R w;5r/6/6/1k4/6/K5 b;|
minimate,batch,--limit,3,--skip,3|k5/6/2K3/6/6/1R4 w;k5/6/1K4/6/6/5R w;5r/6/6/1k4/6/K5 b|
minimate,batch,--limit,3,--skip,4294967295|k5/6/2K3/6/6/1R4 w;k5/6/1K4/6/6/5R w|
minimate,batch,--limit,3,--skip,4294967295||
minimate,batch,--limit,1,--skip,2|k5 w;x;# three;;k5/6/1K4/6/6/5R w\r;|# three;;mate 1 f1f6;
minimate,batch,--limit,1,--skip,1,--echo|# one;k5 w;|k5 w\trefused: Shape;",
    );
    expect_runs(
        &rt,
        1,
        "minimate,batch,--limit,0,--skip,9|k5/6/2K3/6/6/1R4 w|refused: Limit;",
    );
    let words = ["minimate", "batch", "--limit", "1", "--skip", "1"];
    let input = long_line(&rt, 9000, b'x', b"\nk5/6/1K4/6/6/5R w\n");
    expect_with(&rt, &words, input.as_slice(), 0, "mate 1 f1f6\n");
}

/// The text so many times.
fn repeated<R: Abort + AllocGlobal>(rt: &R, text: &str, count: usize) -> String {
    let mut all = String::new(rt.alloc());
    for _ in 0..count {
        all.push_str(text).expect(rt, "memory");
    }
    all
}

// The lines that one read brings are answered several at once. More stand here than that, with remarks, refusals and a game that is over among them.
#[test]
fn answers_many_lines_as_each_alone(rt: HostRuntime) {
    let lines =
        "k5/6/2K3/6/6/1R4 w\n# two\n\nk5/6/1K4/6/6/5R w ; dm 1\r\nk5 w\n5r/6/6/1k4/6/K5 b\nk5/1Q4/2K3/6/6/6 b\n";
    let told = "mate 3 c4c5\n# two\n\nmate 1 f1f6 ok\nrefused: Shape\nmate 1 f6f1\nnone within 3\n";
    let keys = "none within 1\n# two\n\nf1f6 1 ok\nrefused: Shape\nf6f1 1\nnone within 1\n";
    let input = repeated(&rt, lines, 60);
    let output = repeated(&rt, told, 60);
    let listed = repeated(&rt, keys, 60);
    for workers in ["1", "2", "5", "16"] {
        let words = ["minimate", "batch", "--limit", "3", "--workers", workers];
        expect_batch(&rt, &words, input.as_str(), output.as_str());
        let words = [
            "minimate",
            "batch",
            "--keys",
            "--limit",
            "1",
            "--workers",
            workers,
        ];
        expect_batch(&rt, &words, input.as_str(), listed.as_str());
    }
}

// `c1c5 5,d3c5 5` is the bench's cook; the others are those of `keys`.
#[test]
fn writes_keys_of_a_batch(rt: HostRuntime) {
    expect_runs(
        &rt,
        0,
        "minimate,batch,--keys,--limit,1|k4/2P2/1K3/5/5 w;k5/6/2K3/6/6/1R4 w;# both;|c4c5q 1,c4c5r 1;none within 1;# both;
minimate,batch,--keys,--echo,--limit,3|k5/6/2K3/6/6/1R4 w;k5 w;|k5/6/2K3/6/6/1R4 w\tc4c5 3;k5 w\trefused: Shape;
minimate,batch,--keys,--goal,stale,--limit,1|k5/6/2K3/6/6/1R4 w|b1b5 1;",
    );
}

/// Expects what a batch of these words writes for an input.
fn expect_batch<R: Threads + Wait + Abort + AllocGlobal + Eprint + Clock + Sync>(
    rt: &R,
    words: &[&str],
    input: &str,
    output: &str,
) {
    expect_with(rt, words, input.as_bytes(), 0, output);
}

// A mate in two moves is one in three plies.
#[test]
fn reads_moves_behind_a_position(rt: HostRuntime) {
    let plain = ["minimate", "batch", "--limit", "1"];
    for (input, output) in [
        ("k5/6/2K3/6/6/1R4 w ; dm 2", "mate 3 c4c5 ok\n"),
        ("k5/6/2K3/6/6/1R4 w ; dm 1", "none within 1 differs\n"),
        ("k5/6/1K4/6/6/5R w ; dm 3\r\n", "mate 1 f1f6 differs\n"),
        ("k5/6/1K4/6/6/5R w ; dm 32", "mate 1 f1f6 differs\n"),
        ("k5/6/1K4/6/6/5R w ; dm 1", "mate 1 f1f6 ok\n"),
        ("k5/6/1K4/6/6/5R w ; dm 0", "refused: Limit\n"),
        ("k5/6/1K4/6/6/5R w ; dm 33", "refused: Limit\n"),
        ("k5 w ; dm 33", "refused: Shape\n"),
        ("k5/6/1K4/6/6/5R w; dm 1", "refused: Fields\n"),
        ("k5/6/1K4/6/6/5R w ; dm 01", "refused: Fields\n"),
        ("k5/6/1K4/6/6/5R w ; dm 1;", "refused: Fields\n"),
        ("k5/6/1K4/6/6/5R w ; bm 1", "refused: Fields\n"),
    ] {
        expect_batch(&rt, &plain, input, output);
    }
    let keys = ["minimate", "batch", "--limit", "1", "--keys"];
    let first = "k4/2P2/1K3/5/5 w ; dm 1\nk5/6/2K3/6/6/1R4 w ; dm 1\nk5/6/2K3/6/6/1R4 w ; dm 2\n";
    let found = "c4c5q 1,c4c5r 1 ok\nnone within 1 differs\nc4c5 3 ok\n";
    expect_batch(&rt, &keys, first, found);
    let echo = ["minimate", "batch", "--echo", "--limit", "1"];
    let told = "k5/6/2K3/6/6/1R4 w ; dm 2\tmate 3 c4c5 ok\n";
    expect_batch(&rt, &echo, "k5/6/2K3/6/6/1R4 w ; dm 2", told);
}

// A refusal of the whole batch stands at no line. Lines that are left out keep their numbers.
#[test]
fn writes_objects_of_refused_limits(rt: HostRuntime) {
    let words = ["minimate", "batch", "--json", "--limit", "64"];
    let refused =
        "{\"position\":null,\"refused\":\"Limit\",\"sentence\":\"--limit is 1 to 63 plies: a mate in M moves is --limit 2M-1, or --mate M, 1 to 32\"}\n";
    expect_with(&rt, &words, b"k5/6/2K3/6/6/1R4 w\n", 1, refused);
    let behind = ["minimate", "batch", "--json", "--limit", "1", "--skip", "2"];
    let told =
        "{\"line\":3,\"position\":\"k5/6/1K4/6/6/5R w\",\"goal\":\"mate\",\"limit\":1,\"answer\":\"mate\",\"plies\":1,\"first\":\"f1f6\"}
{\"line\":5,\"position\":\"k5/6/1K4/6/6/5R v\",\"refused\":\"Side\",\"sentence\":\"the side to move is w or b: here is 'v'\"}
";
    let input = "x\n\nk5/6/1K4/6/6/5R w\n# four\nk5/6/1K4/6/6/5R v";
    expect_batch(&rt, &behind, input, told);
}

// Of the bytes that are no UTF-8 each sequence is shown as U+FFFD.
#[test]
fn writes_objects(rt: HostRuntime) {
    let words = ["minimate", "batch", "--json", "--echo", "--limit", "3"];
    for (input, output) in [
        (
            "k5/6/2K3/6/6/1R4 w\n# no\n\nk5/6/6/6/6/5K w\n",
            "{\"line\":1,\"position\":\"k5/6/2K3/6/6/1R4 w\",\"goal\":\"mate\",\"limit\":3,\"answer\":\"mate\",\"plies\":3,\"first\":\"c4c5\"}
{\"line\":4,\"position\":\"k5/6/6/6/6/5K w\",\"goal\":\"mate\",\"limit\":3,\"answer\":\"none\",\"plies\":null,\"first\":null}
",
        ),
        (
            "k5/6/1K4/6/6/5R w ; dm 2",
            "{\"line\":1,\"position\":\"k5/6/1K4/6/6/5R w\",\"goal\":\"mate\",\"limit\":3,\"answer\":\"mate\",\"plies\":1,\"first\":\"f1f6\",\"ok\":false}
",
        ),
        (
            "k5/6/1K4/6/6/5R \"w",
            "{\"line\":1,\"position\":\"k5/6/1K4/6/6/5R \\\"w\",\"refused\":\"Side\",\"sentence\":\"the side to move is w or b: here is '\\\\\\\"w'\"}
",
        ),
        (
            "k5/6/1\u{e9}4/6/6/5R w",
            "{\"line\":1,\"position\":\"k5/6/1\u{e9}4/6/6/5R w\",\"refused\":\"Shape\",\"sentence\":\"character 7 is not ASCII: write a letter, a digit, / or a space for '\\\\xc3\\\\xa9'\"}
",
        ),
    ] {
        expect_batch(&rt, &words, input, output);
    }
    let keys = [
        "minimate", "batch", "--json", "--keys", "--goal", "stale", "--limit", "1",
    ];
    let found =
        "{\"line\":1,\"position\":\"k5/6/2K3/6/6/1R4 w\",\"goal\":\"stale\",\"limit\":1,\"keys\":[{\"first\":\"b1b5\",\"plies\":1}]}
";
    expect_batch(&rt, &keys, "k5/6/2K3/6/6/1R4 w", found);
    let both =
        "{\"line\":1,\"position\":\"k4/2P2/1K3/5/5 w\",\"goal\":\"mate\",\"limit\":1,\"keys\":[{\"first\":\"c4c5q\",\"plies\":1},{\"first\":\"c4c5r\",\"plies\":1}],\"ok\":true}
";
    let mates = ["minimate", "batch", "--json", "--keys", "--limit", "3"];
    expect_batch(&rt, &mates, "k4/2P2/1K3/5/5 w ; dm 1", both);
    let long = long_line(&rt, 257, b'x', b"\n#");
    let told =
        "{\"line\":1,\"position\":null,\"refused\":\"TooLong\",\"sentence\":\"a line has at most 256 bytes\"}\n";
    expect_with(&rt, &words, long.as_slice(), 0, told);
    let broken = b"\xff w".as_slice();
    let shown =
        "{\"line\":1,\"position\":\"\u{fffd} w\",\"refused\":\"Shape\",\"sentence\":\"character 1 is not ASCII: write a letter, a digit, / or a space for '\\\\xff'\"}\n";
    expect_with(&rt, &words, broken, 0, shown);
}

/// So many of a byte, and the rest behind them.
fn long_line<R: Abort + AllocGlobal>(rt: &R, count: usize, byte: u8, rest: &[u8]) -> Vec<u8> {
    let mut bytes = vec![in rt.alloc(); byte; count].expect(rt, "memory");
    bytes.extend_from_slice(rest).expect(rt, "memory");
    bytes
}

#[test]
fn refuses_long_lines_of_a_batch(rt: HostRuntime) {
    let words = ["minimate", "batch", "--limit", "1"];
    let line = b"\nk5/6/1K4/6/6/5R w\n".as_slice();
    for (length, byte, rest, output) in [
        (256, b'x', line, "refused: Fields\nmate 1 f1f6\n"),
        (257, b'x', line, "refused: TooLong\nmate 1 f1f6\n"),
        (9000, b'x', line, "refused: TooLong\nmate 1 f1f6\n"),
        (257, b'#', b"".as_slice(), "refused: TooLong\n"),
    ] {
        let input = long_line(&rt, length, byte, rest);
        expect_with(&rt, &words, input.as_slice(), 0, output);
    }
}

/// An input whose second half comes more than a second after its first.
#[derive(Drop)]
struct Late<'a, R> {
    rt: &'a R,
    halves: [&'a [u8]; 2],
    reads: usize,
}

impl<R: Wait> Source for Late<'_, R> {
    ghost remaining = { λ _. None };

    ghost failures = { λ _. 0 };

    fn read(&mut self, buffer: &mut [u8]) -> Result<usize, Failed> {
        if self.reads == 1 {
            let parker = Parker::new();
            parker.park_timeout(self.rt, Duration::from_millis(1100));
        }
        let Some(half) = self.halves.get(self.reads) else {
            return Ok(0);
        };
        let count = half.len().min(buffer.len());
        buffer[..count].copy_from_slice(&half[..count]);
        self.reads += 1;
        Ok(count)
    }
}

impl<R: Wait> Input for Late<'_, R> {
    fn beginning(&self) -> &[u8] {
        b""
    }
}

// The count of lines is cleared before a message, and at the end of a batch whose last line has no feed.
#[test]
fn clears_the_count_before_a_message(rt: HostRuntime) {
    let words = ["minimate", "batch", "--limit", "1", "--lines", "3"];
    let mut reader = Late {
        rt: &rt,
        halves: [
            b"k5/6/1K4/6/6/5R w\n",
            b"k5/6/1K4/6/6/5R w\nk5/6/1K4/6/6/5R v\nk5/6/1K4/6/6/5R w",
        ],
        reads: 0,
    };
    let mut writer = Counted::new(Vec::new(rt.alloc()));
    let mut errors = Vec::new(rt.alloc());
    let status = run(&rt, &words, &mut reader, &mut writer, &mut errors);
    assert_eq!(rt; status, 0);
    assert_eq!(rt;
        writer.device.as_slice(),
        b"mate 1 f1f6\nmate 1 f1f6\nrefused: Side\nmate 1 f1f6\n".as_slice()
    );
    let told = String::from_utf8_lossy(rt.alloc(), errors.as_slice()).expect(&rt, "memory");
    let told = told.as_str();
    assert!(rt; told.starts_with("\r2 of 3 lines, "));
    assert!(rt;
        told.contains("\r\u{1b}[Kerror: line 3: the side to move is w or b: here is 'v'\n")
    );
    assert!(rt; !told.contains("rate\u{1b}[Kerror"));
}

/// An input that comes byte by byte.
#[derive(Drop)]
struct Bytewise<'a> {
    bytes: &'a [u8],
}

impl Source for Bytewise<'_> {
    ghost remaining = { λ _. None };

    ghost failures = { λ _. 0 };

    fn read(&mut self, buffer: &mut [u8]) -> Result<usize, Failed> {
        let count = self.bytes.len().min(buffer.len()).min(1);
        let (given, rest) = self.bytes.split_at(count);
        buffer[..count].copy_from_slice(given);
        self.bytes = rest;
        Ok(count)
    }
}

impl Input for Bytewise<'_> {
    fn beginning(&self) -> &[u8] {
        b""
    }
}

/// Expects what a batch writes for an input, whether it comes at once or byte by byte.
fn expect_either_way<R: Threads + Wait + Abort + AllocGlobal + Eprint + Clock + Sync>(
    rt: &R,
    words: &[&str],
    input: &[u8],
    output: &str,
) {
    expect_with(rt, words, input, 0, output);
    let mut reader = Bytewise { bytes: input };
    let mut writer = Counted::new(Vec::new(rt.alloc()));
    let mut errors = Vec::new(rt.alloc());
    let status = run(rt, words, &mut reader, &mut writer, &mut errors);
    assert_eq!(rt; status, 0);
    assert_eq!(rt; writer.device.as_slice(), output.as_bytes());
}

// A byte order mark, EF BB BF, is skipped at the beginning of the input, once, and nowhere else.
#[test]
fn skips_a_byte_order_mark(rt: HostRuntime) {
    let words = ["minimate", "batch", "--limit", "1"];
    for (input, output) in [
        (
            b"\xef\xbb\xbfk5/6/1K4/6/6/5R w\n".as_slice(),
            "mate 1 f1f6\n",
        ),
        (b"k5/6/1K4/6/6/5R w\n".as_slice(), "mate 1 f1f6\n"),
        (b"".as_slice(), ""),
        (b"\xef\xbb\xbf".as_slice(), ""),
        (b"\xef\xbb\xbf\n".as_slice(), "\n"),
        (b"\xef\xbb\xbf# one\n".as_slice(), "# one\n"),
        (b"\xef\xbb w".as_slice(), "refused: Shape\n"),
        (b"\xef w".as_slice(), "refused: Shape\n"),
        (
            b"k5/6/1K4/6/6/5R w\n\xef\xbb\xbfk5/6/1K4/6/6/5R w\n".as_slice(),
            "mate 1 f1f6\nrefused: Shape\n",
        ),
        (
            b"\xef\xbb\xbf\xef\xbb\xbfk5/6/1K4/6/6/5R w\n".as_slice(),
            "refused: Shape\n",
        ),
    ] {
        expect_either_way(&rt, &words, input, output);
    }
    let behind = ["minimate", "batch", "--limit", "1", "--skip", "1"];
    let input = b"\xef\xbb\xbfk5 w\nk5/6/1K4/6/6/5R w\n";
    expect_either_way(&rt, &behind, input, "mate 1 f1f6\n");
    let mut long = Vec::new(rt.alloc());
    long.extend_from_slice(b"\xef\xbb\xbf")
        .expect(&rt, "memory");
    let line = long_line(&rt, 256, b'x', b"\n");
    long.extend_from_slice(line.as_slice())
        .expect(&rt, "memory");
    expect_either_way(&rt, &words, long.as_slice(), "refused: Fields\n");
}

// Of a FEN of six fields the position is the first two.
#[test]
fn takes_the_first_two_of_six_fields(rt: HostRuntime) {
    let plain = ["minimate", "batch", "--limit", "3"];
    for (input, output) in [
        ("k5/6/2K3/6/6/1R4 w - - 0 1", "mate 3 c4c5\n"),
        ("k5/6/2K3/6/6/1R4 w KQkq e3 12 34\r\n", "mate 3 c4c5\n"),
        ("k5/6/2K3/6/6/1R4 w - - 0 1 ; dm 2", "mate 3 c4c5 ok\n"),
        (
            "k5/6/2K3/6/6/1R4 w - - 0 1 ; dm 1",
            "none within 1 differs\n",
        ),
        ("k5 w - - 0 1", "refused: Shape\n"),
        ("k5/6/2K3/6/6/1R4 x - - 0 1", "refused: Side\n"),
        ("k5/6/2K3/6/6/1R4 w - - 0", "refused: Fields\n"),
        ("k5/6/2K3/6/6/1R4 w - - 0 1 2", "refused: Fields\n"),
        ("k5/6/2K3/6/6/1R4 w - - 0 ", "refused: Fields\n"),
        ("k5/6/2K3/6/6/1R4 w  - 0 1", "refused: Fields\n"),
        ("k5/6/2K3/6/6/1R4 w - - 0 x", "refused: Fields\n"),
        ("k5/6/2K3/6/6/1R4 w - - -1 1", "refused: Fields\n"),
        ("k5/6/2K3/6/6/1R4 w xyz - 0 1", "refused: Fields\n"),
        ("k5/6/2K3/6/6/1R4 w - i9 0 1", "refused: Fields\n"),
        ("k5/6/2K3/6/6/1R4  w - - 0 1", "refused: Fields\n"),
    ] {
        expect_batch(&rt, &plain, input, output);
    }
    let echo = ["minimate", "batch", "--echo", "--limit", "3"];
    let told = "k5/6/2K3/6/6/1R4 w - - 0 1\tmate 3 c4c5\n";
    expect_batch(&rt, &echo, "k5/6/2K3/6/6/1R4 w - - 0 1", told);
    let json = ["minimate", "batch", "--json", "--limit", "3"];
    let object =
        "{\"line\":1,\"position\":\"k5/6/2K3/6/6/1R4 w\",\"goal\":\"mate\",\"limit\":3,\"answer\":\"mate\",\"plies\":3,\"first\":\"c4c5\"}\n";
    expect_batch(&rt, &json, "k5/6/2K3/6/6/1R4 w - - 0 1", object);
    let alone = [
        "minimate",
        "solve",
        "--limit",
        "3",
        "k5/6/2K3/6/6/1R4 w - - 0 1",
    ];
    expect_with(&rt, &alone, b"", 1, "refused: Fields\n");
}
