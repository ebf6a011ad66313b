//! The program over words that are given or can't be had: its status, and what standard error is told.
use console::run_program;
use devices::Counted;
use std::io;
use std::process::Abort;
use std::sync::Wait;
use std::thread::Threads;
use std::time::Clock;

const FEN: &str = "k5/6/2K3/6/6/1R4 w";

/// What a run answers, writes and tells.
#[derive(Drop)]
struct Told {
    status: u8,
    output: Vec<u8>,
    errors: Vec<u8>,
}

/// The words as a program has them: those between the commas, and a last one.
fn owned<R: Abort + AllocGlobal>(rt: &R, words: &str, last: &str) -> Vec<String> {
    let mut all = Vec::new(rt.alloc());
    for word in words.split(',') {
        let word = word.to_string(rt.alloc()).expect(rt, "memory");
        all.push(word).expect(rt, "memory");
    }
    let last = last.to_string(rt.alloc()).expect(rt, "memory");
    all.push(last).expect(rt, "memory");
    all
}

/// Whether the words ask for a batch.
fn asks_batch(words: &io::Result<Vec<String>>) -> bool {
    let Ok(words) = words else {
        return false;
    };
    match words.get(1) {
        Some(word) => word.as_str() == "batch",
        None => false,
    }
}

/// Runs the words over an input, those of a batch by its own program.
fn tell_of<R: Threads + Wait + Abort + AllocGlobal + Eprint + Clock + Sync>(
    rt: &R,
    words: io::Result<Vec<String>>,
    input: &[u8],
) -> Told {
    let mut reader = Counted::new(input);
    let mut writer = Counted::new(Vec::new(rt.alloc()));
    let mut errors = Vec::new(rt.alloc());
    let status = if asks_batch(&words) {
        batches::run_program(rt, words, &mut reader, &mut writer, &mut errors)
    } else {
        run_program(rt, words, &mut reader, &mut writer, &mut errors)
    };
    Told {
        status,
        output: writer.device,
        errors,
    }
}

/// Runs the words between the commas, and a last one, by the composer's program.
fn tell_composer<R: Threads + Wait + Abort + AllocGlobal + Eprint + Clock + Sync>(
    rt: &R,
    words: &str,
    last: &str,
) -> Told {
    let mut writer = Counted::new(Vec::new(rt.alloc()));
    let mut errors = Vec::new(rt.alloc());
    let words = Ok(owned(rt, words, last));
    let status = composing::run_program(rt, words, &mut writer, &mut errors);
    Told {
        status,
        output: writer.device,
        errors,
    }
}

/// Runs the words between the commas, and a last one, by the checker's program, over an input.
fn tell_checker<R: Abort + AllocGlobal>(rt: &R, words: &str, last: &str, input: &[u8]) -> Told {
    let mut reader = Counted::new(input);
    let mut writer = Counted::new(Vec::new(rt.alloc()));
    let mut errors = Vec::new(rt.alloc());
    let words = Ok(owned(rt, words, last));
    let status = verdicts::run_program(rt, words, &mut reader, &mut writer, &mut errors);
    Told {
        status,
        output: writer.device,
        errors,
    }
}

/// Runs the words between the commas, and a last one, with a tree for an input.
fn tell<R: Threads + Wait + Abort + AllocGlobal + Eprint + Clock + Sync>(
    rt: &R,
    words: &str,
    last: &str,
) -> Told {
    tell_of(rt, Ok(owned(rt, words, last)), b"c4c5{a6a5:b1a1#}")
}

/// Expects a status, an output and what is told.
fn expect<R: Abort>(rt: &R, told: &Told, status: u8, output: &str, errors: &str) {
    assert_eq!(rt; told.status, status);
    assert_eq!(rt; told.output.as_slice(), output.as_bytes());
    assert_eq!(rt; told.errors.as_slice(), errors.as_bytes());
}

#[test]
fn runs_the_words(rt: HostRuntime) {
    expect(&rt, &tell(&rt, "minimate,check", FEN), 0, "yes 3\n", "");
    let solved = tell(&rt, "minimate,solve,--limit,1", FEN);
    expect(&rt, &solved, 0, "none within 1\n", "");
}

/// Expects a sentence about the position, whatever the command.
fn expect_sentence<R: Threads + Wait + Abort + AllocGlobal + Eprint + Clock + Sync>(
    rt: &R,
    fen: &str,
    sentence: &str,
) {
    let errors = format!(in rt.alloc(); "error: {sentence}\n").expect(rt, "memory");
    for told in [
        tell(rt, "minimate,moves", fen),
        tell_composer(rt, "minimate,show", fen),
        tell(rt, "minimate,check", fen),
    ] {
        assert_eq!(rt; told.status, 1);
        assert!(rt; told.output.as_slice().starts_with(b"refused: "));
        assert_eq!(rt; told.errors.as_slice(), errors.as_bytes());
    }
}

/// Expects the text to be a position's.
fn expect_taken<R: Threads + Wait + Abort + AllocGlobal + Eprint + Clock + Sync>(
    rt: &R,
    fen: &str,
) {
    let told = tell_composer(rt, "minimate,show", fen);
    assert_eq!(rt; told.status, 0);
    assert!(rt; told.errors.is_empty());
}

/// Expects what each line of a table says: a text, its sentence, and the text with the change that the sentence names. Of a text with
/// a second fault there is none.
fn expect_table<R: Threads + Wait + Abort + AllocGlobal + Eprint + Clock + Sync>(
    rt: &R,
    table: &str,
) {
    for line in table.lines() {
        let (fen, told) = line.split_once('|').expect(rt, "a sentence");
        let (sentence, changed) = told.split_once('|').expect(rt, "a change");
        expect_sentence(rt, fen, sentence);
        if !changed.is_empty() {
            expect_taken(rt, changed);
        }
    }
}

#[test]
fn explains_fields(rt: HostRuntime) {
    let one =
        "k5/6/1K4/6/6/5R|a position has two fields, the board and the side: here is one; write ' w' or ' b' after the board|k5/6/1K4/6/6/5R b
k5/6/1K4/6/6/5R |a position has two fields, the board and the side: here is one; write ' w' or ' b' after the board|k5/6/1K4/6/6/5R w
k4/5/1K3/5/4b|a position has two fields, the board and the side: here is one; write ' w' or ' b' after the board|k4/5/1K3/5/4b w
k5/6/1K4/6/6/4R|a position has two fields, the board and the side: here is one; write ' w' or ' b' after the board; the board has a fault too|
|there is no position: write one, as k5/6/1K4/6/6/5R w|k5/6/1K4/6/6/5R w
 |there is no position: write one, as k5/6/1K4/6/6/5R w|k5/6/1K4/6/6/5R w
\t  |there is no position: write one, as k5/6/1K4/6/6/5R w|k5/6/1K4/6/6/5R w";
    expect_table(&rt, one);
    let more =
        "k5/6/1K4/6/6/5R w -|a position has two fields, the board and the side: here are three; leave out ' -'|k5/6/1K4/6/6/5R w
k5/6/1K4/6/6/5R w - -|a position has two fields, the board and the side: here are four; leave out ' - -'|k5/6/1K4/6/6/5R w
k5/6/1K4/6/6/5R w -  0 |a position has two fields, the board and the side: here are four; leave out ' -  0 '|k5/6/1K4/6/6/5R w
k5/6/1K4/6/6/5R w - - 0|a position has two fields, the board and the side: here are five; leave out ' - - 0'|k5/6/1K4/6/6/5R w
k5/6/1K4/6/6/5R w - - 0 1|a position has two fields, the board and the side: here are six; leave out ' - - 0 1'|k5/6/1K4/6/6/5R w
k5/6/1K4/6/6/5R w - - 0 1 2|a position has two fields, the board and the side: here are more; leave out ' - - 0 1 2'|k5/6/1K4/6/6/5R w
k5/6/1K4/6/6/5R w \u{2013} \u{2013}|a position has two fields, the board and the side: here are four; leave out ' \\xe2\\x80\\x93 \\xe2\\x80\\x93'|k5/6/1K4/6/6/5R w";
    expect_table(&rt, more);
}

#[test]
fn explains_blanks(rt: HostRuntime) {
    let between =
        "k5/6/1K4/6/6/5R  w|there are several spaces after the board: write 'k5/6/1K4/6/6/5R w'|k5/6/1K4/6/6/5R w
 k5/6/1K4/6/6/5R    b - - |there are several spaces after the board: write 'k5/6/1K4/6/6/5R b'|k5/6/1K4/6/6/5R b
k5/6/1K4/6/6/5R\tw|there is a tab or a line end after the board: write 'k5/6/1K4/6/6/5R w'|k5/6/1K4/6/6/5R w
k5/6/1K4/6/6/5R \tw|there is a tab or a line end after the board: write 'k5/6/1K4/6/6/5R w'|k5/6/1K4/6/6/5R w
k5/6/1K4/6/6/5R\tw - - 0 1|there is a tab or a line end after the board: write 'k5/6/1K4/6/6/5R w'|k5/6/1K4/6/6/5R w
k5/6/1K4/6/6/6w|there is no space after the board: write 'k5/6/1K4/6/6/6 w'|k5/6/1K4/6/6/6 w
k5/6/1K4/6/6/5Rb|there is no space after the board: write 'k5/6/1K4/6/6/5R b'|k5/6/1K4/6/6/5R b
k4/5/1K3/5/5w - -|there is no space after the board: write 'k4/5/1K3/5/5 w'|k4/5/1K3/5/5 w";
    expect_table(&rt, between);
    let elsewhere =
        " k5/6/1K4/6/6/5R w|there are blanks around the position: write 'k5/6/1K4/6/6/5R w'|k5/6/1K4/6/6/5R w
k5/6/1K4/6/6/5R w |there are blanks around the position: write 'k5/6/1K4/6/6/5R w'|k5/6/1K4/6/6/5R w
\tk5/6/1K4/6/6/5R w\t|there are blanks around the position: write 'k5/6/1K4/6/6/5R w'|k5/6/1K4/6/6/5R w
k5/6/1K4/6/6/5R w\r|there are blanks around the position: write 'k5/6/1K4/6/6/5R w'|k5/6/1K4/6/6/5R w
  k5/6/1K4/6/6/5R w - -|there are blanks around the position: write 'k5/6/1K4/6/6/5R w'|k5/6/1K4/6/6/5R w
k5/6/1K4 /6/6/5R w|there are blanks inside the board: leave them out|k5/6/1K4/6/6/5R w
k5 / 6 / 1K4 / 6 / 6 / 5R w|there are blanks inside the board: leave them out|k5/6/1K4/6/6/5R w
k5/6/1K4/\t6/6/5R w|there are blanks inside the board: leave them out|k5/6/1K4/6/6/5R w
k5/6/1K4/6/6/4R  w|there are several spaces after the board: write 'k5/6/1K4/6/6/4R w'; the board has a fault too|
k5/6/1K4/6/6 /4R w|there are blanks inside the board: leave them out; the board has a fault too|
k5/6/1K4 /6/6/5R w - -|there are blanks inside the board: leave them out|k5/6/1K4/6/6/5R w
k5/6/1K4/6/6/5R w;|the side to move is w or b: leave out ';' after it|k5/6/1K4/6/6/5R w
k5/6/1K4/6/6/5R b; dm 3|the side to move is w or b: leave out '; dm 3' after it|k5/6/1K4/6/6/5R b
k5/6/1K4/6/6/5R w'|the side to move is w or b: leave out '\\'' after it|k5/6/1K4/6/6/5R w";
    expect_table(&rt, elsewhere);
}

// Characters are counted from 1, and those of more than a byte are written by their bytes.
#[test]
fn explains_what_is_not_ascii(rt: HostRuntime) {
    let wanted =
        "k5/6/1\u{2654}4/6/6/5R w|character 7 is not ASCII: write a letter, a digit, / or a space for '\u{2654}'|k5/6/1K4/6/6/5R w
k\u{e9}4/6/1K4/6/6/5R w|character 2 is not ASCII: write a letter, a digit, / or a space for '\\xc3\\xa9'|kr4/6/1K4/6/6/5R w
k5/6/1K4/6/6/5R\u{a0}w|character 16 is not ASCII: write a letter, a digit, / or a space for '\\xc2\\xa0'|k5/6/1K4/6/6/5R w
k5/6/1K4/6/6/5R \u{1f642}|character 17 is not ASCII: write a letter, a digit, / or a space for '\\xf0\\x9f\\x99\\x82'|k5/6/1K4/6/6/5R w";
    expect_table(&rt, wanted);
    let needless =
        "\u{feff}k5/6/1K4/6/6/5R w|the text begins with a byte order mark: leave out these three bytes|k5/6/1K4/6/6/5R w
\u{201c}k5/6/1K4/6/6/5R w|character 1 is not ASCII: leave out '\\xe2\\x80\\x9c'|k5/6/1K4/6/6/5R w
k5/6\u{200b}/1K4/6/6/5R w|character 5 is not ASCII: leave out '\\xe2\\x80\\x8b'|k5/6/1K4/6/6/5R w
k5/6/1K4/6/6/5R w\u{201d}|character 18 is not ASCII: leave out '\\xe2\\x80\\x9d'|k5/6/1K4/6/6/5R w
k5/6/1K4/6/6/5R \u{a0}b|character 17 is not ASCII: leave out '\\xc2\\xa0'|k5/6/1K4/6/6/5R b";
    expect_table(&rt, needless);
}

#[test]
fn explains_shapes(rt: HostRuntime) {
    let ranks =
        "k7/8/2K5/8/8/8/8/7R w|a board of 8 ranks is ordinary chess: Los Alamos chess has 6 ranks of 6 squares, Gardner minichess 5 of 5|k5/6/2K3/6/6/5R w
rnbqkbnr/pppppppp/8/8/8/8/PPPPPPPP/RNBQKBNR w KQkq - 0 1|a board of 8 ranks is ordinary chess: Los Alamos chess has 6 ranks of 6 squares, Gardner minichess 5 of 5|rnqknr/pppppp/6/6/PPPPPP/RNQKNR w
k5/6/1K4/6/5R w|here are 5 ranks of 6 squares: write 6 ranks, as Los Alamos chess has|k5/6/1K4/6/6/5R w
k5/6/1K4/6/6/6/5R w|here are 7 ranks of 6 squares: write 6 ranks, as Los Alamos chess has|k5/6/1K4/6/6/5R w
k4/5/1K3/5/5/4R w|here are 6 ranks of 5 squares: write 5 ranks, as Gardner minichess has|k4/5/1K3/5/4R w
k4/5/1K3/4R w|here are 4 ranks of 5 squares: write 5 ranks, as Gardner minichess has|k4/5/1K3/5/4R w
k5 w|a board has six ranks of six squares or five of five, with / between them: here are 1|
k5/6/1K4/6/6/5R/6/4 w|a board has six ranks of six squares or five of five, with / between them: here are 8|
k5//6/1K4/6/6/5R w|the board has one / too many between two ranks: leave it out|k5/6/1K4/6/6/5R w
k5/6/1K46/6/5R w|a board has six ranks of six squares or five of five, with / between them: here are 5, most of 6 squares|k5/6/1K4/6/6/5R w
k4/5/1K1/2/5/4R w|a board has six ranks of six squares or five of five, with / between them: here are 6, most of 5 squares|k4/5/1K3/5/4R w
k5/6/1K31/6/5R w|here are 5 ranks of 6 squares: write 6 ranks, as Los Alamos chess has; the board has a fault too|";
    expect_table(&rt, ranks);
    let widths =
        "k5/6/1K4/6/7/5R w|a board of 6 ranks has 6 squares in each: here rank 2 has 7|k5/6/1K4/6/6/5R w
k5/6/1K4/6/6/4R w|a board of 6 ranks has 6 squares in each: here rank 1 has 5|k5/6/1K4/6/6/5R w
k5/5/1K4/7/6/5R w|a board of 6 ranks has 6 squares in each: here rank 5 has 5, and rank 3 has 7|
k5/6/1K4/6/6/6b w|a board of 6 ranks has 6 squares in each: here rank 1 has 7|k5/6/1K4/6/6/6 w
k5/6/1K4/9/6/5R w|a board of 6 ranks has 6 squares in each: here rank 3 has 9|k5/6/1K4/6/6/5R w
k5/6/1K4/6/0k4/5R w|a board of 6 ranks has 6 squares in each: here rank 2 has 5|
k4/5/1K4/5/4R w|a board of 5 ranks has 5 squares in each: here rank 3 has 6|k4/5/1K3/5/4R w";
    expect_table(&rt, widths);
}

// Each letter of a game stands before the one that is foreign, and where two places are wrong the first is told.
#[test]
fn explains_letters_and_runs(rt: HostRuntime) {
    let letters =
        "kqrnp1/1KQRNP/6/6/6/2b3 w|rank 1 has 'b': the units of Los Alamos chess are K Q R N P, and in lower case Black's|
kqrbn/p3P/5/3N1/KQRBx w|rank 1 has 'x': the units of Gardner minichess are K Q R B N P, and in lower case Black's|kqrbn/p3P/5/3N1/KQRBN w
k5/6/1K2y1/6/6/4xR w|rank 4 has 'y': the units of Los Alamos chess are K Q R N P, and in lower case Black's|
k5/6/1K4/6/6/4BR w|rank 1 has 'B': the units of Los Alamos chess are K Q R N P, and in lower case Black's|k5/6/1K4/6/6/4NR w";
    expect_table(&rt, letters);
    let runs =
        "k5/33/1K4/6/42/5R w|rank 5 has '33': write each run of empty squares as one digit from 1 to 6|
k5/6/1K4/6/06/5R w|rank 2 has '0': write each run of empty squares as one digit from 1 to 6|k5/6/1K4/6/6/5R w
k4/5/1K3/5/113 w|rank 1 has '11': write each run of empty squares as one digit from 1 to 5|k4/5/1K3/5/5 w
k5/6/1K31/6/6/5R w|rank 4 has '31': write each run of empty squares as one digit from 1 to 6|k5/6/1K4/6/6/5R w";
    expect_table(&rt, runs);
}

#[test]
fn explains_units(rt: HostRuntime) {
    let units = "k5/6/1K4/6/6/5R x|the side to move is w or b: here is 'x'|k5/6/1K4/6/6/5R w
k5/6/1K4/6/6/5R W|the side to move is w or b: write w in place of 'W'|k5/6/1K4/6/6/5R w
k5/6/1K4/6/6/5R white|the side to move is w or b: write w in place of 'white'|k5/6/1K4/6/6/5R w
6/6/1K4/6/6/K4R w|each side has one king, K and k: here are 2 K and 0 k|
k4k/6/1K4/6/6/5R w|each side has one king, K and k: here are 1 K and 2 k|k5/6/1K4/6/6/5R w
k5/QQQQQQ/QQQQQQ/6/6/K5 b|a side has at most 12 units in Los Alamos chess: here White has 13 and Black 1|k5/QQQQQQ/QQQQQ1/6/6/K5 b
kqrbn/nbrqp/p4/4P/KQRBN w|a side has at most 10 units in Gardner minichess: here White has 6 and Black 11|kqrbn/nbrqp/5/4P/KQRBN w
k3P/5/1K3/5/5 w|rank 5 has a pawn: pawns can only be on ranks 2 to 4|k4/4P/1K3/5/5 w
k5/6/1K4/6/6/4pR w|rank 1 has a pawn: pawns can only be on ranks 2 to 5|k5/6/1K4/6/4p1/5R w
k5/6/1K4/6/6/4RP w|rank 1 has a pawn: pawns can only be on ranks 2 to 5|k5/6/1K4/6/5P/4R1 w
k4p/1p4/1K4/6/1P4/5R w|rank 6 has a pawn: pawns can only be on ranks 2 to 5|k5/1p3p/1K4/6/1P4/5R w";
    expect_table(&rt, units);
}

// The other side to move is advised only where that is taken.
#[test]
fn explains_checks(rt: HostRuntime) {
    let checks =
        "k4R/6/1K4/6/6/6 w|Black is in check, and White is to move: write b for the side, or move a unit|k4R/6/1K4/6/6/6 b
K4r/6/1k4/6/6/6 b|White is in check, and Black is to move: write w for the side, or move a unit|K4r/6/1k4/6/6/6 w
kK4/6/6/6/6/6 w|the kings are next to each other, on b6 and a6: move one of them away|k1K3/6/6/6/6/6 w
kK4/6/6/6/6/6 b|the kings are next to each other, on b6 and a6: move one of them away|k1K3/6/6/6/6/6 b
5/5/2k2/1K3/5 b|the kings are next to each other, on b2 and c3: move one of them away|5/2k2/5/1K3/5 b
6/3k2/3K2/6/6/6 w|the kings are next to each other, on d4 and d5: move one of them away|3k2/6/3K2/6/6/6 w
k4R/6/6/6/6/K4r w|both kings are in check: move the king of the side that is not to move, or what checks it|k5/5R/6/6/6/K4r w
k4R/6/6/6/6/K4r w|both kings are in check: move the king of the side that is not to move, or what checks it|5R/k5/6/6/6/K4r w
k4R/6/6/6/6/K4r b|both kings are in check: move the king of the side that is not to move, or what checks it|k4R/6/6/6/K5/5r b
2K2/N4/2k2/5/1r3 w|Black is in check, and White is to move: write b for the side, or move a unit|2K2/N4/2k2/5/1r3 b
2K2/N1r2/k4/5/Q4 w|both kings are in check: move the king of the side that is not to move, or what checks it|2K2/N1r2/1k3/5/Q4 w";
    expect_table(&rt, checks);
}

// Each sentence of a batch is that of its own line, by the number that the line has in the input.
#[test]
fn explains_lines_of_a_batch(rt: HostRuntime) {
    let mut input = Vec::new(rt.alloc());
    input
        .extend_from_slice(b"k5/6/1K4/6/6/5R w\nk5/6/1K4/6/6/5R x\n")
        .expect(&rt, "memory");
    input.extend_from_slice(&[b'y'; 257]).expect(&rt, "memory");
    input
        .extend_from_slice(b"\n# four\n\nk5/6/1K4/6/6/4R w\r\nK4r/6/1k4/6/6/6 b")
        .expect(&rt, "memory");
    let output = "mate 1 f1f6
refused: Side
refused: TooLong
# four

refused: Shape
refused: OtherInCheck
";
    let errors = "error: line 2: the side to move is w or b: here is 'x'
error: line 3: a line has at most 256 bytes
error: line 6: a board of 6 ranks has 6 squares in each: here rank 1 has 5
error: line 7: White is in check, and Black is to move: write w for the side, or move a unit
";
    let words = owned(&rt, "minimate,batch,--limit", "1");
    let told = tell_of(&rt, Ok(words), input.as_slice());
    expect(&rt, &told, 0, output, errors);
}

/// Expects a line of a batch to be told a sentence, and with the change that it names to have its own limit.
fn expect_moves<R: Threads + Wait + Abort + AllocGlobal + Eprint + Clock + Sync>(
    rt: &R,
    line: &str,
    sentence: &str,
    changed: &str,
) {
    let words = owned(rt, "minimate,batch,--limit", "1");
    let told = tell_of(rt, Ok(words), line.as_bytes());
    let errors = format!(in rt.alloc(); "error: line 1: {sentence}\n").expect(rt, "memory");
    assert_eq!(rt; told.status, 0);
    assert_eq!(rt; told.errors.as_slice(), errors.as_bytes());
    let words = owned(rt, "minimate,batch,--limit", "1");
    let told = tell_of(rt, Ok(words), changed.as_bytes());
    expect(rt, &told, 0, "mate 3 c4c5 ok\n", "");
}

// A line's moves that are written otherwise are advised, and not left out.
#[test]
fn explains_moves_of_a_line(rt: HostRuntime) {
    let table =
        "k5/6/2K3/6/6/1R4 w;dm 2|a line has its moves after its position: write ' ; dm 2' in place of ';dm 2'|k5/6/2K3/6/6/1R4 w ; dm 2
k5/6/2K3/6/6/1R4 w ; dm 2 |a line has its moves after its position: write ' ; dm 2' in place of ' ; dm 2 '|k5/6/2K3/6/6/1R4 w ; dm 2
k5/6/2K3/6/6/1R4 w ; dm 02|a line has its moves after its position: write ' ; dm 2' in place of ' ; dm 02'|k5/6/2K3/6/6/1R4 w ; dm 2
k5/6/2K3/6/6/1R4 w dm 2;|a line has its moves after its position: write ' ; dm 2' in place of ' dm 2;'|k5/6/2K3/6/6/1R4 w ; dm 2
k5/6/2K3/6/6/1R4 w - - dm 2;|a line has its moves after its position: write ' ; dm 2' in place of ' - - dm 2;'|k5/6/2K3/6/6/1R4 w ; dm 2
k5/6/2K3/6/6/1R4 w ; dm 33|after ; dm a line has its number of moves: write one from 1 to 32|k5/6/2K3/6/6/1R4 w ; dm 2
k5/6/2K3/6/6/1R4 w ; dm 0|after ; dm a line has its number of moves: write one from 1 to 32|k5/6/2K3/6/6/1R4 w ; dm 2
k5/6/2K3/6/6/1R4 w ; bm c4c5|a position has two fields, the board and the side: here are five; leave out ' ; bm c4c5'|k5/6/2K3/6/6/1R4 w ; dm 2";
    for row in table.lines() {
        let (line, rest) = row.split_once('|').expect(&rt, "a sentence");
        let (sentence, changed) = rest.split_once('|').expect(&rt, "a change");
        expect_moves(&rt, line, sentence, changed);
    }
}

// Lines that are left out keep their numbers.
#[test]
fn explains_lines_behind_those_left_out(rt: HostRuntime) {
    let words = owned(&rt, "minimate,batch,--skip,2,--limit", "1");
    let input = b"k5 w\nk5 w\nk5/6/1K4/6/6/5R x\nk5/6/1K4/6/6/5R w\nk4R/6/1K4/6/6/6 b\n";
    let told = tell_of(&rt, Ok(words), input);
    let errors = "error: line 3: the side to move is w or b: here is 'x'
line 5: Black is mated already
";
    let output = "refused: Side\nmate 1 f1f6\nnone within 1\n";
    expect(&rt, &told, 0, output, errors);
}

#[test]
fn explains_values(rt: HostRuntime) {
    let limit = tell(&rt, "minimate,solve,--limit,64", FEN);
    let plies =
        "error: --limit is 1 to 63 plies: a mate in M moves is --limit 2M-1, or --mate M, 1 to 32\n";
    expect(&rt, &limit, 1, "refused: Limit\n", plies);
    let workers = tell(&rt, "minimate,tree,--limit=1,--workers,17", FEN);
    let threads = "error: --workers is 1 to 16\n";
    expect(&rt, &workers, 1, "refused: Workers\n", threads);
    let slots = tell(&rt, "minimate,solve,--limit=1,--slots,0", FEN);
    let most = "error: --slots is 1 to 1048576\n";
    expect(&rt, &slots, 1, "refused: Slots\n", most);
}

/// Runs words that mean no line, and gives what is told.
fn explained<R: Threads + Wait + Abort + AllocGlobal + Eprint + Clock + Sync>(
    rt: &R,
    words: &str,
    last: &str,
) -> Vec<u8> {
    let told = tell(rt, words, last);
    assert_eq!(rt; told.status, 2);
    assert!(rt; told.output.is_empty());
    told.errors
}

#[test]
fn explains_words_that_are_no_line(rt: HostRuntime) {
    for (words, last, beginning) in [
        ("minimate", "--help", "Finds forced mates"),
        (
            "minimate",
            "--depth",
            "error: unexpected argument '--depth'",
        ),
        ("minimate", "play", "error: unrecognized subcommand 'play'"),
    ] {
        let told = explained(&rt, words, last);
        assert!(rt; told.as_slice().starts_with(beginning.as_bytes()));
    }
    let goal = explained(&rt, "minimate,check,--goal,Mate", FEN);
    assert_eq!(rt;
        goal.as_slice(),
        b"error: --goal is mate or stale: write one of these\n".as_slice()
    );
    let version = explained(&rt, "minimate", "--version");
    assert_eq!(rt; version.as_slice(), b"minimate 0.1.0\n".as_slice());
}

#[test]
fn asks_for_quotes(rt: HostRuntime) {
    let cut = explained(&rt, "minimate,moves,k5/6/1K4/6/6/5R,w", "-");
    let quote = b"error: a position is one word, so quote it: 'k5/6/1K4/6/6/5R w'\n";
    assert!(rt; cut.as_slice().ends_with(quote));
    let second = explained(&rt, "minimate,moves,k5/6/2K3/6/6/1R4 w,4k/5/5/5/K4", "b");
    let quote = b"error: a position is one word, so quote it: '4k/5/5/5/K4 b'\n";
    assert!(rt; second.as_slice().ends_with(quote));
    let quoted = explained(&rt, "minimate,moves,k5/6/2K3/6/6/1R4 w,w", "b");
    assert!(rt; !quoted.as_slice().ends_with(b"'\n"));
    let lone = explained(&rt, "./minimate", "w");
    assert!(rt; !lone.as_slice().ends_with(b"'\n"));
}

#[test]
fn explains_that_there_are_no_words(rt: HostRuntime) {
    let unreadable = io::Error::from(io::ErrorKind::InvalidData);
    let told = tell_of(&rt, Err(unreadable), b"");
    let no_text = "error: a word of the command line is not UTF-8\n";
    expect(&rt, &told, 2, "", no_text);
    let no_memory = io::Error::from(io::ErrorKind::OutOfMemory);
    let told = tell_of(&rt, Err(no_memory), b"");
    expect(&rt, &told, 3, "refused: NoMemory\n", "");
}

/// Runs the words between the commas, and a last one: a drawing by the composer's program, which has it.
fn tell_by_its_program<R: Threads + Wait + Abort + AllocGlobal + Eprint + Clock + Sync>(
    rt: &R,
    words: &str,
    last: &str,
) -> Told {
    if words.starts_with("minimate,show") {
        tell_composer(rt, words, last)
    } else {
        tell(rt, words, last)
    }
}

/// Expects that the words between the commas are told a sentence behind what the parser says, and that with the change that it names
/// they are a line.
fn expect_hint<R: Threads + Wait + Abort + AllocGlobal + Eprint + Clock + Sync>(
    rt: &R,
    words: &str,
    sentence: &str,
    changed: &str,
) {
    let (words, last) = words.rsplit_once(',').expect(rt, "two words");
    let told = explained(rt, words, last);
    let wanted = format!(in rt.alloc(); "error: {sentence}\n").expect(rt, "memory");
    assert!(rt; told.as_slice().ends_with(wanted.as_bytes()));
    let (words, last) = changed.rsplit_once(',').expect(rt, "two words");
    assert!(rt; tell_by_its_program(rt, words, last).status != 2);
}

/// Expects what each line of a table says: words, their sentence, and the words with the change that the sentence names.
fn expect_hints<R: Threads + Wait + Abort + AllocGlobal + Eprint + Clock + Sync>(
    rt: &R,
    table: &str,
) {
    for line in table.lines() {
        let (words, told) = line.split_once('|').expect(rt, "a sentence");
        let (sentence, changed) = told.split_once('|').expect(rt, "a change");
        expect_hint(rt, words, sentence, changed);
    }
}

#[test]
fn explains_limits_of_words(rt: HostRuntime) {
    let limits =
        "minimate,solve,k5/6/2K3/6/6/1R4 w|a search has a limit: add --limit 3, in plies, or --mate 2, in moves|minimate,solve,--mate,2,k5/6/2K3/6/6/1R4 w
minimate,keys,--limit=3,--mate=2,k5/6/2K3/6/6/1R4 w|--limit and --mate say the same: leave one of them out|minimate,keys,--limit=3,k5/6/2K3/6/6/1R4 w
minimate,solve,--moves,2,k5/6/2K3/6/6/1R4 w|moves of the attacker are counted by --mate: write --mate in place of --moves|minimate,solve,--mate,2,k5/6/2K3/6/6/1R4 w
minimate,solve,--threads,4,--limit,3,k5/6/2K3/6/6/1R4 w|threads are counted by --workers: write --workers in place of --threads|minimate,solve,--workers,4,--limit,3,k5/6/2K3/6/6/1R4 w
minimate,solve,--lim,3,k5/6/2K3/6/6/1R4 w|write --limit in place of --lim|minimate,solve,--limit,3,k5/6/2K3/6/6/1R4 w
minimate,solve,3,k5/6/2K3/6/6/1R4 w|a limit comes after its option: write '--limit 3' in place of '3'|minimate,solve,--limit,3,k5/6/2K3/6/6/1R4 w
minimate,solve,--limit,--limit,3,k5/6/2K3/6/6/1R4 w|--limit is there already: leave out --limit|minimate,solve,--limit,3,k5/6/2K3/6/6/1R4 w
minimate,solve,--limit,3,--limit,5,k5/6/2K3/6/6/1R4 w|--limit is there already: leave out --limit 5|minimate,solve,--limit,3,k5/6/2K3/6/6/1R4 w
minimate,keys,--workers=3,--threads,4,--limit,3,k5/6/2K3/6/6/1R4 w|--workers is there already: leave out --threads 4|minimate,keys,--workers=3,--limit,3,k5/6/2K3/6/6/1R4 w
minimate,solve,--moves,k5/6/2K3/6/6/1R4 w|moves of the attacker are counted by --mate: write --mate 2 in place of --moves|minimate,solve,--mate,2,k5/6/2K3/6/6/1R4 w
minimate,solve,--lim,k5/6/2K3/6/6/1R4 w|write --limit 3 in place of --lim|minimate,solve,--limit,3,k5/6/2K3/6/6/1R4 w";
    expect_hints(&rt, limits);
    let numbers =
        "minimate,solve,--limit,1.5,k5/6/2K3/6/6/1R4 w|--limit is a number from 1 to 63: write 3 in place of '1.5'|minimate,solve,--limit,3,k5/6/2K3/6/6/1R4 w
minimate,solve,--limit,k5/6/2K3/6/6/1R4 w|--limit is a number from 1 to 63: write 3 after it|minimate,solve,--limit,3,k5/6/2K3/6/6/1R4 w
minimate,solve,--slots,--limit,3,k5/6/2K3/6/6/1R4 w|--slots is a number from 1 to 1048576: write 1048573 after it|minimate,solve,--slots,1048573,--limit,3,k5/6/2K3/6/6/1R4 w
minimate,solve,--limit,-1,k5/6/2K3/6/6/1R4 w|--limit is a number from 1 to 63: write 3 in place of '-1'|minimate,solve,--limit,3,k5/6/2K3/6/6/1R4 w
minimate,tree,--mate=two,k5/6/2K3/6/6/1R4 w|--mate is a number from 1 to 32: write 2 in place of 'two'|minimate,tree,--mate=2,k5/6/2K3/6/6/1R4 w
minimate,batch,--limit,3,--lines,x|--lines is a number from 0 to 4294967295: write 100 in place of 'x'|minimate,batch,--limit,3,--lines,100
minimate,batch,--limit,3,--skip,x|--skip is a number from 0 to 4294967295: write 100 in place of 'x'|minimate,batch,--limit,3,--skip,100
minimate,batch,--limit,3,--skip=4294967296|--skip is a number from 0 to 4294967295: write 100 in place of '4294967296'|minimate,batch,--limit,3,--skip=100
minimate,keys,--limit,3,--slots,64M,k5/6/2K3/6/6/1R4 w|--slots is a number from 1 to 1048576: write 1048573 in place of '64M'|minimate,keys,--limit,3,--slots,1048573,k5/6/2K3/6/6/1R4 w
minimate,solve,--limit,3,--workers=4294967296,k5/6/2K3/6/6/1R4 w|--workers is a number from 1 to 16: write 2 in place of '4294967296'|minimate,solve,--limit,3,--workers=2,k5/6/2K3/6/6/1R4 w";
    expect_hints(&rt, numbers);
}

#[test]
fn explains_words_of_another_kind(rt: HostRuntime) {
    let words =
        "minimate,--moves,k5/6/2K3/6/6/1R4 w|moves is a command: write it without dashes|minimate,moves,k5/6/2K3/6/6/1R4 w
minimate,batch,--limit,3,positions|batch reads positions from its input: write '< positions' in place of 'positions'|minimate,batch,--limit,3
minimate,batch,--limit=3,positions|batch reads positions from its input: write '< positions' in place of 'positions'|minimate,batch,--limit=3
minimate,batch,--limit=3,--echo,positions|batch reads positions from its input: write '< positions' in place of 'positions'|minimate,batch,--limit=3,--echo
minimate,batch,--limit,3,k5/6/2K3/6/6/1R4 w|batch reads positions from its input: write solve in place of batch for one position|minimate,solve,--limit,3,k5/6/2K3/6/6/1R4 w
minimate,--workers,4,solve,--limit,3,k5/6/2K3/6/6/1R4 w|options come after the command: write it before --workers|minimate,solve,--workers,4,--limit,3,k5/6/2K3/6/6/1R4 w
minimate,show,--slots,k5/6/2K3/6/6/1R4 w|show makes no search: leave out --slots|minimate,show,k5/6/2K3/6/6/1R4 w
minimate,check,--mate,2,k5/6/2K3/6/6/1R4 w|check makes no search: leave out --mate 2|minimate,check,k5/6/2K3/6/6/1R4 w
minimate,moves,--limit,3,--slots=9,k5/6/2K3/6/6/1R4 w|moves makes no search: leave out --limit 3, and the other options of a search|minimate,moves,k5/6/2K3/6/6/1R4 w
minimate,moves,--limit=3,k5/6/2K3/6/6/1R4 w|moves makes no search: leave out --limit=3|minimate,moves,k5/6/2K3/6/6/1R4 w
minimate,show,--progress,k5/6/2K3/6/6/1R4 w|show makes no search: leave out --progress|minimate,show,k5/6/2K3/6/6/1R4 w";
    expect_hints(&rt, words);
}

// Slashes that are too many, blanks in their place, and chess symbols, which are shown as they are.
#[test]
fn explains_how_a_board_is_misspelt(rt: HostRuntime) {
    let boards =
        "k5/6/2K3/6/6/1R4/ w|the board has one / too many at the end: leave it out|k5/6/2K3/6/6/1R4 w
/k5/6/2K3/6/6/1R4 w|the board has one / too many at the beginning: leave it out|k5/6/2K3/6/6/1R4 w
k5/6//2K3/6/6/1R4 w|the board has one / too many between two ranks: leave it out|k5/6/2K3/6/6/1R4 w
k4/5/1K3/5/3R1/ w|the board has one / too many at the end: leave it out|k4/5/1K3/5/3R1 w
k5/6/2X3/6/6/1R4/ w|the board has one / too many at the end: leave it out; the board has a fault too|
k5 6 2K3 6 6 1R4 w|blanks separate the ranks: write / between the ranks instead|k5/6/2K3/6/6/1R4 w
k4 5 1K3 5 3R1 b|blanks separate the ranks: write / between the ranks instead|k4/5/1K3/5/3R1 b
k5 6 2X3 6 6 1R4 w|blanks separate the ranks: write / between the ranks instead; the board has a fault too|
k5/6/2K3/6/6/1R4 B|the side to move is w or b: write b in place of 'B'|k5/6/2K3/6/6/1R4 b
k5/6/2\u{2654}3/6/6/1R4 w|character 7 is not ASCII: write a letter, a digit, / or a space for '\u{2654}'|k5/6/2K3/6/6/1R4 w
\u{265f}5/6/2K3/6/6/1R4 w|character 1 is not ASCII: write a letter, a digit, / or a space for '\u{265f}'|k5/6/2K3/6/6/1R4 w
\u{2653}5/6/2K3/6/6/1R4 w|character 1 is not ASCII: write a letter, a digit, / or a space for '\\xe2\\x99\\x93'|k5/6/2K3/6/6/1R4 w";
    expect_table(&rt, boards);
}

#[test]
fn explains_options_of_other_commands(rt: HostRuntime) {
    let words =
        "minimate,solve,--tries,--limit,3,k5/6/2K3/6/6/1R4 w|--tries is an option of solution: leave out --tries|minimate,solve,--limit,3,k5/6/2K3/6/6/1R4 w
minimate,keys,--limit,3,--echo,k5/6/2K3/6/6/1R4 w|--echo is an option of batch: leave out --echo|minimate,keys,--limit,3,k5/6/2K3/6/6/1R4 w
minimate,solve,--limit,3,--skip,7,k5/6/2K3/6/6/1R4 w|--skip is an option of batch: leave out --skip 7|minimate,solve,--limit,3,k5/6/2K3/6/6/1R4 w
minimate,solve,--limit,3,--skip=7,k5/6/2K3/6/6/1R4 w|--skip is an option of batch: leave out --skip=7|minimate,solve,--limit,3,k5/6/2K3/6/6/1R4 w
minimate,moves,--json,k5/6/2K3/6/6/1R4 w|--json is an option of batch and solution: leave out --json|minimate,moves,k5/6/2K3/6/6/1R4 w
minimate,solve,--svg,--limit,3,k5/6/2K3/6/6/1R4 w|--svg is an option of solution and show: leave out --svg|minimate,solve,--limit,3,k5/6/2K3/6/6/1R4 w
minimate,batch,--limit,3,--tries|--tries is an option of solution: leave out --tries|minimate,batch,--limit,3";
    expect_hints(&rt, words);
    let dashes =
        "minimate,solve,-limit,3,k5/6/2K3/6/6/1R4 w|write --limit in place of -limit|minimate,solve,--limit,3,k5/6/2K3/6/6/1R4 w
minimate,keys,-mate=2,k5/6/2K3/6/6/1R4 w|write --mate in place of -mate|minimate,keys,--mate=2,k5/6/2K3/6/6/1R4 w";
    expect_hints(&rt, dashes);
}

// Of a command that nobody knows no advice is given that it makes no search.
#[test]
fn tells_nothing_of_an_unknown_command(rt: HostRuntime) {
    let told = explained(&rt, "minimate,sovle,--mate,2", "k5/6/2K3/6/6/1R4 w");
    let advised = explained(&rt, "minimate,show,--mate,2", "k5/6/2K3/6/6/1R4 w");
    assert!(rt; !told.as_slice().ends_with(b"leave out --mate 2\n"));
    assert!(rt; advised.as_slice().ends_with(b"leave out --mate 2\n"));
}

// What can't be played is told by the square that the move leaves, and a lawful move from there.
#[test]
fn explains_moves(rt: HostRuntime) {
    for (fen, name, sentence) in [
        (
            "k5/6/2K3/6/6/1R4 w",
            "c4",
            "a move is two squares of the board, and what a pawn becomes, as c4c5 or c5c6q",
        ),
        (
            "k4/5/2K2/5/1R3 w",
            "c3c6",
            "a move is two squares of the board, and what a pawn becomes, as c4c5 or c5c6q",
        ),
        (
            "k5/6/2K3/6/6/1R4 w",
            "c4c5k",
            "a move is two squares of the board, and what a pawn becomes, as c4c5 or c5c6q",
        ),
        ("k5/6/2K3/6/6/1R4 w", "d4d5", "there is no unit on d4"),
        ("k5/6/2K3/6/6/1R4 w", "Kc5!", "write the move as c4c5"),
        ("k4/2P2/1K3/5/5 w", "c5=N", "write the move as c4c5n"),
        ("k4/2P2/1K3/5/5 w", "c5=Q#", "write the move as c4c5q"),
        ("1k4/5R/6/6/6/2R2K w", "Rcc5", "write the move as c1c5"),
        ("6/1k3n/4R1/5R/6/K5 w", "Rxf5+", "write the move as f3f5"),
        (
            "k5/6/2K3/6/6/1R4 w",
            "Qc5",
            "a move is two squares of the board, and what a pawn becomes, as c4c5 or c5c6q",
        ),
        (
            "k5/6/2K3/6/6/1R4 w",
            "a6a5",
            "White is to move, and the unit on a6 is Black's",
        ),
        (
            "k5/2K3/6/6/6/1R4 b",
            "a6b6",
            "that isn't lawful: write one of a6a5",
        ),
        (
            "k5/6/1PK3/1P4/6/6 w",
            "b3b4",
            "the unit on b3 has no lawful move",
        ),
        (
            "k4/2P2/1K3/5/5 w",
            "c4c5",
            "that isn't lawful: write one of c4c5q c4c5r c4c5b c4c5n",
        ),
    ] {
        let words = format!(in rt.alloc(); "minimate,after,{fen}").expect(&rt, "memory");
        let told = tell(&rt, words.as_str(), name);
        let wanted = format!(in rt.alloc(); "error: '{name}': {sentence}\n").expect(&rt, "memory");
        expect(&rt, &told, 1, "refused: Move\n", wanted.as_str());
    }
}

// Of a tree that doesn't win: the moves to a wrong one, and what is wrong there. The reasons are worked out by hand.
#[test]
fn tells_why_a_tree_does_not_win(rt: HostRuntime) {
    let (first, third) = ("k5/6/2K3/6/6/1R4 w", "1k4/5R/6/6/6/2R2K w");
    for (words, fen, tree, why) in [
        (
            "minimate,check",
            first,
            "c4c5q{a6a5:b1a1#}",
            "c4c5q: that move isn't lawful",
        ),
        (
            "minimate,check",
            first,
            "c4c5#",
            "c4c5: it ends with #, and there is no mate",
        ),
        (
            "minimate,check",
            first,
            "b1b5=",
            "b1b5: it ends with =, and the goal is mate: add --goal stale",
        ),
        (
            "minimate,check,--goal,stale",
            first,
            "c4c5=",
            "c4c5: it ends with =, and there is no stalemate",
        ),
        (
            "minimate,check",
            first,
            "c4c5{a6a5:b1b2#}",
            "c4c5 a6a5 b1b2: it ends with #, and there is no mate",
        ),
        (
            "minimate,check",
            first,
            "b1b5{a6a5:b5a5#}",
            "b1b5: the reply a6a5 isn't lawful",
        ),
        (
            "minimate,check",
            third,
            "c1e1{b6a6:e1e6#}",
            "c1e1: the reply b6c6 is left out",
        ),
        (
            "minimate,check",
            first,
            "c4c5{a6a5:b1a1#,a6a5:b1a1#}",
            "c4c5: the reply a6a5 isn't at its place: write each once, in the order of `moves`",
        ),
    ] {
        let told = tell_of(&rt, Ok(owned(&rt, words, fen)), tree.as_bytes());
        let wanted = format!(in rt.alloc(); "the tree is wrong at {why}\n").expect(&rt, "memory");
        expect(&rt, &told, 0, "no\n", wanted.as_str());
    }
}

// The king has one move out of that check, behind which there is no mate at once; of a move that wins nothing is told.
#[test]
fn tells_what_refutes_a_first_move(rt: HostRuntime) {
    let fen = "k5/6/1K4/6/6/5R w";
    let refuted = tell(&rt, "minimate,tree,--limit,3,--first,f1a1", fen);
    expect(
        &rt,
        &refuted,
        0,
        "none within 3\n",
        "f1a1 is refuted by a6b6\n",
    );
    let wins = tell(&rt, "minimate,tree,--limit,1,--first,f1f6", fen);
    expect(&rt, &wins, 0, "f1f6#\n", "");
}

// A search for a side that has no move says why it has none, beside its answer, and so does the list of its moves; another command says nothing.
#[test]
fn tells_of_a_side_without_moves(rt: HostRuntime) {
    let mated = tell(&rt, "minimate,solve,--limit,3", "k4R/6/1K4/6/6/6 b");
    expect(
        &rt,
        &mated,
        0,
        "none within 3\n",
        "Black is mated already\n",
    );
    let stalemated = tell(&rt, "minimate,keys,--mate,1", "k5/2Q3/6/6/6/5K b");
    expect(
        &rt,
        &stalemated,
        0,
        "none within 1\n",
        "Black is stalemated already\n",
    );
    let tree = tell(&rt, "minimate,tree,--limit,2", "K4r/6/1k4/6/6/6 w");
    expect(&rt, &tree, 0, "none within 2\n", "White is mated already\n");
    let solution = tell_composer(&rt, "minimate,solution,--limit,3", "K4r/6/1k4/6/6/6 w");
    expect(
        &rt,
        &solution,
        0,
        "none within 3\n",
        "White is mated already\n",
    );
    let certificate = tell_composer(&rt, "minimate,certify,--limit,1", "k5/2Q3/6/6/6/5K b");
    expect(
        &rt,
        &certificate,
        0,
        "none within 1\n\n",
        "Black is stalemated already\n",
    );
    expect(
        &rt,
        &tell(&rt, "minimate,moves", "k4R/6/1K4/6/6/6 b"),
        0,
        "",
        "Black is mated already\n",
    );
    let drawing =
        " 6  k . . . . R\n 5  . . . . . .\n 4  . K . . . .\n 3  . . . . . .\n 2  . . . . . .\n 1  . . . . . .\n    a b c d e f      Black to move\n";
    let drawn = tell_composer(&rt, "minimate,show", "k4R/6/1K4/6/6/6 b");
    expect(&rt, &drawn, 0, drawing, "");
    let refused = tell(
        &rt,
        "minimate,solve,--limit,3,--workers,0",
        "k4R/6/1K4/6/6/6 b",
    );
    expect(
        &rt,
        &refused,
        1,
        "refused: Workers\n",
        "error: --workers is 1 to 16\n",
    );
}

// A program that is asked for what another answers says so.
#[test]
fn names_another_programs_command(rt: HostRuntime) {
    let here = tell(&rt, "minimate,verify", FEN);
    let said = "error: verify is another program's: write minimate verify\n";
    expect(&rt, &here, 2, "", said);
    let drawing = tell(&rt, "minimate,show", FEN);
    let said = "error: show is another program's: write minimate show\n";
    expect(&rt, &drawing, 2, "", said);
    let solution = tell(&rt, "minimate,solution,--limit,3", FEN);
    let said = "error: solution is another program's: write minimate solution\n";
    expect(&rt, &solution, 2, "", said);
    let composer = tell_composer(&rt, "minimate,solve,--limit,1", FEN);
    let said = "error: solve is another program's: write minimate solve\n";
    expect(&rt, &composer, 2, "", said);
    let checker = tell_checker(&rt, "minimate,certify,--limit,1", FEN, b"");
    let said = "error: certify is another program's: write minimate certify\n";
    expect(&rt, &checker, 2, "", said);
}

// What is wrong with words is told by each program alike.
#[test]
fn tells_of_words_by_each_program(rt: HostRuntime) {
    let both = "error: --limit and --mate say the same: leave one of them out\n";
    let words = "minimate,certify,--limit,3,--mate,2";
    expect(&rt, &tell_composer(&rt, words, FEN), 2, "", both);
    let goal = "error: --goal is mate or stale: write one of these\n";
    let words = "minimate,verify,--goal,x";
    expect(&rt, &tell_checker(&rt, words, FEN, b""), 2, "", goal);
    let proved = tell_checker(&rt, "minimate,verify", FEN, b"none within 2\n\n");
    expect(&rt, &proved, 0, "none within 2\n", "");
}
