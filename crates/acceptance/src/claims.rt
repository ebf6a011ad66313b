//! Certificates worked out by hand. Of two lone kings neither mates, so any reply escapes.
use board::Kind;
use moves::{Board, Goal, Move, Square, read_sound};
use problems::Answer;
use std::alloc::Global;
use std::process::Abort;
use verifying::{Fault, verify};

fn board(rt: &impl Abort, text: &str) -> Board {
    Board::of(&read_sound(text.as_bytes()).expect(rt, "a position"))
}

// White moves to e1, e2 and f2, and Black's king has three replies to each: a, b and c.
const KINGS: &str = "k5/6/6/6/6/5K w";

// White's king comes to c5, the move p; Black's has a5 alone, and the rook mates on a1. The moves before it are a to o; i, the rook's
// to b5, stalemates, and each other has a first reply that escapes.
const ROOK: &str = "k5/6/2K3/6/6/1R4 w";

const MATE: &str = "mate 3 c4c5\np.\naaaaaaaa-aaaaaa\n\n";

const IN_THREE: Answer = Answer::Mate {
    plies: 3,
    first: Move {
        from: Square { file: 2, rank: 3 },
        to: Square { file: 2, rank: 4 },
        promotion: None,
    },
};

const STALEMATE: Answer = Answer::Mate {
    plies: 1,
    first: Move {
        from: Square { file: 1, rank: 0 },
        to: Square { file: 1, rank: 4 },
        promotion: None,
    },
};

// The pawn mates as a queen, its move f: a to e are the king's.
const PAWN: &str = "k4/2P2/1K3/5/5 w";

const PROMOTION: Answer = Answer::Mate {
    plies: 1,
    first: Move {
        from: Square { file: 2, rank: 3 },
        to: Square { file: 2, rank: 4 },
        promotion: Some(Kind::Queen),
    },
};

// The rook mates at once.
const AT_ONCE: &str = "k5/6/1K4/6/6/5R w";

// White's king on a1 is stalemated, so that no line of a claim has a word.
const STUCK: &str = "k5/6/6/1q4/6/K5 w";

// White's king on d1 has one move, to c1, and Black then 54: the last is Zd.
const QUEENS: &str = "5q/qqk3/6/6/5q/3K2 w";

/// A position, a goal, a certificate, and within how many plies it shows that nothing is forced.
const NOTHING_FORCED: [(&str, Goal, &str, u8); 20] = [
    (KINGS, Goal::Mate, "none within 1\n\n", 1),
    (KINGS, Goal::Mate, "none within 2\n\n", 2),
    (KINGS, Goal::Mate, "none within 3\naaa\n", 3),
    (KINGS, Goal::Mate, "none within 4\nacb\n", 4),
    (KINGS, Goal::Mate, "none within 5\naaa\n", 5),
    // the three positions behind the replies are claims too: a king on e1 has five moves, on e2 eight, on f2 five
    (
        KINGS,
        Goal::Mate,
        "none within 7\naaa\naaaaa\naaaaaaaa\naaaaa\n",
        7,
    ),
    (
        KINGS,
        Goal::MateOrStale,
        "none within 7\naaa\naaaaa\naaaaaaaa\naaaaa\n",
        7,
    ),
    (ROOK, Goal::Mate, "none within 2\n\n", 2),
    // all limits
    (STUCK, Goal::Mate, "none within 1\n\n", 1),
    (STUCK, Goal::Mate, "none within 9\n\n", 9),
    (STUCK, Goal::Mate, "none within 10\n\n", 10),
    (STUCK, Goal::Mate, "none within 31\n\n", 31),
    (STUCK, Goal::Mate, "none within 32\n\n", 32),
    (STUCK, Goal::Mate, "none within 33\n\n", 33),
    (STUCK, Goal::Mate, "none within 63\n\n", 63),
    // places behind a Z
    (QUEENS, Goal::Mate, "none within 3\nz\n", 3),
    (QUEENS, Goal::Mate, "none within 3\nA\n", 3),
    (QUEENS, Goal::Mate, "none within 3\nX\n", 3),
    (QUEENS, Goal::Mate, "none within 3\nZa\n", 3),
    (QUEENS, Goal::Mate, "none within 3\nZd\n", 3),
];

#[test]
fn takes_what_shows_that_nothing_is_forced(rt: HostRuntime) {
    for (position, goal, text, limit) in &NOTHING_FORCED {
        let said = verify(rt.alloc(), &board(&rt, position), *goal, text.as_bytes());
        assert!(rt; said == Ok(Answer::NoneWithin(*limit)), "{position} {text}");
    }
}

/// A position, a goal, a certificate, and the answer that it shows.
const FORCED: [(&str, Goal, &str, Answer); 3] = [
    (ROOK, Goal::Mate, MATE, IN_THREE),
    (ROOK, Goal::MateOrStale, "goal 1 b1b5\ni\n\n", STALEMATE),
    (PAWN, Goal::Mate, "mate 1 c4c5q\nf\n\n", PROMOTION),
];

#[test]
fn takes_certificates(rt: HostRuntime) {
    for (position, goal, text, answer) in &FORCED {
        let said = verify(rt.alloc(), &board(&rt, position), *goal, text.as_bytes());
        assert!(rt; said == Ok(*answer), "{position} {text}");
    }
}

/// Texts whose first line is no answer of the rook's position.
const FIRST_LINES: [&str; 25] = [
    "",
    "\n",
    "none within 3",
    "none within 0\n\n",
    "none within 03\n\n",
    "none within 64\n\n",
    "none within 100\n\n",
    "none within +3\n\n",
    "none within  3\n\n",
    "none within 3 \n\n",
    "none within 3\r\n\n",
    "None within 3\n\n",
    "mate 2 c4c5\np.\n",
    "mate 0 c4c5\np.\n",
    "mate 65 c4c5\np.\n",
    "mate 3  c4c5\np.\n",
    "mate 3 c4c7\np.\n",
    "mate 3 c4g5\np.\n",
    "mate 3 c4c\np.\n",
    "mate 3 c4c5k\np.\n",
    "mate 3 c4c5qq\np.\n",
    "mate 3\np.\n",
    "goal 3 c4c5\np.\n",
    "refused: NoMemory\n",
    "\u{fffd}\n",
];

#[test]
fn refuses_first_lines(rt: HostRuntime) {
    let rook = board(&rt, ROOK);
    for text in &FIRST_LINES {
        let said = verify(rt.alloc(), &rook, Goal::Mate, text.as_bytes());
        assert!(rt; said == Err(Fault::Answer), "{text}");
    }
    let other_goal = verify(rt.alloc(), &rook, Goal::MateOrStale, MATE.as_bytes());
    assert!(rt; other_goal == Err(Fault::Answer));
    let bytes = verify(rt.alloc(), &rook, Goal::Mate, b"mate 3 c4c5\xFF\np.\n");
    assert!(rt; bytes == Err(Fault::Answer));
}

/// A position, a text, and the line of its first claim that is refused.
type Refused = (&'static str, &'static str, u64);

fn expect_claims(rt: &impl Abort, alloc: Global, cases: &[Refused]) {
    for (position, text, line) in cases {
        let said = verify(alloc, &board(rt, position), Goal::Mate, text.as_bytes());
        assert!(rt; said == Err(Fault::Claim(*line)), "{position} {text}");
    }
}

// The line behind the answer, where the claim of a mate or the first one of none stands.
const SECOND: u64 = 2;

const YES_CLAIMS: [Refused; 19] = [
    (ROOK, "mate 1 c4c5\np.\naaaaaaaa-aaaaaa\n\n", 2),
    (ROOK, "mate 3 c4c6\np.\naaaaaaaa-aaaaaa\n\n", 2),
    (ROOK, "mate 3 c4c5q\np.\naaaaaaaa-aaaaaa\n\n", 2),
    (ROOK, "mate 1 b1b5\ni\n\n", 2),
    (ROOK, "mate 3 c4c5\n", SECOND),
    (ROOK, "mate 3 c4c5\np.", 2),
    (ROOK, "mate 3 c4c5\n\n", 2),
    (ROOK, "mate 3 c4c5\np\n", 2),
    (ROOK, "mate 3 c4c5\np..\n", 2),
    (ROOK, "mate 3 c4c5\np=\n", 2),
    (ROOK, "mate 3 c4c5\np-\n", 2),
    (ROOK, "mate 3 c4c5\npb\n", 2),
    (ROOK, "mate 3 c4c5\n.\n", 2),
    (ROOK, "mate 3 c4c5\nZp.\n", 2),
    (ROOK, "mate 3 c4c5\np.Z\n", 2),
    (ROOK, "none within 3\naaaaaaaa-aaaaaaaa\n", 2),
    (ROOK, "none within 1\na\n", 2),
    // the square is on the larger board alone, so the first line is an answer's
    (PAWN, "mate 1 c4c6q\nf\n\n", 2),
    // the claim of another position
    (KINGS, MATE, 2),
];

#[test]
fn refuses_the_yes_claim(rt: HostRuntime) {
    expect_claims(&rt, rt.alloc(), &YES_CLAIMS);
}

const CLAIMS: [Refused; 44] = [
    // what shows nothing
    (KINGS, "none within 3\n", SECOND),
    (KINGS, "none within 3\naaa", 2),
    (KINGS, "none within 3\naa\n", 2),
    (KINGS, "none within 3\naaaa\n", 2),
    (KINGS, "none within 3\naad\n", 2),
    (KINGS, "none within 3\naa.\n", 2),
    (KINGS, "none within 3\naa-\n", 2),
    (KINGS, "none within 3\na a\n", 2),
    (KINGS, "none within 3\n\n", 2),
    (KINGS, "none within 3\naaa\naaa\n", 3),
    (AT_ONCE, "none within 1\n\n", 2),
    // the moves before the answer's
    (ROOK, "mate 5 c4c5\np.\naaaaaaaa-aaaaaa\n\n", 3),
    (ROOK, "mate 3 c4c5\npa\nk\naaaaaaaa-aaaaaa\n\n", 3),
    (ROOK, "mate 3 c4c5\np.\n", 3),
    (ROOK, "mate 3 c4c5\np.\n\n\n", 3),
    (ROOK, "mate 3 c4c5\np.\naaaaaaaaaaaaaaa\n\n", 3),
    (ROOK, "mate 3 c4c5\np.\n-aaaaaaa-aaaaaa\n\n", 3),
    (ROOK, "mate 3 c4c5\np.\naaaaaaaa-aaaaa\n\n", 3),
    (ROOK, "mate 3 c4c5\np.\naaaaaaaa-aaaaaaa\n\n", 3),
    (ROOK, "mate 3 c4c5\np.\nbaaaaaaa-aaaaaa\n\n", 3),
    (ROOK, "mate 3 c4c5\np.\naaaaaaaa-aaaaaa", 3),
    // lines too few, and too many
    (ROOK, "mate 3 c4c5\np.\naaaaaaaa-aaaaaa\n", 4),
    (ROOK, "mate 3 c4c5\np.\naaaaaaaa-aaaaaa\na\n", 4),
    (
        ROOK,
        "mate 3 c4c5\np.\naaaaaaaa-aaaaaa\nrefused: NoMemory\n",
        4,
    ),
    (ROOK, "mate 3 c4c5\np.\naaaaaaaa-aaaaaa\n\n\n", 5),
    (ROOK, "mate 3 c4c5\np.\naaaaaaaa-aaaaaa\n\na", 5),
    // White's king goes to c3 and back, and Black's to a5 and back: the position of the first line comes again after
    // four plies
    (ROOK, "mate 7 c4c3\nlc\np.b\n", 3),
    (ROOK, "mate 7 c4c3\nlc\np.=\n", 3),
    (ROOK, "mate 7 c4c3\nlc\np.c\n", 3),
    // the yes claims are right, and the plies not the fewest
    (
        ROOK,
        "mate 7 c4c3\nlc\np..\naaaaaaaa-aa\naaaaaaaa-aaaaaaaa\n",
        5,
    ),
    // places behind a Z that no move has
    (QUEENS, "none within 3\nZe\n", 2),
    (QUEENS, "none within 3\nZZa\n", 2),
    (QUEENS, "none within 3\nY\n", 2),
    (QUEENS, "none within 3\naZ\n", 2),
    (QUEENS, "none within 3\nZ\n", 2),
    // the rook, the move g, mates as well as the queen before it; the bishop h and the knight i don't
    (PAWN, "mate 1 c4c5r\ng\n\n", 3),
    (PAWN, "mate 1 c4c5b\nh\n\n", 2),
    (PAWN, "mate 1 c4c5n\ni\n\n", 2),
    // words too many
    (PAWN, "mate 1 c4c5q\nfa\n\n", 2),
    (PAWN, "mate 1 c4c5q\nf.\n\n", 2),
    (PAWN, "mate 1 c4c5q\nf-\n\n", 2),
    (PAWN, "mate 1 c4c5q\nf\na\n", 3),
    (PAWN, "mate 1 c4c5q\nf\n\n\n", 4),
    (PAWN, "mate 1 c4c5q\nf\n\na", 4),
];

#[test]
fn refuses_claims(rt: HostRuntime) {
    expect_claims(&rt, rt.alloc(), &CLAIMS);
}

#[test]
fn refuses_long_lines(rt: HostRuntime) {
    let kings = board(&rt, KINGS);
    let long = [b'a'; 8193];
    let mut text = Vec::new(rt.alloc());
    text.extend_from_slice(b"none within 3\n")
        .expect(&rt, "memory");
    text.extend_from_slice(&long).expect(&rt, "memory");
    let cut_off = verify(rt.alloc(), &kings, Goal::Mate, text.as_slice());
    assert!(rt; cut_off == Err(Fault::TooLong));
    text.push(b'\n').expect(&rt, "memory");
    let whole = verify(rt.alloc(), &kings, Goal::Mate, text.as_slice());
    assert!(rt; whole == Err(Fault::TooLong));
    text.truncate(14 + 8192);
    text.push(b'\n').expect(&rt, "memory");
    let words = verify(rt.alloc(), &kings, Goal::Mate, text.as_slice());
    assert!(rt; words == Err(Fault::Claim(2)));
    assert!(rt; verify(rt.alloc(), &kings, Goal::Mate, &long) == Err(Fault::TooLong));
    assert!(rt; verify(rt.alloc(), &kings, Goal::Mate, &long[..8192]) == Err(Fault::Answer));
}
