//! The texts of the documents' examples.
use moves::{Move, lawful, read_sound};
use progress::{Sign, WINS, Work, drawn, first_named, left_behind};
use std::process::Abort;

/// The last of the position's moves, c4d5.
fn last_move<R: Abort>(rt: &R) -> Move {
    let position = read_sound(b"k5/6/2K3/6/6/1R4 w").expect(rt, "sound");
    let moves = lawful(&position);
    *moves.as_slice().last().expect(rt, "a move")
}

#[test]
fn draws_over_the_line(rt: HostRuntime) {
    let sign = Sign {
        seconds: 12,
        line: None,
        none: Some(9),
        round: 11,
        work: Work::Open {
            number: 14,
            jobs: 31,
            first: last_move(&rt),
        },
        advises: false,
    };
    let text = drawn(rt.alloc(), &sign).expect(&rt, "memory");
    assert_eq!(rt;
        text.as_str(),
        "\r\u{1b}[?7l12 s, none within 9, round 11: move 14 of 31, c4d5\u{1b}[K\u{1b}[?7h"
    );
}

#[test]
fn names_the_line_and_the_move_that_wins(rt: HostRuntime) {
    let sign = Sign {
        seconds: 12,
        line: Some(7),
        none: None,
        round: 1,
        work: Work::Wins {
            first: last_move(&rt),
        },
        advises: true,
    };
    let text = drawn(rt.alloc(), &sign).expect(&rt, "memory");
    assert_eq!(rt;
        text.as_str(),
        "\r\u{1b}[?7l12 s, line 7, round 1: c4d5 wins; --slots 1048573 may be faster\u{1b}[K\u{1b}[?7h"
    );
}

#[test]
fn leaves_what_was_proved(rt: HostRuntime) {
    let text = left_behind(rt.alloc(), None, 9).expect(&rt, "memory");
    assert_eq!(rt; text.as_str(), "\rnone within 9\u{1b}[K\n");
    let text = left_behind(rt.alloc(), Some(18446744073709551615), 61).expect(&rt, "memory");
    assert_eq!(rt;
        text.as_str(),
        "\rline 18446744073709551615, none within 61\u{1b}[K\n"
    );
}

#[test]
fn names_the_first_job(rt: HostRuntime) {
    assert_eq!(rt; first_named(&[3, 3, 1, 3, 0], 3), Some(2));
    assert_eq!(rt; first_named(&[3, WINS, 1], 3), Some(1));
    assert_eq!(rt; first_named(&[3, 5], 3), None);
    assert_eq!(rt; first_named(&[], 3), None);
}
