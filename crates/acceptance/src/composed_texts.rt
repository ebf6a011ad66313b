//! Texts of solutions. The moves are those that tests/answers/solutions.py works out; their names are worked out by hand.

use crate::composing::{ALL, solution_in};
use crate::tables::position;
use algebraic::{Notation, Symbols};
use moves::{Board, Goal};
use problems::Root;
use solution_text::solution_text;
use solutions::Extras;
use std::process::Abort;

/// The text of the solution of a position whose side to move forces the goal within five plies.
fn text_of<R: Abort + AllocGlobal>(
    rt: &R,
    fen: &str,
    notation: Notation,
    extras: Extras,
) -> String {
    let root = Root::on(Board::of(&position(rt, fen)), notation.goal, 5);
    let Ok(solution) = solution_in(rt, &root, extras) else {
        panic!(rt; "no solution")
    };
    solution_text(rt.alloc(), notation, &root.board, extras.sooner, &solution).expect(rt, "memory")
}

/// A problem by its name, how moves are written and for which goal, what is asked for, the position, and the solution's text.
pub(crate) type Composed = (&'static str, Notation, Extras, &'static str, &'static str);

/// Checks that the text of each problem's solution is the expected one.
pub(crate) fn expect_texts<R: Abort + AllocGlobal>(rt: &R, problems: &[Composed]) {
    for (name, notation, extras, position, expected) in problems {
        let text = text_of(rt, position, *notation, *extras);
        assert_eq!(rt; text.as_str(), *expected, "{name}");
    }
}

pub(crate) const LETTERS: Notation = Notation {
    symbols: Symbols::Letters,
    goal: Goal::Mate,
};

pub(crate) const STALE: Notation = Notation {
    symbols: Symbols::Letters,
    goal: Goal::MateOrStale,
};

const NONE: Extras = Extras {
    set_play: false,
    tries: false,
    sooner: false,
};

const FIGURINES: Notation = Notation {
    symbols: Symbols::Figurines,
    goal: Goal::Mate,
};

const COMPOSED: [Composed; 6] = [
    (
        "a threat and its variation",
        LETTERS,
        ALL,
        "k5/6/2K3/6/6/1R4 w",
        "\
mate in 2\n\
no set play\n\
tries\n\
1.Ra1+? Kb6!\n\
1.Rb2? Ka5!\n\
1.Rb3? Ka5!\n\
1.Rb4? Ka5!\n\
1.Kc3? Ka5!\n\
1.Kd3? Ka5!\n\
1.Kb4? Kb6!\n\
1.Kd4? Ka5!\n\
1.Kd5? Ka5!\n\
1.Kc5! threat 2.Ra1#\n  1...Ka5 2.Ra1#\n",
    ),
    (
        "a threat and its variation, by symbols",
        FIGURINES,
        NONE,
        "k5/6/2K3/6/6/1R4 w",
        "mate in 2\n1.\u{2654}c5! threat 2.\u{2656}a1#\n  1...\u{2654}a5 2.\u{2656}a1#\n",
    ),
    (
        "a stalemate ends the game",
        STALE,
        NONE,
        "k5/6/2K3/6/6/1R4 w",
        "goal in 1\n1.Rb5=!\n",
    ),
    (
        "zugzwangs, set play and a dual",
        LETTERS,
        ALL,
        "1k4/5R/6/6/6/2R2K w",
        "\
mate in 2, cooked by 10 keys\n\
set play\n  1...Ka6 2.Rc6#\n\
tries\n\
1.Rd1? Kc6!\n\
1.Rc6+? Kxc6!\n\
1.Ra5? Kxa5!\n\
1.Rfc5? Ka6!\n\
1.Ra1! zugzwang\n  1...Kc6 2.Ra6#\n\
1.Re1! threat 2.Re6#\n  1...Ka6 2.Re6#\n  1...Kc6 2.Re6#\n\
1.Rc2! zugzwang\n  1...Ka6 2.Rc6#\n\
1.Rc3! zugzwang\n  1...Ka6 2.Rc6#\n\
1.Rc4! zugzwang\n  1...Ka6 2.Rc6#\n\
1.Rcc5! zugzwang\n  1...Ka6 2.Rc6#, dual 2.Rf6#\n\
1.Ke1! zugzwang\n  1...Ka6 2.Rc6#\n\
1.Ke2! zugzwang\n  1...Ka6 2.Rc6#\n\
1.Kf2! zugzwang\n  1...Ka6 2.Rc6#\n\
1.Rd5! zugzwang\n  1...Ka6 2.Rc6#\n\
1.Re5! zugzwang\n  1...Ka6 2.Rc6#\n",
    ),
    (
        "promotions end the game",
        LETTERS,
        ALL,
        "k4/2P2/1K3/5/5 w",
        "\
mate in 1, cooked by 1 key\n\
no set play\n\
no tries\n\
1.c5=Q#!\n\
1.c5=R#!\n",
    ),
    (
        "lines of three moves by Black",
        LETTERS,
        ALL,
        "1k3/5/1p2b/r4/4K b",
        "\
mate in 3, cooked by 1 key\n\
no set play\n\
tries\n\
1.Ra1+? Ke2!\n\
1.Rb2? Kd1!\n\
1.Rc2? Kd1!\n\
1.b2? Ke2!\n\
1.Bc1? Kd1!\n\
1.Bd2+? Ke2!\n\
1.Bc5? Kd1!\n\
1.Ka4? Kd1!\n\
1.Kb4? Kd1!\n\
1.Ka5? Kd1!\n\
1.Kc5? Kd1!\n\
1.Bd4! threat 2.b2\n  1...Kd1 2.Bc3 Kc1 3.Ra1#\n\
1.Kc4! threat 2.Kd3\n  1...Kd1 2.Kd3 Ke1 3.Ra1#\n",
    ),
];

#[test]
fn texts_are_those_of_another_program_named_by_hand(rt: HostRuntime) {
    expect_texts(&rt, &COMPOSED);
}
