//! Mates of both games, with the answers of an independent program: a plain search that forgets nothing it has decided, whose
//! answers on 480 positions are those of Fairy-Stockfish's `go mate`. `bench/mates/cases.tsv` has these and harder ones.
use crate::solving::{answer_text, solved};
use crate::tables::position;
use moves::Goal;
use std::alloc::Global;
use std::process::Abort;
use std::sync::Wait;
use std::test::Fail;
use std::thread::Threads;

/// The goal, the limit in plies, the position, and the answer.
type Case = (Goal, u8, &'static str, &'static str);

const MATES: [Case; 38] = [
    (Goal::Mate, 5, "2qK1/3B1/1k1NQ/3b1/r1Q2 w", "5 c1c5"),
    (Goal::Mate, 5, "K4N/1R1N2/N5/5k/6/3N2 w", "5 d1c3"),
    (Goal::Mate, 5, "4r/P1pk1/B1N2/3b1/3K1 b", "5 d4d3"),
    (Goal::Mate, 5, "1n1K1/kN3/5/3N1/4q b", "5 e1d2"),
    (Goal::Mate, 5, "1k4/5q/Q5/PK4/2n1r1/1R3N w", "5 b3c4"),
    (Goal::Mate, 5, "r3k/3bp/1bPpP/R2KQ/4B w", "5 e3d4"),
    (Goal::Mate, 5, "1k3/5/1p2b/r4/4K b", "5 e3d4"),
    (Goal::Mate, 5, "2Nk1/pR3/5/2P1P/2K2 w", "5 c5d3"),
    (Goal::Mate, 5, "5k/3K2/6/6/1q4/r5 b", "5 a1d1"),
    (
        Goal::Mate,
        5,
        "r1qk2/p1pp2/p1P2r/Rn4/1Pnp2/3K1R b",
        "5 f4f1",
    ),
    (Goal::Mate, 5, "3k1/pr1pp/2Q1P/PbP2/R1BK1 w", "5 c3b4"),
    (Goal::Mate, 5, "2k3/6/1n1p1K/2q3/1R4/6 b", "5 c3e3"),
    (Goal::Mate, 5, "4N1/6/6/1Q4/2P3/K2N1k w", "5 b3d3"),
    (Goal::Mate, 5, "3K1Q/6/6/QR4/2P1k1/2n3 w", "5 a3a6"),
    (Goal::Mate, 5, "1K1bQ/2R2/2B1b/B1k2/2B2 w", "5 e5e3"),
    (Goal::Mate, 5, "2QNN1/1Q4/K2n2/6/5k/6 w", "5 b5b2"),
    (Goal::Mate, 7, "1K1k1/qR3/5/5/5 w", "7 b4a4"),
    (Goal::Mate, 7, "3qk/r3p/NPppP/P1QK1/R4 w", "7 c2c3"),
    (Goal::Mate, 7, "5/pr1qk/NpBp1/1PQK1/5 b", "7 d3c2"),
    (Goal::Mate, 7, "2b2/4k/PRP2/5/Q3K w", "7 a1b1"),
    (Goal::Mate, 7, "KR1R1/4n/1B1q1/2k2/1rn2 b", "7 c1b3"),
    (Goal::Mate, 7, "1k4/5P/6/PpP1KP/1R4/1N4 w", "7 b1d2"),
    (Goal::Mate, 7, "1q4/2Qrk1/6/6/K5/1R4 w", "7 b1e1"),
    (Goal::Mate, 7, "2r1k/2R1p/p4/1rP2/3K1 b", "7 c5c4"),
    (Goal::Mate, 7, "6/5q/6/6/1k4/4K1 b", "7 b2c1"),
    (Goal::Mate, 7, "5k/rP4/3p1p/P1p2P/5K/2R3 w", "7 b5b6q"),
    (Goal::Mate, 7, "rQbq1/N3k/B2pp/4P/1R2K w", "7 a4c5"),
    (Goal::Mate, 7, "3KRn/1N3Q/2k3/1Np3/6/2n3 w", "7 b3a1"),
    (Goal::Mate, 7, "2rk2/r5/2qp2/Rp1P2/2N2Q/1N1K2 b", "7 b3c2"),
    (Goal::Mate, 7, "2K2/B2P1/3r1/k4/1q3 b", "7 a2a3"),
    (Goal::Mate, 7, "6/N1r1r1/6/K3k1/3R2/6 b", "7 c5a5"),
    (Goal::Mate, 7, "r3Rr/6/2k2p/p1P2R/P3PN/2KnRQ w", "7 e2e3"),
    (Goal::Mate, 9, "5/3k1/2R2/1KP1P/5 w", "9 b2b3"),
    (Goal::Mate, 9, "k3N/1p1bP/pP1P1/P4/R1bK1 w", "9 a1c1"),
    (Goal::Mate, 9, "R1b1N/3qk/2N2/5/4K b", "9 d4c3"),
    (Goal::Mate, 9, "4B/kB3/2K2/B4/B4 w", "9 a1b2"),
    (Goal::Mate, 9, "5/1P1k1/4p/3Pp/R3K w", "9 e1e2"),
    (
        Goal::Mate,
        9,
        "r2kr1/1p4/p2NP1/1qpP1p/PRP1RP/3K2 b",
        "9 b3b2",
    ),
];

const LONG_MATES: [Case; 4] = [
    (Goal::Mate, 9, "6/R5/3K1r/2QR1P/2p1k1/6 w", "9 d4e5"),
    (Goal::Mate, 9, "2b1k/1p1Np/4P/pnP1Q/RN2K w", "9 b1d2"),
    (Goal::Mate, 9, "r5/1p1kPP/p1r3/P5/RP2PQ/1N1KNR w", "9 b1c3"),
    (Goal::Mate, 11, "3k1/1K1R1/1p3/2q1R/1b2n b", "11 d5d4"),
];

const NO_MATES: [Case; 7] = [
    (Goal::Mate, 9, "k1NN1/4K/3R1/q4/5 b", "none within 9"),
    (Goal::Mate, 9, "5/3Bn/k4/1RnK1/B4 w", "none within 9"),
    (Goal::Mate, 9, "rQb1k/p2pp/p4/PPqB1/R3K w", "none within 9"),
    (
        Goal::Mate,
        9,
        "1rb1k/pp2p/2pq1/PPP2/1RBQK w",
        "none within 9",
    ),
    (
        Goal::Mate,
        9,
        "4kr/p1pp1p/P1Q2n/1p4/P1P1PP/R2KnR b",
        "none within 9",
    ),
    (Goal::Mate, 9, "n1B1k/2pbp/4P/qP2K/4Q b", "none within 9"),
    (
        Goal::Mate,
        9,
        "r3kr/1pp3/P1npPp/6/R1P3/1NQ1KR b",
        "none within 9",
    ),
];

const STALEMATES: [Case; 12] = [
    (Goal::MateOrStale, 5, "2qK1/3B1/1k1NQ/3b1/r1Q2 w", "5 c1c5"),
    (Goal::MateOrStale, 5, "K4N/1R1N2/N5/5k/6/3N2 w", "1 a4c3"),
    (Goal::MateOrStale, 5, "4r/P1pk1/B1N2/3b1/3K1 b", "5 d4d3"),
    (Goal::MateOrStale, 5, "1n1K1/kN3/5/3N1/4q b", "5 e1d2"),
    (Goal::MateOrStale, 5, "1k4/5q/Q5/PK4/2n1r1/1R3N w", "5 b3c4"),
    (Goal::MateOrStale, 5, "r3k/3bp/1bPpP/R2KQ/4B w", "5 a2a5"),
    (Goal::MateOrStale, 5, "1k3/5/1p2b/r4/4K b", "1 a2d2"),
    (Goal::MateOrStale, 5, "2Nk1/pR3/5/2P1P/2K2 w", "3 c5a4"),
    (Goal::MateOrStale, 5, "5k/3K2/6/6/1q4/r5 b", "3 b2b4"),
    (
        Goal::MateOrStale,
        5,
        "r1qk2/p1pp2/p1P2r/Rn4/1Pnp2/3K1R b",
        "5 f4f1",
    ),
    (
        Goal::MateOrStale,
        5,
        "3k1/pr1pp/2Q1P/PbP2/R1BK1 w",
        "5 c3b4",
    ),
    (Goal::MateOrStale, 5, "2k3/6/1n1p1K/2q3/1R4/6 b", "5 c3e3"),
];

fn check<R: Threads + Wait + Abort + Sync>(
    rt: &R,
    alloc: Global,
    cases: &[Case],
) -> Result<(), Fail> {
    for (goal, limit, text, answer) in cases {
        let found = solved(rt, alloc, &position(rt, text), *goal, *limit, 1 << 16);
        let got = answer_text(alloc, found)?;
        assert_eq!(rt; got.as_str(), *answer, "{text}");
    }
    Ok(())
}

#[test]
fn mates(rt: HostRuntime) -> Result<(), Fail> {
    check(&rt, rt.alloc(), &MATES)
}

#[test]
fn long_mates(rt: HostRuntime) -> Result<(), Fail> {
    check(&rt, rt.alloc(), &LONG_MATES)
}

#[test]
fn no_mates(rt: HostRuntime) -> Result<(), Fail> {
    check(&rt, rt.alloc(), &NO_MATES)
}

#[test]
fn mates_or_stalemates(rt: HostRuntime) -> Result<(), Fail> {
    check(&rt, rt.alloc(), &STALEMATES)
}
