//! How many positions decisions expand.
use crate::tables::{Table, position};
use moves::Goal;

/// A position where White attacks, the plies, the slots of the table, and how many positions are expanded: by a decision of two
/// plies less over an empty table, and by that of these plies after it.
type Case = (&'static str, u8, usize, u64, u64);

// The numbers are a record, taken from the program itself: nothing outside knows them. Each answer is right whatever they are, so
// they alone hold what saves work: the order of moves, what the table gives back, the far slots, the rounds inside. With one seat
// they are the same on each machine. Whoever changes the search on purpose writes them anew.
const CASES: [Case; 10] = [
    ("2b2/4k/PRP2/5/Q3K w", 7, 64, 476, 101),
    ("1k4/5P/6/PpP1KP/1R4/1N4 w", 7, 1024, 853, 252),
    ("rQbq1/N3k/B2pp/4P/1R2K w", 7, 4096, 640, 1478),
    ("5/3k1/2R2/1KP1P/5 w", 9, 1024, 2052, 4154),
    ("k3N/1p1bP/pP1P1/P4/R1bK1 w", 9, 256, 1061, 783),
    ("4B/kB3/2K2/B4/B4 w", 9, 64, 4627, 6098),
    ("5/1P1k1/4p/3Pp/R3K w", 9, 4096, 973, 2098),
    ("k1NN1/4K/3R1/q4/5 w", 11, 4096, 5800, 21659),
    ("6/R5/3K1r/2QR1P/2p1k1/6 w", 9, 16384, 432, 5714),
    ("1rb1k/pp2p/2pq1/PPP2/1RBQK w", 11, 65536, 2729, 20914),
];

#[test]
fn expands_no_more_positions_than_before(rt: HostRuntime) {
    for (text, plies, slots, fewer, these) in CASES {
        let mut table = Table::make(&rt, rt.alloc(), slots);
        let root = position(&rt, text);
        let first = table.decide(&root, Goal::Mate, plies - 2);
        let second = table.decide(&root, Goal::Mate, plies);
        assert_eq!(rt; (first.expanded, second.expanded), (fewer, these), "{text}");
    }
}
