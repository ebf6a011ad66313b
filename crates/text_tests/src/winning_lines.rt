//! Tables of texts and of the offsets at which they go wrong, and trees checked at positions.

use board::read_fen;
use moves::{Goal, Move, lawful};
use std::process::Abort;
use wintree::{End, Tree, TreeFault, check, read_tree, tree_text};

/// So many of these bytes behind the text.
fn repeat<R: Abort>(rt: &R, text: &mut Vec<u8>, bytes: &[u8], count: usize) {
    for _ in 0..count {
        text.extend_from_slice(bytes).expect(rt, "memory");
    }
}

/// The front so many times, `a1a2#`, and the back as many times.
fn nested<R: Abort + AllocGlobal>(rt: &R, count: usize) -> Vec<u8> {
    let mut text = Vec::new(rt.alloc());
    repeat(rt, &mut text, b"a1a2{a3a4:", count);
    repeat(rt, &mut text, b"a1a2#", 1);
    repeat(rt, &mut text, b"}", count);
    text
}

/// What is wrong with a text, if anything is.
fn fault_of<R: AllocGlobal>(rt: &R, text: &[u8]) -> Option<TreeFault> {
    read_tree(rt.alloc(), text).err()
}

fn read<R: Abort + AllocGlobal>(rt: &R, text: &[u8]) -> Tree {
    read_tree(rt.alloc(), text).expect(rt, "a tree")
}

/// Expects the depth of a tree, and its text.
fn expect_tree<R: Abort + AllocGlobal>(rt: &R, tree: &Tree, depth: u8, text: &[u8]) {
    assert_eq!(rt; tree.depth(), depth);
    let written = tree_text(rt.alloc(), tree).expect(rt, "memory");
    assert!(rt; written.as_slice() == text);
}

/// Expects the depth of the tree that a text is read as, and the text back.
fn expect_again<R: Abort + AllocGlobal>(rt: &R, text: &[u8], depth: u8) {
    expect_tree(rt, &read(rt, text), depth, text);
}

#[test]
fn trees_are_read_and_written_again(rt: HostRuntime) {
    for (text, depth) in [
        (b"c4c5#".as_slice(), 1),
        (b"c4c5=".as_slice(), 1),
        (b"c4c5q#".as_slice(), 1),
        (b"a1f6r#".as_slice(), 1),
        (b"f6a1b=".as_slice(), 1),
        (b"c4c5{a6a5:b1a1#}".as_slice(), 2),
        (b"c1e1{b6a6:e1e6#,b6c6:e1e6#}".as_slice(), 2),
        (b"a1b2n{c3d4r:e5f6b#,f6e5q:a1a1q{b2b2:c3c3=}}".as_slice(), 3),
    ] {
        expect_again(&rt, text, depth);
    }
}

/// A tree of three plies with so many replies to its first move, one above 0.
fn wide<R: Abort + AllocGlobal>(rt: &R, count: usize) -> Vec<u8> {
    let mut text = Vec::new(rt.alloc());
    repeat(rt, &mut text, b"c4c5{a3a4:a1a2#", 1);
    repeat(rt, &mut text, b",a3a4:a1a2#", count.saturating_sub(1));
    repeat(rt, &mut text, b"}", 1);
    text
}

// The text of the last is longer than a MiB.
#[test]
fn wide_nodes_are_read_and_written_again(rt: HostRuntime) {
    for count in [61, 500, 100_000] {
        expect_again(&rt, wide(&rt, count).as_slice(), 2);
    }
}

#[test]
fn faults_name_the_offset(rt: HostRuntime) {
    for (text, offset) in [
        (b"".as_slice(), 0),
        (b"c4c5".as_slice(), 4),
        (b"c4c5{}".as_slice(), 5),
        (b"c4c5##".as_slice(), 5),
        (b"g1a1#".as_slice(), 0),
        (b"c4c5{a6a5:b1a1#,}".as_slice(), 16),
        (b"a7a1#".as_slice(), 1),
        (b"a0a1#".as_slice(), 1),
        (b"a1g1#".as_slice(), 2),
        (b"a1a7#".as_slice(), 3),
        (b"a1a2q".as_slice(), 5),
        (b"a1a2k#".as_slice(), 4),
        (b"a1a2p#".as_slice(), 4),
        (b"a1a2qq#".as_slice(), 5),
        (b"c4c5{a6a5#".as_slice(), 9),
        (b"c4c5{a6a5:b1a1#}\n".as_slice(), 16),
        (b"c4c5 #".as_slice(), 4),
        (b"\xFF4c5#".as_slice(), 0),
    ] {
        let fault = fault_of(&rt, text);
        assert_eq!(rt; fault, Some(TreeFault::Grammar(offset)), "{offset}");
    }
}

#[test]
fn beginnings_of_a_text_end_too_soon(rt: HostRuntime) {
    let text = b"c4c5{a6a5:b1a1#}";
    for n in 0..16 {
        let fault = fault_of(&rt, &text[..n]);
        assert_eq!(rt; fault, Some(TreeFault::Grammar(n)), "{n}");
    }
    assert_eq!(rt; fault_of(&rt, text), None);
}

/// What is wrong with the first bytes of a text, if anything is.
fn fault_of_beginning<R: Abort + AllocGlobal>(
    rt: &R,
    text: &[u8],
    count: usize,
) -> Option<TreeFault> {
    fault_of(rt, text.get(..count).expect(rt, "so many bytes"))
}

#[test]
fn thirty_two_moves_may_be_nested(rt: HostRuntime) {
    let deepest = nested(&rt, 31);
    let text = deepest.as_slice();
    assert_eq!(rt; text.len(), 346);
    expect_again(&rt, text, 32);
    let fault = fault_of_beginning(&rt, text, 314);
    assert_eq!(rt; fault, Some(TreeFault::Grammar(314)));
}

#[test]
fn thirty_three_moves_are_too_deep(rt: HostRuntime) {
    let deeper = nested(&rt, 32);
    let text = deeper.as_slice();
    assert_eq!(rt; text.len(), 357);
    for count in [315, 357] {
        let fault = fault_of_beginning(&rt, text, count);
        assert_eq!(rt; fault, Some(TreeFault::Deep));
    }
}

/// What the checker says of a tree's text at a position.
fn verdict<R: Abort + AllocGlobal>(rt: &R, fen: &[u8], text: &[u8], goal: Goal) -> Option<u8> {
    let position = read_fen(fen).expect(rt, "a position");
    check(&position, &read(rt, text), goal)
}

#[test]
fn mating_trees_are_checked(rt: HostRuntime) {
    for (fen, text, plies) in [
        // The queen and the rook both mate.
        (
            b"k4/2P2/1K3/5/5 w".as_slice(),
            b"c4c5q#".as_slice(),
            Some(1),
        ),
        (
            b"k4/2P2/1K3/5/5 w".as_slice(),
            b"c4c5r#".as_slice(),
            Some(1),
        ),
        (b"k4/2P2/1K3/5/5 w".as_slice(), b"c4c5b#".as_slice(), None),
        (
            b"k5/6/1K4/6/6/5R w".as_slice(),
            b"f1f6#".as_slice(),
            Some(1),
        ),
        (
            b"5r/6/6/1k4/6/K5 b".as_slice(),
            b"f6f1#".as_slice(),
            Some(1),
        ),
        (
            b"k5/6/2K3/6/6/1R4 w".as_slice(),
            b"c4c5{a6a5:b1a1#}".as_slice(),
            Some(3),
        ),
        (b"k5/6/2K3/6/6/1R4 w".as_slice(), b"c4c5#".as_slice(), None),
        (
            b"1k4/5R/6/6/6/2R2K w".as_slice(),
            b"c1e1{b6a6:e1e6#,b6c6:e1e6#}".as_slice(),
            Some(3),
        ),
    ] {
        assert_eq!(rt; verdict(&rt, fen, text, Goal::Mate), plies);
    }
}

#[test]
fn replies_are_the_lawful_ones_in_order(rt: HostRuntime) {
    let fen = b"1k4/5R/6/6/6/2R2K w";
    for text in [
        // A reply left out, at either end.
        b"c1e1{b6a6:e1e6#}".as_slice(),
        b"c1e1{b6c6:e1e6#}".as_slice(),
        // Another order, and a reply twice.
        b"c1e1{b6c6:e1e6#,b6a6:e1e6#}".as_slice(),
        b"c1e1{b6a6:e1e6#,b6a6:e1e6#}".as_slice(),
        // A foreign reply in a lawful one's place, and one more.
        b"c1e1{b6a6:e1e6#,b6d6:e1e6#}".as_slice(),
        b"c1e1{b6a6:e1e6#,b6c6:e1e6#,b6d6:e1e6#}".as_slice(),
        // An unlawful first move, one that doesn't mate below, and a line that ends too soon.
        b"c1f2{b6a6:e1e6#,b6c6:e1e6#}".as_slice(),
        b"c1e1{b6a6:e1e6#,b6c6:e1e5#}".as_slice(),
        b"c1e1#".as_slice(),
    ] {
        assert_eq!(rt; verdict(&rt, fen, text, Goal::Mate), None);
    }
}

#[test]
fn stalemate_wins_for_one_goal_alone(rt: HostRuntime) {
    let fen = b"k5/6/2K3/6/6/1R4 w";
    for (text, goal, plies) in [
        (b"b1b5=".as_slice(), Goal::MateOrStale, Some(1)),
        (b"b1b5=".as_slice(), Goal::Mate, None),
        (b"b1b5#".as_slice(), Goal::MateOrStale, None),
        (b"b1b5#".as_slice(), Goal::Mate, None),
        (b"c4c5{a6a5:b1a1#}".as_slice(), Goal::MateOrStale, Some(3)),
        (b"c4c5{a6a5:b1a1=}".as_slice(), Goal::MateOrStale, None),
    ] {
        assert_eq!(rt; verdict(&rt, fen, text, goal), plies);
    }
}

#[test]
fn a_side_with_no_move_wins_nothing(rt: HostRuntime) {
    // The side to move is stalemated, and mated.
    for fen in [
        b"k5/2Q3/6/6/6/5K b".as_slice(),
        b"k4R/6/1K4/6/6/6 b".as_slice(),
    ] {
        for text in [b"a6a5#".as_slice(), b"a6a5=".as_slice()] {
            assert_eq!(rt; verdict(&rt, fen, text, Goal::MateOrStale), None);
        }
    }
}

/// The first lawful move at the position of a text, or the last.
fn end_move<R: Abort>(rt: &R, fen: &[u8], last: bool) -> Move {
    let moves = lawful(&read_fen(fen).expect(rt, "a position"));
    let found = if last { moves.last() } else { moves.first() };
    *found.expect(rt, "a move")
}

/// The tree of a move that ends the line.
fn ending<R: Abort + AllocGlobal>(rt: &R, attack: Move, end: End) -> Tree {
    Tree::end(rt.alloc(), attack, end).expect(rt, "memory")
}

/// The tree of a move with one reply, which another move meets.
fn answered<R: Abort + AllocGlobal>(rt: &R, attack: Move, reply: Move, meets: Move) -> Tree {
    let meeting = Tree::end(rt.alloc(), meets, End::Mate).expect(rt, "memory");
    let mut replies = Vec::new(rt.alloc());
    replies.push((reply, meeting)).expect(rt, "memory");
    Tree::node(rt.alloc(), attack, replies).expect(rt, "memory")
}

#[test]
fn trees_are_made_of_moves_and_replies(rt: HostRuntime) {
    // The defender's only move is a6a5, and the attacker's first one there is b1a1.
    let attack = end_move(&rt, b"k5/6/2K3/6/6/1R4 w", true);
    let reply = end_move(&rt, b"k5/2K3/6/6/6/1R4 b", false);
    let meets = end_move(&rt, b"6/k1K3/6/6/6/1R4 w", false);
    expect_tree(&rt, &ending(&rt, meets, End::Stale), 1, b"b1a1=");
    let node = answered(&rt, attack, reply, meets);
    expect_tree(&rt, &node, 2, b"c4d5{a6a5:b1a1#}");
}
