//! A tree out of its text.

ghost use Rattle.std.specs.Prelude.{◌≡◌, ◌+◌, ◌<◌, ◌≤◌, length, slice_get, Some, IfOk, IfErr, IsOkUnless};
ghost use Rattle.wintree.specs.Plan.{Plan, depth};
ghost use Rattle.wintree.specs.Text.{TreeText};
ghost use Rattle.wintree.specs.Offset.{IsFaultOf};
ghost use Rattle.wintree.specs.Ahead.{Stands, IsTreeAhead, AreRepliesAhead, ReadsTree, ReadsReplies, ReadsMove, ReadsCell, NoCell, NoMove, promotion_of};

use crate::fault::TreeFault;
use crate::tree::{DEEPEST, End, Tree};
use board::Kind;
use moves::{Move, Square};
use std::alloc::Allocator;

/// The tree that the bytes are the text of.
#[tactic(auto, using(crate::proofs::Depths::accepted))]
pub fn read_tree<A: Allocator + Copy>(alloc: A, bytes: &[u8]) -> Result<Tree<A>, TreeFault>
    // What is read is the text of the tree.
    ensures read { IfOk result (λ tree. TreeText bytes.now tree) }

    // Which fault it is.
    ensures fault { IfErr result (IsFaultOf bytes.now) }

    // The text of a tree within the limit is refused for want of memory alone.
    ensures accepts { (plan : Plan) → depth plan ≤ 32 → TreeText bytes.now plan → IsOkUnless result TreeFault.NoMemory }
{
    whole_tree(alloc, bytes)
}

// The tree that takes all the bytes.
#[tactic(auto, using(crate::proofs::Reader::no_more))]
fn whole_tree<A: Allocator + Copy>(alloc: A, bytes: &[u8]) -> Result<Tree<A>, TreeFault>
    ensures read { IfOk result (λ tree. TreeText bytes.now tree) }
    ensures fault { IfErr result (IsFaultOf bytes.now) }
{
    let (tree, end) = tree_at(alloc, bytes, 0, 0)?;
    if end < bytes.len() {
        return Err(TreeFault::Grammar(end));
    }
    Ok(tree)
}

// The tree at the offset, inside so many open braces, and the offset of its end.
#[cycle(reader)]
fn tree_at<A: Allocator + Copy>(
    alloc: A,
    bytes: &[u8],
    at: usize,
    inside: u8,
) -> Result<(Tree<A>, usize), TreeFault>
    requires room { inside < 32 }
    requires stands { Stands bytes.now at inside (IsTreeAhead inside) }
    ensures read { IfOk result (λ found. ReadsTree bytes.now at inside found.0 found.1) }
    ensures fault { IfErr result (IsFaultOf bytes.now) }
{
    let (attack, next) = move_at(bytes, at)?;
    match byte_at(bytes, next) {
        Some(b'#') => Ok((Tree::end(alloc, attack, End::Mate)?, next + 1)),
        Some(b'=') => Ok((Tree::end(alloc, attack, End::Stale)?, next + 1)),
        Some(b'{') => {
            if inside + 1 == DEEPEST {
                return Err(TreeFault::Deep);
            }
            let (replies, end) = replies_at(alloc, bytes, next + 1, inside + 1)?;
            Ok((Tree::node(alloc, attack, replies)?, end))
        }
        _ => Err(TreeFault::Grammar(next)),
    }
}

// The replies at the offset, with their trees, inside so many open braces, and the offset after the last brace's end.
#[cycle(reader)]
fn replies_at<A: Allocator + Copy>(
    alloc: A,
    bytes: &[u8],
    at: usize,
    inside: u8,
) -> Result<(Vec<(Move, Tree<A>), A>, usize), TreeFault>
    requires room { (0 < inside) × (inside < 32) }
    requires stands { Stands bytes.now at inside (AreRepliesAhead inside) }
    ensures read { IfOk result (λ found. ReadsReplies bytes.now at inside found.0.items found.1) }
    ensures fault { IfErr result (IsFaultOf bytes.now) }
{
    let mut replies = Vec::new(alloc);
    let mut start = at;
    loop {
        let (reply, next) = move_at(bytes, start)?;
        let Some(b':') = byte_at(bytes, next) else {
            return Err(TreeFault::Grammar(next));
        };
        let (below, end) = tree_at(alloc, bytes, next + 1, inside)?;
        replies.push((reply, below))?;
        match byte_at(bytes, end) {
            Some(b'}') => return Ok((replies, end + 1)),
            Some(b',') => start = end + 1,
            _ => return Err(TreeFault::Grammar(end)),
        }
    }
}

// The move at the offset, and the offset of its end.
#[tactic(auto, using(crate::proofs::MoveReads::leaves_move))]
fn move_at(bytes: &[u8], at: usize) -> Result<(Move, usize), TreeFault>
    requires { at ≤ length bytes.now }
    ensures read { IfOk result (λ found. ReadsMove bytes.now at found.0 found.1) }
    ensures fault { IfErr result (NoMove bytes.now at) }
{
    let from = Square {
        file: cell_at(bytes, at, b'a')?,
        rank: cell_at(bytes, at + 1, b'1')?,
    };
    let to = Square {
        file: cell_at(bytes, at + 2, b'a')?,
        rank: cell_at(bytes, at + 3, b'1')?,
    };
    let promotion = promotion_at(bytes, at + 4);
    let next = if promotion.is_some() { at + 5 } else { at + 4 };
    Ok((
        Move {
            from,
            to,
            promotion,
        },
        next,
    ))
}

// The file or rank at the offset, where `first` stands for the first one.
fn cell_at(bytes: &[u8], at: usize, first: u8) -> Result<u8, TreeFault>
    requires { first < 128 }
    ensures read { IfOk result (ReadsCell bytes.now at first) }
    ensures fault { IfErr result (NoCell bytes.now at first) }
{
    match byte_at(bytes, at) {
        Some(byte) if first <= byte && byte <= first + 5 => Ok(byte - first),
        _ => Err(TreeFault::Grammar(at)),
    }
}

// The kind whose letter stands at the offset.
fn promotion_at(bytes: &[u8], at: usize) -> Option<Kind>
    ensures { result ≡ promotion_of (slice_get bytes.now at) }
{
    match byte_at(bytes, at) {
        Some(b'q') => Some(Kind::Queen),
        Some(b'r') => Some(Kind::Rook),
        Some(b'b') => Some(Kind::Bishop),
        Some(b'n') => Some(Kind::Knight),
        _ => None,
    }
}

// The byte at the offset, if there is one.
fn byte_at(bytes: &[u8], at: usize) -> Option<u8>
    ensures { result ≡ slice_get bytes.now at }
{
    bytes.get(at).copied()
}
