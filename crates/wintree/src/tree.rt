//! A tree of an attacker's moves, which contracts see as a plan.

ghost use Rattle.std.specs.Prelude.{◌≡◌, ◌<◌, ◌≤◌, IfOk, All, vec_len};
ghost use Rattle.rules.specs.Moves.{IsPly};
ghost use Rattle.wintree.specs.Plan.{ends, depth, deepest_in, plan_of, IsPlan, ArePlansIn};

use crate::fault::NoMemory;
use moves::Move;
use std::alloc::{Allocator, Global};
use std::marker::Model;

/// How a line ends, where the defender has no lawful move: in check, or not.
#[derive(Clone, Copy, Debug, PartialEq, Eq)]
pub enum End {
    Mate,
    Stale,
}

/// The greatest number of nested attacker's moves.
pub(crate) const DEEPEST: u8 = 32;

/// An attacker's move, and then the end of the line or a tree for each reply. At most 32 attacker's
/// moves are nested.
#[cycle(tree)]
#[derive(Drop)]
pub struct Tree<A: Allocator = Global> {
    pub(crate) attack: Move,
    pub(crate) next: Box<Next<A>, A>,
    nested: u8,
}

/// What stands after an attacker's move.
#[cycle(tree)]
#[derive(Drop)]
pub(crate) enum Next<A: Allocator> {
    End(End),
    Replies(Vec<(Move, Tree<A>), A>),
}

impl<A: Allocator> Model for Tree<A> {
    ghost use Rattle.wintree.specs.Plan.{Plan, plan_code, depth};

    ghost Value = { Plan };

    ghost coded = { plan_code };

    ghost use Rattle.wintree.specs.View.{plan_after, KeepsPlan};

    ghost view = { λ tree. plan_after tree.attack tree.next.value };

    ghost invariant = { λ tree. KeepsPlan tree.attack tree.next.value tree.nested };

    ghost size = { depth };

    ghost use Rattle.wintree.specs.Falls.{falls};

    ghost size_decreases = { λ tree kept. falls ⟦<A as Allocator>⟧ tree.attack tree.next.value };
}

impl<A: Allocator> Tree<A> {
    /// A move that ends the line.
    pub fn end(alloc: A, attack: Move, end: End) -> Result<Tree<A>, NoMemory>
        ensures { IfOk result (λ tree. tree ≡ ends attack end) }
    {
        look_at(attack);
        Ok(Tree {
            attack,
            next: Box::new(alloc, Next::End(end))?,
            nested: 1,
        })
    }

    /// A move, and a tree for each reply.
    pub fn node(
        alloc: A,
        attack: Move,
        replies: Vec<(Move, Tree<A>), A>,
    ) -> Result<Tree<A>, NoMemory>
        requires some { 0 < vec_len replies }
        requires room { All (λ reply. depth reply.1 ≤ 31) replies.items }
        ensures { IfOk result (λ tree. tree ≡ plan_of attack replies.items) }
    {
        look_at(attack);
        let nested = deepest(replies.as_slice()) + 1;
        Ok(Tree {
            attack,
            next: Box::new(alloc, Next::Replies(replies))?,
            nested,
        })
    }

    /// How many attacker's moves are nested.
    pub fn depth(&self) -> u8
        ensures nested { result ≡ depth self.now }
        ensures limit { result ≤ 32 }
        ensures moves { IsPlan self.now }
    {
        self.nested
    }
}

/// The greatest depth of the trees.
fn deepest<A: Allocator>(replies: &[(Move, Tree<A>)]) -> u8
    ensures nested { result ≡ deepest_in replies.now }
    ensures limit { result ≤ 32 }
    ensures moves { ArePlansIn replies.now }
{
    let mut deepest = 0;
    for (reply, below) in replies {
        look_at(*reply);
        deepest = below.depth().max(deepest);
    }
    deepest
}

/// Does nothing but read the move's fields, by which contracts learn what its type keeps.
pub(crate) fn look_at(m: Move)
    ensures { IsPly m }
{
    let from = m.from;
    let to = m.to;
    let _ = (from.file, to.file);
}
