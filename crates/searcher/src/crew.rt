//! Who searches for a whole answer: the threads of a table, or the caller alone.
ghost use Rattle.std.specs.Prelude.{IfOk};
ghost use Rattle.problems.specs.Answer.{IsAnswer};
ghost use Rattle.problems.specs.Keys.{ListsKeys};
ghost use Rattle.problems.specs.Roots.{IsJobOf};
ghost use Rattle.searcher.specs.Best.{IsBestWithin};
ghost use Rattle.searcher.specs.First.{IsOpenedJob};

use crate::table::Table;
use problems::{Answer, Key, Problem, Root};
use progress::Watch;
use std::alloc::{AllocError, Allocator};
use wintree::Tree;

/// Who searches, whoever it is: what is found rests on this contract alone. The watch, where there is one, is told how far a search is, and
/// drawn by others. After a want of memory the table serves the next call.
pub trait Crew<A: Allocator> {
    /// It may search where it is asked to: what threads share may be shared.
    ghost ready: { Self → Type 0 };

    /// Where what is found is put.
    fn alloc(&self) -> A;

    /// The fewest plies in which the side to move forces the goal, with the least first move, or that there are none up to the limit.
    fn solve(
        &self,
        table: &mut Table<A>,
        problem: &Problem,
        watch: Option<&Watch>,
    ) -> Result<Answer, AllocError>
        requires { ready self.now }
        ensures { IfOk result (IsAnswer problem.now.goal problem.now.position problem.now.limit) };

    /// Each first move that forces the goal within the limit, in order, with the fewest plies that it takes.
    fn keys(
        &self,
        table: &mut Table<A>,
        problem: &Problem,
        watch: Option<&Watch>,
    ) -> Result<Vec<Key, A>, AllocError>
        requires { ready self.now }
        ensures { IfOk result (λ keys. ListsKeys problem.now.goal problem.now.position problem.now.limit keys.items) };

    /// The tree that takes at each turn of the attacker the fewest plies and then the least move, where the goal is forced within the limit.
    fn tree(
        &self,
        table: &mut Table<A>,
        problem: &Problem,
        watch: Option<&Watch>,
    ) -> Result<Option<Tree<A>>, AllocError>
        requires { ready self.now }
        ensures { IfOk result (IsBestWithin problem.now.goal problem.now.position problem.now.limit) };

    /// The same tree behind the root's move of this number, where it wins within the limit.
    fn tree_of(
        &self,
        table: &mut Table<A>,
        root: &Root,
        job: u16,
    ) -> Result<Option<Tree<A>>, AllocError>
        requires ready { ready self.now }
        requires job { IsJobOf root.now job }
        ensures { IfOk result (IsOpenedJob root.now job) };
}
