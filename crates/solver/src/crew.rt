//! The caller's own thread as a crew, for whoever can start no thread.
ghost use Rattle.std.specs.Prelude.{⊤};

use crate::alone::{keys_alone, solve_alone};
use problems::{Answer, Key, Problem, Root};
use progress::Watch;
use searcher::{Crew, Table, build_tree, tree_of_alone};
use std::alloc::{AllocError, Allocator};
use wintree::Tree;

/// The caller's own thread, which searches by one seat of a table, and where what it finds is put. It tells a watch nothing.
#[derive(Drop)]
pub struct Alone<A: Allocator> {
    pub alloc: A,
}

impl<A: Allocator + Copy> Crew<A> for Alone<A> {
    ghost ready = { λ _. ⊤ };

    fn alloc(&self) -> A {
        self.alloc
    }

    fn solve(
        &self,
        table: &mut Table<A>,
        problem: &Problem,
        _watch: Option<&Watch>,
    ) -> Result<Answer, AllocError> {
        let mut own = table.seats.take_last();
        let answer = solve_alone(&table.slots, &mut own, problem);
        table.seats.push_reserved(own);
        Ok(answer)
    }

    fn keys(
        &self,
        table: &mut Table<A>,
        problem: &Problem,
        _watch: Option<&Watch>,
    ) -> Result<Vec<Key, A>, AllocError> {
        let mut own = table.seats.take_last();
        let keys = keys_alone(self.alloc, &table.slots, &mut own, problem);
        table.seats.push_reserved(own);
        keys
    }

    fn tree(
        &self,
        table: &mut Table<A>,
        problem: &Problem,
        watch: Option<&Watch>,
    ) -> Result<Option<Tree<A>>, AllocError> {
        let Answer::Mate { plies, .. } = self.solve(table, problem, watch)? else {
            return Ok(None);
        };
        let mut own = table.seats.take_last();
        let Problem { position, goal, .. } = problem;
        let tree = build_tree(self.alloc, &table.slots, &mut own, position, *goal, plies);
        table.seats.push_reserved(own);
        match tree {
            Ok(tree) => Ok(Some(tree)),
            Err(_) => Err(AllocError),
        }
    }

    fn tree_of(
        &self,
        table: &mut Table<A>,
        root: &Root,
        job: u16,
    ) -> Result<Option<Tree<A>>, AllocError> {
        let mut own = table.seats.take_last();
        let found = tree_of_alone(self.alloc, &table.slots, &mut own, root, job);
        table.seats.push_reserved(own);
        found
    }
}
