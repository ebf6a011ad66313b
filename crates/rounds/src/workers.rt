//! The threads of a table as a crew.
ghost use Rattle.std.specs.Thread.{IsSync};

use crate::keys::keys_over;
use crate::solving::solve_over;
use crate::task::Task;
use crate::watched::Watched;
use problems::{Answer, Key, Problem, Root};
use progress::Watch;
use searcher::{Crew, Table, build_tree_over, tree_of_alone};
use std::alloc::{AllocError, Global};
use std::sync::Wait;
use std::thread::Threads;
use wintree::Tree;

/// The threads of a table, one for each seat, of a system that starts them.
#[derive(Drop)]
pub struct Workers<'a, R> {
    pub rt: &'a R,
}

impl<R: Threads + Wait + Sync + AllocGlobal> Crew<Global> for Workers<'_, R> {
    ghost ready = { λ _. IsSync R.row };

    fn alloc(&self) -> Global {
        self.rt.alloc()
    }

    fn solve(
        &self,
        table: &mut Table,
        problem: &Problem,
        watch: Option<&Watch>,
    ) -> Result<Answer, AllocError> {
        let task = Task {
            problem,
            slots: &table.slots,
            gate: &Watched { watch },
        };
        solve_over(self.rt, self.rt.alloc(), &task, &mut table.seats)
    }

    fn keys(
        &self,
        table: &mut Table,
        problem: &Problem,
        watch: Option<&Watch>,
    ) -> Result<Vec<Key>, AllocError> {
        let task = Task {
            problem,
            slots: &table.slots,
            gate: &Watched { watch },
        };
        keys_over(self.rt, self.rt.alloc(), &task, &mut table.seats)
    }

    fn tree(
        &self,
        table: &mut Table,
        problem: &Problem,
        watch: Option<&Watch>,
    ) -> Result<Option<Tree>, AllocError> {
        let Answer::Mate { plies, .. } = self.solve(table, problem, watch)? else {
            return Ok(None);
        };
        match build_tree_over(self.rt, self.rt.alloc(), problem, plies, table) {
            Ok(tree) => Ok(Some(tree)),
            Err(_) => Err(AllocError),
        }
    }

    // by the caller's own thread
    fn tree_of(
        &self,
        table: &mut Table,
        root: &Root,
        job: u16,
    ) -> Result<Option<Tree>, AllocError> {
        let mut own = table.seats.take_last();
        let found = tree_of_alone(self.rt.alloc(), &table.slots, &mut own, root, job);
        table.seats.push_reserved(own);
        found
    }
}
