//! Solves, keys and trees by a solver that lives, each by the root's moves in order.
ghost use Rattle.std.specs.Prelude.{◌≡◌, ◌≤◌, IfErr, IfOk, MatchOption};
ghost use Rattle.problems.specs.Answer.{IsAnswer, IsFewest};
ghost use Rattle.searcher.specs.declared.halt.Halt.TheVariants.{Stopped};
ghost use Rattle.problems.specs.Keys.{ListsKeys};
ghost use Rattle.searcher.specs.Best.{IsBest};
ghost use Rattle.solver.specs.Stopping.{IsStopped, Hears};

use crate::solver::Solver;
use board::Position;
use moves::Goal;
use problems::{Answer, Key, Problem, Root};
use searcher::{Halt, Searcher, keys_of, solve_by, tree_by};
use std::alloc::Global;
use wintree::Tree;

impl Solver {
    /// The fewest plies in which the side to move forces the goal, with the least first move, or that there are none up to the limit;
    /// or `None` where it was told to stop.
    pub fn solve(&mut self, problem: &Problem) -> Option<Answer>
        ensures hears { Hears self.old self.new }
        ensures answer { MatchOption result (IsStopped self.new)
            (IsAnswer problem.now.goal problem.now.position problem.now.limit) }
    {
        let mut searcher = Searcher {
            slots: &self.slots,
            seat: &mut self.seat,
            scout: &mut self.scout,
        };
        solve_by(&mut searcher, &Root::of(problem))
    }

    /// Each first move that forces the goal within the limit, in order, with the fewest plies that it takes; or that it was told to stop,
    /// or that memory is wanting.
    pub fn keys(&mut self, alloc: Global, problem: &Problem) -> Result<Vec<Key>, Halt>
        ensures hears { Hears self.old self.new }
        ensures keys { IfOk result
            (λ keys. ListsKeys problem.now.goal problem.now.position problem.now.limit keys.items) }
        ensures halt { IfErr result (λ halt. halt ≡ Stopped → IsStopped self.new) }
    {
        let mut searcher = Searcher {
            slots: &self.slots,
            seat: &mut self.seat,
            scout: &mut self.scout,
        };
        keys_of(alloc, &mut searcher, &Root::of(problem))
    }

    /// The tree of a position whose fewest plies to the goal these are: at each turn of the attacker it takes the fewest plies, and then
    /// the least move; or that it was told to stop, or that memory is wanting.
    pub fn tree(
        &mut self,
        alloc: Global,
        position: &Position,
        goal: Goal,
        plies: u8,
    ) -> Result<Tree, Halt>
        requires plies { plies ≤ 63 }
        requires fewest { IsFewest goal position.now plies }
        ensures hears { Hears self.old self.new }
        ensures best { IfOk result (IsBest goal position.now) }
        ensures halt { IfErr result (λ halt. halt ≡ Stopped → IsStopped self.new) }
    {
        let mut searcher = Searcher {
            slots: &self.slots,
            seat: &mut self.seat,
            scout: &mut self.scout,
        };
        tree_by(alloc, &mut searcher, position, goal, plies)
    }
}
