//! A law of the definition. The function does nothing: its contract is the law.
ghost use Rattle.std.specs.Prelude.{◌≡◌};
ghost use Rattle.board.specs.Board.{PlainBoard};
ghost use Rattle.rules.specs.declared.goal.Goal.{Goal};
ghost use Rattle.wintree.specs.Plan.{Plan};
ghost use Rattle.searcher.specs.Best.{IsBest};

/// A position has one best tree at most.
pub fn one_best_tree()
    ensures { (goal : Goal) (b : PlainBoard) (plan other : Plan) → IsBest goal b plan → IsBest goal b other
        → plan ≡ other }
{}
